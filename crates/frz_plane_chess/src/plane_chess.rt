//! The game of a set by planes.

ghost use Rattle.std.specs.Prelude.{◌≡◌, ◌<◌, IfOk, MatchOption, None, Some, length};
ghost use Rattle.std.specs.List.{slice_index_or};
ghost use Rattle.frz_sets.specs.Sound.{IsSound};
ghost use Rattle.frz_game.specs.Games.{graph_by};
ghost use Rattle.frz_plane_chess.specs.Kept.{IsKept};
ghost use Rattle.frz_plane_chess.specs.Rows.{turn_at};
ghost use Rattle.frz_plane_chess.specs.Spots.{spots_of};

use crate::building::{all_lives, all_rows};
use crate::moving::leading;
use crate::row::Row;
use crate::winning::{greatest_lag_of, wins_out};
use frz_board::{Colour, NoMemory, Square};
use frz_configurations::{Configurations, Shares};
use frz_exits::ExitBook;
use frz_index::Set;
use frz_plane_arms::touches;
use frz_plane_game::{PlaneGame, Target};
use frz_planes::Plane;
use std::alloc::Global;

/// The restricted game of rules and a book by planes, with the steps of all configurations worked
/// out: the live pairs of each, and what else is kept of those that have positions.
#[derive(Drop)]
pub struct PlaneChess<'a, B: ExitBook> {
    pub set: &'a Set,
    pub configurations: &'a Configurations<'a>,
    pub book: &'a B,
    pub lives: Vec<Plane>,
    pub rows: Vec<Option<Row>>,
    shares: Shares<'a>,
    ghost shared: { shares.rules.now ≡ configurations.now.rules.now },
}

impl<'a, B: ExitBook> PlaneChess<'a, B> {
    /// The game of the set. The only error is want of memory.
    pub fn new(
        alloc: Global,
        set: &'a Set,
        configurations: &'a Configurations<'a>,
        book: &'a B,
    ) -> Result<PlaneChess<'a, B>, NoMemory>
        requires sound { IsSound configurations.now.rules.now }
        requires set { set.now ≡ configurations.now.rules.now.groups }
        ensures same { IfOk result (λ game. (game.configurations.now.rules.now
            ≡ configurations.now.rules.now) × (game.book.now ≡ book.now)) }
        ensures kept { IfOk result (λ game. IsKept game.set.now game.configurations.now.rules.now
            (B.value_at game.book.now) game.lives.items game.rows.items) }
    {
        let Ok(lives) = all_lives(alloc, set, configurations) else {
            return Err(NoMemory);
        };
        let Ok(rows) = all_rows(alloc, set, configurations, book, &lives) else {
            return Err(NoMemory);
        };
        let Ok(shares) = Shares::new(alloc, configurations) else {
            return Err(NoMemory);
        };
        Ok(PlaneChess {
            set,
            configurations,
            book,
            lives,
            rows,
            shares,
        })
    }
}

impl<B: ExitBook> PlaneChess<'_, B> {
    /// The row of the configuration.
    fn row(&self, configuration: u32) -> Option<&Row>
        requires { configuration < length self.now.rows.items }
        ensures { let row = slice_index_or self.now.rows.items configuration None in
            MatchOption result (row ≡ None) (λ found. row ≡ Some found.now) }
    {
        match &self.rows[configuration as usize] {
            None => None,
            Some(row) => Some(row),
        }
    }
}

impl<B: ExitBook> PlaneGame for PlaneChess<'_, B> {
    ghost arena = { λ game.
        graph_by game.configurations.now.rules.now (B.value_at game.book.now) };

    ghost spots = { λ game. spots_of game.configurations.now.rules.now.groups };

    ghost turn = { λ game. turn_at game.rows.items };

    ghost sound = { λ game. IsKept game.set.now game.configurations.now.rules.now
        (B.value_at game.book.now) game.lives.items game.rows.items };

    ghost finite = { λ game sound. sound.finite };

    ghost placed = { λ game sound. sound.placed };

    ghost turns = { λ game sound. sound.turns };

    fn size(&self) -> u32 {
        self.set.size()
    }

    fn configurations(&self) -> u32 {
        self.configurations.count()
    }

    fn number(&self, configuration: u32, white: u8, black: u8) -> u32 {
        self.shares
            .number(configuration, Square::at(white), Square::at(black))
    }

    fn mover(&self, configuration: u32) -> Colour {
        match self.row(configuration) {
            None => Colour::White,
            Some(row) => row.turn,
        }
    }

    fn live(&self, configuration: u32) -> Plane {
        self.lives[configuration as usize]
    }

    fn mated(&self, configuration: u32) -> Plane {
        match self.row(configuration) {
            None => Plane::empty(),
            Some(row) => row.mated,
        }
    }

    fn moving(&self, configuration: u32, only_free: bool) -> Plane {
        match self.row(configuration) {
            None => Plane::empty(),
            Some(row) => row.moving_by(only_free),
        }
    }

    fn leading(
        &self,
        configuration: u32,
        only_free: bool,
        target: &Target<'_>,
        into: bool,
    ) -> Plane {
        match self.row(configuration) {
            None => Plane::empty(),
            Some(row) => {
                let rules = self.configurations.rules;
                let live = &self.lives[configuration as usize];
                leading(rules, row, live, &self.lives, only_free, target, into)
            }
        }
    }

    fn touches(&self, configuration: u32, marks: &[bool]) -> bool {
        match self.row(configuration) {
            None => false,
            Some(row) => touches(&row.moves, marks),
        }
    }

    fn wins_out(&self, configuration: u32, side: Colour, lag: u32) -> bool {
        match self.row(configuration) {
            None => false,
            Some(row) => wins_out(&row.exits, side, lag),
        }
    }

    fn greatest_lag(&self, side: Colour) -> u32 {
        greatest_lag_of(&self.rows, side)
    }
}
