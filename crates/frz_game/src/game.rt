//! The restricted game of a rules text over the numbers of its set.

ghost use Rattle.std.specs.Prelude.{◌≡◌, ◌≢◌, ◌≤◌, ◌+◌, IfSome, None, map, true, ⊤};
ghost use Rattle.frz_arena.specs.declared.node.Node.TheVariants.{Broken};
ghost use Rattle.frz_arena.specs.Games.{node_by, next_by};
ghost use Rattle.frz_arena.specs.Names.{named_next, name_in};
ghost use Rattle.frz_board.specs.Attacks.{is_in_check};
ghost use Rattle.frz_fide.specs.Legal.{is_legal, after as board_after};
ghost use Rattle.frz_fide.specs.Listing.{legal_moves_of};
ghost use Rattle.frz_fide.specs.Valid.{IsValid};
ghost use Rattle.frz_game.specs.Numbers.{is_member, number_of, numbers_by, position_at};
ghost use Rattle.frz_game.specs.Games.{arm_at, graph_by};
ghost use Rattle.frz_index.specs.Members.{HasNumber};
ghost use Rattle.frz_index.specs.Stepping.{IsTurned};

use frz_arena::Node;
use frz_board::{Move, Position};
use frz_fide::{Bitboards, Ending, MoveList, after, ending, put_legal_moves};
use frz_graph::{Arm, ExitBook, Next, NextList, allowed};
use frz_index::{Set, Turned};
use frz_sets::Rules;
use frz_steps::Steps;
use std::alloc::AllocError;
use std::sync::ledger::Ledger;

/// The restricted game of rules, over the numbers of their set. The book gives the values of
/// positions outside the set, and the type keeps that the groups of the set are those of the rules.
pub struct Game<'a, B: ExitBook> {
    pub set: &'a Set,
    pub rules: &'a Rules,
    pub book: &'a B,
    pub ghost fits: { set.now ≡ rules.now.groups },
}

impl<B: ExitBook> Copy for Game<'_, B> {}

impl<B: ExitBook> Clone for Game<'_, B> {
    ghost is_clone = { λ game other. (other.set.now ≡ game.set.now)
        × (other.rules.now ≡ game.rules.now)
        × (other.book.now ≡ game.book.now) };

    ghost is_infallible = { λ _. ⊤ };

    fn clone(&self) -> Result<Self, AllocError> {
        Ok(*self)
    }
}

/// The number of position `q`, or `None` outside the set, found from number `i` of another
/// position.
fn number(set: &Set, i: u32, p: &Bitboards, q: &Bitboards) -> Option<u32>
    requires number { HasNumber set.now i p.now }
    requires valid { IsValid q.now }
    ensures { result ≡ number_of set.now q.now }
{
    set.number_beside(i, p, q)
}

/// The position of number `i`, or `None` where the number is that of no valid position.
fn position(set: &Set, i: u32) -> Option<Bitboards>
    ensures position { result ≡ position_at set.now i }
    ensures number { IfSome result (λ p. HasNumber set.now i p) }
    ensures valid { IfSome result IsValid }
{
    set.boards_at(i)
}

fn node(p: &Position, moves: &MoveList) -> Node
    requires valid { IsValid p.now }
    requires moves { moves.now.items ≡ legal_moves_of p.now }
    ensures { result
        ≡ node_by true (legal_moves_of p.now) (is_in_check p.now p.now.turn) p.now.turn }
{
    match ending(p, moves) {
        Ending::Mate => Node::Mate(p.turn()),
        Ending::Stalemate => Node::Stalemate(p.turn()),
        Ending::Going => Node::Going(p.turn()),
    }
}

impl<B: ExitBook> Game<'_, B> {
    /// Where a move from `p` to `q` leads: to the number of `q` in the set, or outside to its
    /// value.
    fn next_of(&self, i: u32, p: &Bitboards, q: &Bitboards) -> Next
        requires number { HasNumber self.now.set.now i p.now }
        requires valid { IsValid q.now }
        ensures { let groups = self.now.rules.now.groups in
            result ≡ named_next (name_in (numbers_by groups))
            (next_by (is_member groups q.now) q.now (B.value_at self.now.book.now q.now)) }
    {
        match number(self.set, i, p, q) {
            Some(n) => Next::Inside(n),
            None => Next::Outside(self.book.value_on(q)),
        }
    }

    /// Where a legal move leads, found from the position after it.
    fn next_after(&self, i: u32, p: &Bitboards, m: Move) -> Next
        requires number { HasNumber self.now.set.now i p.now }
        requires legal { is_legal p.now m ≡ true }
        ensures { let groups = self.now.rules.now.groups in
            let q = board_after p.now m in
            result ≡ named_next (name_in (numbers_by groups))
            (next_by (is_member groups q) q (B.value_at self.now.book.now q)) }
    {
        let q = after(p, m);
        let _to = m.to.number();
        if self.set.leaves(p, m) {
            Next::Outside(self.book.value_on(&q))
        } else {
            self.next_of(i, p, &q)
        }
    }

    /// Where a legal move leads. The set is asked first for the number after a capture, and the
    /// position after the move is looked at only where that gives none.
    #[inline(never)]
    fn next_by_taking(&self, turned: &Turned, i: u32, p: &Bitboards, m: Move) -> Next
        requires turned { IsTurned self.now.set.now i p.now None turned.now }
        requires number { HasNumber self.now.set.now i p.now }
        requires legal { is_legal p.now m ≡ true }
        ensures { let groups = self.now.rules.now.groups in
            let q = board_after p.now m in
            result ≡ named_next (name_in (numbers_by groups))
            (next_by (is_member groups q) q (B.value_at self.now.book.now q)) }
    {
        match self.set.number_after_taking(turned, i, p, m) {
            Some(n) => Next::Inside(n),
            None => self.next_after(i, p, m),
        }
    }

    /// Where a legal move leads.
    fn next(&self, turned: &Turned, i: u32, p: &Bitboards, m: Move) -> Next
        requires turned { IsTurned self.now.set.now i p.now None turned.now }
        requires number { HasNumber self.now.set.now i p.now }
        requires legal { is_legal p.now m ≡ true }
        ensures { let groups = self.now.rules.now.groups in
            let q = board_after p.now m in
            result ≡ named_next (name_in (numbers_by groups))
            (next_by (is_member groups q) q (B.value_at self.now.book.now q)) }
    {
        match self.set.number_after_move(turned, i, p, m) {
            Some(n) => Next::Inside(n),
            None => self.next_by_taking(turned, i, p, m),
        }
    }

    fn arm(&self, turned: &Turned, i: u32, p: &Bitboards, m: Move) -> Arm
        requires turned { IsTurned self.now.set.now i p.now None turned.now }
        requires number { HasNumber self.now.set.now i p.now }
        requires legal { is_legal p.now m ≡ true }
        ensures { result ≡ arm_at self.now.rules.now (B.value_at self.now.book.now) p.now m }
    {
        Arm {
            mv: m,
            free: allowed(self.rules, p.turn(), p.as_position(), m),
            next: self.next(turned, i, p, m),
        }
    }

    /// Fills the list with the arms of the legal moves: each move, whether it is free, where it
    /// leads.
    fn put_arms(&self, i: u32, p: &Bitboards, moves: &MoveList, list: &mut NextList)
        requires number { HasNumber self.now.set.now i p.now }
        requires moves { moves.now.items ≡ legal_moves_of p.now }
        ensures { list.new.items
            ≡ map (arm_at self.now.rules.now (B.value_at self.now.book.now) p.now) moves.now.items }
    {
        list.clear();
        let turned = self.set.turned(i, p, &None);
        for m in moves.as_slice() {
            list.push(self.arm(&turned, i, p, *m));
        }
    }

    /// As `nexts`, with a list of moves that the caller keeps from call to call.
    pub fn nexts_by<L: Ledger>(
        &self,
        i: u32,
        moves: &mut MoveList,
        list: &mut NextList,
        steps: &mut Steps<L>,
    ) -> Node
        ensures node { result
            ≡ (graph_by self.now.rules.now (B.value_at self.now.book.now)).node i }
        ensures arms { list.new.items
            ≡ (graph_by self.now.rules.now (B.value_at self.now.book.now)).arms i }
        ensures step { steps.new ≤ steps.old + 1 }
        ensures later { steps.old ≤ steps.new }
        ensures broken { result ≡ Broken → steps.new ≡ steps.old }
        ensures one { result ≢ Broken → steps.new ≡ steps.old + 1 }
    {
        match position(self.set, i) {
            None => {
                list.clear();
                Node::Broken
            }
            Some(p) => {
                put_legal_moves(&p, moves, steps);
                self.put_arms(i, &p, moves, list);
                node(p.as_position(), moves)
            }
        }
    }

    /// What number `i` is: broken, mate, stalemate, or going on. The list then has one arm for each
    /// legal move of its position, in move order, and none where the number is broken. This takes
    /// one step, and none where the number is broken.
    pub fn nexts<L: Ledger>(&self, i: u32, list: &mut NextList, steps: &mut Steps<L>) -> Node
        ensures node { result
            ≡ (graph_by self.now.rules.now (B.value_at self.now.book.now)).node i }
        ensures arms { list.new.items
            ≡ (graph_by self.now.rules.now (B.value_at self.now.book.now)).arms i }
        ensures step { steps.new ≤ steps.old + 1 }
        ensures broken { result ≡ Broken → steps.new ≡ steps.old }
        ensures one { result ≢ Broken → steps.new ≡ steps.old + 1 }
    {
        let mut moves = MoveList::new();
        self.nexts_by(i, &mut moves, list, steps)
    }
}
