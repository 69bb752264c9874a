//! What a number begins with, kept in 4 bytes, so that one listing of its moves serves both sides.

ghost use Rattle.std.specs.Prelude.{◌≡◌, ◌≤◌, length};
ghost use Rattle.frz_arena.specs.declared.node.Node.TheVariants.{Going};
ghost use Rattle.frz_board.specs.declared.man.Colour as colours;
ghost use Rattle.frz_board.specs.Men.{same_colour};
ghost use Rattle.frz_retro.specs.Graphs.{Arm};
ghost use Rattle.frz_retro.specs.Notes.{IsNoteOf, entry_in, later_in};
ghost use Rattle.frz_retro.specs.Shape.{AreShort, In};

use crate::kinds::mate_code;
use crate::start::{later_of, start_of};
use frz_arena::Node;
use frz_board::Colour;
use frz_graph::Arm;

/// What a number begins with for one side.
#[derive(Clone, Copy)]
pub struct Note {
    /// How many arms (legal moves that count) the number waits for, if it is open.
    pub count: u16,
    /// Below 4, the entry that the number begins with. From 4 on the number is open, its entry is
    /// 1, and this is the code that its exits alone give it in the end.
    pub code: u16,
}

impl Note {
    /// The entry that the number begins with: 0 broken, 1 open or stalemate, 2 a win, 3 a failure.
    pub fn entry(self) -> u32
        ensures { result ≡ entry_in self.code }
    {
        if self.code < 4 {
            u32::from(self.code)
        } else {
            1
        }
    }

    /// The code that the number's exits alone give it in the end, or 0 if they give none.
    pub fn later(self) -> u16
        ensures { result ≡ later_in self.code }
    {
        if self.code < 4 { 0 } else { self.code }
    }
}

/// The note of a number where the game goes on.
fn going(own: bool, side: Colour, arms: &[Arm]) -> Note
    requires few { length arms.now ≤ 1024 }
    requires short { (a : Arm) → In a arms.now → AreShort a.next }
    ensures { (c : colours.Colour) → own ≡ same_colour c side →
        IsNoteOf side (Going c) arms.now result.count result.code }
{
    let start = start_of(own, side, arms);
    if !start.any {
        return Note { count: 0, code: 3 };
    }
    Note {
        count: start.count as u16,
        code: later_of(start).max(1) as u16,
    }
}

/// The note of a number for `side`, from what the number is and its legal moves.
pub fn note_of(node: Node, side: Colour, arms: &[Arm]) -> Note
    requires few { length arms.now ≤ 1024 }
    requires short { (a : Arm) → In a arms.now → AreShort a.next }
    ensures { IsNoteOf side node arms.now result.count result.code }
{
    match node {
        Node::Broken => Note { count: 0, code: 0 },
        Node::Stalemate(_) => Note { count: 0, code: 1 },
        Node::Mate(c) => Note {
            count: 0,
            code: mate_code(c, side) as u16,
        },
        Node::Going(c) => going(c.is_same(side), side, arms),
    }
}
