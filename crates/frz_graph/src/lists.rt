//! The working lists that a solver keeps.

ghost use Rattle.std.specs.Prelude.{◌≡◌, []};

use crate::arm::NextList;
use crate::entries::CodeList;
use frz_exits::MoveList;

/// Lists that a solver keeps from number to number, so that none is made anew.
pub struct Lists {
    pub moves: MoveList,
    pub nexts: NextList,
    pub codes: CodeList,
}

impl Drop for Lists {
    fn drop(self) {
        let Lists {
            moves: _,
            nexts: _,
            codes: _,
        } = self;
    }
}

impl Lists {
    /// Empty lists.
    pub fn new() -> Lists
        ensures moves { result.moves.items ≡ [] }
        ensures nexts { result.nexts.items ≡ [] }
        ensures codes { result.codes.items ≡ [] }
    {
        Lists {
            moves: MoveList::new(),
            nexts: NextList::new(),
            codes: CodeList::new(),
        }
    }
}
