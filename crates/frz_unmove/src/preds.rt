//! The numbers from which moves lead to one number, in a list that has room for all of them.
ghost use Rattle.std.specs.Prelude.{◌≡◌, ◌<◌, [], ◌∷◌, ◌++◌, length, IfOk};

use frz_board::{Move, NoMemory};
use std::alloc::Global;
use std::marker::Model;

/// A number of a set, and a move from its position.
#[derive(Clone, Copy, PartialEq, Eq)]
pub struct Pred {
    pub number: u32,
    pub mv: Move,
}

/// A list of the moves to one position, with room for all that there can be.
pub struct Preds {
    list: Vec<Pred>,
}

impl Drop for Preds {
    fn drop(self) {
        let Preds { list: _ } = self;
    }
}

impl Model for Preds {
    ghost use Rattle.std.specs.Prelude.{List, ◌≤◌};
    ghost use Rattle.std.specs.Vec.{vec_capacity};
    ghost use Rattle.frz_unmove.specs.declared.preds.Pred.{Pred};

    ghost Value = { List Pred };

    ghost view = { λ p. p.list.items };

    ghost invariant = { λ p. 131072 ≤ vec_capacity p.list };
}

impl Preds {
    /// An empty list, which has room for 131,072 items. The only error is want of memory.
    pub fn new(alloc: Global) -> Result<Preds, NoMemory>
        ensures { IfOk result (λ p. p ≡ []) }
    {
        match Vec::with_capacity(alloc, 131_072) {
            Ok(list) => Ok(Preds { list }),
            Err(_) => Err(NoMemory),
        }
    }

    /// The items, in no particular order.
    pub fn items(&self) -> &[Pred]
        ensures { result.now ≡ self.now }
    {
        &self.list
    }

    /// Removes all items.
    pub fn clear(&mut self)
        ensures { self.new ≡ [] }
    {
        self.list.clear();
    }

    /// Adds an item at the end, in the room that there is. The list must have fewer than 131,072.
    pub fn push(&mut self, pred: Pred)
        requires { length self.old < 131072 }
        ensures { self.new ≡ self.old ++ pred ∷ [] }
    {
        self.list.push_reserved(pred);
    }
}
