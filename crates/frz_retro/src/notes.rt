//! The notes of all numbers for one side.

ghost use Rattle.std.specs.Prelude.{◌≡◌, ◌<◌, IfOk, length, slice_index, slice_set};
ghost use Rattle.frz_retro.specs.Notes.{HasRoom};

use crate::note::Note;
use crate::tally::short_zeros;
use frz_board::NoMemory;
use std::alloc::Global;
use std::marker::Model;

/// What each number begins with for one side. The run that solves the other side's game writes the
/// notes, so that this side's game begins without listing the moves again.
pub struct Notes {
    counts: Vec<u16>,
    codes: Vec<u16>,
}

impl Drop for Notes {
    fn drop(self) {
        let Notes {
            counts: _,
            codes: _,
        } = self;
    }
}

impl Model for Notes {
    ghost use Rattle.std.specs.Prelude.{◌≡◌, vec_len, vec_items};
    ghost use Rattle.frz_retro.specs.Notes.{Notes as Noted};

    ghost Value = { Noted };

    ghost view = { λ n. record { counts = vec_items n.counts; codes = vec_items n.codes } };

    ghost invariant = { λ n. vec_len n.counts ≡ vec_len n.codes };
}

impl Notes {
    /// Allocates room for the notes of `size` numbers, 4 bytes for each.
    pub fn new(alloc: Global, size: u32) -> Result<Notes, NoMemory>
        ensures { IfOk result (λ n. HasRoom size n) }
    {
        Ok(Notes {
            counts: short_zeros(alloc, size)?,
            codes: short_zeros(alloc, size)?,
        })
    }

    /// The note of a number.
    pub fn at(&self, i: u32) -> Note
        requires { i < length self.now.codes }
        ensures count { result.count ≡ slice_index self.now.counts i }
        ensures code { result.code ≡ slice_index self.now.codes i }
    {
        Note {
            count: self.counts[i as usize],
            code: self.codes[i as usize],
        }
    }

    /// Writes the note of a number down.
    pub fn write(&mut self, i: u32, note: Note)
        requires { i < length self.old.codes }
        ensures { self.new ≡ record {
          counts = slice_set self.old.counts i note.count;
          codes = slice_set self.old.codes i note.code;
        } }
    {
        self.counts[i as usize] = note.count;
        self.codes[i as usize] = note.code;
    }
}
