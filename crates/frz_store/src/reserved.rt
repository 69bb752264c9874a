//! Bytes with room reserved behind them.
ghost use Rattle.std.specs.Prelude.{◌≡◌, ◌+◌, ◌-◌, ◌≤◌, [], ◌++◌, length, take, IfOk};
ghost use Rattle.std.specs.Vec.{vec_len, vec_capacity};
ghost use Rattle.frz_store.specs.Bytes.{AreBytes};

use std::alloc::{AllocError, Global};

/// Bytes, and room that is reserved behind them: a piece that fits in it is appended without taking
/// memory.
#[derive(Drop)]
pub struct Reserved {
    pub bytes: Vec<u8>,
    pub room: usize,
    ghost fits: { vec_len bytes + room ≤ vec_capacity bytes },
    ghost are_bytes: { AreBytes bytes.items },
}

impl Reserved {
    /// No bytes, and room for so many. The only error is want of memory.
    pub fn with_room(alloc: Global, room: usize) -> Result<Reserved, AllocError>
        ensures bytes { IfOk result (λ made. made.bytes.items ≡ []) }
        ensures room { IfOk result (λ made. made.room ≡ room) }
    {
        let bytes = Vec::with_capacity(alloc, room)?;
        Ok(Reserved { bytes, room })
    }

    /// Appends a piece, which must fit in the room.
    pub fn append(&mut self, piece: &[u8])
        requires { length piece.now ≤ self.old.room }
        ensures bytes { self.new.bytes.items ≡ self.old.bytes.items ++ piece.now }
        ensures room { self.new.room ≡ self.old.room - length piece.now }
    {
        match self.bytes.extend_from_slice(piece) {
            Ok(()) => self.room -= piece.len(),
            Err(_) => unreachable!(),
        }
    }
}

/// The first `most` bytes of a piece, or the whole piece if it is shorter.
pub fn front(piece: &[u8], most: u64) -> &[u8]
    ensures { result.now ≡ take most piece.now }
{
    if most < piece.len() as u64 {
        &piece[..most as usize]
    } else {
        piece
    }
}
