//! Files in memory: those that no longer grow, and the one that was created last.
ghost use Rattle.std.specs.Prelude.{◌≡◌, ◌+◌, ◌-◌, ◌≤◌, ℕ, List, [], ◌∷◌, ◌++◌, Some, None, length, drop, take, IfSome, IfOk, OnOk, OnErr};
ghost use Rattle.std.specs.Option.{option_copied, option_map};
ghost use Rattle.std.specs.String.{string_bytes};
ghost use Rattle.std.specs.Vec.{vec_len, vec_capacity};
ghost use Rattle.frz_store.specs.Files.{Files, no_files, put, grown, Covers};
ghost use Rattle.frz_store.specs.Shelf.{stacked, files_of, last_of, room_of};

use crate::growing_file::GrowingFile;
use crate::named_file::NamedFile;
use crate::reserved::{Reserved, front};
use std::alloc::{AllocError, Global};

/// The bytes of the last file of this name in the list, or `None` if there is none.
fn find<'a>(files: &'a [NamedFile], name: &str) -> Option<&'a [u8]>
    ensures { option_copied result ≡ stacked no_files files.now name.now }
{
    match files {
        [] => None,
        [rest @ .., file] => {
            if file.name.as_str() == name {
                Some(&file.bytes)
            } else {
                find(rest, name)
            }
        }
    }
}

/// The files of a store in memory. The file that was created last lies apart, with its room
/// reserved, until the next one is created.
#[derive(Drop)]
pub struct Shelf {
    rest: Vec<NamedFile>,
    newest: Option<GrowingFile>,
}

impl Shelf {
    /// A shelf without files.
    pub fn new(alloc: Global) -> Shelf
        ensures files { files_of result ≡ no_files }
        ensures last { last_of result ≡ None }
        ensures room { room_of result ≡ 0 }
    {
        Shelf {
            rest: Vec::new(alloc),
            newest: None,
        }
    }

    /// The bytes of the file, or `None` if no file has this name.
    pub fn file(&self, name: &str) -> Option<&[u8]>
        ensures { option_copied result ≡ files_of self.now name.now }
    {
        match &self.newest {
            Some(file) => {
                if file.name.as_str() == name {
                    Some(&file.held.bytes)
                } else {
                    find(&self.rest, name)
                }
            }
            None => find(&self.rest, name),
        }
    }

    /// The length of the file in bytes, or `None` if no file has this name.
    pub fn size(&self, name: &str) -> Option<u64>
        ensures { result ≡ option_map length (files_of self.now name.now) }
    {
        match self.file(name) {
            Some(bytes) => Some(bytes.len() as u64),
            None => None,
        }
    }

    /// Fills the slice with the bytes of the file from byte `at` on.
    pub fn read(&self, name: &str, at: u64, into: &mut [u8])
        requires { Covers at (length into.old) name.now (files_of self.now) }
        ensures { IfSome (files_of self.now name.now)
            (λ bytes. into.new ≡ take (length into.old) (drop at bytes)) }
    {
        match self.file(name) {
            Some(bytes) => copy_out(bytes, at, into),
            None => unreachable!(),
        }
    }

    /// Creates an empty file of this name, or empties the one that is there, with room for `due`
    /// bytes. An error changes nothing.
    pub fn create(&mut self, alloc: Global, name: &str, due: u64) -> Result<(), AllocError>
        ensures files { OnOk result (files_of self.new ≡ put (files_of self.old) name.now []) }
        ensures last { OnOk result (last_of self.new ≡ Some name.now) }
        ensures room { OnOk result (room_of self.new ≡ due) }
        ensures err_files { OnErr result (files_of self.new ≡ files_of self.old) }
        ensures err_last { OnErr result (last_of self.new ≡ last_of self.old) }
        ensures err_room { OnErr result (room_of self.new ≡ room_of self.old) }
    {
        let held = Reserved::with_room(alloc, due as usize)?;
        let name = String::from_str(alloc, name)?;
        self.rest.reserve(1)?;
        let fresh = GrowingFile { name, held };
        if let Some(file) = self.newest.replace(fresh) {
            shelve(&mut self.rest, file);
        }
        Ok(())
    }

    /// Makes the name hold these bytes. No room to append may be left. An error changes nothing.
    pub fn put(&mut self, alloc: Global, name: &str, bytes: &[u8]) -> Result<(), AllocError>
        requires { room_of self.old ≡ 0 }
        ensures files { OnOk result
            (files_of self.new ≡ put (files_of self.old) name.now bytes.now) }
        ensures err { OnErr result (files_of self.new ≡ files_of self.old) }
        ensures last { last_of self.new ≡ last_of self.old }
        ensures room { room_of self.new ≡ 0 }
    {
        let bytes = Vec::from_slice(alloc, bytes)?;
        match &mut self.newest {
            Some(file) => {
                if file.name.as_str() == name {
                    file.held = Reserved { bytes, room: 0 };
                    Ok(())
                } else {
                    add(&mut self.rest, alloc, name, bytes)
                }
            }
            None => add(&mut self.rest, alloc, name, bytes),
        }
    }

    /// Appends a piece, which must fit in the room, to the file that was created last.
    pub fn append(&mut self, piece: &[u8])
        requires { length piece.now ≤ room_of self.old }
        ensures files { files_of self.new ≡ grown (last_of self.old) piece.now (files_of self.old) }
        ensures empty { length piece.now ≡ 0 → files_of self.new ≡ files_of self.old }
        ensures last { last_of self.new ≡ last_of self.old }
        ensures room { room_of self.new ≡ room_of self.old - length piece.now }
    {
        if let Some(file) = &mut self.newest {
            file.held.append(piece);
        }
    }

    /// Appends the first `keep` bytes of a piece to the file that was created last, and uses up the
    /// room of the whole piece, which must fit.
    pub fn append_front(&mut self, piece: &[u8], keep: u64)
        requires { length piece.now ≤ room_of self.old }
        ensures files { files_of self.new
            ≡ grown (last_of self.old) (take keep piece.now) (files_of self.old) }
        ensures empty { length piece.now ≡ 0 → files_of self.new ≡ files_of self.old }
        ensures last { last_of self.new ≡ last_of self.old }
        ensures room { room_of self.new ≡ room_of self.old - length piece.now }
    {
        let kept = front(piece, keep);
        self.append(kept);
        self.use_room(piece.len() - kept.len());
    }

    fn use_room(&mut self, count: usize)
        requires { count ≤ room_of self.old }
        ensures files { files_of self.new ≡ files_of self.old }
        ensures last { last_of self.new ≡ last_of self.old }
        ensures room { room_of self.new ≡ room_of self.old - count }
    {
        if let Some(file) = &mut self.newest {
            file.held.room -= count;
        }
    }

    /// Gives up the room, so that nothing more may be appended.
    pub fn close(&mut self)
        ensures files { files_of self.new ≡ files_of self.old }
        ensures last { last_of self.new ≡ last_of self.old }
        ensures room { room_of self.new ≡ 0 }
    {
        if let Some(file) = &mut self.newest {
            file.held.room = 0;
        }
    }
}

fn copy_out(bytes: &[u8], at: u64, into: &mut [u8])
    requires { at + length into.old ≤ length bytes.now }
    ensures { into.new ≡ take (length into.old) (drop at bytes.now) }
{
    let at = at as usize;
    into.copy_from_slice(&bytes[at..at + into.len()]);
}

/// Adds a file at the end of the list, which has capacity for one more.
fn shelve(rest: &mut Vec<NamedFile>, file: GrowingFile)
    requires { vec_len rest.old + 1 ≤ vec_capacity rest.old }
    ensures { stacked no_files rest.new.items
        ≡ put (stacked no_files rest.old.items) (string_bytes file.name) file.held.bytes.items }
{
    let GrowingFile { name, held } = file;
    let Reserved { bytes, room: _ } = held;
    match rest.push(NamedFile { name, bytes }) {
        Ok(()) => {}
        Err(_) => unreachable!(),
    }
}

/// Adds a file of this name and these bytes at the end of the list.
fn add(
    rest: &mut Vec<NamedFile>,
    alloc: Global,
    name: &str,
    bytes: Vec<u8>,
) -> Result<(), AllocError>
    ensures ok { OnOk result (stacked no_files rest.new.items
        ≡ put (stacked no_files rest.old.items) name.now bytes.items) }
    ensures err { OnErr result (stacked no_files rest.new.items ≡ stacked no_files rest.old.items) }
{
    let name = String::from_str(alloc, name)?;
    rest.push(NamedFile { name, bytes })?;
    Ok(())
}
