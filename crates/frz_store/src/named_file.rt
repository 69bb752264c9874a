//! A file in memory.
ghost use Rattle.frz_store.specs.Bytes.{AreBytes};

/// A file that no longer grows: its name and its bytes.
#[derive(Drop)]
pub struct NamedFile {
    pub name: String,
    pub bytes: Vec<u8>,
    ghost are_bytes: { AreBytes bytes.items },
}
