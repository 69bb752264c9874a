//! The kinds of table files.
ghost use Rattle.std.specs.Prelude.{◌≡◌};
ghost use Rattle.std.specs.Option.{option_map, unwrap_or};
ghost use Rattle.frz_table.specs.Layout.{due_magic, kind_begun, magic_of};

/// How the exits of a table get their values.
#[derive(Clone, Copy, Debug, PartialEq, Eq)]
pub enum FileKind {
    /// By the exit lines of its own rules text.
    Plain,
    /// By its exit lines and, where these say nothing, by a second table.
    Chained,
    /// By its exit lines and, where these say nothing, by the first of several tables whose set
    /// holds the position.
    Atlas,
}

impl FileKind {
    /// The kind of a file that begins so, where it is opened as its own kind: `Atlas` where it begins
    /// as a table that leans on others, and else `Plain`.
    fn begun(front: &[u8; 8]) -> FileKind
        ensures { result ≡ kind_begun front.now }
    {
        if front.as_slice() == FileKind::Atlas.magic().as_slice() {
            FileKind::Atlas
        } else {
            FileKind::Plain
        }
    }

    /// The kind as which a file that begins so is opened: this one, or its own.
    pub(crate) fn of(kind: Option<FileKind>, front: &[u8; 8]) -> FileKind
        ensures { result ≡ unwrap_or kind (kind_begun front.now) }
    {
        match kind {
            Some(kind) => kind,
            None => FileKind::begun(front),
        }
    }

    /// The eight bytes with which files of this kind begin.
    pub(crate) fn magic(self) -> &'static [u8; 8]
        ensures { result.now ≡ magic_of self }
    {
        match self {
            FileKind::Plain => b"FREEZER2",
            FileKind::Chained => b"FREEZERC",
            FileKind::Atlas => b"FREEZERB",
        }
    }
}

/// The magic of a kind, if one is asked for.
pub(crate) fn magic_for(kind: Option<FileKind>) -> Option<[u8; 8]>
    ensures { result ≡ option_map magic_of kind }
{
    match kind {
        Some(kind) => Some(*kind.magic()),
        None => None,
    }
}

/// The eight bytes that are due where a file begins with these: the ones that are given, or those of
/// its own kind.
pub(crate) fn due_bytes(magic: Option<[u8; 8]>, front: &[u8; 8]) -> [u8; 8]
    ensures { result ≡ due_magic magic front.now }
{
    match magic {
        Some(magic) => magic,
        None => *FileKind::begun(front).magic(),
    }
}
