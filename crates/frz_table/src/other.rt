//! Files that are no table here, but that another program or another time made.
ghost use Rattle.std.specs.Prelude.{◌≡◌};
ghost use Rattle.frz_table.specs.Faults.{magic_fault};
ghost use Rattle.frz_table.specs.Layout.{other_begun, other_file};

use crate::{FileKind, TableFault};

/// What a file is that is opened as its own kind and begins as no kind that is so opened.
#[derive(Clone, Copy, Debug, PartialEq, Eq)]
pub enum OtherFile {
    /// A table over one other, as `freezer chain` writes it.
    Chained,
    /// A table of the former format.
    Former,
    /// A table over others in whose codes the plies behind a win are not counted.
    Older,
}

impl OtherFile {
    /// What a file is that begins so, if it is one of these.
    fn begun(front: &[u8; 8]) -> Option<OtherFile>
        ensures { result ≡ other_begun front.now }
    {
        if front.as_slice() == FileKind::Chained.magic().as_slice() {
            Some(OtherFile::Chained)
        } else if front.as_slice() == b"FREEZER1".as_slice() {
            Some(OtherFile::Former)
        } else if front.as_slice() == b"FREEZERA".as_slice() {
            Some(OtherFile::Older)
        } else {
            None
        }
    }
}

/// Why a file is refused that begins with these eight bytes, which are not those that are due: where
/// no magic is given, by what else it is.
pub(crate) fn magic_fault(magic: Option<[u8; 8]>, front: &[u8; 8]) -> TableFault
    ensures { result ≡ magic_fault (other_file magic front.now) }
{
    if magic.is_some() {
        return TableFault::Magic;
    }
    match OtherFile::begun(front) {
        Some(other) => TableFault::Other(other),
        None => TableFault::Magic,
    }
}
