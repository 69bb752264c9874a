//! Why a file is no table, or cannot be read.
ghost use Rattle.std.specs.Prelude.{◌≡◌};
ghost use Rattle.frz_table.specs.declared.fault.TableFault.TheVariants.{NoMemory as MemoryFault};
ghost use Rattle.frz_table.specs.Faults.{fault_of, rules_fault};

use crate::OtherFile;
use frz_board::NoMemory;
use frz_rules::{RulesError, RulesFault};
use frz_store::StoreFault;
use std::alloc::AllocError;
use thiserror::Error;

/// The first thing that is wrong with a table file, or why it could not be read. `Truncated` and
/// `Extra` say how many bytes the file has and how many are due, `Size` gives the size in the file
/// and that of its rules, and `Other` says what else the file is, where it is opened as its own kind.
#[derive(Clone, Copy, Debug, PartialEq, Eq, Error)]
pub enum TableFault {
    #[error("there is no such file")]
    Missing,
    #[error("the file does not begin as a table of this kind")]
    Magic,
    #[error("the file is of another kind or time")]
    Other(OtherFile),
    #[error("the file is cut short")]
    Truncated(u64, u64),
    #[error("the file goes on behind the table")]
    Extra(u64, u64),
    #[error("the rules text in the file is refused")]
    Rules(RulesFault),
    #[error("the file keeps another size than that of its rules")]
    Size(u32, u32),
    #[error("the store failed")]
    Failed,
    #[error("out of memory")]
    NoMemory,
}

impl From<StoreFault> for TableFault {
    ghost from_gives = { λ outside fault. fault ≡ fault_of outside };

    fn from(outside: StoreFault) -> TableFault {
        match outside {
            StoreFault::Failed => TableFault::Failed,
            StoreFault::NoMemory => TableFault::NoMemory,
        }
    }
}

impl From<RulesError> for TableFault {
    ghost from_gives = { λ refused fault. fault ≡ rules_fault refused };

    fn from(refused: RulesError) -> TableFault {
        match refused {
            RulesError::Bad(fault) => TableFault::Rules(fault),
            RulesError::NoMemory => TableFault::NoMemory,
        }
    }
}

impl From<NoMemory> for TableFault {
    ghost from_gives = { λ _ fault. fault ≡ MemoryFault };

    fn from(_wanted: NoMemory) -> TableFault {
        TableFault::NoMemory
    }
}

impl From<AllocError> for TableFault {
    ghost from_gives = { λ _ fault. fault ≡ MemoryFault };

    fn from(_wanted: AllocError) -> TableFault {
        TableFault::NoMemory
    }
}
