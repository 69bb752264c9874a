//! Why a table over several others cannot be built or checked.

ghost use Rattle.std.specs.Prelude.{◌≡◌};
ghost use Rattle.frz_atlas.specs.Causes.{back_fault, fault_of, rules_fault, table_fault};
ghost use Rattle.frz_atlas.specs.declared.fault.AtlasFault.TheVariants.{NoMemory as MemoryFault};

use frz_board::NoMemory;
use frz_check::Wrong;
use frz_rules::{RulesError, RulesFault};
use frz_store::StoreFault;
use frz_table::TableFault;
use std::alloc::{AllocError, AllocFailed};

/// Why a file cannot stand behind another as an exact table.
#[derive(Clone, Copy, PartialEq, Eq)]
pub enum BackFault {
    /// The file is refused, or could not be read.
    Refused(TableFault),
    /// The table's first entry that is not its local code.
    Wrong(Wrong),
}

/// The first thing that is wrong with the rules, with the table or with one of those behind it, or
/// why they could not be read. A fault of the store and want of memory have variants of their own,
/// whichever file they concern.
#[derive(Clone, Copy, PartialEq, Eq)]
pub enum AtlasFault {
    /// The rules text is refused.
    Rules(RulesFault),
    /// The table's own file is refused.
    Table(TableFault),
    /// The table behind it at this place is refused or wrong; the first has place 0.
    Back(usize, BackFault),
    Failed,
    NoMemory,
}

impl AtlasFault {
    /// The variant for a fault of the table's own file.
    pub fn of_table(fault: TableFault) -> AtlasFault
        ensures { result ≡ table_fault fault }
    {
        match fault {
            TableFault::Failed => AtlasFault::Failed,
            TableFault::NoMemory => AtlasFault::NoMemory,
            _ => AtlasFault::Table(fault),
        }
    }

    /// The variant for a fault of the table behind it at this place.
    pub fn of_back(place: usize, fault: BackFault) -> AtlasFault
        ensures { result ≡ back_fault place fault }
    {
        match fault {
            BackFault::Refused(TableFault::Failed) => AtlasFault::Failed,
            BackFault::Refused(TableFault::NoMemory) => AtlasFault::NoMemory,
            _ => AtlasFault::Back(place, fault),
        }
    }
}

impl From<StoreFault> for AtlasFault {
    ghost from_gives = { λ outside fault. fault ≡ fault_of outside };

    fn from(outside: StoreFault) -> AtlasFault {
        AtlasFault::of_table(TableFault::from(outside))
    }
}

impl From<RulesError> for AtlasFault {
    ghost from_gives = { λ refused fault. fault ≡ rules_fault refused };

    fn from(refused: RulesError) -> AtlasFault {
        match refused {
            RulesError::Bad(fault) => AtlasFault::Rules(fault),
            RulesError::NoMemory => AtlasFault::NoMemory,
        }
    }
}

impl From<NoMemory> for AtlasFault {
    ghost from_gives = { λ _ fault. fault ≡ MemoryFault };

    fn from(_wanted: NoMemory) -> AtlasFault {
        AtlasFault::NoMemory
    }
}

impl From<AllocError> for AtlasFault {
    ghost from_gives = { λ _ fault. fault ≡ MemoryFault };

    fn from(_wanted: AllocError) -> AtlasFault {
        AtlasFault::NoMemory
    }
}

impl<T: Drop> From<AllocFailed<T>> for AtlasFault {
    ghost from_gives = { λ _ fault. fault ≡ MemoryFault };

    fn from(_wanted: AllocFailed<T>) -> AtlasFault {
        AtlasFault::NoMemory
    }
}
