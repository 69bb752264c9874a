//! Why a table over a second table cannot be built or checked.

ghost use Rattle.std.specs.Prelude.{◌≡◌};
ghost use Rattle.frz_chain.specs.Causes.{fault_of, back_fault, table_fault, rules_fault};
ghost use Rattle.frz_chain.specs.declared.fault.ChainFault.TheVariants.{NoMemory as MemoryFault};

use frz_board::NoMemory;
use frz_game::Wrong;
use frz_rules::{RulesError, RulesFault};
use frz_store::StoreFault;
use frz_table::TableFault;

/// The first thing that is wrong with the rules or with one of the two tables, or why they could
/// not be read. `Failed` and `NoMemory` do not say which of the files was being read or written.
#[derive(Clone, Copy, Debug, PartialEq, Eq)]
pub enum ChainFault {
    /// The rules text is refused.
    Rules(RulesFault),
    /// The table is refused.
    Table(TableFault),
    /// The back table is refused.
    Back(TableFault),
    /// An entry of the back table is wrong: this is the first one that is not its local code.
    BackWrong(Wrong),
    Failed,
    NoMemory,
}

impl ChainFault {
    /// The fault of a chain for a fault of the table.
    pub fn of_table(fault: TableFault) -> ChainFault
        ensures { result ≡ table_fault fault }
    {
        match fault {
            TableFault::Failed => ChainFault::Failed,
            TableFault::NoMemory => ChainFault::NoMemory,
            _ => ChainFault::Table(fault),
        }
    }

    /// The fault of a chain for a fault of the back table.
    pub fn of_back(fault: TableFault) -> ChainFault
        ensures { result ≡ back_fault fault }
    {
        match fault {
            TableFault::Failed => ChainFault::Failed,
            TableFault::NoMemory => ChainFault::NoMemory,
            _ => ChainFault::Back(fault),
        }
    }
}

impl From<StoreFault> for ChainFault {
    ghost from_gives = { λ outside fault. fault ≡ fault_of outside };

    fn from(outside: StoreFault) -> ChainFault {
        ChainFault::of_table(TableFault::from(outside))
    }
}

impl From<RulesError> for ChainFault {
    ghost from_gives = { λ refused fault. fault ≡ rules_fault refused };

    fn from(refused: RulesError) -> ChainFault {
        match refused {
            RulesError::Bad(fault) => ChainFault::Rules(fault),
            RulesError::NoMemory => ChainFault::NoMemory,
        }
    }
}

impl From<NoMemory> for ChainFault {
    ghost from_gives = { λ _ fault. fault ≡ MemoryFault };

    fn from(_wanted: NoMemory) -> ChainFault {
        ChainFault::NoMemory
    }
}
