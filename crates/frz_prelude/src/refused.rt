//! Why a command refuses its words, or what they name.
ghost use Rattle.std.specs.Prelude.{◌≡◌};
ghost use Rattle.frz_prelude.specs.Refusals.{status_of, table_status as status_of_table};

use frz_answer::{Refusal, Status};
use frz_fen::FenFault;
use frz_game::Wrong;
use frz_rules::RulesFault;
use frz_table::TableFault;

/// Why a command refuses its words, or what they name.
#[derive(Clone, Copy, PartialEq, Eq, Drop)]
pub enum Refused {
    /// The words are not those that the command takes.
    Words(Refusal),
    /// The FEN gives no position.
    Fen(FenFault),
    /// No file has the name of the rules file.
    MissingRules,
    /// The rules file holds no valid rules text.
    Rules(RulesFault),
    /// No file has the name of the table, or its bytes are refused.
    Table(TableFault),
    /// No file has the name of the back table, or its bytes are refused.
    Back(TableFault),
    /// The back table has entries that are not their local codes. This is the first.
    BackWrong(Wrong),
    /// The position is outside the set of the rules.
    Outside,
}

fn table_status(fault: TableFault) -> Status
    ensures { result ≡ status_of_table fault }
{
    match fault {
        TableFault::Missing => Status::Missing,
        _ => Status::Table,
    }
}

impl Refused {
    /// The status with which a command ends that is refused so.
    pub fn status(self) -> Status
        ensures { result ≡ status_of self }
    {
        match self {
            Refused::Words(_) => Status::Words,
            Refused::Fen(_) => Status::Fen,
            Refused::MissingRules => Status::Missing,
            Refused::Rules(_) => Status::Rules,
            Refused::Table(fault) | Refused::Back(fault) => table_status(fault),
            Refused::BackWrong(_) => Status::Wrong,
            Refused::Outside => Status::Outside,
        }
    }
}
