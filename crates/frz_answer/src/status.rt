//! The statuses that a command itself can end with.
ghost use Rattle.std.specs.Prelude.{◌≡◌};
ghost use Rattle.frz_answer.specs.Statuses.{code_of};

/// A status that a command itself ends with. It means that neither the store, the input, the sink
/// nor the memory failed: these faults have statuses of their own.
#[derive(Clone, Copy, Debug, PartialEq, Eq, Drop)]
pub enum Status {
    Success,
    Words,
    Rules,
    Fen,
    Table,
    Wrong,
    Outside,
    Missing,
    Limit,
    NoMove,
}

impl Status {
    /// The number with which the program ends: 0 for success, 2 to 15 for the others.
    pub fn code(self) -> u8
        ensures { result ≡ code_of self }
    {
        match self {
            Status::Success => 0,
            Status::Words => 2,
            Status::Rules => 3,
            Status::Fen => 4,
            Status::Table => 5,
            Status::Wrong => 6,
            Status::Outside => 7,
            Status::Missing => 12,
            Status::Limit => 13,
            Status::NoMove => 15,
        }
    }
}
