//! What an exit line may rest on.
ghost use Rattle.std.specs.Prelude.{◌≡◌, count_by};
ghost use Rattle.frz_premises.specs.Bases as words;

use frz_board::Position;

/// What an exit line rests on.
#[derive(Clone, Copy)]
pub enum Basis {
    /// It asks nothing: it decides no exit, or its value is unknown.
    AsksNothing,
    /// At each exit that it decides the men alone show that its value is true.
    ByMen,
    /// At each exit that it decides and the men do not show, the table at this place says as much,
    /// and no table before it does so at each. The first table has place 0.
    ByTable(usize),
    /// At each exit that it decides and the men do not show, some table says as much, but no table
    /// alone does at all of them.
    ByTables,
    /// It is believed. This is the first exit that needs it: neither the men nor a table show there
    /// what it says.
    Believed(Position),
}

/// Is the line believed?
fn is_believed(basis: &Basis) -> bool
    ensures { result ≡ words.is_believed basis.now }
{
    match basis {
        Basis::Believed(_) => true,
        _ => false,
    }
}

/// How many of the lines are believed.
pub fn believed(bases: &[Basis]) -> usize
    ensures { result ≡ count_by words.is_believed bases.now }
{
    bases.iter().filter(|basis| is_believed(basis)).count()
}
