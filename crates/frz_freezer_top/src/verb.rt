//! The names of the commands.
ghost use Rattle.std.specs.Prelude.{◌≡◌};
ghost use Rattle.frz_freezer_top.specs.Verbs.{verb_of};

use frz_program::Named;

/// The commands, each named by its first word on the command line.
#[derive(Clone, Copy, Debug, PartialEq, Eq, Drop)]
pub enum Verb {
    Solve,
    Moves,
    Sans,
    Move,
    Query,
    Line,
    Play,
    Check,
    Build,
    Migrate,
    Chain,
    ChainCheck,
    ChainQuery,
    Sample,
    Report,
}

impl Named for Verb {
    ghost named_by = { verb_of };

    fn read(word: &str) -> Option<Verb> {
        match word {
            "solve" => Some(Verb::Solve),
            "moves" => Some(Verb::Moves),
            "sans" => Some(Verb::Sans),
            "move" => Some(Verb::Move),
            "query" => Some(Verb::Query),
            "line" => Some(Verb::Line),
            "play" => Some(Verb::Play),
            "check" => Some(Verb::Check),
            "build" => Some(Verb::Build),
            "migrate" => Some(Verb::Migrate),
            "chain" => Some(Verb::Chain),
            "chaincheck" => Some(Verb::ChainCheck),
            "chainquery" => Some(Verb::ChainQuery),
            "sample" => Some(Verb::Sample),
            "report" => Some(Verb::Report),
            _ => None,
        }
    }
}
