//! The names of the commands.
ghost use Rattle.std.specs.Prelude.{◌≡◌};
ghost use Rattle.frz_atlas_top.specs.Verbs.{verb_of};

use frz_program::Named;

/// The commands, each named by its first word on the command line.
#[derive(Clone, Copy, Debug, PartialEq, Eq, Drop)]
pub enum Verb {
    Build,
    Check,
    Query,
    Ask,
    Each,
    Line,
    Play,
    Why,
    Verdict,
    Premises,
    Report,
    Size,
}

impl Named for Verb {
    ghost named_by = { verb_of };

    fn read(word: &str) -> Option<Verb> {
        match word {
            "build" => Some(Verb::Build),
            "check" => Some(Verb::Check),
            "query" => Some(Verb::Query),
            "ask" => Some(Verb::Ask),
            "each" => Some(Verb::Each),
            "line" => Some(Verb::Line),
            "play" => Some(Verb::Play),
            "why" => Some(Verb::Why),
            "verdict" => Some(Verb::Verdict),
            "premises" => Some(Verb::Premises),
            "report" => Some(Verb::Report),
            "size" => Some(Verb::Size),
            _ => None,
        }
    }
}
