//! The word that stands for a file in the lines that refuse it.
ghost use Rattle.frz_store.specs.Told.{sink_of};
ghost use Rattle.frz_answer.specs.Texts.{WroteText};
ghost use Rattle.frz_prelude.specs.FileWords.{file_word};

use frz_answer::{write_numbered, write_piece};
use frz_store::{Failed, Sink};

/// Which of its files a command refuses.
#[derive(Clone, Copy, PartialEq, Eq)]
pub enum FileWord {
    Table,
    Back,
    /// One of several tables behind another, by its place, which is counted from 1.
    BackAt(u64),
}

impl FileWord {
    /// Writes the word.
    pub fn write<O: Sink>(self, out: &mut O) -> Result<(), Failed>
        ensures { WroteText (file_word self) result (sink_of O.Sink out.old)
            (sink_of O.Sink out.new) }
    {
        match self {
            FileWord::Table => write_piece(b"table", out),
            FileWord::Back => write_piece(b"back", out),
            FileWord::BackAt(place) => write_numbered(b"back ", place, out),
        }
    }
}
