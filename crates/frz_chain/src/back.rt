//! A back table: the table behind the exit lines of another.
ghost use Rattle.std.specs.Prelude.{◌≡◌, length};
ghost use Rattle.frz_sets.specs.Sets.{size_of};
ghost use Rattle.frz_sets.specs.Sound.{IsSound};
ghost use Rattle.frz_table.specs.Tables.{table_size};

use crate::ChainBook;
use frz_sets::Rules;
use frz_table::TableFile;

/// A back table: its file as it was opened, and the codes of both sides in it.
pub struct BackTable {
    pub table: TableFile,
    pub white: Vec<u32>,
    pub black: Vec<u32>,
    pub ghost white_many: { length white.items ≡ table_size table },
    pub ghost black_many: { length black.items ≡ table_size table },
}

impl Drop for BackTable {
    fn drop(self) {
        let BackTable {
            table: _,
            white: _,
            black: _,
        } = self;
    }
}

impl BackTable {
    ghost use Rattle.frz_chain.specs.Books.{back_with};
    ghost use Rattle.frz_chain.specs.FileOn.{loaded_back};

    /// How many numbers its set has.
    pub fn size(&self) -> u32
        ensures { result ≡ size_of self.now.table.rules.groups }
    {
        self.table.set().size()
    }

    /// The book, which values exits, of these sound rules with this table behind their exit lines.
    pub fn behind<'a>(&'a self, rules: &'a Rules) -> ChainBook<'a>
        requires { IsSound rules.now }
        ensures rules { result.rules.now ≡ rules.now }
        ensures back { back_with result.back.now result.white.now result.black.now ≡ loaded_back
            self.now }
    {
        ChainBook::new(rules, self.table.set(), &self.white, &self.black)
    }
}
