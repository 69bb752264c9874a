//! An open table: the name of its file, its kind, its text, and the rules and the set of the text.
ghost use Rattle.std.specs.Prelude.{◌≡◌, Ok};
ghost use Rattle.frz_sets.specs.Sound.{IsSound};
ghost use Rattle.frz_rules.specs.Text.{rules_of};

use crate::FileKind;
use frz_index::Set;
use frz_sets::Rules;
use std::marker::Model;

/// A table file that was opened.
pub struct TableFile {
    pub(crate) name: String,
    pub(crate) kind: FileKind,
    pub(crate) text: Vec<u8>,
    pub(crate) rules: Rules,
    pub(crate) set: Set,
}

impl Model for TableFile {
    ghost use Rattle.std.specs.Prelude.{◌≡◌};
    ghost use Rattle.std.specs.String.{string_bytes};
    ghost use Rattle.frz_table.specs.Tables.{Table, IsRead};

    ghost Value = { Table };

    ghost view = { λ t. record {
      name = string_bytes t.name;
      kind = t.kind;
      text = t.text.items;
      rules = t.rules;
    } };

    ghost invariant = { λ t. IsRead t.text.items t.rules × (t.set ≡ t.rules.groups) };
}

impl Drop for TableFile {
    fn drop(self) {
        let TableFile {
            name: _,
            kind: _,
            text: _,
            rules: _,
            set: _,
        } = self;
    }
}

impl TableFile {
    /// The name of the file.
    pub fn name(&self) -> &str
        ensures { result.now ≡ self.now.name }
    {
        self.name.as_str()
    }

    /// The kind with which the file was opened.
    pub fn kind(&self) -> FileKind
        ensures { result ≡ self.now.kind }
    {
        self.kind
    }

    /// The rules text in the file.
    pub fn text(&self) -> &[u8]
        ensures { result.now ≡ self.now.text }
    {
        self.text.as_slice()
    }

    /// The rules that the text gives.
    pub fn rules(&self) -> &Rules
        ensures rules { result.now ≡ self.now.rules }
        ensures read { rules_of self.now.text ≡ Ok self.now.rules }
        ensures sound { IsSound self.now.rules }
    {
        &self.rules
    }

    /// The set that the groups of the rules describe.
    pub fn set(&self) -> &Set
        ensures { result.now ≡ self.now.rules.groups }
    {
        &self.set
    }
}
