//! The rules: all lines of a text.
use crate::exit::Exit;
use crate::forbid::Forbid;
use crate::group::Group;
use std::marker::Model;

/// The groups, forbid lines and exit lines of a rules text, each in the order of the text.
pub struct Rules {
    pub groups: Vec<Group>,
    pub forbids: Vec<Forbid>,
    pub exits: Vec<Exit>,
}

impl Drop for Rules {
    fn drop(self) {
        let Rules {
            groups: _,
            forbids: _,
            exits: _,
        } = self;
    }
}

impl Model for Rules {
    ghost use Rattle.frz_sets.specs.Views.{RuleLines};

    ghost Value = { RuleLines };

    ghost view = { λ r. record {
      groups = r.groups.items;
      forbids = r.forbids.items;
      exits = r.exits.items;
    } };
}
