//! Builds a table over several others, or over none.
ghost use Rattle.std.specs.Prelude.{◌≡◌, ◌≤◌, ◌<◌, ◌+◌, ◌*◌, ◌^◌, length, map, Contains, IfOk, IfErr, OnOk};
ghost use Rattle.std.specs.String.{string_bytes};
ghost use Rattle.frz_sets.specs.Sets.{size_of};
ghost use Rattle.frz_sets.specs.Sound.{IsSound};
ghost use Rattle.frz_store.specs.Told.{store_of};
ghost use Rattle.frz_table.specs.Layout.{kind_by, magic_of};
ghost use Rattle.frz_backs.specs.Building.{Builds, writing_calls};
ghost use Rattle.frz_backs.specs.Links.{value_over};
ghost use Rattle.frz_backs.specs.FileOn.{loaded_back};
ghost use Rattle.frz_atlas.specs.Building.{BuildsAtlas, RefusesToBuild};
ghost use Rattle.frz_atlas.specs.Causes.{HasAtlasCause};
ghost use Rattle.frz_atlas.specs.FileOver.{leans_on};

use crate::{AtlasFault, open_behind};
use frz_backs::{AtlasBook, BackTable, NewTable, ReadRules};
use frz_check::RuleBook;
use frz_plane_tables::build_by_planes;
use frz_rules::read_rules;
use frz_steps::Steps;
use frz_store::{Store, StoreFault};
use frz_table::FileKind;
use std::alloc::Global;
use std::sync::ledger::Ledger;

/// Solves the rules over the tables `backs`, writes the table file under the name, and returns its
/// size (how many numbers it has). Over no table the file is a plain one. All memory is taken before the file is created. A file that has
/// the name already is replaced.
pub fn build_over<S: Store, L: Ledger>(
    alloc: Global,
    read: &ReadRules<'_>,
    backs: &[BackTable],
    name: &str,
    store: &mut S,
    steps: &mut Steps<L>,
) -> Result<u32, StoreFault>
    requires sound { IsSound read.now.rules.now }
    requires text { length read.now.text.now < 2 ^ 32 }
    ensures size { IfOk result (λ size. size ≡ size_of read.now.rules.now.groups) }
    ensures built { Builds (magic_of (kind_by (leans_on (map loaded_back backs.now))))
        read.now.text.now read.now.rules.now (value_over (leans_on (map loaded_back backs.now))
        read.now.rules.now (map loaded_back backs.now)) name.now result
        (store_of S.Store store.old) (store_of S.Store store.new) }
    ensures room { OnOk result (S.room store.new ≡ 0) }
    ensures asked { S.asked store.new ≡ S.asked store.old }
    ensures calls { S.calls store.new
        ≤ S.calls store.old + writing_calls (size_of read.now.rules.now.groups) }
    ensures cost { steps.new ≤ steps.old + 4 * size_of read.now.rules.now.groups }
    ensures later { steps.old ≤ steps.new }
{
    let rules = read.rules;
    let text = read.text;
    if backs.is_empty() {
        let kind = FileKind::Plain;
        let file = NewTable { name, kind, text };
        return build_by_planes(alloc, rules, &RuleBook::new(rules), &file, store, steps);
    }
    let kind = FileKind::Atlas;
    let file = NewTable { name, kind, text };
    build_by_planes(
        alloc,
        rules,
        &AtlasBook::new(rules, backs),
        &file,
        store,
        steps,
    )
}

/// Reads the rules of the text, then opens and checks the tables behind from the left, and writes
/// the one file of the text over them under the name. Returns the size. The name must be none of
/// theirs. The text is read before a table is opened, and all memory is taken before the file is
/// created.
pub fn build_atlas<S: Store, L: Ledger>(
    alloc: Global,
    store: &mut S,
    text: &[u8],
    behind: &[String],
    name: &str,
    steps: &mut Steps<L>,
) -> Result<u32, AtlasFault>
    requires { Contains (map string_bytes behind.now) name.now → ⊥ }
    ensures built { IfOk result (BuildsAtlas text.now (map string_bytes behind.now) name.now
        (store_of S.Store store.old) (store_of S.Store store.new) steps.old steps.new) }
    ensures refused { IfErr result (RefusesToBuild text.now (map string_bytes behind.now) name.now
        (store_of S.Store store.old) (store_of S.Store store.new) steps.old steps.new) }
    ensures room { OnOk result (S.room store.new ≡ 0) }
    ensures later { steps.old ≤ steps.new }
    ensures cause { HasAtlasCause result (store_of S.Store store.old) (store_of S.Store store.new) }
{
    let rules = read_rules(alloc, text)?;
    let backs = open_behind(alloc, store, behind, steps)?;
    let read = ReadRules {
        text,
        rules: &rules,
    };
    Ok(build_over(alloc, &read, &backs, name, store, steps)?)
}
