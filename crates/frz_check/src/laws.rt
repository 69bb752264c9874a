//! The laws of verdicts and of the one file. Each is the contract of a function that does nothing.
ghost use Rattle.std.specs.Prelude.{◌≡◌, ◌↔◌, ℕ, List, length, Some, Ok};
ghost use Rattle.frz_board.specs.Boards.{Board};
ghost use Rattle.frz_board.specs.declared.man.Colour.{Colour};
ghost use Rattle.frz_board.specs.declared.man.Colour.TheVariants.{White, Black};
ghost use Rattle.frz_sets.specs.declared.exit.Value.{Value};
ghost use Rattle.frz_sets.specs.Sets.{size_of};
ghost use Rattle.frz_sets.specs.Views.{RuleLines};
ghost use Rattle.frz_rules.specs.Text.{rules_of};
ghost use Rattle.frz_game.specs.Bounds.{IsTableOf};
ghost use Rattle.frz_game.specs.ExactBounds.{TableIsExactWhereFree};
ghost use Rattle.frz_game.specs.SmallLags.{HasSmallLags};
ghost use Rattle.frz_table.specs.declared.kind.FileKind.{FileKind};
ghost use Rattle.frz_table.specs.Layout.{magic_of};
ghost use Rattle.frz_table.specs.Opening.{Contents, opened, table_format};
ghost use Rattle.frz_table.specs.Numbers.{AreBytes};
ghost use Rattle.frz_check.specs.declared.verdict.Verdict.{Verdict};
ghost use Rattle.frz_check.specs.Kept.{kept_codes};
ghost use Rattle.frz_check.specs.OneFile.{IsOneFile};
ghost use Rattle.frz_check.specs.Verdicts.{IsVerdict};

pub use frz_game::laws::tables::tables;

/// Any codes, one a side for each number, have exactly one verdict.
pub fn one_verdict()
    ensures there { (rules : RuleLines) (value : Board → Value) (codes : Colour → List ℕ) →
        ((side : Colour) → length (codes side) ≡ size_of rules.groups) →
        (v : Verdict) × IsVerdict rules value codes v }
    ensures one { (rules : RuleLines) (value : Board → Value) (codes : Colour → List ℕ)
        (v w : Verdict) →
        IsVerdict rules value codes v → IsVerdict rules value codes w → v ≡ w }
{
    tables();
}

/// There is exactly one file with a given magic and text that holds the tables of given rules and a
/// book.
pub fn one_file()
    ensures there { (rules : RuleLines) (value : Board → Value) → HasSmallLags value →
        (magic text : List ℕ) →
        (bytes : List ℕ) × IsOneFile magic text rules value bytes }
    ensures one { (rules : RuleLines) (value : Board → Value) (magic text bytes others : List ℕ) →
        IsOneFile magic text rules value bytes → IsOneFile magic text rules value others
        → bytes ≡ others }
{
    tables();
}

/// The one file opens with its text and its rules, and its codes are the tables of both sides.
/// Bytes of which this holds are the one file of their text, so there is one such file for each
/// text.
pub fn what_is_exact()
    ensures opens { (kind : FileKind) (value : Board → Value)
        (contents : Contents) (bytes : List ℕ) → rules_of contents.text ≡ Ok contents.rules →
        IsOneFile (magic_of kind) contents.text contents.rules value bytes →
        opened (table_format kind) (Some bytes) ≡ Ok contents }
    ensures holds { (kind : FileKind) (value : Board → Value) → HasSmallLags value →
        (contents : Contents) (bytes : List ℕ) → rules_of contents.text ≡ Ok contents.rules →
        IsOneFile (magic_of kind) contents.text contents.rules value bytes →
        (side : Colour) → IsTableOf contents.rules value side (kept_codes contents bytes side) }
    ensures exact { (kind : FileKind) (value : Board → Value) (contents : Contents)
        (bytes : List ℕ) →
        AreBytes bytes → opened (table_format kind) (Some bytes) ≡ Ok contents →
        ((side : Colour) → IsTableOf contents.rules value side (kept_codes contents bytes side)) →
        IsOneFile (magic_of kind) contents.text contents.rules value bytes }
    ensures one_text { (kind : FileKind) (value : RuleLines → Board → Value)
        (contents others : Contents) (bytes other_bytes : List ℕ) →
        AreBytes bytes → AreBytes other_bytes → contents.text ≡ others.text →
        opened (table_format kind) (Some bytes) ≡ Ok contents →
        opened (table_format kind) (Some other_bytes) ≡ Ok others →
        ((side : Colour) → IsTableOf contents.rules (value contents.rules) side
        (kept_codes contents bytes side)) →
        ((side : Colour) → IsTableOf others.rules (value others.rules) side
        (kept_codes others other_bytes side)) →
        bytes ≡ other_bytes }
{
    tables();
}

/// What the one file of rules says of chess, in both directions, for each side that no line forbids
/// a move.
pub fn exact_files()
    ensures white { (rules : RuleLines) (value : Board → Value) (magic text bytes : List ℕ)
        (file : IsOneFile magic text rules value bytes) →
        TableIsExactWhereFree rules value White file.white }
    ensures black { (rules : RuleLines) (value : Board → Value) (magic text bytes : List ℕ)
        (file : IsOneFile magic text rules value bytes) →
        TableIsExactWhereFree rules value Black file.black }
{}
