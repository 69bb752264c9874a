//! A book that gives no value.
ghost use Rattle.std.proofs.Common.{rules};
ghost use Rattle.frz_sets.specs.declared.exit.Value.TheVariants.{Unknown as NoValue};

use frz_board::Position;
use frz_exits::ExitBook;
use frz_sets::Value;

/// The book that values no position. With it the moves of a number tell only which of them lead out
/// of the set.
#[derive(Clone, Copy)]
pub(crate) struct Silent;

impl ExitBook for Silent {
    ghost value_at = { λ book q. NoValue };

    ghost small = { λ book q valid. Prim.search rules };

    fn value(&self, _q: &Position) -> Value {
        Value::Unknown
    }
}
