//! The laws of values, each the contract of a function that does nothing.

ghost use Rattle.std.specs.Prelude.{◌≡◌};
ghost use Rattle.frz_board.specs.declared.man.Colour.{Colour};
ghost use Rattle.frz_board.specs.Men.{other_of};
ghost use Rattle.frz_sets.specs.declared.exit.Value.{Value};
ghost use Rattle.frz_arena.specs.declared.class.Class.TheVariants.{Good, Bad};
ghost use Rattle.frz_exits.specs.Values.{class_of};

/// A value that is good for a side is bad for its opponent.
pub fn opposed()
    ensures { (v : Value) (side : Colour) →
        class_of v side ≡ Good → class_of v (other_of side) ≡ Bad }
{}
