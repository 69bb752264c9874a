//! What holds of kings put on a board, whatever the code.

ghost use Rattle.std.specs.Prelude.{ℕ, ◌≡◌, ◌<◌, true};
ghost use Rattle.frz_board.specs.Attacks.{is_attacked, is_in_check};
ghost use Rattle.frz_board.specs.Boards.{Board, CellsFit};
ghost use Rattle.frz_board.specs.Men.{other_of};
ghost use Rattle.frz_board.specs.Shapes.{has_kings};
ghost use Rattle.frz_board.specs.declared.man.Colour.{Colour as Side};
ghost use Rattle.frz_king_planes.specs.Kings.{are_free, king_square, with_kings};

/// Where each side then has one king, as in a valid position, a side is in check exactly where its
/// king is attacked on the square on which it was put.
pub fn checks()
    ensures { (p : Board) (a b : ℕ) (c : Side) → CellsFit p.cells → a < 64 → b < 64 →
        are_free p a b ≡ true → has_kings (with_kings p a b) ≡ true →
        is_in_check (with_kings p a b) c
        ≡ is_attacked (with_kings p a b) (king_square c a b) (other_of c) }
{}
