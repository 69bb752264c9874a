//! A column of a plane, and a plane with its squares exchanged.

ghost use Rattle.std.specs.Prelude.{ℕ, ◌≡◌, ◌<◌};
ghost use Rattle.frz_squares.specs.SquareSets.{has_square};
ghost use Rattle.frz_planes.specs.Planes.{has_pair, IsPlaneOf};
ghost use Rattle.frz_king_planes.specs.Turning.{with_bit_of};

use frz_bits::replaced;
use frz_board::Square;
use frz_planes::Plane;

/// The squares whose number has bit i clear, for each i.
const CLEAR: [u64; 6] = [
    0x5555_5555_5555_5555,
    0x3333_3333_3333_3333,
    0x0f0f_0f0f_0f0f_0f0f,
    0x00ff_00ff_00ff_00ff,
    0x0000_ffff_0000_ffff,
    0x0000_0000_ffff_ffff,
];

/// The squares of the white king beside a black one on `b`.
pub fn column(plane: &Plane, b: u8) -> u64
    requires { b < 64 }
    ensures { (a : ℕ) → a < 64 → has_square result a ≡ has_pair plane.now a b }
{
    let mut word = 0;
    for a in 0..64 {
        word = replaced(word, Square::at(a), plane.has(a, b));
    }
    word
}

/// Row `a` of the plane in which bit `i` of the squares' numbers is exchanged.
fn exchanged_row(plane: &Plane, i: usize, a: usize) -> u64
    requires bit { i < 6 }
    requires row { a < 64 }
    ensures { (b : ℕ) → b < 64 →
        has_square result b ≡ has_pair plane.now (with_bit_of i a b) (with_bit_of i b a) }
{
    let row = plane.0[a];
    let step = 1 << i;
    let clear = CLEAR[i];
    if (a >> i) & 1 == 0 {
        (row & clear) | ((plane.0[a + step] << step) & !clear)
    } else {
        ((plane.0[a - step] >> step) & clear) | (row & !clear)
    }
}

/// The pairs with bit `i` of their squares' numbers exchanged.
fn exchanged(plane: &Plane, i: usize) -> Plane
    requires { i < 6 }
    ensures { IsPlaneOf result
        (λ a b. has_pair plane.now (with_bit_of i a b) (with_bit_of i b a)) }
{
    let mut rows = [0; 64];
    for (a, row) in rows.iter_mut().enumerate() {
        *row = exchanged_row(plane, i, a);
    }
    Plane(rows)
}

/// The pairs with their squares exchanged, bit by bit of the squares' numbers.
pub fn turned(plane: &Plane) -> Plane
    ensures { IsPlaneOf result (λ a b. has_pair plane.now b a) }
{
    let mut pairs = *plane;
    for i in 0..6 {
        pairs = exchanged(&pairs, i);
    }
    pairs
}
