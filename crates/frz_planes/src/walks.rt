//! The pairs of a plane, one after another, and how many they are.

ghost use Rattle.std.specs.Prelude.{◌≡◌, ◌≤◌, ◌↔◌, IsTrue, MatchOption, false};
ghost use Rattle.frz_planes.specs.Planes.{count_of, HasNoneFrom, IsNext, IsPlaneOf};

use crate::plane::Plane;
use frz_squares::first_from;

impl Plane {
    /// Has the plane no pair?
    pub fn is_empty(&self) -> bool
        ensures { IsTrue result ↔ IsPlaneOf self.now (λ a b. false) }
    {
        let mut all = 0;
        for row in &self.0 {
            all |= *row;
        }
        all == 0
    }

    /// How many pairs the plane has.
    pub fn count(&self) -> u32
        ensures { result ≡ count_of self.now }
    {
        let mut count = 0;
        for row in &self.0 {
            count += row.count_ones();
        }
        count
    }

    /// The first pair from number `n` on, in order of number: the pair of a and b has the number
    /// 64 * a + b. `None` where there is none.
    pub fn next_pair(&self, n: u16) -> Option<(u8, u8)>
        requires { n ≤ 4096 }
        ensures { MatchOption result (HasNoneFrom self.now n) (λ (a, b). IsNext self.now n a b) }
    {
        let mut from = (n % 64) as u8;
        for a in (n / 64) as u8..64 {
            if let Some(b) = first_from(self.0[a as usize], from) {
                return Some((a, b));
            }
            from = 0;
        }
        None
    }
}
