//! Quotients and remainders, without a division where the divisor is a power of two.
ghost use Rattle.std.specs.Prelude.{◌≡◌, ◌<◌, ◌/◌, ◌%◌};

/// The quotient, which is 0 where the number is below the divisor. Else a shift gives a guess,
/// which a multiplication checks; only a wrong one costs a division.
pub(crate) fn quotient(n: u32, d: u32) -> u32
    requires { 0 < d }
    ensures { result ≡ n / d }
{
    if n < d {
        return 0;
    }
    let guess = n >> d.trailing_zeros().min(31);
    let back = u64::from(guess) * u64::from(d);
    let whole = u64::from(n);
    if back <= whole && whole - back < u64::from(d) {
        return guess;
    }
    n / d
}

/// The remainder.
pub(crate) fn left_over(n: u32, d: u32) -> u32
    requires { 0 < d }
    ensures { result ≡ n % d }
{
    n - quotient(n, d) * d
}
