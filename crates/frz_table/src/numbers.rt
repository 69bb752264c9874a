//! Numbers of 32 bits, read from a place of a file or from bytes, and written to bytes.
ghost use Rattle.std.specs.Prelude.{◌≡◌, ℕ, ◌+◌, ◌*◌, ◌≤◌, ◌++◌, length, vec_len, vec_capacity, IfSome};
ghost use Rattle.frz_asks.specs.Runs.{Run, end_by};
ghost use Rattle.frz_store.specs.Files.{Covers};
ghost use Rattle.frz_store.specs.Outside.{IsNext, StoreCauses};
ghost use Rattle.frz_store.specs.Told.{store_of};
ghost use Rattle.frz_table.specs.Asking.{number_of};
ghost use Rattle.frz_table.specs.Numbers.{numbers, number_bytes};

use frz_asks::read_at;
use frz_store::{Store, StoreFault};

/// Reads the number in the four bytes of the file from byte `at` on, the lowest byte first.
pub(crate) fn read_number<S: Store>(store: &mut S, name: &str, at: u64) -> Result<u32, StoreFault>
    requires { IfSome (S.files store.old) (Covers at 4 name.now) }
    ensures run { Run (number_of name.now at) (end_by (λ n. n) result)
        (store_of S.Store store.old) (store_of S.Store store.new) }
    ensures calls { IsNext (S.calls store.old) (S.calls store.new) }
    ensures causes { StoreCauses (S.faults store.old) (S.faults store.new)
        (S.wants store.old) (S.wants store.new) result }
{
    let mut field = [0; 4];
    read_at(store, name, at, &mut field)?;
    Ok(u32::from_le_bytes(field))
}

/// Appends the numbers in these bytes, four bytes each, to the list, which has capacity for them.
pub(crate) fn push_numbers(bytes: &[u8], to: &mut Vec<u32>)
    requires whole { (k : ℕ) × (length bytes.now ≡ 4 * k) }
    requires room { 4 * vec_len to.old + length bytes.now ≤ 4 * vec_capacity to.old }
    ensures numbers { (k : ℕ) → length bytes.now ≡ 4 * k
        → to.new.items ≡ to.old.items ++ numbers k bytes.now }
    ensures length { 4 * vec_len to.new ≡ 4 * vec_len to.old + length bytes.now }
    ensures capacity { vec_capacity to.old ≤ vec_capacity to.new }
{
    let mut rest = bytes;
    while let Some((number, more)) = rest.split_first_chunk::<4>() {
        to.push(u32::from_le_bytes(*number)).unwrap();
        rest = more;
    }
}

/// Fills the slice with the bytes of these numbers, four for each, the lowest first.
pub(crate) fn put_numbers(numbers: &[u32], into: &mut [u8])
    requires { length into.old ≡ 4 * length numbers.now }
    ensures { into.new ≡ number_bytes numbers.now }
{
    for (i, number) in numbers.iter().enumerate() {
        into[4 * i..4 * i + 4].copy_from_slice(&number.to_le_bytes());
    }
}
