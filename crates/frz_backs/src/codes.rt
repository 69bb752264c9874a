//! The two codes of a position in a loaded table.

ghost use Rattle.std.specs.Prelude.{◌≡◌};
ghost use Rattle.frz_fide.specs.Valid.{IsValid};
ghost use Rattle.frz_backs.specs.FileOn.{loaded_back};
ghost use Rattle.frz_backs.specs.Codes.{codes_of};

use frz_chain::BackTable;
use frz_fide::Bitboards;

/// White's code and Black's of the position. `None` exactly where the set of the table does not
/// hold it.
pub fn codes_on(back: &BackTable, q: &Bitboards) -> Option<(u32, u32)>
    requires { IsValid q.now }
    ensures { result ≡ codes_of (loaded_back back.now) q.now }
{
    match back.table.set().number_on(q) {
        Some(i) => Some((back.white[i as usize], back.black[i as usize])),
        None => None,
    }
}
