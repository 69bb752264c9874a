//! The chart of a group: where its states stand among all states.
ghost use Rattle.std.specs.Prelude.{◌≡◌, ◌<◌, ◌≤◌, ◌+◌, ◌-◌, ◌*◌, length, slice_index, vec_len, ◌↔◌, IsTrue, IfOk};
ghost use Rattle.frz_board.specs.Men.{kind_of_number, number_of_kind};
ghost use Rattle.frz_sets.specs.Groups.{state_number as number_of_state};
ghost use Rattle.frz_sets.specs.Sound.{AreStates};
ghost use Rattle.frz_index.specs.Charts.{AreCuts, AreWords, IsAt, IsChart};

use frz_board::{Kind, Square};
use frz_fide::replaced;

/// Where the states of a group stand among all 384 states, six kinds on 64 squares. All states are
/// numbered from 0, by kind, then by square.
#[derive(Clone, Copy)]
pub struct Chart {
    /// For each kind, the bitboard of the squares of its states.
    pub words: [u64; 6],
    /// For each number from 0 to 384, how many of the group's states have a lower one.
    pub cuts: [u16; 385],
    /// The first kind that has states.
    pub first: u8,
    /// One more than the last kind that has states.
    pub end: u8,
}

/// The number of a kind here, from 0 to 5.
pub(crate) fn kind_number(kind: Kind) -> u8
    ensures number { result ≡ number_of_kind kind - 1 }
    ensures small { result < 6 }
{
    kind.number() - 1
}

/// The kind with this number, from 0 to 5.
pub(crate) fn kind_at(i: u8) -> Kind
    requires { i < 6 }
    ensures { result ≡ kind_of_number (i + 1) }
{
    Kind::of_number(i + 1)
}

fn state_number(kind: Kind, square: Square) -> u16
    ensures { result ≡ number_of_state (kind, square) }
{
    64 * u16::from(kind_number(kind)) + u16::from(square.number())
}

/// Is there a state at index `k`, and is its number `x`?
fn is_at(states: &[(Kind, Square)], k: u16, x: u16) -> bool
    ensures { IsTrue result ↔ IsAt states.now k x }
{
    if k as usize >= states.len() {
        return false;
    }
    let (kind, square) = states[k as usize];
    state_number(kind, square) == x
}

/// For each number from 0 to 384, how many of the states have a lower one.
fn cuts_of(states: &[(Kind, Square)]) -> [u16; 385]
    requires { AreStates states.now }
    ensures { AreCuts states.now result }
{
    let mut cuts = [0; 385];
    let mut k = 0u16;
    for x in 0..384u16 {
        cuts[x as usize] = k;
        if is_at(states, k, x) {
            k += 1;
        }
    }
    cuts[384] = k;
    cuts
}

/// For each kind, the bitboard of the squares of its states.
fn words_of(states: &[(Kind, Square)]) -> [u64; 6]
    requires { AreStates states.now }
    ensures { AreWords states.now result }
{
    let mut words = [0; 6];
    for k in 0..states.len() {
        let (kind, square) = states[k];
        let i = kind_number(kind) as usize;
        words[i] = replaced(words[i], square, true);
    }
    words
}

/// The first kind that has states, as these cuts say.
fn first_kind(cuts: &[u16; 385]) -> u8
    requires { slice_index cuts.now 0 ≡ 0 }
    ensures none_before { slice_index cuts.now (64 * result) ≡ 0 }
    ensures small { result < 6 }
{
    let mut first = 0;
    while first < 5 && cuts[64 * (first as usize + 1)] == 0 {
        first += 1;
    }
    first
}

/// One more than the last kind that has states, from `first` on.
fn end_kind(cuts: &[u16; 385], first: u8) -> u8
    requires { first < 6 }
    ensures none_after { slice_index cuts.now (64 * result) ≡ slice_index cuts.now 384 }
    ensures order { first ≤ result }
    ensures small { result ≤ 6 }
{
    let mut end = 6;
    while first < end && cuts[64 * (end as usize - 1)] == cuts[384] {
        end -= 1;
    }
    end
}

/// The chart of these states.
pub(crate) fn chart_of(states: &[(Kind, Square)]) -> Chart
    requires { AreStates states.now }
    ensures { IsChart states.now result }
{
    let words = words_of(states);
    let cuts = cuts_of(states);
    let first = first_kind(&cuts);
    let end = end_kind(&cuts, first);
    Chart {
        words,
        cuts,
        first,
        end,
    }
}
