//! What the solver keeps of the numbers: their entries, counters and due codes, and the queue of
//! those that are settled.

ghost use Rattle.std.specs.Prelude.{◌≡◌, ℕ, ◌<◌, ◌≤◌, length, slice_index, vec_len, IfOk, IsPermutation};
ghost use Rattle.std.specs.List.Sorted.{IsNonDecreasing};
ghost use Rattle.frz_retro.specs.Tallies.{ChangesOnlyFrom, HasSize, begun_at, counted_down, queued_from, settled};

use frz_board::NoMemory;
use std::alloc::Global;
use std::marker::Model;

/// What the solver keeps of the numbers: four lists, each with one place for each number.
pub struct Tally {
    /// The entry of each number: 1 while it is open.
    codes: Vec<u32>,
    /// How many arms (legal moves that count) each open number still waits for.
    counts: Vec<u16>,
    /// The code that its exits alone give each number in the end, or 0.
    later: Vec<u16>,
    /// The numbers that are settled as wins or failures, in the order of their plies.
    queue: Vec<u32>,
    /// How many numbers stand in the queue.
    tail: usize,
}

impl Drop for Tally {
    fn drop(self) {
        let Tally {
            codes: _,
            counts: _,
            later: _,
            queue: _,
            tail: _,
        } = self;
    }
}

impl Model for Tally {
    ghost use Rattle.std.specs.Prelude.{◌≡◌, vec_len, vec_items};
    ghost use Rattle.frz_retro.specs.Tallies.{Tally as Kept};

    ghost Value = { Kept };

    ghost view = { λ t. record {
      codes = vec_items t.codes;
      counts = vec_items t.counts;
      later = vec_items t.later;
      queue = vec_items t.queue;
      tail = t.tail;
    } };

    ghost invariant = { λ t. (vec_len t.counts ≡ vec_len t.codes)
        × (vec_len t.queue ≡ vec_len t.codes)
        × (vec_len t.later ≡ vec_len t.codes) };
}

/// A list of `size` zeros.
fn zeros(alloc: Global, size: u32) -> Result<Vec<u32>, NoMemory>
    ensures { IfOk result (λ list. vec_len list ≡ size) }
{
    match vec![in alloc; 0; size as usize] {
        Ok(list) => Ok(list),
        Err(_) => Err(NoMemory),
    }
}

/// A list of `size` zeros in 16 bits each, half of what `zeros` takes.
pub fn short_zeros(alloc: Global, size: u32) -> Result<Vec<u16>, NoMemory>
    ensures { IfOk result (λ list. vec_len list ≡ size) }
{
    match vec![in alloc; 0; size as usize] {
        Ok(list) => Ok(list),
        Err(_) => Err(NoMemory),
    }
}

/// Sets each item of the list to `item`.
fn fill(list: &mut [u32], item: u32)
    ensures each { (i : ℕ) → i < length list.old → slice_index list.new i ≡ item }
{
    for x in list.iter_mut() {
        *x = item;
    }
}

impl Tally {
    /// Allocates a tally for `size` numbers, 12 bytes for each.
    pub fn new(alloc: Global, size: u32) -> Result<Tally, NoMemory>
        ensures { IfOk result (λ t. length t.codes ≡ size) }
    {
        Ok(Tally {
            codes: zeros(alloc, size)?,
            counts: short_zeros(alloc, size)?,
            later: short_zeros(alloc, size)?,
            queue: zeros(alloc, size)?,
            tail: 0,
        })
    }

    /// Makes every number open and the queue empty.
    pub fn reset(&mut self)
        ensures codes { (i : ℕ) → i < length self.old.codes → slice_index self.new.codes i ≡ 1 }
        ensures tail { self.new.tail ≡ 0 }
        ensures size { HasSize (length self.old.codes) self.new }
    {
        fill(&mut self.codes, 1);
        self.tail = 0;
    }

    /// The entries, in order of number.
    pub fn codes(&self) -> &[u32]
        ensures { result.now ≡ self.now.codes }
    {
        self.codes.as_slice()
    }

    /// The entry of a number.
    pub fn code(&self, i: u32) -> u32
        requires { i < length self.now.codes }
        ensures { result ≡ slice_index self.now.codes i }
    {
        self.codes[i as usize]
    }

    /// How many arms number `i`, if it is open, still waits for.
    pub fn count(&self, i: u32) -> u32
        requires { i < length self.now.codes }
        ensures { result ≡ slice_index self.now.counts i }
    {
        u32::from(self.counts[i as usize])
    }

    /// The code that its exits alone give number `i` in the end, or 0.
    pub fn later(&self, i: u32) -> u32
        requires { i < length self.now.codes }
        ensures { result ≡ slice_index self.now.later i }
    {
        u32::from(self.later[i as usize])
    }

    /// How many numbers stand in the queue.
    pub fn tail(&self) -> usize
        ensures { result ≡ self.now.tail }
    {
        self.tail
    }

    /// The number at a place of the queue.
    pub fn queued(&self, at: usize) -> u32
        requires { at < length self.now.codes }
        ensures { result ≡ slice_index self.now.queue at }
    {
        self.queue[at]
    }

    /// Sorts the numbers that stand in the queue from place `head` on.
    pub fn put_in_order(&mut self, head: usize)
        requires inside { head ≤ self.old.tail }
        requires room { self.old.tail ≤ length self.old.queue }
        ensures rest { ChangesOnlyFrom head self.old self.new }
        ensures same { IsPermutation (queued_from self.old head) (queued_from self.new head) }
        ensures order { IsNonDecreasing (queued_from self.new head) }
    {
        self.queue[head..self.tail].sort_unstable();
    }

    /// Begins number `i` with this entry, with `count` arms to wait for, and with `later`, the code
    /// that its exits alone give it in the end. A number that its entry settles (2 or more) joins
    /// the queue.
    pub fn begin(&mut self, i: u32, entry: u32, count: u16, later: u16)
        requires inside { i < length self.old.codes }
        requires room { self.old.tail < length self.old.queue }
        ensures { self.new ≡ begun_at self.old i entry count later }
    {
        self.codes[i as usize] = entry;
        self.counts[i as usize] = count;
        self.later[i as usize] = later;
        if entry >= 2 {
            self.queue[self.tail] = i;
            self.tail += 1;
        }
    }

    /// Settles number `i`: its code is entered, and it joins the queue.
    pub fn settle(&mut self, i: u32, code: u32)
        requires inside { i < length self.old.codes }
        requires room { self.old.tail < length self.old.queue }
        ensures { self.new ≡ settled self.old i code }
    {
        self.codes[i as usize] = code;
        self.queue[self.tail] = i;
        self.tail += 1;
    }

    /// Number `i`, which is open, waits for one arm less.
    pub fn count_down(&mut self, i: u32)
        requires inside { i < length self.old.codes }
        requires some { 0 < slice_index self.old.counts i }
        ensures { self.new ≡ counted_down self.old i }
    {
        self.counts[i as usize] -= 1;
    }
}
