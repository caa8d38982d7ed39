ghost use Rattle.std.specs.Prelude.{◌≡◌, ℕ, ◌+◌, ◌-◌, ◌*◌, ◌/◌, ◌%◌, ◌^◌, ◌<◌, ◌≤◌, ◌&&◌, ◌==◌, if◌then◌else◌, true, false, length, Some, None, ◌≢◌, nat_lt, slice_index};
ghost use Rattle.blocks.specs.Bit.{bit, bits_set, digit};

use crate::aligned::AlignedBlock;

// A row of bits is a slice of 64-bit words, place 0 the lowest bit of the first word. Past the end every bit reads
// as not set, and a write there is lost.

pub fn get(words: &[u64], place: usize) -> bool
    ensures { result ≡ bit words.now place }
{
    let w = place / 64;
    w < words.len() && (words[w] >> (place % 64)) & 1 == 1
}

// The word with `value` at each bit that the mask has; the others stay.
fn masked(word: u64, mask: u64, value: bool) -> u64
    ensures on { (k : ℕ) → digit mask k ≡ 1 → (digit result k == 1) ≡ value }
    ensures off { (k : ℕ) → digit mask k ≡ 0 → digit result k ≡ digit word k }
{
    if value {
        word | mask
    } else {
        word ^ (word & mask)
    }
}

pub fn set(words: &mut [u64], place: usize, value: bool)
    ensures here { bit words.new place ≡ (value && nat_lt (place / 64) (length words.old)) }
    ensures others { (j : ℕ) → (j ≢ place) → bit words.new j ≡ bit words.old j }
{
    let w = place / 64;
    if w < words.len() {
        words[w] = masked(words[w], 1u64 << (place % 64), value);
    }
}

// The first word that has a set bit.
fn first_used(words: &[u64]) -> Option<usize>
    ensures { elim result [ Some w ↦ (w < length words.now) × (0 < slice_index words.now w) × ((k : ℕ) → k < w → slice_index words.now k ≡ 0) | None ↦ (k : ℕ) → k < length words.now → slice_index words.now k ≡ 0 ] }
{
    words.iter().position(|word| *word != 0)
}

// The lowest set place from `from` on and below `to`.
pub fn first_in(words: &[u64], from: usize, to: usize) -> Option<usize>
    ensures { elim result [ Some f ↦ (from ≤ f) × (f < to) × (bit words.now f ≡ true) × (((j : ℕ) → from ≤ j → j < f → bit words.now j ≡ false)) | None ↦ ((j : ℕ) → from ≤ j → j < to → bit words.now j ≡ false) ] }
{
    let first = from / 64;
    if from >= to {
        return None;
    }
    if first >= words.len() {
        return None;
    }
    let x = words[first] >> (from % 64);
    if x != 0 {
        let at = from + x.trailing_zeros() as usize;
        return if at < to { Some(at) } else { None };
    }
    let last = ((to - 1) / 64 + 1).min(words.len());
    let w = first + 1 + first_used(&words[first + 1..last])?;
    let at = w * 64 + words[w].trailing_zeros() as usize;
    if at < to { Some(at) } else { None }
}

// The bits of one word that a block of at most 32 places has.
fn run(block: AlignedBlock) -> u64
    requires { block.order ≤ 5 }
    ensures here { (k : ℕ) → block.first % 64 ≤ k → k < block.first % 64 + 2 ^ block.order → digit result k ≡ 1 }
    ensures below { (k : ℕ) → k < block.first % 64 → digit result k ≡ 0 }
    ensures above { (k : ℕ) → block.first % 64 + 2 ^ block.order ≤ k → digit result k ≡ 0 }
{
    ((1u64 << block.count()) - 1) << (block.first() % 64)
}

// Gives the places of a block one value, a word at a time.
pub fn fill(words: &mut [u64], block: AlignedBlock, value: bool)
    ensures here { (j : ℕ) → block.first ≤ j → j < block.first + 2 ^ block.order → bit words.new j ≡ (value && nat_lt (j / 64) (length words.old)) }
    ensures below { (j : ℕ) → j < block.first → bit words.new j ≡ bit words.old j }
    ensures above { (j : ℕ) → block.first + 2 ^ block.order ≤ j → bit words.new j ≡ bit words.old j }
{
    let from = block.first() as usize / 64;
    if from >= words.len() {
        return;
    }
    if block.order() < 6 {
        words[from] = masked(words[from], run(block), value);
        return;
    }
    let to = (from + (1usize << (block.order() - 6))).min(words.len());
    words[from..to].fill(masked(0, u64::MAX, value));
}

// How many places are set.
pub fn count(words: &[u64]) -> usize
    ensures set { bits_set words.now < 2 ^ 64 → result ≡ bits_set words.now }
    ensures few { bits_set words.now ≤ 64 * length words.now }
{
    let mut n: usize = 0;
    for word in words {
        n = n.saturating_add(word.count_ones() as usize);
    }
    n
}
