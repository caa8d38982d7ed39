ghost use Rattle.std.specs.Prelude.{◌≡◌, ℕ, ◌+◌, ◌*◌, ◌%◌, ◌^◌, ◌<◌, ◌≤◌, ◌&&◌, true, false, length, ◌≢◌, nat_lt};
ghost use Rattle.blocks.specs.Bit.{bit, bits_set};
ghost use Rattle.manager.specs.Present.{BlockIs};

use blocks::bits;
use blocks::block::ObjectBlock;
use blocks::number::ObjectPage;

// Which pages of the four objects are present, 1,024 bits for each object: whether a block is wholly present, or
// wholly absent, is told by a few words.
#[derive(Drop)]
pub struct Presence {
    words: [u64; 64],
}

impl Presence {
    pub fn new() -> Presence
        ensures { (j : ℕ) → bit result.words j ≡ false }
    {
        Presence { words: [0; 64] }
    }

    pub fn mark(&mut self, page: ObjectPage, present: bool)
        ensures here { bit self.new.words (page.object * 1024 + page.number.0) ≡ (present && nat_lt (page.object * 1024 + page.number.0) 4096) }
        ensures others { (j : ℕ) → (j ≢ page.object * 1024 + page.number.0) → bit self.new.words j ≡ bit self.old.words j }
    {
        bits::set(&mut self.words, page.index(), present);
    }

    // Whether a page of the block is present.
    pub fn any(&self, block: ObjectBlock) -> bool
        ensures no { result ≡ false → BlockIs self.now.words block false }
        ensures yes { result ≡ true → BlockIs self.now.words block false → ⊥ }
    {
        let from = block.first().index();
        bits::first_in(&self.words, from, from + usize::from(block.pages.count())).is_some()
    }

    // Whether all pages of the block are present.
    pub fn all(&self, block: ObjectBlock) -> bool
        ensures yes { result ≡ true → BlockIs self.now.words block true }
        ensures no { result ≡ false → BlockIs self.now.words block true → ⊥ }
    {
        let from = block.first().index();
        let count = block.pages.count();
        for at in (from..from + usize::from(count)).step_by(64) {
            if !all_in_word(&self.words, at, count.min(64)) {
                return false;
            }
        }
        true
    }

    // How many pages are present.
    pub fn count(&self) -> u16
        ensures { result ≡ bits_set self.now.words }
    {
        bits::count(&self.words).min(4096) as u16
    }
}

// Whether `count` places from `from` on, which lie in one word, are set.
fn all_in_word(words: &[u64], from: usize, count: u16) -> bool
    ensures yes { from % 64 + count ≤ 64 → result ≡ true → (k : ℕ) → k < count → bit words.now (from + k) ≡ true }
    ensures no { 1 ≤ count → from % 64 + count ≤ 64 → result ≡ false → ((k : ℕ) → k < count → bit words.now (from + k) ≡ true) → ⊥ }
{
    let w = from / 64;
    if w >= words.len() || count == 0 || count > 64 {
        return false;
    }
    let wanted = u64::MAX >> (64 - count);
    (words[w] >> (from % 64)) & wanted == wanted
}
