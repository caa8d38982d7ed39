ghost use Rattle.blocks.specs.Bit.{bit, bits_set};
ghost use Rattle.blocks.specs.Blocks.{IsBlock};
ghost use Rattle.std.specs.Prelude.{◌≡◌, ℕ, ◌+◌, ◌-◌, ◌^◌, ◌<◌, ◌≤◌, ◌≢◌, ◌↔◌, ◌&&◌, ◌==◌, min, false, replicate, IsTrue, MatchResult, nat_le, nat_lt};
ghost use Rattle.reservations.specs.Reserved.{block_size, distance, covers, meets, empty_frames};

use blocks::aligned::BadBlock;
use blocks::bits;
use blocks::block::{FrameBlock, ObjectBlock, PageBlock};
use blocks::number::{FrameNumber, ObjectPage, PageNumber};

// A block of an object's pages, the block of frames held for it, and which of the pages are present. The fields are plain
// numbers, not blocks: a table takes any reservation, also one whose numbers make no block, and a record of them would only be
// one more name in each clause.
#[derive(Clone, Copy, PartialEq, Eq, Default, Debug)]
pub struct Reservation {
    pub object: u8,
    pub first: PageNumber,
    pub order: u8,
    pub frame: FrameNumber,
    // The population map: a mark for each page of the block.
    pub population: [u64; 8],
}

impl Reservation {
    // A reservation that no page is present in.
    pub fn new(block: ObjectBlock, frames: FrameBlock) -> Reservation
        ensures object { result.object ≡ block.object }
        ensures first { result.first.0 ≡ block.pages.block.first }
        ensures order { result.order ≡ block.pages.block.order }
        ensures frame { result.frame.0 ≡ frames.block.first }
        ensures unmarked { result.population ≡ replicate 8 0 }
    {
        Reservation {
            object: block.object,
            first: block.pages.first(),
            order: block.pages.order(),
            frame: frames.first(),
            population: [0; 8],
        }
    }

    // Its two blocks: each is one call of the generic `new`, on a field of its own.
    pub fn pages(&self) -> Result<PageBlock, BadBlock>
        ensures { MatchResult result (λ b. (b.block.first ≡ self.now.first.0) × (b.block.order ≡ self.now.order)) (λ _. (IsBlock self.now.first.0 self.now.order → ⊥)) }
    {
        PageBlock::new(self.first, self.order)
    }

    pub fn frames(&self) -> Result<FrameBlock, BadBlock>
        ensures { MatchResult result (λ b. (b.block.first ≡ self.now.frame.0) × (b.block.order ≡ self.now.order)) (λ _. (IsBlock self.now.frame.0 self.now.order → ⊥)) }
    {
        FrameBlock::new(self.frame, self.order)
    }

    // How many pages it has, 0 where its order is none of a block: the order may be any, and all who ask would unwrap the
    // same 0.
    pub fn count(&self) -> u16
        ensures { result ≡ block_size self.now }
    {
        if self.order > 9 { 0 } else { 1 << self.order }
    }

    pub fn covers(&self, page: ObjectPage) -> bool
        ensures covers { result ≡ covers self.now page.object page.number.0 }
        ensures block { self.now.order ≤ 9 → result ≡ (self.now.object == page.object && (nat_le self.now.first.0 page.number.0 && nat_lt (page.number.0 - self.now.first.0) (2 ^ self.now.order))) }
    {
        self.object == page.object
            && self.first <= page.number
            && self.distance(page.number) < self.count()
    }

    // Whether it covers a page of the block, where its own order is that of a block.
    pub fn meets(&self, block: ObjectBlock) -> bool
        ensures { result ≡ meets self.now block.object block.pages.block.first block.pages.block.order }
    {
        let first = block.pages.first();
        self.object == block.object
            && self.first < block.pages.end()
            && (first < self.first || self.distance(first) < self.count())
    }

    // How far a page lies from the first.
    pub fn distance(&self, page: PageNumber) -> u16
        ensures { result ≡ distance self.now page.0 }
    {
        page.0.saturating_sub(self.first.0)
    }

    // The frame that is held for a page.
    pub fn frame_of(&self, page: PageNumber) -> FrameNumber
        ensures { result.0 ≡ min (self.now.frame.0 + distance self.now page.0) (2 ^ 16 - 1) }
    {
        self.frame.beside(self.first, page)
    }

    // The same with a page marked as present, or its mark removed.
    pub fn marked(&self, page: PageNumber, present: bool) -> Reservation
        ensures object { result.object ≡ self.now.object }
        ensures first { result.first ≡ self.now.first }
        ensures order { result.order ≡ self.now.order }
        ensures frame { result.frame ≡ self.now.frame }
        ensures here { bit result.population (distance self.now page.0) ≡ (present && nat_lt (distance self.now page.0) 512) }
        ensures others { (j : ℕ) → (j ≢ distance self.now page.0) → bit result.population j ≡ bit self.now.population j }
    {
        let mut population = self.population;
        bits::set(&mut population, self.distance(page) as usize, present);
        Reservation {
            population,
            ..*self
        }
    }

    // How many marks its population map has: its present pages.
    pub fn present(&self) -> u16
        ensures within { result ≤ 512 }
        ensures marks { result ≡ bits_set self.now.population }
    {
        bits::count(&self.population) as u16
    }

    // How many of its frames no page is present in.
    pub fn empty(&self) -> u16
        ensures { result ≡ empty_frames self.now }
    {
        self.count().saturating_sub(self.present())
    }

    // Whether no page is present in some of its frames.
    pub fn is_unused(&self, frames: FrameBlock) -> bool
        ensures { IsTrue result ↔ ((j : ℕ) → frames.block.first - self.now.frame.0 ≤ j → j < frames.block.first - self.now.frame.0 + 2 ^ frames.block.order → bit self.now.population j ≡ false) }
    {
        let from = frames.first().0.saturating_sub(self.frame.0) as usize;
        bits::first_in(&self.population, from, from + frames.count() as usize).is_none()
    }
}
