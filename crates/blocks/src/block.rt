ghost use Rattle.std.specs.Prelude.{◌≡◌, ℕ, ◌+◌, ◌-◌, ◌*◌, ◌/◌, ◌%◌, ◌^◌, ◌<◌, ◌≤◌, ◌&&◌, MatchResult, nat_le, nat_lt};
ghost use Rattle.std.specs.Option as Options;
ghost use Rattle.blocks.specs.Blocks.{IsBlock, Halves};

use crate::aligned::{AlignedBlock, BadBlock};
use crate::number::{FrameNumber, Number, ObjectPage, PageNumber};
use std::marker::PhantomData;

// An aligned block of what `N` counts: a block of pages never stands for a block of frames.
#[derive(Clone, Copy, PartialEq, Eq, Debug)]
pub struct Block<N> {
    block: AlignedBlock,
    of: PhantomData<N>,
}

// An aligned block of an object's pages.
pub type PageBlock = Block<PageNumber>;

// An aligned block of the memory's frames.
pub type FrameBlock = Block<FrameNumber>;

impl<N: Number> Block<N> {
    // The numbers taken to count what `N` counts. Nobody else may take them so: pages would become frames.
    fn of(block: AlignedBlock) -> Block<N>
        ensures { result.block ≡ block }
    {
        Block {
            block,
            of: PhantomData,
        }
    }

    pub fn new(first: N, order: u8) -> Result<Block<N>, BadBlock>
        ensures { MatchResult result (λ b. (b.block.first ≡ N.value first) × (b.block.order ≡ order)) (λ _. (IsBlock (N.value first) order → ⊥)) }
    {
        Ok(Block::of(AlignedBlock::new(first.get(), order)?))
    }

    // The block of an order that holds a number.
    pub fn around(number: N, order: u8) -> Result<Block<N>, BadBlock>
        ensures { MatchResult result (λ b. (b.block.first ≡ N.value number / 2 ^ order * 2 ^ order) × (b.block.order ≡ order)) (λ _. (order ≤ 9 → N.value number < 2048 → ⊥)) }
    {
        Ok(Block::of(AlignedBlock::around(number.get(), order)?))
    }

    pub fn first(&self) -> N
        ensures { N.value result ≡ self.now.block.first }
    {
        N::new(self.block.first())
    }

    pub fn order(&self) -> u8
        ensures { result ≡ self.now.block.order }
    {
        self.block.order()
    }

    pub fn count(&self) -> u16
        ensures { result ≡ 2 ^ self.now.block.order }
    {
        self.block.count()
    }

    // The number after the last.
    pub fn end(&self) -> N
        ensures { N.value result ≡ self.now.block.first + 2 ^ self.now.block.order }
    {
        N::new(self.block.end())
    }

    pub fn contains(&self, number: N) -> bool
        ensures { result ≡ (nat_le self.now.block.first (N.value number) && nat_lt (N.value number) (self.now.block.first + 2 ^ self.now.block.order)) }
    {
        self.block.contains(number.get())
    }

    // Its lower and its upper half; none where it is one number.
    pub fn halves(&self) -> Option<(Block<N>, Block<N>)>
        ensures { Options.MatchOption result (self.now.block.order ≡ 0) (λ h. Halves self.now.block.first self.now.block.order h.0.block.first h.0.block.order h.1.block.first h.1.block.order) }
    {
        let (low, high) = self.block.halves()?;
        Some((Block::of(low), Block::of(high)))
    }
}

// An aligned block of the pages of one of the objects.
#[derive(Clone, Copy, PartialEq, Eq, Debug)]
pub struct ObjectBlock {
    pub object: u8,
    pub pages: PageBlock,
}

impl ObjectBlock {
    // The block of an order that holds a page.
    pub fn around(page: ObjectPage, order: u8) -> Result<ObjectBlock, BadBlock>
        ensures { MatchResult result (λ b. (b.object ≡ page.object) × (b.pages.block.first ≡ page.number.0 / 2 ^ order * 2 ^ order) × (b.pages.block.order ≡ order)) (λ _. (order ≤ 9 → page.number.0 < 2048 → ⊥)) }
    {
        Ok(ObjectBlock {
            object: page.object,
            pages: PageBlock::around(page.number, order)?,
        })
    }

    pub fn first(&self) -> ObjectPage
        ensures { (result.object ≡ self.now.object) × (result.number.0 ≡ self.now.pages.block.first) }
    {
        ObjectPage {
            object: self.object,
            number: self.pages.first(),
        }
    }
}

impl FrameBlock {
    // The numbers of its frames.
    pub fn numbers(&self) -> AlignedBlock
        ensures { result ≡ self.now.block }
    {
        self.block
    }
}
