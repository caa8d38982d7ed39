ghost use Rattle.std.specs.Prelude.{◌≡◌, ℕ, ◌+◌, ◌-◌, ◌*◌, ◌/◌, ◌%◌, ◌^◌, ◌<◌, ◌≤◌, Bool, true, false, length, Some, None, MatchResult};
ghost use Rattle.blocks.specs.Bit.{bit};
ghost use Rattle.frames.specs.Refusals.{take_answer};
ghost use Rattle.frames.specs.Source.{tally, Takes, Gives, KeptByTake, KeptByGive};
ghost use Rattle.frames.specs.Maximal.{MarkedWhole, MarkedAlone, MarkedAll, Chooses, Tile};
ghost use Rattle.std.proofs.Common.{arith};

use crate::count::FrameCount;
use crate::marks::Marks;
use crate::node::Node;
use crate::refusal::{BadSource, GiveError, TakeError};
use crate::source::FrameSource;
use blocks::aligned::AlignedBlock;
use blocks::bits;
use blocks::block::FrameBlock;
use blocks::number::FrameNumber;

// Free frames kept as a row of bits, and beside it the marks of the maximal free blocks: a block of order 9 or less that is
// wholly free and lies in no larger such block.
#[derive(Drop)]
pub struct Buddy {
    frames: FrameCount,
    left: u16,
    free: [u64; 32],
    marks: Marks,
    ghost within: { (f : ℕ) → bit free f ≡ true → f < frames.number },
    ghost counted: { left ≡ tally (bit free) frames.number },
    ghost whole: { MarkedWhole (bit marks.row) (bit free) },
    ghost alone: { MarkedAlone (bit marks.row) (bit free) },
    ghost all: { MarkedAll (bit marks.row) (bit free) },
}

// What a buddy may be made of. Each source is checked first and made after, so that its making cannot fail.
#[derive(Clone, Copy, PartialEq, Eq, Debug)]
pub struct AcceptedBuddy {
    frames: FrameCount,
}

impl Buddy {
    pub fn check(frames: u16) -> Result<AcceptedBuddy, BadSource>
        ensures { MatchResult result (λ a. a.frames.number ≡ frames) (λ _. (1 ≤ frames → frames ≤ 2048 → ⊥)) }
    {
        Ok(AcceptedBuddy {
            frames: FrameCount::new(frames)?,
        })
    }

    // All frames are free.
    pub fn make(accepted: AcceptedBuddy) -> Buddy
        ensures { (result.frames ≡ accepted.frames) × (result.left ≡ accepted.frames.number) × ((f : ℕ) → f < accepted.frames.number → bit result.free f ≡ true) }
    {
        let frames = accepted.frames;
        let mut free = [0u64; 32];
        let mut marks = Marks::new();
        for frame in 0..frames.get() {
            bits::set(&mut free, frame as usize, true);
            marks.merge(Node {
                order: 0,
                index: frame,
            });
        }
        Buddy {
            frames,
            left: frames.get(),
            free,
            marks,
        }
    }

    // The free block that a frame lies in. The free blocks tile the free frames: each lies in exactly one.
    pub fn free_block(&self, frame: FrameNumber) -> Option<FrameBlock>
        ensures { elim result [ Some b ↦ Tile (bit self.now.free) frame.0 b.block.first b.block.order | None ↦ bit self.now.free frame.0 ≡ false ] }
    {
        // The marks have a place for every frame below 2,048: those past the source's own need not be looked for.
        if frame.0 >= self.frames.get() {
            return None;
        }
        Some(self.marks.around(frame)?.into())
    }
}

impl FrameSource for Buddy {
    ghost use Rattle.frames.specs.Meanings.{buddy_source};

    ghost means = { buddy_source };

    ghost lawful = { λ s. record { some = s.frames.some; small = s.frames.small; within = s.within; counted = omega arith; shallow = λ k. omega arith } };

    fn frames(&self) -> u16 {
        self.frames.get()
    }

    fn available(&self) -> u16 {
        self.left
    }

    fn take(&mut self, order: u8) -> Result<FrameBlock, TakeError>
        ensures takes { Takes (buddy_source self.old) order (buddy_source self.new) result }
        ensures chooses { Chooses (bit self.old.free) order (take_answer result) }
        ensures kept { KeptByTake self.old self.new result }
    {
        if order > AlignedBlock::MAX_ORDER {
            return Err(TakeError::BadOrder);
        }
        let Some(found) = self.marks.find(order) else {
            return Err(TakeError::NoBlock { depth: 0 });
        };
        self.marks.set(found, false);
        let block = FrameBlock::from(self.marks.split(found, order));
        bits::fill(&mut self.free, block.numbers(), false);
        self.left -= block.count();
        Ok(block)
    }

    fn give(&mut self, block: FrameBlock) -> Result<(), GiveError>
        ensures gives { Gives (buddy_source self.old) block (buddy_source self.new) result }
        ensures kept { KeptByGive self.old self.new result }
    {
        self.frames.admits(&self.free, block)?;
        let numbers = block.numbers();
        self.marks.merge(numbers.into());
        bits::fill(&mut self.free, numbers, true);
        self.left += block.count();
        Ok(())
    }
}
