ghost use Rattle.std.specs.Prelude.{◌≡◌, ℕ, ◌+◌, ◌^◌, ◌<◌, ◌≤◌, false, MatchResult};
ghost use Rattle.blocks.specs.Bit.{bit};
ghost use Rattle.frames.specs.Refusals.{give_number};
ghost use Rattle.frames.specs.Source.{plain, GiveRefused};

use crate::refusal::{BadSource, GiveError};
use blocks::bits;
use blocks::block::FrameBlock;

// How many frames a source has.
#[derive(Clone, Copy, PartialEq, Eq, Debug)]
pub(crate) struct FrameCount {
    number: u16,
    ghost some: { 1 ≤ number },
    ghost small: { number ≤ 2048 },
}

impl FrameCount {
    pub(crate) fn new(number: u16) -> Result<FrameCount, BadSource>
        ensures { MatchResult result (λ c. c.number ≡ number) (λ _. (1 ≤ number → number ≤ 2048 → ⊥)) }
    {
        if number == 0 || number > 2048 {
            return Err(BadSource);
        }
        Ok(FrameCount { number })
    }

    pub(crate) fn get(self) -> u16
        ensures { result ≡ self.number }
    {
        self.number
    }

    // Whether a block may be given to a source of this many frames, of which those in the row are free.
    pub(crate) fn admits(self, free: &[u64], block: FrameBlock) -> Result<(), GiveError>
        ensures { MatchResult result (λ _. (block.block.first + 2 ^ block.block.order ≤ self.number) × ((f : ℕ) → block.block.first ≤ f → f < block.block.first + 2 ^ block.block.order → bit free.now f ≡ false)) (λ e. (a : ℕ) → GiveRefused (plain self.number (bit free.now) a) block.block.first block.block.order (plain self.number (bit free.now) a) (give_number e)) }
    {
        let first = block.first().0;
        let end = block.end().0;
        if end > self.number {
            return Err(GiveError::PastEnd);
        }
        if bits::first_in(free, first as usize, end as usize).is_some() {
            return Err(GiveError::AlreadyFree);
        }
        Ok(())
    }
}
