ghost use Rattle.std.specs.Prelude.{◌≡◌, ℕ};
ghost use Rattle.frames.specs.Source.{Source, Lawful, Takes, Gives};

use crate::refusal::{GiveError, TakeError};
use blocks::block::FrameBlock;

// A source of frames. Its meaning is the number of its frames, which of them are free, how many are available, and how deep
// its none of an order arises. What it refuses or says none to changes nothing.
pub trait FrameSource {
    ghost means: { Self → Source };

    // How many frames it has, free or not.
    fn frames(&self) -> u16
        ensures { result ≡ (means self.now).total };

    // How many frames it may still give.
    fn available(&self) -> u16
        ensures { result ≡ (means self.now).avail };

    // A block of an order, all of whose frames were free. Which one is the choice of the source.
    fn take(&mut self, order: u8) -> Result<FrameBlock, TakeError>
        ensures { Takes (means self.old) order (means self.new) result };

    // Makes the frames of a block free. It need not be a block that was taken: one taken whole may come back in parts, and
    // parts may come back together.
    fn give(&mut self, block: FrameBlock) -> Result<(), GiveError>
        ensures { Gives (means self.old) block (means self.new) result };

    ghost lawful: { (s : Self) → Lawful (means s) };
}
