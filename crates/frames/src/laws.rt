ghost use Rattle.std.specs.Prelude.{◌≡◌, ℕ, ◌+◌, ◌^◌, ◌<◌, ◌≤◌, Bool, true, false, ◌&&◌, length, IfOk, MatchOption, MatchResult};
ghost use Rattle.blocks.specs.Bit.{bit};
ghost use Rattle.frames.specs.Source.{Source, Lawful, tally, Took, Takes, Gives};
ghost use Rattle.frames.specs.Laws.{SameFrames, free_count, FreeBlock, FreePair, Without};

use crate::node::Node;
use crate::refusal::{GiveError, TakeError};
use crate::source::FrameSource;
use blocks::bits;
use blocks::block::FrameBlock;
use blocks::number::FrameNumber;

// What holds of every source, from the meaning that its trait states alone.

// A take, after which as many frames fewer are free as the block has.
pub fn take_counted<S: FrameSource>(source: &mut S, order: u8) -> Result<FrameBlock, TakeError>
    ensures takes { Takes (S.FrameSource.means source.old) order (S.FrameSource.means source.new) result }
    ensures fewer { MatchResult result (λ _. free_count (S.FrameSource.means source.new) + 2 ^ order ≡ free_count (S.FrameSource.means source.old)) (λ _. free_count (S.FrameSource.means source.new) ≡ free_count (S.FrameSource.means source.old)) }
{
    source.take(order)
}

// A give, after which as many frames more are free as the block has.
pub fn give_counted<S: FrameSource>(source: &mut S, block: FrameBlock) -> Result<(), GiveError>
    ensures gives { Gives (S.FrameSource.means source.old) block (S.FrameSource.means source.new) result }
    ensures more { MatchResult result (λ _. free_count (S.FrameSource.means source.new) ≡ free_count (S.FrameSource.means source.old) + 2 ^ block.block.order) (λ _. free_count (S.FrameSource.means source.new) ≡ free_count (S.FrameSource.means source.old)) }
{
    source.give(block)
}

// Takes a block and gives it straight back, which leaves the same frames free and available.
pub fn take_and_give_back<S: FrameSource>(
    source: &mut S,
    order: u8,
) -> Result<FrameBlock, TakeError>
    ensures same { SameFrames (S.FrameSource.means source.old) (S.FrameSource.means source.new) }
    ensures free { IfOk result (λ b. (b.block.order ≡ order) × FreeBlock (S.FrameSource.means source.old) b) }
{
    let block = take_counted(source, order)?;
    give_counted(source, block).unwrap();
    Ok(block)
}

// Two blocks that have no frame in common, or the source as it was.
pub fn take_pair<S: FrameSource>(
    source: &mut S,
    one: u8,
    other: u8,
) -> Result<(FrameBlock, FrameBlock), TakeError>
    ensures { MatchResult result (λ p. FreePair (S.FrameSource.means source.old) one other p.0 p.1) (λ _. SameFrames (S.FrameSource.means source.old) (S.FrameSource.means source.new)) }
{
    let first = take_counted(source, one)?;
    match take_counted(source, other) {
        Ok(second) => Ok((first, second)),
        Err(e) => {
            give_counted(source, first).unwrap();
            Err(e)
        }
    }
}

// A single frame, and none exactly where none is available.
pub fn take_single<S: FrameSource>(source: &mut S) -> Option<FrameNumber>
    ensures { MatchOption result (((S.FrameSource.means source.old).avail ≡ 0) × (S.FrameSource.means source.new ≡ S.FrameSource.means source.old)) (λ f. (0 < (S.FrameSource.means source.old).avail) × Took (S.FrameSource.means source.old) 0 (S.FrameSource.means source.new) f.0 0) }
{
    Some(source.take(0).ok()?.first())
}

// Takes single frames while there are any: their row of bits, and how many they are.
fn take_singles<S: FrameSource>(source: &mut S) -> ([u64; 32], u16)
    ensures without { Without (S.FrameSource.means source.old) (S.FrameSource.means source.new) (bit result.0) }
    ensures dry { (S.FrameSource.means source.new).avail ≡ 0 }
    ensures all { result.1 ≡ (S.FrameSource.means source.old).avail }
    ensures count { result.1 ≡ tally (bit result.0) (S.FrameSource.means source.old).total }
{
    let mut taken = [0; 32];
    let mut count: u16 = 0;
    while let Some(frame) = take_single(source) {
        bits::set(&mut taken, frame.0 as usize, true);
        count += 1;
    }
    (taken, count)
}

// Gives the frames back whose bits are set.
fn give_singles<S: FrameSource>(source: &mut S, taken: &[u64])
    ensures { (s : Source) → Lawful s → Without s (S.FrameSource.means source.old) (bit taken.now) → ((S.FrameSource.means source.new).total ≡ s.total) × ((f : ℕ) → (S.FrameSource.means source.new).free f ≡ s.free f) × ((S.FrameSource.means source.new).avail ≡ (S.FrameSource.means source.old).avail + tally (bit taken.now) s.total) }
{
    for frame in 0..source.frames() {
        if bits::get(taken, frame as usize) {
            let block = Node {
                order: 0,
                index: frame,
            };
            let _ = source.give(block.into());
        }
    }
}

// How many frames can be taken one by one: all that are available. They are given back.
pub fn count_by_taking<S: FrameSource>(source: &mut S) -> u16
    ensures all { result ≡ (S.FrameSource.means source.old).avail }
    ensures same { SameFrames (S.FrameSource.means source.old) (S.FrameSource.means source.new) }
{
    let (taken, count) = take_singles(source);
    give_singles(source, &taken);
    count
}
