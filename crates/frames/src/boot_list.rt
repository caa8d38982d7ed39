ghost use Rattle.std.specs.Prelude.{◌≡◌, ℕ, ◌+◌, ◌-◌, ◌*◌, ◌/◌, ◌%◌, ◌^◌, ◌<◌, ◌≤◌, Bool, true, false, length, Some, None, vec_len, MatchOption, MatchResult, OnOk};
ghost use Rattle.blocks.specs.Bit.{bit};
ghost use Rattle.frames.specs.Refusals.{take_answer};
ghost use Rattle.frames.specs.Source.{tally, Takes, Gives, KeptByTake, KeptByGive};
ghost use Rattle.frames.specs.Listed.{listed, Distinct, AllBelow, Appended, TakesLast};
ghost use Rattle.std.proofs.Common.{arith};
ghost use Rattle.frames.specs.Lists.{below_of, counted_by};

use crate::count::FrameCount;
use crate::node::Node;
use crate::refusal::{BadSource, GiveError, TakeError};
use crate::source::FrameSource;
use blocks::aligned::AlignedBlock;
use blocks::bits;
use blocks::block::FrameBlock;
use blocks::refused::Refused;

// Free frames kept in the first `filled` of the caller's places. The row of bits says the same of each frame, so that a
// give need not look through the list. The memory is the caller's and goes back to it whole, and no place
// is written but those that a give fills: so the filled places are a count beside it, and no list that grows.
#[derive(Drop)]
pub struct BootList {
    frames: FrameCount,
    places: Vec<u16>,
    filled: u16,
    free: [u64; 32],
    ghost room: { vec_len places ≡ frames.number },
    ghost fits: { filled ≤ frames.number },
    ghost below: { AllBelow places.items filled frames.number },
    ghost distinct: { Distinct places.items filled },
    ghost row: { (f : ℕ) → bit free f ≡ listed places.items filled f },
    ghost counted: { filled ≡ tally (bit free) frames.number },
}

// What a boot list may be made of. Each source is checked first and made after, so that its making cannot fail.
#[derive(Drop)]
pub struct AcceptedBootList {
    list: BootList,
}

// The row of bits of the filled places, where there are as many places as frames, and the filled ones hold distinct frames.
fn row_of(frames: FrameCount, places: &[u16], filled: u16) -> Option<[u64; 32]>
    ensures { MatchOption result (length places.now ≡ frames.number → filled ≤ frames.number → Distinct places.now filled → AllBelow places.now filled frames.number → ⊥) (λ row. (length places.now ≡ frames.number) × (filled ≤ frames.number) × ((f : ℕ) → bit row f ≡ listed places.now filled f) × Distinct places.now filled × AllBelow places.now filled frames.number × (filled ≡ tally (bit row) frames.number)) }
{
    if places.len() != frames.get() as usize || filled > frames.get() {
        return None;
    }
    let mut row = [0; 32];
    for frame in &places[..filled as usize] {
        if *frame >= frames.get() || bits::get(&row, *frame as usize) {
            return None;
        }
        bits::set(&mut row, *frame as usize, true);
    }
    Some(row)
}

// Writes the frames of a block, rising, to the places from `from` on.
fn append(places: &mut [u16], from: u16, block: FrameBlock)
    requires { (from + 2 ^ block.block.order ≤ length places.old) × (from ≤ 2048) }
    ensures { Appended places.old places.new from block.block.first (2 ^ block.block.order) }
{
    let first = block.first().0;
    for i in 0..block.count() {
        places[(from + i) as usize] = first + i;
    }
}

// The places handed back.
fn refuse(places: Vec<u16>) -> Refused<Vec<u16>, BadSource>
    ensures { result.given ≡ places }
{
    Refused {
        given: places,
        refusal: BadSource,
    }
}

impl BootList {
    pub fn check(
        frames: u16,
        places: Vec<u16>,
        filled: u16,
    ) -> Result<AcceptedBootList, Refused<Vec<u16>, BadSource>>
        ensures { MatchResult result (λ a. (a.list.frames.number ≡ frames) × (a.list.places ≡ places) × (a.list.filled ≡ filled)) (λ e. (e.given ≡ places) × (1 ≤ frames → frames ≤ 2048 → vec_len places ≡ frames → filled ≤ frames → Distinct places.items filled → AllBelow places.items filled frames → ⊥)) }
    {
        let Ok(count) = FrameCount::new(frames) else {
            return Err(refuse(places));
        };
        let Some(free) = row_of(count, &places, filled) else {
            return Err(refuse(places));
        };
        Ok(AcceptedBootList {
            list: BootList {
                frames: count,
                places,
                filled,
                free,
            },
        })
    }

    pub fn make(accepted: AcceptedBootList) -> BootList
        ensures { result ≡ accepted.list }
    {
        let AcceptedBootList { list } = accepted;
        list
    }

    // The places, and how many of them are filled.
    pub fn into_parts(self) -> (Vec<u16>, u16)
        ensures { (result.0 ≡ self.places) × (result.1 ≡ self.filled) }
    {
        let BootList {
            frames: _,
            places,
            filled,
            free: _,
        } = self;
        (places, filled)
    }
}

impl FrameSource for BootList {
    ghost use Rattle.frames.specs.Meanings.{listed_source};

    ghost means = { listed_source };

    ghost lawful = { λ s.
        record {
          some = s.frames.some;
          small = s.frames.small;
          within = λ f e. below_of s.places.items s.filled s.frames.number f s.below e;
          counted = counted_by s.places.items (bit s.free) s.filled s.frames.number s.filled s.row s.counted;
          shallow = λ k. omega arith;
        } };

    fn frames(&self) -> u16 {
        self.frames.get()
    }

    fn available(&self) -> u16 {
        self.filled
    }

    fn take(&mut self, order: u8) -> Result<FrameBlock, TakeError>
        ensures takes { Takes (listed_source self.old) order (listed_source self.new) result }
        ensures last { TakesLast self.old.places.items self.old.filled order self.new.filled (take_answer result) }
        ensures places { self.new.places ≡ self.old.places }
        ensures kept { KeptByTake self.old self.new result }
    {
        if order > AlignedBlock::MAX_ORDER {
            return Err(TakeError::BadOrder);
        }
        if order > 0 || self.filled == 0 {
            return Err(TakeError::NoBlock { depth: 0 });
        }
        let last = self.filled - 1;
        let frame = self.places[last as usize];
        let block = FrameBlock::from(Node {
            order: 0,
            index: frame,
        });
        bits::set(&mut self.free, frame as usize, false);
        self.filled = last;
        Ok(block)
    }

    fn give(&mut self, block: FrameBlock) -> Result<(), GiveError>
        ensures gives { Gives (listed_source self.old) block (listed_source self.new) result }
        ensures places { OnOk result (Appended self.old.places.items self.new.places.items self.old.filled block.block.first (2 ^ block.block.order)) }
        ensures kept { KeptByGive self.old self.new result }
    {
        self.frames.admits(&self.free, block)?;
        append(&mut self.places, self.filled, block);
        bits::fill(&mut self.free, block.numbers(), true);
        self.filled += block.count();
        Ok(())
    }
}
