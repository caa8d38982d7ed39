ghost use Rattle.std.specs.Prelude.{◌≡◌, ℕ, ◌+◌, ◌^◌, ◌<◌, ◌≤◌, min, MatchResult};
ghost use Rattle.frames.specs.Refusals.{take_answer};
ghost use Rattle.frames.specs.Source.{Takes, Gives};
ghost use Rattle.frames.specs.Limited.{limited, TakesThrough, GivesThrough, InBounds, Raised};
ghost use Rattle.std.proofs.Common.{rules};

use crate::refusal::{BadSource, GiveError, TakeError};
use crate::source::FrameSource;
use blocks::aligned::AlignedBlock;
use blocks::block::FrameBlock;
use blocks::refused::Refused;

// A limit on how many frames may be taken from the source below.
#[derive(Drop)]
pub struct Quota<S> {
    below: S,
    left: u16,
}

// What a quota may be made of. Each source is checked first and made after, so that its making cannot fail.
#[derive(Drop)]
pub struct AcceptedQuota<S> {
    below: S,
    limit: u16,
    ghost small: { limit ≤ 2048 },
}

impl<S> Quota<S> {
    pub fn check(limit: u16, below: S) -> Result<AcceptedQuota<S>, Refused<S, BadSource>>
        ensures { MatchResult result (λ a. (a.limit ≡ limit) × (a.below ≡ below)) (λ e. (e.given ≡ below) × (2048 < limit)) }
    {
        if limit > 2048 {
            return Err(Refused {
                given: below,
                refusal: BadSource,
            });
        }
        Ok(AcceptedQuota { below, limit })
    }

    pub fn make(accepted: AcceptedQuota<S>) -> Quota<S>
        ensures { (result.left ≡ accepted.limit) × ((result.left ≤ 2048) × (result.below ≡ accepted.below)) }
    {
        let AcceptedQuota { below, limit } = accepted;
        Quota { below, left: limit }
    }

    // How many frames may still be taken through it.
    pub fn left(&self) -> u16
        ensures { result ≡ self.now.left }
    {
        // Gives may have raised it above the limit.
        self.left
    }

    pub fn below(&self) -> &S
        ensures { result.now ≡ self.now.below }
    {
        &self.below
    }

    pub fn into_parts(self) -> S
        ensures { result ≡ self.below }
    {
        let Quota { below, left: _ } = self;
        below
    }
}

impl<S: FrameSource> FrameSource for Quota<S> {
    ghost means = { λ q. limited q.left (S.FrameSource.means q.below) };

    ghost lawful = { Prim.search rules };

    fn frames(&self) -> u16 {
        self.below.frames()
    }

    fn available(&self) -> u16 {
        self.left.min(self.below.available())
    }

    fn take(&mut self, order: u8) -> Result<FrameBlock, TakeError>
        ensures takes { Takes (limited self.old.left (S.FrameSource.means self.old.below)) order (limited self.new.left (S.FrameSource.means self.new.below)) result }
        ensures through { TakesThrough self.old.left (S.FrameSource.means self.old.below) order self.new.left (S.FrameSource.means self.new.below) (take_answer result) }
        ensures unasked { ((9 < order → self.new ≡ self.old)) × ((self.old.left < 2 ^ order → self.new ≡ self.old)) }
        ensures bounds { InBounds self.old.left (S.FrameSource.means self.old.below) → InBounds self.new.left (S.FrameSource.means self.new.below) }
    {
        if order > AlignedBlock::MAX_ORDER {
            return Err(TakeError::BadOrder);
        }
        let count = 1u16 << order;
        if self.left < count {
            return Err(TakeError::NoBlock { depth: 0 });
        }
        let block = self.below.take(order).map_err(TakeError::passed_up)?;
        self.left -= count;
        Ok(block)
    }

    fn give(&mut self, block: FrameBlock) -> Result<(), GiveError>
        ensures gives { Gives (limited self.old.left (S.FrameSource.means self.old.below)) block (limited self.new.left (S.FrameSource.means self.new.below)) result }
        ensures through { GivesThrough self.old.left (S.FrameSource.means self.old.below) block self.new.left (S.FrameSource.means self.new.below) result }
        ensures bounds { InBounds self.old.left (S.FrameSource.means self.old.below) → InBounds self.new.left (S.FrameSource.means self.new.below) × Raised self.old.left block self.new.left result }
    {
        self.below.give(block)?;
        // It does not saturate: no more than 2,048 frames can come back beyond those that were taken.
        self.left = self.left.saturating_add(block.count());
        Ok(())
    }
}
