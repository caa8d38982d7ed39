ghost use Rattle.std.specs.Prelude.{◌≡◌, ℕ, ◌+◌, ◌<◌, ◌≤◌, IfErr, OnOk, length};
ghost use Rattle.blocks.specs.declared.number.ObjectPage.{ObjectPage};
ghost use Rattle.manager.specs.Refusals.{NoFrameFor};

use crate::refusal::Refusal;
use crate::state::Manager;
use blocks::block::FrameBlock;
use blocks::number::{FrameNumber, ObjectPage};
use frames::refusal::GiveError;
use frames::source::FrameSource;
use mapping::hardware::MappingHardware;
use reservations::reservation::Reservation;

// Gives those frames of a block back that no page is present in, as maximal blocks, rising.
fn give_unused<S: FrameSource>(
    source: &mut S,
    reservation: &Reservation,
    frames: FrameBlock,
) -> Result<(), GiveError> {
    if reservation.is_unused(frames) {
        return source.give(frames);
    }
    let Some((low, high)) = frames.halves() else {
        return Ok(());
    };
    give_unused(source, reservation, low)?;
    give_unused(source, reservation, high)
}

impl<S: FrameSource + Drop, H: MappingHardware + Drop> Manager<S, H> {
    // Breaks the oldest reservation: its present pages stay where they are, and its empty frames go back.
    pub(crate) fn break_oldest(&mut self) -> Result<(), Refusal>
        ensures fewer { OnOk result (length self.new.reserved + 1 ≤ length self.old.reserved) }
        ensures others { IfErr result (λ r. (page : ObjectPage) → NoFrameFor page r) }
    {
        let oldest = self.reserved.oldest().ok_or(Refusal::Block)?;
        give_unused(&mut self.source, &oldest, oldest.frames()?)?;
        self.reserved.remove(0);
        Ok(())
    }

    // Puts the frame of a page that left back: into the reservation that covers the page, which goes back whole once
    // none of its pages is present, else to the source.
    pub(crate) fn give_frame(
        &mut self,
        page: ObjectPage,
        frame: FrameNumber,
    ) -> Result<(), Refusal> {
        let Some(place) = self.reserved.find(page) else {
            self.source.give(FrameBlock::new(frame, 0)?)?;
            return Ok(());
        };
        let Some(reservation) = self.reserved.get(place) else {
            return Ok(());
        };
        let left = reservation.marked(page.number, false);
        if left.present() > 0 {
            self.reserved.replace(place, left);
            return Ok(());
        }
        self.source.give(left.frames()?)?;
        self.reserved.remove(place);
        Ok(())
    }
}
