ghost use Rattle.std.specs.Prelude.{◌≡◌, ℕ, ◌+◌, ◌<◌, ◌≤◌, IfErr};
ghost use Rattle.manager.specs.Refusals.{NoFrameFor};

use crate::refusal::{Refusal, placed_at};
use crate::state::Manager;
use blocks::block::ObjectBlock;
use blocks::number::{FrameNumber, ObjectPage};
use frames::source::FrameSource;
use mapping::hardware::MappingHardware;
use reservations::reservation::Reservation;

// Which frame an absent page is brought into.
impl<S: FrameSource + Drop, H: MappingHardware + Drop> Manager<S, H> {
    // The frame of a page: that which its reservation holds for it, or a new reservation does, or one of its own.
    pub(crate) fn choose_frame(
        &mut self,
        page: ObjectPage,
        size: u16,
    ) -> Result<FrameNumber, Refusal> {
        if let Some(frame) = self.settle(page) {
            return Ok(frame);
        }
        if let Some(reservation) = self.reserve(page, size)? {
            // There is room: a full table reserves nothing.
            let _ = self.reserved.push(reservation.marked(page.number, true));
            return Ok(reservation.frame_of(page.number));
        }
        self.base_frame(page)
    }

    // The frame that a reservation holds for a page, if one covers it. The page is marked in it, and it becomes the
    // youngest, or leaves the table once it is full.
    fn settle(&mut self, page: ObjectPage) -> Option<FrameNumber> {
        let place = self.reserved.find(page)?;
        let settled = self.reserved.get(place)?.marked(page.number, true);
        self.reserved.remove(place);
        if settled.empty() > 0 {
            let _ = self.reserved.push(settled);
        }
        Some(settled.frame_of(page.number))
    }

    // A new reservation around a page, of the greatest size that is to be tried and that the source gives.
    fn reserve(&mut self, page: ObjectPage, size: u16) -> Result<Option<Reservation>, Refusal> {
        if self.reserved.is_full() {
            return Ok(None);
        }
        for order in H::orders() {
            if *order > 0 {
                let block = ObjectBlock::around(page, *order)?;
                if let Some(reservation) = self.try_size(block, size) {
                    return Ok(Some(reservation));
                }
            }
        }
        Ok(None)
    }

    // A block of pages is reserved if it lies within the object, none of its pages is present or reserved, and the
    // source gives frames for it.
    fn try_size(&mut self, block: ObjectBlock, size: u16) -> Option<Reservation> {
        if block.pages.end().0 > size || self.present.any(block) || self.reserved.meets(block) {
            return None;
        }
        let frames = self.source.take(block.pages.order()).ok()?;
        Some(Reservation::new(block, frames))
    }

    // One frame for one page; while the source has none, the oldest reservation is broken.
    fn base_frame(&mut self, page: ObjectPage) -> Result<FrameNumber, Refusal>
        ensures { IfErr result (NoFrameFor page) }
    {
        loop {
            let taken = self.source.take(0);
            if taken.is_ok() || self.reserved.is_empty() {
                return Ok(placed_at(taken, page)?.first());
            }
            self.break_oldest()?;
        }
    }
}
