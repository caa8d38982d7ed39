ghost use Rattle.std.specs.Prelude.{◌≡◌, ℕ, ◌+◌, ◌*◌, ◌^◌, ◌<◌, ◌≤◌, length, IfOk, Some, take};
ghost use Rattle.std.specs.List.{SameFrom};
ghost use Rattle.manager.specs.Arguments.{Decides, TurnsDown, size_in, pages_in, wrong_flush, is_stored, stored_below, stored_pages};

use crate::leaves::Home;
use crate::refusal::Refusal;
use crate::state::Manager;
use blocks::number::{ObjectPage, PageNumber};
use frames::source::FrameSource;
use mapping::hardware::MappingHardware;

impl<S: FrameSource + Drop, H: MappingHardware + Drop> Manager<S, H> {
    // Writes the stored pages of an object, rising, to the first places of the list, tells their count, and removes
    // their marks. Later places stay.
    pub fn flush(&mut self, object: u8, list: &mut [u16]) -> Result<u16, Refusal>
        ensures arguments { TurnsDown (wrong_flush self.old.sizes (H.MappingHardware.at self.old.hardware) object (length list.old)) result ((self.new ≡ self.old) × (list.new ≡ list.old)) }
        ensures count { IfOk result (λ count. (count ≡ stored_below (H.MappingHardware.at self.old.hardware object) (pages_in self.old.sizes object))) }
        ensures within { IfOk result (λ count. (count ≤ length list.old)) }
        ensures listed { IfOk result (λ count. take count list.new ≡ stored_pages (H.MappingHardware.at self.old.hardware object) (pages_in self.old.sizes object)) }
        ensures later { IfOk result (λ count. SameFrom list.old list.new count) }
    {
        let size = self.check_flush(object, list)?;
        let count = self.list_stored(object, size, list);
        self.remove_marks(object, &list[..usize::from(count)])?;
        Ok(count)
    }

    // The size of an object whose stored pages fit the list. They are counted only where the list might be too short.
    fn check_flush(&self, object: u8, list: &[u16]) -> Result<u16, Refusal>
        ensures { Decides (wrong_flush self.now.sizes (H.MappingHardware.at self.now.hardware) object (length list.now)) result (λ size. size_in self.now.sizes object ≡ Some size) }
    {
        let size = self.open_size(object)?;
        if list.len() < size as usize {
            if list.len() < self.count_stored(object, size) {
                return Err(Refusal::ShortList);
            }
        }
        Ok(size)
    }

    fn is_stored(&self, object: u8, number: u16) -> bool
        ensures { result ≡ is_stored (H.MappingHardware.at self.now.hardware object number) }
    {
        let leaf = self.hardware.leaf(ObjectPage::new(object, number));
        leaf.is_some_and(|leaf| leaf.writable)
    }

    fn count_stored(&self, object: u8, size: u16) -> usize
        ensures { result ≡ stored_below (H.MappingHardware.at self.now.hardware object) size }
    {
        (0..size)
            .filter(|number| self.is_stored(object, *number))
            .count()
    }

    // Writes the stored pages to the list, rising, as far as it reaches, and tells their count, which stands beside the list:
    // that is the caller's memory. A loop over the list's places, zipped with the pages that pass a filter, cannot be stated yet.
    fn list_stored(&self, object: u8, size: u16, list: &mut [u16]) -> u16
        ensures within { result ≤ length list.old }
        ensures listed { stored_below (H.MappingHardware.at self.now.hardware object) size ≤ length list.old → take result list.new ≡ stored_pages (H.MappingHardware.at self.now.hardware object) size }
        ensures later { SameFrom list.old list.new result }
        ensures counted { stored_below (H.MappingHardware.at self.now.hardware object) size ≤ length list.old → result ≡ stored_below (H.MappingHardware.at self.now.hardware object) size }
    {
        let mut count: u16 = 0;
        for number in 0..size {
            if self.is_stored(object, number) && (count as usize) < list.len() {
                list[count as usize] = number;
                count += 1;
            }
        }
        count
    }

    // Puts the leaves that stand once none of the listed pages is stored, rising; each takes the place of those inside
    // it. A leaf with no listed page in its block stands already.
    fn remove_marks(&mut self, object: u8, listed: &[u16]) -> Result<(), Refusal> {
        let mut done = 0;
        for number in listed {
            if *number >= done {
                done = self.unmark(ObjectPage::new(object, *number))?.0;
            }
        }
        Ok(())
    }

    // Puts the leaf that a page has once no page is stored, and tells the page after it.
    fn unmark(&mut self, page: ObjectPage) -> Result<PageNumber, Refusal> {
        let Some(leaf) = self.hardware.leaf(page) else {
            return Ok(page.number);
        };
        let home = Home {
            page,
            frame: leaf.frame_of(page.number),
            mark: None,
        };
        let pages = self.leaf_block(home)?;
        self.lay(home, pages, false)?;
        Ok(pages.end())
    }
}
