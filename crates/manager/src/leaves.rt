ghost use Rattle.std.specs.Prelude.{◌≡◌, ◌+◌, ◌-◌, ◌<◌, ◌≤◌};

use crate::refusal::Refusal;
use crate::state::Manager;
use blocks::block::{ObjectBlock, PageBlock};
use blocks::number::{FrameNumber, ObjectPage, PageNumber};
use frames::source::FrameSource;
use mapping::hardware::MappingHardware;
use mapping::leaf::Leaf;

// A page, the frame that it lies in, and the mark that pages in one leaf with it bear; none while all marks are about to
// go, so that it does not matter.
#[derive(Clone, Copy, PartialEq, Eq, Debug)]
pub struct Home {
    pub page: ObjectPage,
    pub frame: FrameNumber,
    pub mark: Option<bool>,
}

// A block around a home goes beside it: one value of both, made for each size, kept the compiler from unrolling the search
// over the sizes, and that search took twice as long.
impl Home {
    // Whether another page lies under its leaf where it would under one leaf with this one, with the same mark. Under one
    // leaf all pages lie equally far from their frames.
    fn fits(self, leaf: Leaf) -> bool {
        u32::from(leaf.frame.0) + u32::from(self.page.number.0)
            == u32::from(self.frame.0) + u32::from(leaf.first.0)
            && self.mark.is_none_or(|mark| mark == leaf.writable)
    }

    // A block of pages of its object.
    fn block(self, pages: PageBlock) -> ObjectBlock
        ensures { (result.object ≡ self.page.object) × (result.pages ≡ pages) }
    {
        ObjectBlock {
            object: self.page.object,
            pages,
        }
    }

    // How far it lies from the first page of a block around it.
    fn distance(self, pages: PageBlock) -> u16
        ensures { result ≡ self.page.number.0 - pages.block.first }
    {
        self.page.number.0.saturating_sub(pages.first().0)
    }
}

// Which leaves stand: a page has one of the greatest size whose block is wholly present, in frames that rise with the
// pages from a multiple of their count, all stored or all unstored.
impl<S: FrameSource + Drop, H: MappingHardware + Drop> Manager<S, H> {
    // The leaf of another page of the object, if that page lies where it would under one leaf with `home`.
    fn lies(&self, home: Home, number: u16) -> Option<Leaf> {
        let page = ObjectPage::new(home.page.object, number);
        let leaf = self.hardware.leaf(page)?;
        home.fits(leaf).then_some(leaf)
    }

    // Whether every other page of a block around `home` lies where it would under one leaf with it. A step is as long as
    // the leaf there, so no range has the pages that are looked at.
    fn joins(&self, home: Home, pages: PageBlock) -> bool {
        let end = pages.end().0;
        let mut number = pages.first().0;
        while number < end {
            if number == home.page.number.0 {
                number += 1;
            } else {
                let Some(leaf) = self.lies(home, number) else {
                    return false;
                };
                number = leaf.end().0.max(number + 1);
            }
        }
        true
    }

    // Whether the pages beside `home` in a block lie where they would under one leaf with it: most blocks that are no
    // leaf fail here, before the whole block is looked at.
    fn fits_beside(&self, home: Home, pages: PageBlock) -> bool {
        let number = home.page.number.0;
        if number > pages.first().0 && self.lies(home, number - 1).is_none() {
            return false;
        }
        number >= pages.end().0 - 1 || self.lies(home, number + 1).is_some()
    }

    // Whether a block around `home` is one leaf.
    fn is_leaf(&self, home: Home, pages: PageBlock) -> bool {
        let distance = home.distance(pages);
        home.frame.0 >= distance
            && (home.frame.0 - distance) % pages.count() == 0
            && self.present.all(home.block(pages))
            && self.fits_beside(home, pages)
            && self.joins(home, pages)
    }

    // The block of the leaf of a present page.
    pub(crate) fn leaf_block(&self, home: Home) -> Result<PageBlock, Refusal> {
        for order in H::orders() {
            let pages = PageBlock::around(home.page.number, *order)?;
            if pages.count() == 1 || self.is_leaf(home, pages) {
                return Ok(pages);
            }
        }
        Ok(PageBlock::around(home.page.number, 0)?)
    }

    // Puts one leaf on a block around `home`.
    pub(crate) fn lay(
        &mut self,
        home: Home,
        pages: PageBlock,
        writable: bool,
    ) -> Result<(), Refusal> {
        let frame = FrameNumber(home.frame.0.saturating_sub(home.distance(pages)));
        Ok(self.hardware.put(home.block(pages), frame, writable)?)
    }

    // Removes the leaf of a page, and lays it again beside the page.
    pub(crate) fn cut(&mut self, leaf: Leaf, page: ObjectPage) -> Result<(), Refusal> {
        self.hardware.clear(page)?;
        let mut rest = leaf;
        for order in H::orders() {
            if *order < rest.order {
                rest = self.split(rest, *order, page)?;
            }
        }
        Ok(())
    }

    // Lays a leaf again in leaves of a lesser order, but for the one around a page, which it returns.
    fn split(&mut self, leaf: Leaf, order: u8, page: ObjectPage) -> Result<Leaf, Refusal> {
        let part = PageBlock::around(page.number, order)?;
        let whole = PageBlock::new(leaf.first, leaf.order)?;
        for first in (whole.first().0..whole.end().0).step_by(part.count() as usize) {
            if first != part.first().0 {
                let block = ObjectBlock {
                    object: page.object,
                    pages: PageBlock::new(PageNumber(first), order)?,
                };
                let frame = leaf.frame_of(PageNumber(first));
                self.hardware.put(block, frame, leaf.writable)?;
            }
        }
        Ok(Leaf {
            first: part.first(),
            order,
            frame: leaf.frame_of(part.first()),
            writable: leaf.writable,
        })
    }
}
