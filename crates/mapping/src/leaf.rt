ghost use Rattle.std.specs.Prelude.{◌≡◌, ◌+◌, ◌-◌, ◌^◌, ◌<◌, ◌≤◌, min};
ghost use Rattle.mapping.specs.Leaves.{put_error_number, no_leaf_number};

use blocks::number::{FrameNumber, PageNumber};

// One table entry's worth of mapping: a block of pages on consecutive frames. Plain numbers: an entry may tell any,
// and a record of the three would only be one more name in each clause.
#[derive(Clone, Copy, PartialEq, Eq, Debug)]
pub struct Leaf {
    pub first: PageNumber,
    pub order: u8,
    pub frame: FrameNumber,
    pub writable: bool,
}

impl Leaf {
    // The frame of a page under it.
    pub fn frame_of(self, page: PageNumber) -> FrameNumber
        ensures { result.0 ≡ min (self.frame.0 + (page.0 - self.first.0)) (2 ^ 16 - 1) }
    {
        self.frame.beside(self.first, page)
    }

    // The page after its last.
    pub fn end(self) -> PageNumber
        ensures { self.order ≤ 9 → self.first.0 + 2 ^ self.order < 2 ^ 16 → result.0 ≡ self.first.0 + 2 ^ self.order }
    {
        PageNumber(self.first.0.saturating_add(1 << self.order.min(9)))
    }
}

// Why a leaf was not put.
#[derive(Clone, Copy, PartialEq, Eq, Debug)]
pub enum PutError {
    // Not a size of the hardware, a frame that is not aligned, or pages, frames or an object out of range.
    Misfit,
    // A leaf that lies there reaches out of the block.
    Reaching,
}

impl PutError {
    // A method of each error: see `BadBlock`.
    pub fn number(self) -> u8
        ensures { result ≡ put_error_number self }
    {
        match self {
            PutError::Misfit => 15,
            PutError::Reaching => 16,
        }
    }
}

// The page has no leaf to clear.
#[derive(Clone, Copy, PartialEq, Eq, Debug)]
pub struct NoLeaf;

impl NoLeaf {
    // A method of each error: see `BadBlock`.
    pub fn number(self) -> u8
        ensures { result ≡ no_leaf_number }
    {
        17
    }
}
