ghost use Rattle.std.specs.Prelude.{◌≡◌, ℕ, ◌+◌, ◌*◌, ◌%◌, ◌^◌, ◌<◌, ◌≤◌, List, Some, None, Option};
ghost use Rattle.mapping.specs.declared.leaf.Leaf.{Leaf};
ghost use Rattle.mapping.specs.Leaves.{Lawful, Falling, Put, Clear, laid};

use crate::leaf::{Leaf, NoLeaf, PutError};
use blocks::block::ObjectBlock;
use blocks::number::{FrameNumber, ObjectPage};

// What a board's tables are made for.
pub trait Geometry {
    const PAGE_BYTES: u32;

    // The orders that a leaf may have, greatest first. The last is 0.
    const SIZES: &'static [u8];

    ghost PAGE_BYTES: { ℕ };

    ghost sizes: { List ℕ };

    // The sizes, for generic code: a ghost member cannot stand for a constant that is a slice.
    fn orders() -> &'static [u8]
        ensures { result.now ≡ sizes };
}

// Tables that map the pages 0 to 1,023 of the objects 0 to 3.
pub trait MappingHardware: Geometry {
    // The leaf of each object and page.
    ghost at: { Self → ℕ → ℕ → Option Leaf };

    // The leaf of a page; none outside the ranges.
    fn leaf(&self, page: ObjectPage) -> Option<Leaf>
        ensures { result ≡ at self.now page.object page.number.0 };

    // Lays a leaf on a block of pages; leaves wholly inside it go. Not a `Leaf` is asked for, whose order may be any and whose
    // pages need be no block.
    fn put(
        &mut self,
        pages: ObjectBlock,
        frame: FrameNumber,
        writable: bool,
    ) -> Result<(), PutError>
        ensures { Put Self.Geometry.sizes (at self.old) (at self.new) pages.object (laid pages.pages frame writable) result };

    // Removes the whole leaf that covers a page, and tells its order.
    fn clear(&mut self, page: ObjectPage) -> Result<u8, NoLeaf>
        ensures { Clear (at self.old) (at self.new) page.object page.number.0 result };

    ghost bounded: { Self.Geometry.PAGE_BYTES ≤ 65536 };

    ghost falling: { Falling Self.Geometry.sizes };

    ghost lawful: { (s : Self) (o p : ℕ) (l : Leaf) → at s o p ≡ Some l → Lawful Self.Geometry.sizes (at s) o p l };
}
