ghost use Rattle.std.specs.Prelude.{◌≡◌, ℕ, ◌+◌, ◌*◌, ◌/◌, ◌%◌, ◌^◌, ◌<◌, ◌≤◌, ◌↔◌, Bool, IsTrue, MatchResult};
ghost use Rattle.mapping.specs.Leaves.{Fit, laid};

use crate::leaf::{Leaf, PutError};
use blocks::block::ObjectBlock;
use blocks::number::{FrameNumber, ObjectPage};

// Whether the page is one of the 1,024 of one of the four objects.
pub(crate) fn in_range(page: ObjectPage) -> bool
    ensures { IsTrue result ↔ (page.object < 4) × (page.number.0 < 1024) }
{
    page.object < 4 && page.number.0 < 1024
}

// The two below are as those of an `AlignedBlock`, but for an order that was read from an entry: it cannot be refused.

// How many pages a leaf of an order has.
pub(crate) fn span(order: u8) -> u16
    requires { order < 16 }
    ensures { result ≡ 2 ^ order }
{
    1 << order
}

// The multiple of 2^order at or below a number.
pub(crate) fn floor(number: u16, order: u8) -> u16
    requires { order < 16 }
    ensures { result ≡ number / 2 ^ order * 2 ^ order }
{
    number >> order << order
}

// Whether the hardware can hold a leaf there at all, writable or not.
fn fits(sizes: &[u8], pages: ObjectBlock, frame: FrameNumber) -> bool
    ensures { (writable : Bool) → (IsTrue result ↔ Fit sizes.now pages.object (laid pages.pages frame writable)) }
{
    let count = pages.pages.count();
    sizes.contains(&pages.pages.order())
        && frame.0 % count == 0
        && pages.object < 4
        && pages.pages.first().0 <= 1024 - count
        && frame.0 <= 2048 - count
}

// The leaf that a put asks for, where the hardware can hold it.
pub(crate) fn asked(
    sizes: &[u8],
    pages: ObjectBlock,
    frame: FrameNumber,
    writable: bool,
) -> Result<Leaf, PutError>
    ensures { let leaf = laid pages.pages frame writable in MatchResult result (λ l. (l ≡ leaf) × Fit sizes.now pages.object leaf) (λ e. (e ≡ PutError.Misfit) × (Fit sizes.now pages.object leaf → ⊥)) }
{
    if !fits(sizes, pages, frame) {
        return Err(PutError::Misfit);
    }
    Ok(Leaf {
        first: pages.pages.first(),
        order: pages.pages.order(),
        frame,
        writable,
    })
}
