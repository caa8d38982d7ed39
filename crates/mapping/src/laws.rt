ghost use Rattle.std.specs.Prelude.{◌≡◌, ℕ};
ghost use Rattle.mapping.specs.Leaves.{LieApart, PutThenCleared, Tells, Determines, laid};

use crate::board::Format;
use crate::hardware::MappingHardware;
use crate::leaf::PutError;
use blocks::block::ObjectBlock;
use blocks::number::FrameNumber;

// Two different leaves of one object never overlap, at any hardware.
pub fn leaves_lie_apart<H: MappingHardware>(hardware: &H)
    ensures { LieApart (H.MappingHardware.at hardware.now) }
{}

// Puts a leaf and clears it again. Where no leaf lay in the block, this changes nothing.
pub fn put_then_clear<H: MappingHardware>(
    hardware: &mut H,
    pages: ObjectBlock,
    frame: FrameNumber,
    writable: bool,
) -> Result<(), PutError>
    ensures { PutThenCleared H.Geometry.sizes (H.MappingHardware.at hardware.old) (H.MappingHardware.at hardware.new) pages.object (laid pages.pages frame writable) result }
{
    hardware.put(pages, frame, writable)?;
    let _ = hardware.clear(pages.first());
    Ok(())
}

// A board's entries determine the leaves: decoding is the inverse of encoding.
pub fn entries_tell<B: Format>()
    ensures tells { Tells B.Geometry.sizes B.Format.entry B.Format.tell }
    ensures determines { Determines B.Geometry.sizes B.Format.entry B.Format.places }
{}
