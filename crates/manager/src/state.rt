ghost use Rattle.std.specs.Prelude.{◌≡◌, length};

use crate::presence::Presence;
use crate::words::WordsAPage;
use frames::source::FrameSource;
use mapping::hardware::MappingHardware;
use reservations::table::Table;

// Four objects of pages over any frame source and any mapping hardware. A page's frame and its stored mark are read
// from the leaf that the hardware tells.
#[derive(Drop)]
pub struct Manager<S: FrameSource + Drop, H: MappingHardware + Drop> {
    pub source: S,
    pub hardware: H,
    pub reserved: Table,
    pub present: Presence,
    // Each object's size in pages, none while it is closed.
    pub sizes: [Option<u16>; 4],
    pub words_a_page: WordsAPage,
}
