ghost use Rattle.std.specs.Prelude.{◌≡◌, length};
ghost use Rattle.manager.specs.Arguments.{TurnsDown, wrong_access};

use crate::refusal::Refusal;
use crate::state::Manager;
use blocks::number::ObjectPage;
use frames::source::FrameSource;
use mapping::hardware::MappingHardware;

impl<S: FrameSource + Drop, H: MappingHardware + Drop> Manager<S, H> {
    // A word of a page, which is brought in if it is absent.
    pub fn load(&mut self, memory: &mut [u32], page: ObjectPage, word: u16) -> Result<u32, Refusal>
        ensures { TurnsDown (wrong_access self.old.words_a_page.0 (S.FrameSource.means self.old.source).total (length memory.old) self.old.sizes page.object page.number.0 word) result ((self.new ≡ self.old) × (memory.new ≡ memory.old)) }
    {
        let size = self.check_word(memory, page, word)?;
        // A `match`: `map_or_else` would wrap one arm in an `Ok` for the other to refuse.
        let frame = match self.hardware.leaf(page) {
            Some(leaf) => leaf.frame_of(page.number),
            None => self.bring_in(memory, page, size, false)?,
        };
        Ok(self.words_a_page.read(memory, frame, word))
    }
}
