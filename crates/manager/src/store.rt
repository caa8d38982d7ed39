ghost use Rattle.std.specs.Prelude.{◌≡◌, length};
ghost use Rattle.manager.specs.Arguments.{TurnsDown, wrong_access};

use crate::leaves::Home;
use crate::refusal::Refusal;
use crate::state::Manager;
use blocks::number::{FrameNumber, ObjectPage};
use frames::source::FrameSource;
use mapping::hardware::MappingHardware;
use mapping::leaf::Leaf;

impl<S: FrameSource + Drop, H: MappingHardware + Drop> Manager<S, H> {
    // Sets a word of a page, which is brought in if it is absent, and the page's stored mark.
    pub fn store(
        &mut self,
        memory: &mut [u32],
        page: ObjectPage,
        word: u16,
        value: u32,
    ) -> Result<(), Refusal>
        ensures { TurnsDown (wrong_access self.old.words_a_page.0 (S.FrameSource.means self.old.source).total (length memory.old) self.old.sizes page.object page.number.0 word) result ((self.new ≡ self.old) × (memory.new ≡ memory.old)) }
    {
        let size = self.check_word(memory, page, word)?;
        // A `match`: both arms change the manager, which two closures could not borrow.
        let frame = match self.hardware.leaf(page) {
            Some(leaf) => self.mark_stored(page, leaf)?,
            None => self.bring_in(memory, page, size, true)?,
        };
        self.words_a_page.write(memory, frame, word, value);
        Ok(())
    }

    // Marks a present page as stored, and tells its frame.
    fn mark_stored(&mut self, page: ObjectPage, leaf: Leaf) -> Result<FrameNumber, Refusal> {
        let frame = leaf.frame_of(page.number);
        if leaf.writable {
            return Ok(frame);
        }
        if leaf.order > 0 {
            self.cut(leaf, page)?;
        }
        let home = Home {
            page,
            frame,
            mark: Some(true),
        };
        self.lay(home, self.leaf_block(home)?, true)?;
        Ok(frame)
    }
}
