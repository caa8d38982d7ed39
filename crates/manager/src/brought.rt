use crate::leaves::Home;
use crate::refusal::Refusal;
use crate::state::Manager;
use blocks::number::{FrameNumber, ObjectPage};
use frames::source::FrameSource;
use mapping::hardware::MappingHardware;

impl<S: FrameSource + Drop, H: MappingHardware + Drop> Manager<S, H> {
    // Brings in an absent page, with all words 0 and its final mark, so that its leaf is put once.
    pub(crate) fn bring_in(
        &mut self,
        memory: &mut [u32],
        page: ObjectPage,
        size: u16,
        writable: bool,
    ) -> Result<FrameNumber, Refusal> {
        let frame = self.choose_frame(page, size)?;
        self.present.mark(page, true);
        let home = Home {
            page,
            frame,
            mark: Some(writable),
        };
        self.lay(home, self.leaf_block(home)?, writable)?;
        self.words_a_page.zero_page(memory, frame);
        Ok(frame)
    }
}
