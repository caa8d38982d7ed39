ghost use Rattle.std.specs.Prelude.{◌≡◌, not, is_some};
ghost use Rattle.manager.specs.Arguments.{TurnsDown, or_else, refused_if, wrong_page};

use crate::refusal::Refusal;
use crate::state::Manager;
use blocks::number::ObjectPage;
use frames::source::FrameSource;
use mapping::hardware::MappingHardware;

impl<S: FrameSource + Drop, H: MappingHardware + Drop> Manager<S, H> {
    // Makes a present page absent; its words are lost.
    pub fn release(&mut self, page: ObjectPage) -> Result<(), Refusal>
        ensures { TurnsDown (or_else (wrong_page self.old.sizes page.object page.number.0) (refused_if (not (is_some (H.MappingHardware.at self.old.hardware page.object page.number.0))) 9)) result (self.new ≡ self.old) }
    {
        self.size_at(page)?;
        let leaf = self.hardware.leaf(page).ok_or(Refusal::PageAbsent)?;
        self.cut(leaf, page)?;
        self.present.mark(page, false);
        self.give_frame(page, leaf.frame_of(page.number))
    }
}
