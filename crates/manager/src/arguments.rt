ghost use Rattle.std.specs.Prelude.{◌≡◌, ℕ, ◌+◌, ◌*◌, ◌^◌, ◌<◌, ◌≤◌, length, Some};
ghost use Rattle.manager.specs.Arguments.{Decides, size_in, wrong_access, wrong_memory, wrong_number, wrong_object, wrong_page, wrong_word};

use crate::refusal::Refusal;
use crate::state::Manager;
use blocks::number::ObjectPage;
use frames::source::FrameSource;
use mapping::hardware::MappingHardware;

// The tests of a call's arguments, each after those that take precedence over it.
impl<S: FrameSource + Drop, H: MappingHardware + Drop> Manager<S, H> {
    // The frame memory has the words of every frame.
    pub(crate) fn check_memory(&self, memory: &[u32]) -> Result<(), Refusal>
        ensures { Decides (wrong_memory self.now.words_a_page.0 (S.FrameSource.means self.now.source).total (length memory.now)) result (λ _. Unit {0}) }
    {
        if memory.len() != self.words_a_page.of_frames(self.source.frames()) {
            return Err(Refusal::BadMemory);
        }
        Ok(())
    }

    // The size of an object that has this number, none where it is closed.
    pub(crate) fn size_of(&self, object: u8) -> Result<Option<u16>, Refusal>
        ensures { Decides (wrong_number object) result (λ size. (object < 4) × (size ≡ size_in self.now.sizes object)) }
    {
        if object > 3 {
            return Err(Refusal::BadObject);
        }
        Ok(self.sizes[object as usize])
    }

    // The size of an open object.
    pub(crate) fn open_size(&self, object: u8) -> Result<u16, Refusal>
        ensures { Decides (wrong_object self.now.sizes object) result (λ size. size_in self.now.sizes object ≡ Some size) }
    {
        self.size_of(object)?.ok_or(Refusal::NotOpen)
    }

    // The size of the object that a page is one of.
    pub(crate) fn size_at(&self, page: ObjectPage) -> Result<u16, Refusal>
        ensures { Decides (wrong_page self.now.sizes page.object page.number.0) result (λ size. size_in self.now.sizes page.object ≡ Some size) }
    {
        let size = self.open_size(page.object)?;
        if page.number.0 >= size {
            return Err(Refusal::PagePastSize);
        }
        Ok(size)
    }

    // The same, where the word is one of the page.
    pub(crate) fn size_at_word(&self, page: ObjectPage, word: u16) -> Result<u16, Refusal>
        ensures { Decides (wrong_word self.now.sizes self.now.words_a_page.0 page.object page.number.0 word) result (λ size. size_in self.now.sizes page.object ≡ Some size) }
    {
        let size = self.size_at(page)?;
        if word >= self.words_a_page.0 {
            return Err(Refusal::WordPastPage);
        }
        Ok(size)
    }

    // What load and store ask: the frame memory, and then the object, the page and the word.
    pub(crate) fn check_word(
        &self,
        memory: &[u32],
        page: ObjectPage,
        word: u16,
    ) -> Result<u16, Refusal>
        ensures { Decides (wrong_access self.now.words_a_page.0 (S.FrameSource.means self.now.source).total (length memory.now) self.now.sizes page.object page.number.0 word) result (λ size. size_in self.now.sizes page.object ≡ Some size) }
    {
        self.check_memory(memory)?;
        self.size_at_word(page, word)
    }
}
