ghost use Rattle.std.specs.Prelude.{◌≡◌, is_ok, if◌then◌else◌, Some, slice_set};
ghost use Rattle.manager.specs.Arguments.{Decides, TurnsDown, wrong_open};

use crate::refusal::Refusal;
use crate::state::Manager;
use frames::source::FrameSource;
use mapping::hardware::MappingHardware;

impl<S: FrameSource + Drop, H: MappingHardware + Drop> Manager<S, H> {
    // Opens an object of `size` pages, all absent.
    pub fn open(&mut self, object: u8, size: u16) -> Result<(), Refusal>
        ensures reply { Decides (wrong_open self.old.sizes object size) result (λ _. Unit {0}) }
        ensures sizes { self.new.sizes ≡ (if is_ok result then slice_set self.old.sizes object (Some size) else self.old.sizes) }
        ensures source { self.new.source ≡ self.old.source }
        ensures hardware { self.new.hardware ≡ self.old.hardware }
        ensures reserved { self.new.reserved ≡ self.old.reserved }
        ensures present { self.new.present ≡ self.old.present }
        ensures words { self.new.words_a_page ≡ self.old.words_a_page }
    {
        let old = self.size_of(object)?;
        if size == 0 || size > 1024 {
            return Err(Refusal::BadSize);
        }
        if old.is_some() {
            return Err(Refusal::AlreadyOpen);
        }
        self.sizes[object as usize] = Some(size);
        Ok(())
    }
}
