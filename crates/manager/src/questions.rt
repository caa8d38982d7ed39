ghost use Rattle.std.specs.Prelude.{◌≡◌, take};
ghost use Rattle.std.specs.List.{sum_by};
ghost use Rattle.blocks.specs.Bit.{bits_set};
ghost use Rattle.reservations.specs.Reserved.{empty_frames};
ghost use Rattle.manager.specs.Arguments.{Decides, TurnsDown, wrong_page};

use crate::refusal::Refusal;
use crate::state::Manager;
use blocks::block::{FrameBlock, PageBlock};
use blocks::number::ObjectPage;
use frames::source::FrameSource;
use mapping::hardware::MappingHardware;
use mapping::leaf::Leaf;

// The two blocks of a reservation.
#[derive(Clone, Copy, PartialEq, Eq, Debug)]
pub struct ReservedBlocks {
    pub pages: PageBlock,
    pub frames: FrameBlock,
}

// How many frames hold present pages, are held for absent pages, and may be had from the source.
#[derive(Clone, Copy, PartialEq, Eq, Debug)]
pub struct Counts {
    pub present: u16,
    pub empty_reserved: u16,
    pub available: u16,
}

impl<S: FrameSource + Drop, H: MappingHardware + Drop> Manager<S, H> {
    // The leaf of a page, none where it is absent.
    pub fn leaf(&self, page: ObjectPage) -> Result<Option<Leaf>, Refusal>
        ensures { Decides (wrong_page self.now.sizes page.object page.number.0) result (λ told. told ≡ H.MappingHardware.at self.now.hardware page.object page.number.0) }
    {
        self.size_at(page)?;
        Ok(self.hardware.leaf(page))
    }

    // The blocks of the reservation that covers a page, if one does.
    pub fn reservation(&self, page: ObjectPage) -> Result<Option<ReservedBlocks>, Refusal>
        ensures { TurnsDown (wrong_page self.now.sizes page.object page.number.0) result (Unit {0}) }
    {
        self.size_at(page)?;
        let Some(reservation) = self
            .reserved
            .find(page)
            .and_then(|place| self.reserved.get(place))
        else {
            return Ok(None);
        };
        Ok(Some(ReservedBlocks {
            pages: reservation.pages()?,
            frames: reservation.frames()?,
        }))
    }

    pub fn counts(&self) -> Counts
        ensures present { result.present ≡ bits_set self.now.present.words }
        ensures empty { result.empty_reserved ≡ sum_by empty_frames self.now.reserved }
        ensures available { result.available ≡ (S.FrameSource.means self.now.source).avail }
    {
        Counts {
            present: self.present.count(),
            empty_reserved: self.reserved.empty(),
            available: self.source.available(),
        }
    }
}
