ghost use Rattle.std.specs.Prelude.{◌≡◌, Ok, Err};
ghost use Rattle.manager.specs.Refusals.{number_of};
ghost use Rattle.manager.specs.declared.refusal.Refusal.TheVariants.{NoFrame, Block, Give, Put, Clear};
ghost use Rattle.frames.specs.declared.refusal.TakeError.TheVariants.{BadOrder, NoBlock};

use blocks::aligned::BadBlock;
use blocks::number::ObjectPage;
use frames::refusal::{GiveError, TakeError};
use mapping::leaf::{NoLeaf, PutError};

// Why a call was refused. The last four come from below, where a source or a board says what its meaning rules out.
#[derive(Clone, Copy, PartialEq, Eq, Debug)]
pub enum Refusal {
    // The words a page are no power of two from 1 to 2,048.
    BadWords,
    // The frame memory has not as many words as the frames need.
    BadMemory,
    // No object has this number.
    BadObject,
    // An object has 1 to 1,024 pages.
    BadSize,
    AlreadyOpen,
    NotOpen,
    PagePastSize,
    WordPastPage,
    PageAbsent,
    // The list is shorter than the stored pages are many.
    ShortList,
    // No frame for a page; the depth is the source's.
    NoFrame { page: ObjectPage, depth: u8 },
    Block,
    Give(GiveError),
    Put(PutError),
    Clear,
}

impl Refusal {
    // A method of each error: see `BadBlock`.
    pub fn number(self) -> u8
        ensures { result ≡ number_of self }
    {
        match self {
            Refusal::BadWords => 1,
            Refusal::BadMemory => 2,
            Refusal::BadObject => 3,
            Refusal::BadSize => 4,
            Refusal::AlreadyOpen => 5,
            Refusal::NotOpen => 6,
            Refusal::PagePastSize => 7,
            Refusal::WordPastPage => 8,
            Refusal::PageAbsent => 9,
            Refusal::ShortList => 10,
            Refusal::NoFrame { .. } => 11,
            Refusal::Block => 12,
            Refusal::Give(e) => e.number(),
            Refusal::Put(e) => e.number(),
            Refusal::Clear => 17,
        }
    }
}

// What went wrong, and where: at a page of an object, or at a record of a trace.
#[derive(Clone, Copy, PartialEq, Eq, Debug)]
pub struct Placed<P, E> {
    pub place: P,
    pub cause: E,
}

// The same result, its error placed.
pub fn placed_at<T, P: Copy, E: Drop>(res: Result<T, E>, place: P) -> Result<T, Placed<P, E>>
    ensures { elim res [ Ok value ↦ result ≡ Ok value | Err cause ↦ result ≡ Err (record { place = place; cause = cause }) ] }
{
    res.map_err(|cause| Placed { place, cause })
}

impl From<Placed<ObjectPage, TakeError>> for Refusal {
    ghost from_gives = { λ e r. elim e.cause [ BadOrder ↦ r ≡ Block | NoBlock depth ↦ r ≡ NoFrame e.place depth ] };

    fn from(e: Placed<ObjectPage, TakeError>) -> Refusal {
        match e.cause {
            TakeError::BadOrder => Refusal::Block,
            TakeError::NoBlock { depth } => Refusal::NoFrame {
                page: e.place,
                depth,
            },
        }
    }
}

impl From<BadBlock> for Refusal {
    ghost from_gives = { λ _ r. r ≡ Block };

    fn from(_e: BadBlock) -> Refusal {
        Refusal::Block
    }
}

impl From<GiveError> for Refusal {
    ghost from_gives = { λ e r. r ≡ Give e };

    fn from(e: GiveError) -> Refusal {
        Refusal::Give(e)
    }
}

impl From<PutError> for Refusal {
    ghost from_gives = { λ e r. r ≡ Put e };

    fn from(e: PutError) -> Refusal {
        Refusal::Put(e)
    }
}

impl From<NoLeaf> for Refusal {
    ghost from_gives = { λ _ r. r ≡ Clear };

    fn from(_e: NoLeaf) -> Refusal {
        Refusal::Clear
    }
}
