ghost use Rattle.std.specs.Prelude.{◌≡◌};
ghost use Rattle.frames.specs.Limited.{passed_up};
ghost use Rattle.frames.specs.Refusals.{take_number, give_number, bad_source_number};

// Why a take gave no block.
#[derive(Clone, Copy, PartialEq, Eq, Debug)]
pub enum TakeError {
    // The order is above 9.
    BadOrder,
    // The source has no such block. `depth` counts the layers that passed this up.
    NoBlock { depth: u8 },
}

impl TakeError {
    // The refusal's number. None is an answer and no refusal, so it has none. A method of each error: see `BadBlock`.
    pub fn number(self) -> Option<u8>
        ensures { result ≡ take_number self }
    {
        match self {
            TakeError::BadOrder => Some(12),
            TakeError::NoBlock { depth: _ } => None,
        }
    }

    // The same answer, one layer further up.
    pub(crate) fn passed_up(self) -> TakeError
        ensures { result ≡ passed_up self }
    {
        match self {
            TakeError::BadOrder => TakeError::BadOrder,
            TakeError::NoBlock { depth } => TakeError::NoBlock {
                depth: depth.saturating_add(1),
            },
        }
    }
}

// Why a give was refused.
#[derive(Clone, Copy, PartialEq, Eq, Debug)]
pub enum GiveError {
    // The block reaches past the source's frames.
    PastEnd,
    // A frame of the block is free already.
    AlreadyFree,
}

impl GiveError {
    // A method of each error: see `BadBlock`.
    pub fn number(self) -> u8
        ensures { result ≡ give_number self }
    {
        match self {
            GiveError::PastEnd => 12,
            GiveError::AlreadyFree => 13,
        }
    }
}

// What a source is to be made of does not fit.
#[derive(Clone, Copy, PartialEq, Eq, Debug)]
pub struct BadSource;

impl BadSource {
    // A method of each error: see `BadBlock`.
    pub fn number(self) -> u8
        ensures { result ≡ bad_source_number }
    {
        14
    }
}
