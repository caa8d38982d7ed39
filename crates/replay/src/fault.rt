ghost use Rattle.std.specs.Prelude.{◌≡◌};
ghost use Rattle.replay.specs.Faults.{TellsFault};

use manager::refusal::{Placed, Refusal};

// The trace is empty, too long or of another version.
#[derive(Clone, Copy, PartialEq, Eq, Debug)]
pub struct BadTrace;

// The record at a place of the trace, the offset of its length byte, is none that may stand there.
#[derive(Clone, Copy, PartialEq, Eq, Debug)]
pub struct BadRecord {
    pub place: usize,
}

// The buffer is too short for a line.
#[derive(Clone, Copy, PartialEq, Eq, Debug)]
pub struct ShortBuffer;

impl BadTrace {
    // A method of each error: see `BadBlock`.
    pub fn number(self) -> u8
        ensures { result ≡ 20 }
    {
        20
    }
}

impl BadRecord {
    // A method of each error: see `BadBlock`.
    pub fn number(self) -> u8
        ensures { result ≡ 21 }
    {
        21
    }
}

impl ShortBuffer {
    // A method of each error: see `BadBlock`.
    pub fn number(self) -> u8
        ensures { result ≡ 22 }
    {
        22
    }
}

// What a record's line tells where the record is refused.
#[derive(Clone, Copy, PartialEq, Eq, Debug)]
pub enum Fault {
    Refused(Refusal),
    NoFrame { depth: u8, place: usize },
}

impl From<Placed<usize, Refusal>> for Fault {
    ghost from_gives = { λ e f. TellsFault e.place e.cause f };

    fn from(e: Placed<usize, Refusal>) -> Fault {
        match e.cause {
            Refusal::NoFrame { depth, .. } => Fault::NoFrame {
                depth,
                place: e.place,
            },
            refusal => Fault::Refused(refusal),
        }
    }
}
