ghost use Rattle.std.specs.Prelude.{◌≡◌};
ghost use Rattle.replay.specs.Records.{NamesBoard, call_letter};

use blocks::number::ObjectPage;

// The boards that a trace can name.
#[derive(Clone, Copy, PartialEq, Eq, Debug)]
pub enum Board {
    Alpha,
    Sv39,
}

// No board has this number.
#[derive(Clone, Copy, PartialEq, Eq, Debug)]
pub struct UnknownBoard;

impl TryFrom<u8> for Board {
    type Error = UnknownBoard;

    ghost try_from_gives = { NamesBoard };

    fn try_from(number: u8) -> Result<Board, UnknownBoard> {
        match number {
            1 => Ok(Board::Alpha),
            2 => Ok(Board::Sv39),
            _ => Err(UnknownBoard),
        }
    }
}

// The machine that a trace is for: its board, its frames and the quota over them.
#[derive(Clone, Copy, PartialEq, Eq, Debug)]
pub struct MachineRecord {
    pub board: Board,
    pub frames: u16,
    pub quota: u16,
}

// A call that a trace asks of its machine.
#[derive(Clone, Copy, PartialEq, Eq, Debug)]
pub enum CallRecord {
    Open {
        object: u8,
        size: u16,
    },
    Load {
        page: ObjectPage,
        word: u16,
    },
    Store {
        page: ObjectPage,
        word: u16,
        value: u32,
    },
    Release {
        page: ObjectPage,
    },
    Flush {
        object: u8,
    },
}

#[derive(Clone, Copy, PartialEq, Eq, Debug)]
pub enum Record {
    Machine(MachineRecord),
    Call(CallRecord),
}

impl CallRecord {
    // The letter that names the record's kind, in the trace and in the listing.
    pub fn letter(self) -> u8
        ensures { result ≡ call_letter self }
    {
        match self {
            CallRecord::Open { .. } => b'O',
            CallRecord::Load { .. } => b'L',
            CallRecord::Store { .. } => b'S',
            CallRecord::Release { .. } => b'R',
            CallRecord::Flush { .. } => b'F',
        }
    }
}
