ghost use Rattle.std.specs.Prelude.{◌≡◌, ℕ, ◌+◌, ◌<◌, ◌≤◌, length, Some, None};
ghost use Rattle.replay.specs.declared.opening.Cause.TheVariants as CauseIs;

use crate::fault::{BadRecord, BadTrace, ShortBuffer};
use crate::line::{check_buffer, write_line, write_title};
use crate::lines::Lines;
use crate::machine_replay::{MachineReplay, bad_record_line};
use crate::reader::{FIRST_PLACE, Parsed, check_trace, read_record};
use crate::record::{Board, MachineRecord, Record};
use frames::buddy::Buddy;
use frames::quota::Quota;
use frames::refusal::BadSource;
use frames::source::FrameSource;
use manager::state::Manager;
use mapping::alpha::Alpha;
use mapping::board::{AcceptedTable, Board as BoardTable, Format};
use mapping::hardware::MappingHardware;
use mapping::sv39::Sv39;
use std::alloc::{AllocError, Global};

// Why a trace has no machine.
#[derive(Clone, Copy, PartialEq, Eq, Debug)]
pub enum Cause {
    BadTrace(BadTrace),
    BadRecord(BadRecord),
    Refused(BadSource),
    // It ends behind its version.
    NoRecord,
}

impl From<BadTrace> for Cause {
    ghost from_gives = { λ e c. c ≡ CauseIs.BadTrace e };

    fn from(e: BadTrace) -> Cause {
        Cause::BadTrace(e)
    }
}

impl From<BadRecord> for Cause {
    ghost from_gives = { λ e c. c ≡ CauseIs.BadRecord e };

    fn from(e: BadRecord) -> Cause {
        Cause::BadRecord(e)
    }
}

impl From<BadSource> for Cause {
    ghost from_gives = { λ e c. c ≡ CauseIs.Refused e };

    fn from(e: BadSource) -> Cause {
        Cause::Refused(e)
    }
}

// What comes next in the listing of a trace that has no machine, kept between two calls for a line.
#[derive(Clone, Copy, PartialEq, Eq, Debug)]
enum Stage {
    Title,
    Cause,
    Ended,
}

// The listing of a trace that has no machine.
#[derive(Clone, Copy, PartialEq, Eq, Debug)]
pub struct Machineless {
    stage: Stage,
    cause: Cause,
}

impl Machineless {
    pub fn new(cause: Cause) -> Machineless
        ensures { (result.stage ≡ Stage.Title) × (result.cause ≡ cause) }
    {
        Machineless {
            stage: Stage::Title,
            cause,
        }
    }

    // The line that tells the cause, if it has one. It hands the buffer on to those that make a `Line` of it.
    fn cause_line(&self, buffer: &mut [u8]) -> Option<usize>
        ensures { elim result [ Some n ↦ (n ≤ length buffer.old) | None ↦ Unit {0} ] }
    {
        match self.cause {
            Cause::BadTrace(bad) => {
                Some(write_line(buffer, b'X', &[u32::from(bad.number()), 0]))
            }
            Cause::BadRecord(bad) => Some(bad_record_line(bad, buffer)),
            Cause::Refused(bad) => Some(write_line(buffer, b'M', &[u32::from(bad.number())])),
            Cause::NoRecord => None,
        }
    }
}

impl Lines for Machineless {
    fn next_line(&mut self, buffer: &mut [u8]) -> Result<Option<usize>, ShortBuffer> {
        check_buffer(buffer)?;
        match self.stage {
            Stage::Title => {
                self.stage = Stage::Cause;
                Ok(Some(write_title(buffer)))
            }
            Stage::Cause => {
                self.stage = Stage::Ended;
                Ok(self.cause_line(buffer))
            }
            Stage::Ended => Ok(None),
        }
    }
}

// A trace on the machine that it asks for, or without one.
#[derive(Drop)]
pub enum Opened<'a> {
    Alpha(MachineReplay<'a, Quota<Buddy>, Alpha>),
    Sv39(MachineReplay<'a, Quota<Buddy>, Sv39>),
    Without(Machineless),
}

// The machine that a trace begins with.
fn read_machine(trace: &[u8]) -> Result<Parsed<MachineRecord>, Cause> {
    check_trace(trace)?;
    if trace.len() <= FIRST_PLACE {
        return Err(Cause::NoRecord);
    }
    let Parsed { record, next } = read_record(trace, FIRST_PLACE)?;
    match record {
        Record::Machine(record) => Ok(Parsed { record, next }),
        Record::Call(_) => Err(BadRecord { place: FIRST_PLACE })?,
    }
}

// The frames of a machine: a quota over a buddy source.
fn make_source(machine: MachineRecord) -> Result<Quota<Buddy>, BadSource> {
    let buddy = Buddy::make(Buddy::check(machine.frames)?);
    let accepted = Quota::check(machine.quota, buddy).map_err(|refused| refused.refusal)?;
    Ok(Quota::make(accepted))
}

// What a trace begins with, and the frames of the machine that it asks for.
fn read_source(trace: &[u8]) -> Result<(Parsed<MachineRecord>, Quota<Buddy>), Cause> {
    let first = read_machine(trace)?;
    Ok((first, make_source(first.record)?))
}

// A table for a board, as long as it needs.
fn blank_table<B: BoardTable>(heap: Global) -> Result<AcceptedTable<B>, AllocError> {
    Ok(B::check(vec![in heap; 0u64; B::ENTRIES]?).unwrap())
}

// The replay over some hardware, with a memory of a word for each frame and room for the pages of a flush. None would
// tell that the memory does not fit, which does not happen: `unwrap` was tried, and the proof did not close.
fn start<'a, H: MappingHardware + Drop>(
    trace: &'a [u8],
    heap: Global,
    second: usize,
    source: Quota<Buddy>,
    hardware: H,
) -> Result<Option<MachineReplay<'a, Quota<Buddy>, H>>, AllocError> {
    let memory = vec![in heap; 0u32; source.frames() as usize]?;
    let flushed = vec![in heap; 0u16; 1024]?;
    let Ok(accepted) = Manager::check(source, hardware, 1, memory.as_slice()) else {
        return Ok(None);
    };
    Ok(Some(MachineReplay::new(trace, second, Manager::start(accepted), memory, flushed)))
}

// The replay of a trace on the machine that its first record asks for. The two boards differ in how they are made of a
// table: no trait has that, and no bound on a function that takes an `AcceptedTable<B>` can be stated.
fn open_on<'a>(
    trace: &'a [u8],
    heap: Global,
    first: Parsed<MachineRecord>,
    source: Quota<Buddy>,
) -> Result<Opened<'a>, AllocError> {
    match first.record.board {
        Board::Alpha => {
            let hardware = Alpha::make(blank_table(heap)?);
            match start(trace, heap, first.next, source, hardware)? {
                Some(replay) => Ok(Opened::Alpha(replay)),
                None => Ok(Opened::Without(Machineless::new(Cause::NoRecord))),
            }
        }
        Board::Sv39 => {
            let hardware = Sv39::make(blank_table(heap)?);
            match start(trace, heap, first.next, source, hardware)? {
                Some(replay) => Ok(Opened::Sv39(replay)),
                None => Ok(Opened::Without(Machineless::new(Cause::NoRecord))),
            }
        }
    }
}

// Opens a trace: makes the machine that its first record asks for.
pub fn open_trace<'a>(trace: &'a [u8], heap: Global) -> Result<Opened<'a>, AllocError> {
    match read_source(trace) {
        Ok((first, source)) => open_on(trace, heap, first, source),
        Err(cause) => Ok(Opened::Without(Machineless::new(cause))),
    }
}
