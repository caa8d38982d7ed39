ghost use Rattle.std.specs.Prelude.{◌≡◌, ℕ, ◌+◌, ◌<◌, ◌≤◌, length, IfErr};
ghost use Rattle.replay.specs.Faults.{FaultAt};

use crate::fault::{BadRecord, Fault, ShortBuffer};
use crate::line::{check_buffer, write_flush, write_line, write_title};
use crate::lines::Lines;
use crate::reader::read_record;
use crate::record::{CallRecord, Record};
use blocks::number::{FrameNumber, ObjectPage};
use frames::source::FrameSource;
use manager::refusal::{Refusal, placed_at};
use manager::state::Manager;
use mapping::hardware::MappingHardware;

// What comes next in the listing of a trace that has a machine. The caller asks for one line at a time, so this is kept
// between two calls.
#[derive(Clone, Copy, PartialEq, Eq, Debug)]
pub enum Stage {
    Title,
    Machine,
    Records { place: usize },
    Counts,
    Ended,
}

// A place as a line tells it: none lies past 65,535.
fn told_place(place: usize) -> u32
    ensures few { result ≤ 65535 }
    ensures same { place ≤ 65535 → result ≡ place }
{
    place.min(65535) as u32
}

// The functions that write a line take the caller's buffer and hand it on to `write_line` and its like, which make a `Line`
// of it: a `Line` of their own would be open in two places at once.

// The line of a record that may not stand where it does.
pub(crate) fn bad_record_line(bad: BadRecord, buffer: &mut [u8]) -> usize
    ensures { result ≤ length buffer.old }
{
    write_line(
        buffer,
        b'X',
        &[u32::from(bad.number()), told_place(bad.place)],
    )
}

// The replay of a trace on the machine that it asked for.
#[derive(Drop)]
pub struct MachineReplay<'a, S: FrameSource + Drop, H: MappingHardware + Drop> {
    trace: &'a [u8],
    stage: Stage,
    // Where the record after the machine stands.
    second: usize,
    manager: Manager<S, H>,
    memory: Vec<u32>,
    flushed: Vec<u16>,
}

// Where a page lies after a load or a store: its frame and the order of its leaf.
#[derive(Clone, Copy, PartialEq, Eq, Debug)]
pub struct Lying {
    pub frame: FrameNumber,
    pub order: u8,
}

// What an accepted call tells.
#[derive(Clone, Copy, PartialEq, Eq, Debug)]
pub enum Told {
    Nothing,
    Loaded { word: u32, lying: Lying },
    Stored(Lying),
    // The pages are the first ones of the replay's own list, which is made once: so only their count is told.
    Flushed { count: u16 },
}

impl<'a, S: FrameSource + Drop, H: MappingHardware + Drop> MachineReplay<'a, S, H> {
    pub fn new(
        trace: &'a [u8],
        second: usize,
        manager: Manager<S, H>,
        memory: Vec<u32>,
        flushed: Vec<u16>,
    ) -> MachineReplay<'a, S, H>
        ensures { (result.trace ≡ trace.entry) × (result.stage ≡ Stage.Title) × (result.second ≡ second) × (result.manager ≡ manager) × (result.memory ≡ memory) × (result.flushed ≡ flushed) }
    {
        MachineReplay {
            trace,
            stage: Stage::Title,
            second,
            manager,
            memory,
            flushed,
        }
    }

    fn lying(&self, page: ObjectPage) -> Result<Lying, Refusal> {
        let leaf = self.manager.leaf(page)?.ok_or(Refusal::PageAbsent)?;
        Ok(Lying {
            frame: leaf.frame_of(page.number),
            order: leaf.order,
        })
    }

    // Has the manager serve a call.
    fn call(&mut self, asked: CallRecord) -> Result<Told, Refusal> {
        match asked {
            CallRecord::Open { object, size } => {
                self.manager.open(object, size)?;
                Ok(Told::Nothing)
            }
            CallRecord::Load { page, word } => {
                let word = self.manager.load(&mut self.memory, page, word)?;
                let lying = self.lying(page)?;
                Ok(Told::Loaded { word, lying })
            }
            CallRecord::Store { page, word, value } => {
                self.manager.store(&mut self.memory, page, word, value)?;
                Ok(Told::Stored(self.lying(page)?))
            }
            CallRecord::Release { page } => {
                self.manager.release(page)?;
                Ok(Told::Nothing)
            }
            CallRecord::Flush { object } => {
                let count = self.manager.flush(object, &mut self.flushed)?;
                Ok(Told::Flushed { count })
            }
        }
    }

    // The same; a refusal gets the place of its record.
    fn serve(&mut self, asked: CallRecord, place: usize) -> Result<Told, Fault>
        ensures { IfErr result (FaultAt place) }
    {
        Ok(placed_at(self.call(asked), place)?)
    }

    // Serves a call and writes its line.
    fn call_line(&mut self, asked: CallRecord, place: usize, buffer: &mut [u8]) -> usize
        ensures { result ≤ length buffer.old }
    {
        let letter = asked.letter();
        match self.serve(asked, place) {
            Ok(told) => self.told_line(letter, told, buffer),
            Err(Fault::Refused(refusal)) => {
                write_line(buffer, letter, &[u32::from(refusal.number())])
            }
            Err(Fault::NoFrame { depth, place }) => {
                write_line(buffer, letter, &[11, u32::from(depth), told_place(place)])
            }
        }
    }

    fn told_line(&self, letter: u8, told: Told, buffer: &mut [u8]) -> usize
        ensures { result ≤ length buffer.old }
    {
        match told {
            Told::Nothing => write_line(buffer, letter, &[0]),
            Told::Loaded { word, lying } => {
                let Lying { frame, order } = lying;
                write_line(
                    buffer,
                    letter,
                    &[0, word, u32::from(frame.0), u32::from(order)],
                )
            }
            Told::Stored(Lying { frame, order }) => {
                write_line(buffer, letter, &[0, u32::from(frame.0), u32::from(order)])
            }
            Told::Flushed { count } => {
                let pages = self.flushed.as_slice();
                write_flush(
                    buffer,
                    count,
                    &pages[0..usize::from(count).min(pages.len())],
                )
            }
        }
    }

    // The line of the record at a place, or of its being bad, which ends the records.
    fn record_line(&mut self, place: usize, buffer: &mut [u8]) -> usize
        ensures { result ≤ length buffer.old }
    {
        match read_record(self.trace, place) {
            Ok(read) => {
                self.stage = Stage::Records { place: read.next };
                match read.record {
                    Record::Call(asked) => self.call_line(asked, place, buffer),
                    Record::Machine(_) => write_line(buffer, b'M', &[0]),
                }
            }
            Err(bad) => {
                self.stage = Stage::Counts;
                bad_record_line(bad, buffer)
            }
        }
    }

    fn counts_line(&mut self, buffer: &mut [u8]) -> usize
        ensures { result ≤ length buffer.old }
    {
        self.stage = Stage::Ended;
        let counts = self.manager.counts();
        write_line(
            buffer,
            b'T',
            &[
                u32::from(counts.present),
                u32::from(counts.empty_reserved),
                u32::from(counts.available),
            ],
        )
    }
}

impl<'a, S: FrameSource + Drop, H: MappingHardware + Drop> Lines for MachineReplay<'a, S, H> {
    fn next_line(&mut self, buffer: &mut [u8]) -> Result<Option<usize>, ShortBuffer> {
        check_buffer(buffer)?;
        match self.stage {
            Stage::Title => {
                self.stage = Stage::Machine;
                Ok(Some(write_title(buffer)))
            }
            Stage::Machine => {
                self.stage = Stage::Records { place: self.second };
                Ok(Some(write_line(buffer, b'M', &[0])))
            }
            Stage::Records { place } => {
                if place < self.trace.len() {
                    return Ok(Some(self.record_line(place, buffer)));
                }
                Ok(Some(self.counts_line(buffer)))
            }
            Stage::Counts => Ok(Some(self.counts_line(buffer))),
            Stage::Ended => Ok(None),
        }
    }
}
