ghost use Rattle.std.specs.Prelude.{◌≡◌, ◌≢◌, ℕ, List, ◌+◌, ◌≤◌, ◌∷◌, length, IfOk, MatchOption, MatchResult, slice_index};
ghost use Rattle.replay.specs.declared.record.Record.{Record};
ghost use Rattle.replay.specs.Records.{IsRecordAt, StandsAt, call_bytes, call_length, machine_bytes, page_bytes, record_length};

use crate::fault::{BadRecord, BadTrace};
use crate::record::{Board, CallRecord, MachineRecord, Record};
use blocks::number::{ObjectPage, PageNumber};

// Where the first record stands: behind the version byte.
pub const FIRST_PLACE: usize = 1;

// What a record says, and the place of the next.
#[derive(Clone, Copy, PartialEq, Eq, Debug)]
pub struct Parsed<R> {
    pub record: R,
    pub next: usize,
}

pub type ReadRecord = Parsed<Record>;

// A trace is not empty, has at most 65,535 bytes, and begins with the version, 1.
pub fn check_trace(trace: &[u8]) -> Result<(), BadTrace>
    ensures { MatchResult result (λ _. (length trace.now ≤ 65535) × (slice_index trace.now 0 ≡ 1)) (λ _. (length trace.now ≤ 65535 → slice_index trace.now 0 ≢ 1)) }
{
    match trace {
        [1, ..] if trace.len() <= 65535 => Ok(()),
        _ => Err(BadTrace),
    }
}

// What the bytes of a record say, its kind first and then its fields.
pub trait Body: Copy {
    ghost bytes: { Self → List ℕ };

    // None where the bytes are no such record's.
    fn parse(body: &[u8]) -> Option<Self>
        ensures { MatchOption result ((r : Self) → body.now ≢ bytes r) (λ r. body.now ≡ bytes r) };
}

impl Body for MachineRecord {
    ghost bytes = { machine_bytes };

    fn parse(body: &[u8]) -> Option<MachineRecord> {
        match body {
            [b'M', board, n1, n0, q1, q0] => Some(MachineRecord {
                board: Board::try_from(*board).ok()?,
                frames: u16::from_be_bytes([*n1, *n0]),
                quota: u16::from_be_bytes([*q1, *q0]),
            }),
            _ => None,
        }
    }
}

fn parse_page(object: u8, number: [u8; 2]) -> ObjectPage
    ensures { page_bytes result ≡ object ∷ number }
{
    ObjectPage {
        object,
        number: PageNumber(u16::from_be_bytes(number)),
    }
}

impl Body for CallRecord {
    ghost bytes = { call_bytes };

    fn parse(body: &[u8]) -> Option<CallRecord> {
        match body {
            [b'O', object, s1, s0] => Some(CallRecord::Open {
                object: *object,
                size: u16::from_be_bytes([*s1, *s0]),
            }),
            [b'L', object, p1, p0, w1, w0] => Some(CallRecord::Load {
                page: parse_page(*object, [*p1, *p0]),
                word: u16::from_be_bytes([*w1, *w0]),
            }),
            [b'S', object, p1, p0, w1, w0, v3, v2, v1, v0] => Some(CallRecord::Store {
                page: parse_page(*object, [*p1, *p0]),
                word: u16::from_be_bytes([*w1, *w0]),
                value: u32::from_be_bytes([*v3, *v2, *v1, *v0]),
            }),
            [b'R', object, p1, p0] => Some(CallRecord::Release {
                page: parse_page(*object, [*p1, *p0]),
            }),
            [b'F', object] => Some(CallRecord::Flush { object: *object }),
            _ => None,
        }
    }
}

// A record is named by its place in the whole trace, so the two go side by side: a reader that is moved along would need the
// place beside it all the same.

// The bytes of the record at a place: one length byte, and as many behind it.
fn body_at(trace: &[u8], place: usize) -> Option<&[u8]>
    ensures { MatchOption result ((body : List ℕ) → IsRecordAt trace.now place body → ⊥) (λ body. IsRecordAt trace.now place body.now) }
{
    let (count, after) = trace.get(place..)?.split_first()?;
    after.get(..usize::from(*count))
}

// The record at a place, read as a machine or as a call.
pub fn read_at<R: Body>(trace: &[u8], place: usize) -> Result<Parsed<R>, BadRecord>
    ensures { MatchResult result (λ read. (read.next ≡ place + 1 + length (R.bytes read.record)) × (read.next ≤ length trace.now) × IsRecordAt trace.now place (R.bytes read.record)) (λ bad. (bad.place ≡ place) × ((r : R) → IsRecordAt trace.now place (R.bytes r) → ⊥)) }
{
    let bad = BadRecord { place };
    let body = body_at(trace, place).ok_or(bad)?;
    Ok(Parsed {
        record: R::parse(body).ok_or(bad)?,
        next: place + 1 + body.len(),
    })
}

// The record at a place. A machine stands first and nowhere else.
pub fn read_record(trace: &[u8], place: usize) -> Result<ReadRecord, BadRecord>
    ensures next { IfOk result (λ read. (read.next ≡ place + 1 + record_length read.record) × (read.next ≤ length trace.now)) }
    ensures reads { MatchResult result (λ read. StandsAt trace.now place read.record) (λ bad. (bad.place ≡ place) × ((r : Record) → StandsAt trace.now place r → ⊥)) }
{
    if place == FIRST_PLACE {
        let read = read_at::<MachineRecord>(trace, place)?;
        return Ok(Parsed {
            record: Record::Machine(read.record),
            next: read.next,
        });
    }
    let read = read_at::<CallRecord>(trace, place)?;
    Ok(Parsed {
        record: Record::Call(read.record),
        next: read.next,
    })
}
