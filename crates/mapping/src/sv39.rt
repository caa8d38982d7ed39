ghost use Rattle.std.specs.Prelude.{◌≡◌, ℕ, ◌+◌, ◌*◌, ◌/◌, ◌%◌, ◌^◌, ◌<◌, ◌≤◌, List, [], ◌∷◌, if◌then◌else◌, None, vec_len, OnErr, ◌≢◌, nat_eq, slice_index};
ghost use Rattle.mapping.specs.Leaves.{bad_sv39_number, Put, Clear, laid};
ghost use Rattle.mapping.specs.Sv39Format.{sv39_word, lower_word, upper_word, held, leaves_in, sv39_leaf, sv39_at, sv39_sizes, sv39_entry, walk, Sv39Table};
ghost use Rattle.mapping.specs.Sv39Words.{On, Topped, Lowered};
ghost use Rattle.mapping.specs.Sv39Moves.{sv39_falling, sv39_lawful};
ghost use Rattle.mapping.specs.Inverse.{sv39_tells, sv39_determines_places};
ghost use Rattle.std.proofs.Common.{arith};

use crate::board::{AcceptedTable, Board, Format};
use crate::fit::{asked, in_range};
use crate::hardware::{Geometry, MappingHardware};
use crate::leaf::{Leaf, NoLeaf, PutError};
use blocks::block::ObjectBlock;
use blocks::number::{FrameNumber, ObjectPage, PageNumber};

// Eight upper entries, and under each a lower table of 512 entries, for half an object.
#[derive(Drop)]
struct Levels {
    table: Vec<u64>,
    // How many leaves each lower table holds, so that the last one that goes is known without a search.
    counts: [u16; 8],
    ghost long: { vec_len table ≡ 4104 },
    ghost counted: { (n : ℕ) → n < 8 → slice_index counts n ≡ leaves_in (λ i. slice_index table.items i) n },
}

// Upper and lower entries are those that the format allows.
#[derive(Drop)]
pub struct Sv39 {
    levels: Levels,
    ghost small: { (i : ℕ) → slice_index levels.table.items i < 2 ^ 21 },
    ghost low: { (i : ℕ) → 8 ≤ i → slice_index levels.table.items i ≡ lower_word (slice_index levels.table.items i) },
    ghost top: { (n : ℕ) → n < 8 → slice_index levels.table.items n ≡ upper_word n (slice_index levels.table.items n) (held (λ i. slice_index levels.table.items i) n) },
}

// Valid, readable, accessed.
const READABLE: u64 = 0x43;

// The same, and writable and dirty.
const WRITABLE: u64 = 0xC7;

// The lowest bit of the frame, or of a pointer's table number.
const FRAME: u64 = 1024;

// The two lowest bits of a leaf and of a pointer.
const LEAF: u64 = 3;

const POINTER: u64 = 1;

// The leaf of an order that an entry tells, if it is one.
#[tactic(auto, using(crate::specs::Sv39Words::leaf_is, crate::specs::Sv39Words::leaf_not))]
fn decode(first: u16, order: u8, entry: u64) -> Option<Leaf>
    requires { entry < 2 ^ 21 }
    ensures { result ≡ sv39_leaf first order entry }
{
    if entry % 4 != LEAF {
        return None;
    }
    Some(Leaf {
        first: PageNumber(first),
        order,
        frame: FrameNumber((entry / FRAME) as u16),
        writable: entry / 4 % 2 == 1,
    })
}

// A leaf's entry.
#[tactic(auto, unfolding(crate::specs::Sv39Format::sv39_word))]
fn encode(leaf: Leaf) -> u64
    ensures { result ≡ sv39_word leaf.frame.0 (if leaf.writable then 1 else 0) }
{
    let bits = if leaf.writable { WRITABLE } else { READABLE };
    leaf.frame.0 as u64 * FRAME + bits
}

// Where a page's upper entry stands.
fn upper(page: ObjectPage) -> usize
    ensures { result ≡ page.object * 2 + page.number.0 / 512 }
{
    page.object as usize * 2 + page.number.0 as usize / 512
}

// Where its lower entry stands.
fn lower(page: ObjectPage) -> usize
    ensures { result ≡ 8 + page.object * 1024 + page.number.0 }
{
    8 + page.index()
}

// The upper entry over a lower table that holds `count` leaves.
fn pointer(n: usize, count: u16) -> u64
    requires { n < 8 }
    ensures { result ≡ (if nat_eq count 0 then 0 else n * 1024 + 1) }
{
    if count == 0 {
        0
    } else {
        n as u64 * FRAME + POINTER
    }
}

impl Levels {
    // Sets a page's lower entry, and with it its table's count and pointer.
    fn set_lower(&mut self, page: ObjectPage, entry: u64)
        requires object { page.object < 4 }
        requires number { page.number.0 < 1024 }
        ensures { Lowered self.old.table.items self.new.table.items (page.object * 2 + page.number.0 / 512) (8 + page.object * 1024 + page.number.0) entry }
    {
        let n = upper(page);
        let place = lower(page);
        let old = self.table[place];
        let count = self.counts[n] + u16::from(entry != 0) - u16::from(old != 0);
        self.counts[n] = count;
        self.table[place] = entry;
        self.table[n] = pointer(n, count);
    }

    // Makes every entry of lower table n 0. Where it holds no leaf they are already.
    fn empty_lower(&mut self, n: usize)
        requires { n < 8 }
        ensures inside { (d : ℕ) → d < 512 → slice_index self.new.table.items (8 + n * 512 + d) ≡ 0 }
        ensures others { (j : ℕ) → (On n j → ⊥) → slice_index self.new.table.items j ≡ slice_index self.old.table.items j }
    {
        if self.counts[n] == 0 {
            return;
        }
        self.counts[n] = 0;
        let start = 8 + n * 512;
        self.table[start..start + 512].fill(0);
    }

    // Sets a page's upper entry, and makes every entry of the lower table under it 0.
    fn set_upper(&mut self, page: ObjectPage, entry: u64)
        requires object { page.object < 4 }
        requires number { page.number.0 < 1024 }
        ensures { Topped self.old.table.items self.new.table.items (page.object * 2 + page.number.0 / 512) entry }
    {
        let n = upper(page);
        self.empty_lower(n);
        self.table[n] = entry;
    }
}

impl Geometry for Sv39 {
    const PAGE_BYTES: u32 = 4096;

    const SIZES: &'static [u8] = &[9, 0];

    ghost PAGE_BYTES = { 4096 };

    ghost sizes = { sv39_sizes };

    fn orders() -> &'static [u8] {
        Self::SIZES
    }
}

impl Format for Sv39 {
    const ENTRIES: usize = Sv39::ENTRIES;

    const BAD_TABLE: u8 = 19;

    ghost ENTRIES = { 4104 };

    ghost BAD_TABLE = { bad_sv39_number };

    ghost entry = { sv39_entry };

    ghost places = { λ o p. (o * 2 + p / 512) ∷ (8 + o * 1024 + p) ∷ [] };

    ghost tell = { λ t o p. walk (t (o * 2 + p / 512)) (t (8 + o * 1024 + p)) p };

    ghost tells = { sv39_tells };

    ghost determines = { sv39_determines_places };
}

impl MappingHardware for Sv39 {
    ghost at = { λ s. sv39_at s.levels.table.items };

    ghost bounded = { omega arith };

    ghost falling = { sv39_falling };

    ghost lawful = { λ s. sv39_lawful s.levels.table.items (record { small = s.small; low = s.low; top = s.top }) };

    fn leaf(&self, page: ObjectPage) -> Option<Leaf> {
        if !in_range(page) {
            return None;
        }
        let top = self.levels.table[upper(page)];
        if top % 4 == POINTER {
            decode(page.number.0, 0, self.levels.table[lower(page)])
        } else {
            decode(page.number.0 / 512 * 512, 9, top)
        }
    }

    #[tactic(auto, using(crate::proofs::Sv39State::table_of))]
    fn put(
        &mut self,
        pages: ObjectBlock,
        frame: FrameNumber,
        writable: bool,
    ) -> Result<(), PutError>
        ensures leaves { Put sv39_sizes (sv39_at self.old.levels.table.items) (sv39_at self.new.levels.table.items) pages.object (laid pages.pages frame writable) result }
        ensures entries { Sv39Table (sv39_at self.new.levels.table.items) self.new.levels.table.items }
        ensures refused { OnErr result (self.new ≡ self.old) }
    {
        let leaf = asked(Self::SIZES, pages, frame, writable)?;
        let page = pages.first();
        // Nothing reaches out of a block of the greatest order.
        if leaf.order == 9 {
            self.levels.set_upper(page, encode(leaf));
            return Ok(());
        }
        if self.levels.table[upper(page)] % 4 == LEAF {
            return Err(PutError::Reaching);
        }
        self.levels.set_lower(page, encode(leaf));
        Ok(())
    }

    #[tactic(auto, using(crate::proofs::Sv39State::table_of))]
    fn clear(&mut self, page: ObjectPage) -> Result<u8, NoLeaf>
        ensures leaves { Clear (sv39_at self.old.levels.table.items) (sv39_at self.new.levels.table.items) page.object page.number.0 result }
        ensures entries { Sv39Table (sv39_at self.new.levels.table.items) self.new.levels.table.items }
        ensures refused { OnErr result (self.new ≡ self.old) }
    {
        if !in_range(page) {
            return Err(NoLeaf);
        }
        if self.levels.table[upper(page)] % 4 == LEAF {
            self.levels.set_upper(page, 0);
            return Ok(9);
        }
        if self.levels.table[lower(page)] == 0 {
            return Err(NoLeaf);
        }
        self.levels.set_lower(page, 0);
        Ok(0)
    }
}

impl Board for Sv39 {
    ghost words = { λ s. s.levels.table.items };

    #[tactic(auto, using(crate::proofs::Sv39State::table_of))]
    fn entries(&self) -> &[u64] {
        &self.levels.table
    }

    #[tactic(auto, using(crate::proofs::Sv39State::table_of))]
    fn into_parts(self) -> Vec<u64> {
        self.levels.table
    }
}

impl Sv39 {
    // The same as of `Format`, for those who name the board.
    pub const ENTRIES: usize = 4104;

    // A board without a leaf. One for each board: see `Board`.
    pub fn make(accepted: AcceptedTable<Sv39>) -> Sv39
        ensures none { (o p : ℕ) → sv39_at result.levels.table.items o p ≡ None }
        ensures zeroed { (i : ℕ) → slice_index result.levels.table.items i ≡ 0 }
    {
        let mut table = accepted.table;
        table.fill(0);
        Sv39 {
            levels: Levels {
                table,
                counts: [0; 8],
            },
        }
    }
}
