ghost use Rattle.std.specs.Prelude.{◌≡◌, ℕ, ◌+◌, ◌*◌, ◌/◌, ◌%◌, ◌^◌, ◌<◌, ◌≤◌, List, [], ◌∷◌, length, if◌then◌else◌, None, vec_len, OnErr, slice_index, EachIndex};
ghost use Rattle.mapping.specs.Leaves.{bad_alpha_number, Put, Clear, laid};
ghost use Rattle.mapping.specs.AlphaFormat.{order_in, neighbour, alpha_leaf, alpha_word, alpha_at, alpha_sizes, alpha_entry, AlphaTable};
ghost use Rattle.mapping.specs.AlphaLeaves.{alpha_falling, alpha_lawful};
ghost use Rattle.mapping.specs.Inverse.{alpha_tells, alpha_determines_places};
ghost use Rattle.std.proofs.Common.{arith};

use crate::board::{AcceptedTable, Board, Format};
use crate::fit::{asked, floor, in_range, span};
use crate::hardware::{Geometry, MappingHardware};
use crate::leaf::{Leaf, NoLeaf, PutError};
use blocks::block::ObjectBlock;
use blocks::number::{FrameNumber, ObjectPage, PageNumber};

// A flat table with an entry for each page of each object, whatever the order of its leaf.
#[derive(Drop)]
pub struct Alpha {
    table: Vec<u64>,
    // Every entry belongs to a leaf that all entries of its block belong to.
    ghost long: { vec_len table ≡ 4096 },
    ghost small: { (i : ℕ) → slice_index table.items i < 2 ^ 43 },
    ghost same: { (i j : ℕ) → j / 2 ^ order_in (slice_index table.items i) ≡ i / 2 ^ order_in (slice_index table.items i) → slice_index table.items j ≡ neighbour (slice_index table.items i) j },
}

// Valid, and the kernel may read and write.
const PRESENT: u64 = 0x1101;

const FAULT_ON_WRITE: u64 = 4;

// The lowest bit of the granularity hint, which counts in steps of three orders.
const HINT: u64 = 32;

// The lowest bit of the frame.
const FRAME: u64 = 4294967296;

// The order that an entry's granularity hint names; 0 of an entry without a leaf.
#[tactic(auto, unfolding(crate::specs::AlphaFormat::order_in))]
fn order_of(entry: u64) -> u8
    ensures { (result ≡ order_in entry) × (result ≤ 9) }
{
    (entry / HINT % 4) as u8 * 3
}

// The leaf that an entry tells at a page. An entry has the page's own frame, so the leaf's first frame is the
// multiple of its count at or below.
#[tactic(auto, using(crate::specs::AlphaLeaves::leaf_is, crate::specs::AlphaLeaves::leaf_none), unfolding(crate::specs::AlphaFormat::frame_in, crate::specs::AlphaFormat::fault_in))]
fn decode(page: u16, entry: u64) -> Option<Leaf>
    requires { entry < 2 ^ 43 }
    ensures { result ≡ alpha_leaf page entry }
{
    if entry == 0 {
        return None;
    }
    let order = order_of(entry);
    Some(Leaf {
        first: PageNumber(floor(page, order)),
        order,
        frame: FrameNumber(floor((entry / FRAME) as u16, order)),
        writable: entry / FAULT_ON_WRITE % 2 == 0,
    })
}

// The entry of a leaf's first page.
#[tactic(auto, unfolding(crate::specs::AlphaFormat::alpha_word))]
fn encode(leaf: Leaf) -> u64
    ensures { (result ≡ alpha_word leaf.frame.0 leaf.order (if leaf.writable then 0 else 1)) × (result < (leaf.frame.0 + 1) * 4294967296) }
{
    let fault = if leaf.writable { 0 } else { FAULT_ON_WRITE };
    leaf.frame.0 as u64 * FRAME + PRESENT + HINT * (leaf.order / 3) as u64 + fault
}

// Writes the entries of a leaf's pages: each has the next frame.
fn lay(entries: &mut [u64], first: u64)
    requires { first + length entries.old * 4294967296 < 2 ^ 64 }
    ensures { EachIndex entries.new (λ d. slice_index entries.new d ≡ first + d * 4294967296) }
{
    for (d, entry) in entries.iter_mut().enumerate() {
        *entry = first + d as u64 * FRAME;
    }
}

impl Geometry for Alpha {
    const PAGE_BYTES: u32 = 8192;

    const SIZES: &'static [u8] = &[9, 6, 3, 0];

    ghost PAGE_BYTES = { 8192 };

    ghost sizes = { alpha_sizes };

    fn orders() -> &'static [u8] {
        Self::SIZES
    }
}

impl Format for Alpha {
    const ENTRIES: usize = Alpha::ENTRIES;

    const BAD_TABLE: u8 = 18;

    ghost ENTRIES = { 4096 };

    ghost BAD_TABLE = { bad_alpha_number };

    ghost entry = { alpha_entry };

    ghost places = { λ o p. (o * 1024 + p) ∷ [] };

    ghost tell = { λ t o p. alpha_leaf p (t (o * 1024 + p)) };

    ghost tells = { alpha_tells };

    ghost determines = { alpha_determines_places };
}

impl MappingHardware for Alpha {
    ghost at = { λ s. alpha_at s.table.items };

    ghost bounded = { omega arith };

    ghost falling = { alpha_falling };

    ghost lawful = { λ s. alpha_lawful s.table.items (record { small = s.small; same = s.same }) };

    fn leaf(&self, page: ObjectPage) -> Option<Leaf> {
        if !in_range(page) {
            return None;
        }
        decode(page.number.0, self.table[page.index()])
    }

    // A leaf that reaches out of the block covers its first page too, so that page's entry tells.
    #[tactic(auto, using(crate::proofs::AlphaState::table_of))]
    fn put(
        &mut self,
        pages: ObjectBlock,
        frame: FrameNumber,
        writable: bool,
    ) -> Result<(), PutError>
        ensures leaves { Put alpha_sizes (alpha_at self.old.table.items) (alpha_at self.new.table.items) pages.object (laid pages.pages frame writable) result }
        ensures entries { AlphaTable (alpha_at self.new.table.items) self.new.table.items }
        ensures refused { OnErr result (self.new ≡ self.old) }
    {
        let leaf = asked(Self::SIZES, pages, frame, writable)?;
        let start = pages.first().index();
        if order_of(self.table[start]) > leaf.order {
            return Err(PutError::Reaching);
        }
        let end = start + span(leaf.order) as usize;
        lay(&mut self.table[start..end], encode(leaf));
        Ok(())
    }

    #[tactic(auto, using(crate::proofs::AlphaState::table_of))]
    fn clear(&mut self, page: ObjectPage) -> Result<u8, NoLeaf>
        ensures leaves { Clear (alpha_at self.old.table.items) (alpha_at self.new.table.items) page.object page.number.0 result }
        ensures entries { AlphaTable (alpha_at self.new.table.items) self.new.table.items }
        ensures refused { OnErr result (self.new ≡ self.old) }
    {
        if !in_range(page) {
            return Err(NoLeaf);
        }
        let entry = self.table[page.index()];
        if entry == 0 {
            return Err(NoLeaf);
        }
        let order = order_of(entry);
        let first = ObjectPage {
            object: page.object,
            number: PageNumber(floor(page.number.0, order)),
        };
        let start = first.index();
        let end = start + span(order) as usize;
        self.table[start..end].fill(0);
        Ok(order)
    }
}

impl Board for Alpha {
    ghost words = { λ s. s.table.items };

    #[tactic(auto, using(crate::proofs::AlphaState::table_of))]
    fn entries(&self) -> &[u64] {
        &self.table
    }

    #[tactic(auto, using(crate::proofs::AlphaState::table_of))]
    fn into_parts(self) -> Vec<u64> {
        self.table
    }
}

impl Alpha {
    // The same as of `Format`, for those who name the board.
    pub const ENTRIES: usize = 4096;

    // A board without a leaf. One for each board: see `Board`.
    pub fn make(accepted: AcceptedTable<Alpha>) -> Alpha
        ensures none { (o p : ℕ) → alpha_at result.table.items o p ≡ None }
        ensures zeroed { (i : ℕ) → slice_index result.table.items i ≡ 0 }
    {
        let mut table = accepted.table;
        table.fill(0);
        Alpha { table }
    }
}
