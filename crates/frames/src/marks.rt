ghost use Rattle.std.specs.Prelude.{◌≡◌, ℕ, ◌+◌, ◌-◌, ◌*◌, ◌/◌, ◌^◌, ◌<◌, ◌≤◌, Bool, true, false, ◌≢◌, MatchOption};
ghost use Rattle.blocks.specs.Bit.{bit};
ghost use Rattle.frames.specs.Maximal.{Splits, Parts, node, Marked};

use crate::node::Node;
use blocks::aligned::AlignedBlock;
use blocks::bits;
use blocks::number::FrameNumber;

// The marks of free blocks, a row of bits shaped like a heap: block i of order j has its mark at place 2 ^ (11 - j) + i.
// So each order has a stretch of its own, and its lowest marked block is the lowest set bit there.
#[derive(Drop)]
pub(crate) struct Marks {
    row: [u64; 64],
}

impl Marks {
    // No block is marked.
    pub(crate) fn new() -> Marks
        ensures { (n : ℕ) → bit result.row n ≡ false }
    {
        Marks { row: [0; 64] }
    }

    fn has(&self, block: Node) -> bool
        ensures { result ≡ bit self.now.row (node block.order block.index) }
    {
        bits::get(&self.row, block.place())
    }

    pub(crate) fn set(&mut self, block: Node, value: bool)
        ensures here { bit self.new.row (node block.order block.index) ≡ value }
        ensures others { (n : ℕ) → (n ≢ node block.order block.index) → bit self.new.row n ≡ bit self.old.row n }
    {
        bits::set(&mut self.row, block.place(), value);
    }

    // The lowest marked block of the least order from `order` on that has one.
    pub(crate) fn find(&self, order: u8) -> Option<Node>
        ensures { MatchOption result ((j i : ℕ) → order ≤ j → j ≤ 9 → i < 2 ^ (11 - j) → bit self.now.row (node j i) ≡ false) (λ b. (order ≤ b.order) × (bit self.now.row (node b.order b.index) ≡ true) × ((i : ℕ) → i < b.index → bit self.now.row (node b.order i) ≡ false) × ((j i : ℕ) → order ≤ j → j < b.order → i < 2 ^ (11 - j) → bit self.now.row (node j i) ≡ false)) }
    {
        for order in order..=AlignedBlock::MAX_ORDER {
            let first = Node { order, index: 0 }.place();
            if let Some(at) = bits::first_in(&self.row, first, 2 * first) {
                let index = (at - first) as u16;
                return Some(Node { order, index });
            }
        }
        None
    }

    // The marked block that holds a frame.
    pub(crate) fn around(&self, frame: FrameNumber) -> Option<Node>
        ensures { MatchOption result ((j : ℕ) → j ≤ 9 → frame.0 < 2048 → bit self.now.row (node j (frame.0 / 2 ^ j)) ≡ false) (λ b. (b.index ≡ frame.0 / 2 ^ b.order) × (bit self.now.row (node b.order b.index) ≡ true)) }
    {
        for order in 0..=AlignedBlock::MAX_ORDER {
            let block = Node::from(AlignedBlock::around(frame.0, order).ok()?);
            if self.has(block) {
                return Some(block);
            }
        }
        None
    }

    // Cuts a block down to the lowest of its blocks of `order`, and marks what is cut off.
    pub(crate) fn split(&mut self, from: Node, order: u8) -> Node
        requires { order ≤ from.order }
        ensures place { (result.order ≡ order) × (result.index ≡ from.index * 2 ^ (from.order - order)) }
        ensures marked { (p q : ℕ → Bool) → Marked (bit self.old.row) p → Parts p q from.order from.index order result.index → Marked (bit self.new.row) q }
    {
        let mut block = from;
        while let Some((low, high)) = block.halves(order) {
            self.set(high, true);
            block = low;
        }
        block
    }

    // Marks a block that becomes free, in one with its other half for as long as that is marked.
    pub(crate) fn merge(&mut self, from: Node)
        ensures { (p q : ℕ → Bool) → Marked (bit self.old.row) p → Splits q p from.order from.index → Marked (bit self.new.row) q }
    {
        let mut block = from;
        while let Some((twin, whole)) = block.joined() {
            if !self.has(twin) {
                break;
            }
            self.set(twin, false);
            block = whole;
        }
        self.set(block, true);
    }
}
