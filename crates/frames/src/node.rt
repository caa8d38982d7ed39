ghost use Rattle.std.specs.Prelude.{◌≡◌, ℕ, ◌+◌, ◌-◌, ◌*◌, ◌/◌, ◌^◌, ◌<◌, ◌≤◌, ◌≢◌, MatchOption};
ghost use Rattle.frames.specs.Maximal.{node};

use blocks::aligned::AlignedBlock;
use blocks::block::FrameBlock;
use blocks::number::FrameNumber;

// The block `index` of an order. Two blocks of an order, the even one and the one after it, make one of the order above.
// An `AlignedBlock` has the first number in place of the index: each mark's place, half and other half would begin with a shift.
#[derive(Clone, Copy, PartialEq, Eq, Debug)]
pub(crate) struct Node {
    pub(crate) order: u8,
    pub(crate) index: u16,
    ghost small: { order ≤ 9 },
    ghost room: { index < 2 ^ (11 - order) },
}

impl Node {
    // Where its mark stands in the row of marks.
    pub(crate) fn place(self) -> usize
        ensures { (result ≡ node self.order self.index) × (result < 4096) }
    {
        (2048usize >> self.order) + self.index as usize
    }

    // Its lower and its upper half, where it is of an order above `least`.
    pub(crate) fn halves(self, least: u8) -> Option<(Node, Node)>
        ensures { MatchOption result (self.order ≤ least) (λ h. (least ≤ h.0.order) × (self.order ≡ h.0.order + 1) × (h.0.index ≡ self.index * 2) × (h.1.order ≡ h.0.order) × (h.1.index ≡ self.index * 2 + 1)) }
    {
        if self.order <= least {
            return None;
        }
        let order = self.order - 1;
        let index = self.index * 2;
        let high = Node {
            order,
            index: index + 1,
        };
        Some((Node { order, index }, high))
    }

    // The other half of the block of twice its size, and that block; none at the largest order.
    pub(crate) fn joined(self) -> Option<(Node, Node)>
        ensures { MatchOption result (self.order ≡ 9) (λ j. (j.0.order ≡ self.order) × (j.0.index / 2 ≡ self.index / 2) × (j.0.index ≢ self.index) × (j.1.order ≡ self.order + 1) × (j.1.index ≡ self.index / 2)) }
    {
        if self.order == AlignedBlock::MAX_ORDER {
            return None;
        }
        let index = if self.index % 2 == 0 {
            self.index + 1
        } else {
            self.index - 1
        };
        let twin = Node {
            order: self.order,
            index,
        };
        let whole = Node {
            order: self.order + 1,
            index: self.index / 2,
        };
        Some((twin, whole))
    }
}

impl From<AlignedBlock> for Node {
    ghost from_gives = { λ b n. (n.order ≡ b.order) × (b.first ≡ n.index * 2 ^ n.order) };

    fn from(block: AlignedBlock) -> Node {
        Node {
            order: block.order(),
            index: block.index(),
        }
    }
}

impl From<Node> for FrameBlock {
    ghost from_gives = { λ n b. (b.block.first ≡ n.index * 2 ^ n.order) × (b.block.order ≡ n.order) };

    fn from(node: Node) -> FrameBlock {
        FrameBlock::new(FrameNumber(node.index << node.order), node.order).unwrap()
    }
}
