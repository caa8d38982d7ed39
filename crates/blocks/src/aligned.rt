ghost use Rattle.std.specs.Prelude.{◌≡◌, ℕ, ◌+◌, ◌-◌, ◌*◌, ◌/◌, ◌%◌, ◌^◌, ◌<◌, ◌≤◌, ◌&&◌, MatchResult, nat_le, nat_lt};
ghost use Rattle.std.specs.Option as Options;
ghost use Rattle.blocks.specs.Blocks.{IsBlock, bad_block_number, Halves};

// 2 ^ order consecutive numbers below 2,048, the first a multiple of their count. No value lacks this.
#[derive(Clone, Copy, PartialEq, Eq, Debug)]
pub struct AlignedBlock {
    first: u16,
    order: u8,
    ghost small: { order ≤ 9 },
    ghost aligned: { first % 2 ^ order ≡ 0 },
    ghost within: { first + 2 ^ order ≤ 2048 },
}

// The two numbers make no block.
#[derive(Clone, Copy, PartialEq, Eq, Debug)]
pub struct BadBlock;

// Each error that is the refusal of a rule tells the rule's number by such a method. A trait would need the number twice, as
// a constant and as its ghost, and no generic code asks for a number; and what a take says where it has no block has none.
impl BadBlock {
    pub fn number(self) -> u8
        ensures { result ≡ bad_block_number }
    {
        12
    }
}

impl AlignedBlock {
    pub const MAX_ORDER: u8 = 9;

    pub fn new(first: u16, order: u8) -> Result<AlignedBlock, BadBlock>
        ensures { MatchResult result (λ b. (b.first ≡ first) × (b.order ≡ order)) (λ _. (IsBlock first order → ⊥)) }
    {
        if order > Self::MAX_ORDER {
            return Err(BadBlock);
        }
        let count = 1u16 << order;
        if first % count != 0 || first > 2048 - count {
            return Err(BadBlock);
        }
        Ok(AlignedBlock { first, order })
    }

    // The block of an order that holds a number.
    pub fn around(number: u16, order: u8) -> Result<AlignedBlock, BadBlock>
        ensures { MatchResult result (λ b. (b.first ≡ number / 2 ^ order * 2 ^ order) × (b.order ≡ order)) (λ _. (order ≤ 9 → number < 2048 → ⊥)) }
    {
        if order > Self::MAX_ORDER || number >= 2048 {
            return Err(BadBlock);
        }
        Ok(AlignedBlock {
            first: number >> order << order,
            order,
        })
    }

    pub fn first(&self) -> u16
        ensures { result ≡ self.now.first }
    {
        self.first
    }

    pub fn order(&self) -> u8
        ensures { result ≡ self.now.order }
    {
        self.order
    }

    pub fn count(&self) -> u16
        ensures { result ≡ 2 ^ self.now.order }
    {
        1 << self.order
    }

    // The number after the last.
    pub fn end(&self) -> u16
        ensures { result ≡ self.now.first + 2 ^ self.now.order }
    {
        self.first + self.count()
    }

    pub fn contains(&self, number: u16) -> bool
        ensures { result ≡ (nat_le self.now.first number && nat_lt number (self.now.first + 2 ^ self.now.order)) }
    {
        self.first <= number && number < self.end()
    }

    // Which block of its order it is.
    pub fn index(&self) -> u16
        ensures { (self.now.first ≡ result * 2 ^ self.now.order) × (result < 2 ^ (11 - self.now.order)) }
    {
        self.first >> self.order
    }

    // Its lower and its upper half; none where it is one number.
    pub fn halves(&self) -> Option<(AlignedBlock, AlignedBlock)>
        ensures { Options.MatchOption result (self.now.order ≡ 0) (λ h. Halves self.now.first self.now.order h.0.first h.0.order h.1.first h.1.order) }
    {
        if self.order == 0 {
            return None;
        }
        let order = self.order - 1;
        let low = AlignedBlock {
            first: self.first,
            order,
        };
        let high = AlignedBlock {
            first: self.first + (1u16 << order),
            order,
        };
        Some((low, high))
    }
}
