ghost use Rattle.std.specs.Prelude.{◌≡◌, ℕ, ◌+◌, ◌-◌, ◌*◌, ◌^◌, min};

// A number that counts pages, or frames, from 0.
pub trait Number: Copy {
    // The number itself.
    ghost value: { Self → ℕ };

    fn new(number: u16) -> Self
        ensures { value result ≡ number };

    fn get(self) -> u16
        ensures { result ≡ value self };
}

// A page counted within its object. Any u16 may be one, so that a page past an object's size can be refused.
#[derive(Clone, Copy, PartialEq, Eq, PartialOrd, Ord, Default, Debug)]
pub struct PageNumber(pub u16);

// A frame counted within the memory. It never stands for a page, nor a page for it: that they are two
// structs around a u16 is a rule of the project.
#[derive(Clone, Copy, PartialEq, Eq, PartialOrd, Ord, Default, Debug)]
pub struct FrameNumber(pub u16);

// A page of one of the objects, whose numbers are 0 to 3. Any u8 may stand there, so that another can be refused.
#[derive(Clone, Copy, PartialEq, Eq, Debug)]
pub struct ObjectPage {
    pub object: u8,
    pub number: PageNumber,
}

impl FrameNumber {
    // The frame that lies as far behind this one as a page behind another; at most 65,535.
    pub fn beside(self, first: PageNumber, page: PageNumber) -> FrameNumber
        ensures { result.0 ≡ min (self.0 + (page.0 - first.0)) (2 ^ 16 - 1) }
    {
        FrameNumber(self.0.saturating_add(page.0.saturating_sub(first.0)))
    }
}

impl ObjectPage {
    pub fn new(object: u8, number: u16) -> ObjectPage
        ensures { (result.object ≡ object) × (result.number.0 ≡ number) }
    {
        ObjectPage {
            object,
            number: PageNumber(number),
        }
    }

    // Its place among the pages of the four objects, 1,024 to each.
    pub fn index(self) -> usize
        ensures { result ≡ self.object * 1024 + self.number.0 }
    {
        usize::from(self.object) * 1024 + usize::from(self.number.0)
    }
}

impl Number for PageNumber {
    ghost value = { λ n. n.0 };

    fn new(number: u16) -> PageNumber {
        PageNumber(number)
    }

    fn get(self) -> u16 {
        self.0
    }
}

impl Number for FrameNumber {
    ghost value = { λ n. n.0 };

    fn new(number: u16) -> FrameNumber {
        FrameNumber(number)
    }

    fn get(self) -> u16 {
        self.0
    }
}
