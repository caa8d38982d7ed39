// Worked leaves, each the contract of a function.
ghost use Rattle.page_machine.specs.WorkedLeaves.{Superpage, Split};

// Eight pages make a superpage, and a store splits it.
pub fn superpage()
    ensures { Superpage }
{}

// A store into one page of a leaf of order 6.
pub fn split()
    ensures { Split }
{}
