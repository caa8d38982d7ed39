// What placement keeps, each the contract of a function.
ghost use Rattle.page_machine.specs.PlacementLaws.{BringingIn, Releasing, Closing, Opening, Storing, Flushing, Starting};

// Bringing in keeps the invariant and the limit, and is refused exactly where as many pages as the limit are present.
pub fn bringing_in()
    ensures { BringingIn }
{}

// Releasing a page.
pub fn releasing()
    ensures { Releasing }
{}

// Closing an object.
pub fn closing()
    ensures { Closing }
{}

// Opening an object.
pub fn opening()
    ensures { Opening }
{}

// Storing to a page that is present.
pub fn storing()
    ensures { Storing }
{}

// Flushing an object.
pub fn flushing()
    ensures { Flushing }
{}

// Starting.
pub fn starting()
    ensures { Starting }
{}
