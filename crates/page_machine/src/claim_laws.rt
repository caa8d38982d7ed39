// Laws of claims, each the contract of a function: claims stay apart, and with what is available as many as before.
ghost use Rattle.page_machine.specs.ClaimLaws.{Marking, Unmarking, Aging, Adding, FillingUp, Breaking, GivingBack, TakingOne, GivingOne, EmptyBlocksTile, WorkedEmpty, CountsAddUp};

// An absent page of a reservation comes in.
pub fn marking()
    ensures { Marking }
{}

// A page of a reservation goes.
pub fn unmarking()
    ensures { Unmarking }
{}

// A reservation becomes the youngest.
pub fn aging()
    ensures { Aging }
{}

// A new reservation.
pub fn adding()
    ensures { Adding }
{}

// A full reservation leaves the table.
pub fn filling_up()
    ensures { FillingUp }
{}

// A reservation is broken.
pub fn breaking()
    ensures { Breaking }
{}

// A reservation without a present page is given back.
pub fn giving_back()
    ensures { GivingBack }
{}

// A page comes in, in a frame of its own.
pub fn taking_one()
    ensures { TakingOne }
{}

// A page goes with the frame of its own.
pub fn giving_one()
    ensures { GivingOne }
{}

// The blocks in which empty frames go back are blocks, rise, and tile exactly the empty frames.
pub fn empty_blocks_tile()
    ensures { EmptyBlocksTile }
{}

// Of eight frames all but the second go back.
pub fn worked_empty()
    ensures { WorkedEmpty }
{}

// Present pages, empty reserved frames and available frames add up to the limit.
pub fn counts_add_up()
    ensures { CountsAddUp }
{}
