// Laws over runs of the page machine, each the contract of a function.
ghost use Rattle.page_machine.specs.RunLaws.{LoadsLastStored, StoredSinceFlush, RefusalsKeep, MemoryFits, MemoryMisfits, StaysLawful, FramesUnseen};

// What is loaded is what was last stored there since the page came in, else 0.
pub fn loads_last_stored()
    ensures { LoadsLastStored }
{}

// A page is stored exactly if it was stored to since it came in and since the last flush.
pub fn stored_since_flush()
    ensures { StoredSinceFlush }
{}

// A refused call changes nothing.
pub fn refusals_keep()
    ensures { RefusalsKeep }
{}

// With a frame memory of the right length a call is the machine's step.
pub fn memory_fits()
    ensures { MemoryFits }
{}

// With another a load and a store are refused by 2.
pub fn memory_misfits()
    ensures { MemoryMisfits }
{}

// After every run no more pages than the limit are present, each below its object's size.
pub fn stays_lawful()
    ensures { StaysLawful }
{}

// Replies tell nothing of the number of frames.
pub fn frames_unseen()
    ensures { FramesUnseen }
{}
