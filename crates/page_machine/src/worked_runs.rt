// Worked runs of the page machine, each the contract of a function.
ghost use Rattle.page_machine.specs.WorkedRuns.{LimitZero, EveryCall};

// With limit 0 the first load is refused by 11.
pub fn limit_zero()
    ensures { LimitZero }
{}

// Every call, with two flushes.
pub fn every_call()
    ensures { EveryCall }
{}
