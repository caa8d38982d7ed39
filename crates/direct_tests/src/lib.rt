// Tests of what no trace reaches: sources, boards and managers called directly. They stand in a crate of their own, since
// a crate that has tests is proved once more for them.

#![tactic(auto)]

#[cfg(test)]
mod boards;
#[cfg(test)]
mod managers;
#[cfg(test)]
mod sources;
