// The replay of a trace: its records, the machine that serves them, and the lines of the listing.
#![tactic(auto)]

pub mod fault;
pub mod line;
pub mod lines;
pub mod listing;
pub mod machine_replay;
pub mod opening;
pub mod reader;
pub mod record;
