// Reservations: blocks of frames held for blocks of pages, and the table of them in order of age.
#![tactic(auto)]

pub mod reservation;
pub mod table;
