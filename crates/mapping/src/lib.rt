// What the processor's tables map: leaves, the mapping-hardware trait and the boards that implement it.
#![tactic(auto)]

pub mod alpha;
pub mod board;
pub mod client;
mod fit;
pub mod hardware;
pub mod laws;
pub mod leaf;
pub mod sv39;
