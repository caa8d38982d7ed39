// The memory manager: objects of pages on frames, placed so that superpages can cover them.
#![tactic(auto)]

pub mod arguments;
pub mod brought;
pub mod chosen;
pub mod flush;
pub mod given;
pub mod leaves;
pub mod load;
pub mod open;
pub mod presence;
pub mod questions;
pub mod refusal;
pub mod release;
pub mod start;
pub mod state;
pub mod store;
pub mod words;
