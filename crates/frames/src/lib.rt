// Where frames come from: the frame-source trait and its sources.
#![tactic(auto)]

pub mod boot_list;
pub mod buddy;
mod count;
pub mod laws;
mod marks;
mod node;
pub mod quota;
pub mod refusal;
pub mod source;
