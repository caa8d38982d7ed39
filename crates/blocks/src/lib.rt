// Page and frame numbers, aligned blocks of either, a page or a block of an object, rows of bits, what a refusal hands back.

#![tactic(auto)]

pub mod aligned;
pub mod bits;
pub mod block;
pub mod number;
pub mod refused;
