#![tactic(auto)]

pub mod change_laws;
pub mod claim_laws;
pub mod leaf_laws;
pub mod meaning_laws;
pub mod piece_laws;
pub mod placement_laws;
pub mod run_laws;
pub mod telling_laws;
pub mod worked_leaves;
pub mod worked_refusals;
pub mod worked_runs;
