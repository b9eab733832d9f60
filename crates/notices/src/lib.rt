//! Who comes under notice, and who is lifted out of it.
#![tactic(auto)]

pub mod sweep;
pub mod turn;
