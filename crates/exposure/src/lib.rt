//! What positions ask, what a deal and a mark post, and the least count that a forced close takes.
#![tactic(auto)]

pub mod deal;
pub mod force;
pub mod margins;
