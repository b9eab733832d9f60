//! The words that all layers of the clearing share: numbers with their ranges, and faults.
#![tactic(auto)]

pub mod call;
pub mod fault;
pub mod ranges;
