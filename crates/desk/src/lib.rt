//! The clearing desk: what a room holds, and what each call does to it before anybody is lifted out of a notice.
#![tactic(auto)]

mod amounts;
mod bargain;
mod calling;
mod checks;
mod covering;
mod dealing;
mod desk;
mod forcing;
mod marking;
mod money;
mod numbers;
mod opening;
mod parties;
mod questions;

pub use desk::Desk;
