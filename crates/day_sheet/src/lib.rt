//! The day sheet carried out on a room: from the bytes of a sheet to the bytes of its answers.
#![tactic(auto)]

mod fits;
mod lines;
mod whole;

pub use fits::answers_fit;
pub use whole::clear_sheet;
