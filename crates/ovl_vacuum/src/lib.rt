//! What changes nothing in the topmost layer of a stack, as work in pieces, and the layer without
//! it.
#![tactic(auto)]

mod directories;
mod finish;
pub mod laws;
mod places;
mod works;

pub use finish::{VacuumDone, finish_vacuum};
pub use works::VacuumWork;
