//! What a stack shows, as one layer: work in pieces.
#![tactic(auto)]

mod finish;
pub mod laws;
mod works;

pub use finish::finish_flatten;
pub use works::FlattenWork;
