//! A stack's topmost layer put into the next, as work in pieces.
#![tactic(auto)]

mod bases;
mod candidates;
mod directories;
mod entries;
mod faults;
mod finish;
pub mod laws;
mod names_in_both;
mod stands;
mod works;

pub use faults::MergeFault;
pub use finish::{MergeDone, finish_merge};
pub use works::MergeWork;
