//! What is done with a stack of layers, and what that gives.
#![tactic(auto)]

mod requests;

pub use requests::{Answer, Command};
