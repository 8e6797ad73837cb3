//! The words of the command line: the commands with their options, their help, and what words ask
//! for.
#![tactic(auto)]

mod commands;
mod options;
mod parser;

pub use commands::DEFAULT_WORKERS;
pub use options::{Line, LineFault};
pub use parser::line;
