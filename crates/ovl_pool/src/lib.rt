//! Workers that share the visits of a work: at Ok their answer is the plain walk, on every
//! schedule.
#![tactic(auto)]

mod gates;
mod merging;
mod runs;
mod seating;
mod shares;
mod tallies;
mod tally_handle;
mod worker_outputs;
mod worker_threads;
mod workers;

pub use gates::{Gate, OpenGate};
pub use runs::{RunCount, RunFault, run};
pub use tallies::Tally;
