//! Lanes of pieces, one for each worker: its owner pushes and takes, and the other workers steal.
//! Each lane is a deque under a rule, by which each piece that was pushed is one that was taken or
//! is left.
#![tactic(auto)]

mod accounts;
mod ends;
mod gathered;
mod rules;
mod seats;

pub use accounts::Account;
pub use ends::{Lane, Pass, Thief};
pub use gathered::Gathered;
pub use seats::{LaneFault, Seat, close, lanes};
