//! A new layer, built from the outputs of a run.
#![tactic(auto)]

mod ends;
mod faults;
mod kids;
mod layers;
mod rewrites;
mod rooms;

pub use ends::RewriteEnd;
pub use faults::RewriteFault;
pub use kids::directories;
pub use rewrites::Rewrite;
