//! Pieces of work, the plain walk over them, the assembly of what workers bring, and the workers'
//! core.
#![tactic(auto)]

mod assembly;
mod cores;
mod events;
mod worker_states;
/// Laws of the plain walk, of parcels in balance and of their assembly, each the contract of a
/// function that does nothing.
pub mod laws;
mod pieces;
mod plain;
mod trees;
mod works;

pub use assembly::{BoardFault, assemble, sort_parcels};
pub use cores::{Core, WORKER_LIMIT};
pub use events::{CoreFault, Event};
pub use pieces::{Piece, copies};
pub use plain::plain_walk;
pub use trees::{Tree, TreeFault};
pub use works::{Parcel, Work, all_lawful, kids_lawful};
