//! Walks in one layer, and what a stack of layers shows.
#![tactic(auto)]

mod hits;
mod inodes;
pub mod laws;
mod looks;
mod named_lists;
mod next_lookup;
mod rope_ends;
mod rope_names;
mod ropes;
mod shown_kinds;
mod stacks;
mod steps;
mod tops;
mod views;

pub use inodes::shown_inodes;
pub use looks::{Look, is_moved, is_well_formed_metacopy};
pub use named_lists::{HasName, join_lists};
pub use next_lookup::NextLookup;
pub use ropes::PathRope;
pub use shown_kinds::ShownKind;
pub use stacks::{LAYER_LIMIT, Stack, StackFault};
pub use steps::{Arrival, Found, OwnDirectory, OwnStep, RopeStep, Step, follow, walk};
pub use views::DirView;
