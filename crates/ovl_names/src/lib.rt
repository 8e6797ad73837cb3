//! Names and paths of overlay layers, their order, and how reports show them.
#![tactic(auto)]

mod ends;
mod escapes;
mod names;
mod path_names;
mod paths;
mod texts;

pub use escapes::{escaped, push_escaped};
pub use names::{NAME_LIMIT, Name, NameFault};
pub use path_names::Names;
pub use paths::{DEPTH_LIMIT, Path, PathFault, TEXT_LIMIT, has_empty_part};
