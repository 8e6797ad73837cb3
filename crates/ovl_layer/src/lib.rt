//! Layers as trees and as tables, seen as finite maps from paths to inodes.
#![tactic(auto)]

mod entries;
mod faults;
mod kid_lists;
mod layer_builders;
mod mark_lists;
mod places;
mod rows_below;
mod sheet_builders;
mod sheets;
mod subtree_builders;
mod trees;

pub use entries::{
    ENTRY_LIMIT, from_entries, has_escaped_name, slashed_len, start_builder, start_root,
};
pub use faults::{LayerFault, SubtreeFault};
pub use layer_builders::LayerBuilder;
pub use places::LayerPlace;
pub use rows_below::RowsBelow;
pub use sheet_builders::SheetBuilder;
pub use sheets::{Sheet, SheetPlace, SheetRow};
pub use subtree_builders::SubtreeBuilder;
pub use trees::{Cursor, Layer, Node};
