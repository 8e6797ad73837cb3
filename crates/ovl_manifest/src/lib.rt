//! The manifests of layers, read and written.
#![tactic(auto)]

mod compact_entries;
mod compact_layers;
mod compact_texts;
mod fields;
mod plain_runs;
mod reading;
mod short_texts;
mod text_paths;
mod values;
mod versions;
mod writing;
mod written_entries;

pub use ovl_layer::{
    Cursor, ENTRY_LIMIT, Layer, LayerFault, LayerPlace, Node, Sheet, SheetPlace, SheetRow,
    from_entries,
};
pub use reading::{read_layer, read_sheet};
pub use writing::write_layer;
