//! What is wrong with a stack of layers and its blobs, as work in pieces.
#![tactic(auto)]

mod below;
mod checks;
mod directories;
mod facts;
mod findings;
mod finish;
mod gathering;
pub mod laws;
mod lower_paths;
mod marks;
mod places;
mod stated_blobs;
mod work;

pub use findings::{Code, Finding};
pub use finish::finish_check;
pub use lower_paths::LowerPath;
pub use ovl_blobs::{
    BLOB_LIMIT, BLOB_SPACE, Blob, BlobInfo, BlobWork, PART, PartFault, blobs_in_order,
    contents_held, finish_blobs, measure,
};
pub use stated_blobs::stated_names;
pub use work::{CheckOut, CheckWork};
