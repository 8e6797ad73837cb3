//! Blobs: bytes under digests, whether they are intact, and what is known of them.
#![tactic(auto)]

mod blobs;
mod by_digest;
mod contents;
mod known;
mod measuring;

pub use blobs::{BLOB_LIMIT, BLOB_SPACE, Blob, BlobWork, blobs_in_order, finish_blobs};
pub use contents::{BlobInfo, contents_held};
pub use known::KnownBlobs;
pub use measuring::{PART, PartFault, measure};
