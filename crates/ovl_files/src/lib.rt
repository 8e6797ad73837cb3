//! The files and folders that the program reads: manifests and blobs.
#![tactic(auto)]

mod blob_folder;
mod blob_parts;
mod faults;
mod folder_in_parts;
mod held_blobs;
mod reads;
mod regular_files;
mod shared_files;
mod slots;
mod whole_files;

pub use blob_folder::read_blobs;
pub use blob_parts::measure_file;
pub use faults::FileFault;
pub use folder_in_parts::measure_blobs;
pub use reads::{INPUT_LIMIT, ReadFault, read_all, read_expected};
pub use shared_files::SharedFiles;
pub use whole_files::{read_file, read_files};
