//! What the program writes, and how it ends.
/// What the program puts out: new layers, the report, and the status that it ends with.
pub mod hand_out;
pub mod layer_files;
pub mod report;
pub mod status;
