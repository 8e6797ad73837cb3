//! What the commands make of a stack of layers, and their reports.
#![tactic(auto)]

mod answers;
mod blobs;
mod checks;
mod commands;
mod contents;
mod derefs;
mod faults;
mod flattens;
mod fsck_reports;
mod manifests;
mod merges;
mod merges_down;
mod preparations;
mod rewrites;
mod stacks;
mod tasks;
mod teams;
mod vacuums;

pub use answers::answer;
pub use blobs::named_blobs;
pub use commands::command;
pub use contents::digest_blobs;
pub use faults::EngineFault;
pub use manifests::Manifests;
pub use ovl_check::{BLOB_LIMIT, Blob, BlobInfo, Code, Finding};
pub use ovl_commands::{Answer, Command};
pub use ovl_reports::{EmitFault, ShowWork, emit};
pub use preparations::{Prepared, prepare};
pub use tasks::Task;
