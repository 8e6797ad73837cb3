//! Inodes of overlay layers: their kinds and attributes, and what they mean to the overlay.
#![tactic(auto)]

mod attributes;
mod digests;
mod digit_lanes;
mod inodes;
mod marks;
pub mod overlay;
mod tables;

pub use attributes::{ATTR_NAME_LIMIT, AttrFault, Attrs};
pub use digests::{Digest, DigestFault, Digits};
pub use digit_lanes::are_lower_digits;
pub use inodes::{
    Inode, Kind, MODE_LIMIT, NSEC_LIMIT, SIZE_LIMIT, TARGET_LIMIT, Target, blob_of, file_size,
    sound, visible,
};
pub use marks::{
    Mark, Redirect, RedirectFault, is_data, is_directory, is_whiteout, mark_of, read_redirect,
};
pub use tables::Pairs;
