//! Blobs by name, length and whether they are intact.
ghost use Rattle.std.specs.Prelude.{◌≡◌, ◌↔◌, true, IfOk, IsTrue, List, Contains};
ghost use Rattle.ovl_names.specs.Order.{ascends};
ghost use Rattle.ovl_blobs.specs.Blobs.{BlobView, are_in_order, blob_view, blob_views, digest_cmp, wrong_names};
ghost use Rattle.ovl_blobs.specs.Contents.{content_of, contents_ascend, contents_of};

use crate::blobs::Blob;
use ovl_inode::Digest;
use std::alloc::{AllocError, Global};

/// What is known of a blob whose bytes needn't be held: its length, and whether its bytes are those
/// that its name says.
#[derive(Clone, Copy, Debug, PartialEq, Eq)]
pub struct BlobInfo {
    /// The SHA-256 digest that the bytes should have.
    pub name: Digest,
    /// How many bytes it has.
    pub size: u64,
    /// Whether its bytes have that digest.
    pub is_right: bool,
}

/// The contents of blobs that are held, whose names ascend strictly. `wrong` has the names of those
/// with wrong bytes, as [`crate::finish_blobs`] gives them.
pub fn contents_held(
    alloc: Global,
    blobs: &[Blob],
    wrong: &[Digest],
) -> Result<Vec<BlobInfo>, AllocError>
    requires ascend { are_in_order (blob_views blobs.now) ≡ true }
    requires all_wrong { wrong.now ≡ wrong_names (blob_views blobs.now) }
    ensures told { IfOk result (λ contents. contents.items ≡ contents_of (blob_views blobs.now)) }
    ensures ascend { IfOk result (λ contents. contents_ascend contents.items ≡ true) }
{
    let mut contents = Vec::with_capacity(alloc, blobs.len())?;
    for blob in blobs {
        contents.push(content_held(blob, wrong))?;
    }
    Ok(contents)
}

/// The content of one of blobs whose names ascend strictly. `wrong` has the names of those with
/// wrong bytes.
pub(crate) fn content_held(blob: &Blob, wrong: &[Digest]) -> BlobInfo
    requires { ascends digest_cmp wrong.now ≡ true }
    ensures { (blobs : List BlobView) → are_in_order blobs ≡ true
        → Contains blobs (blob_view blob.now) → wrong.now ≡ wrong_names blobs
        → result ≡ content_of (blob_view blob.now) }
{
    BlobInfo {
        name: blob.name,
        size: blob.bytes.len() as u64,
        is_right: !is_among(wrong, &blob.name),
    }
}

// Whether a name is among ascending ones.
fn is_among(names: &[Digest], name: &Digest) -> bool
    requires { ascends digest_cmp names.now ≡ true }
    ensures { IsTrue result ↔ Contains names.now name.now }
{
    names.binary_search(name).is_ok()
}
