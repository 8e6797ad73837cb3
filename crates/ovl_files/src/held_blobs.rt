//! Blobs that are read, with no more of their bytes than a command takes.
ghost use Rattle.std.specs.Prelude.{◌≡◌, ◌<◌, ◌≤◌, ◌+◌, [], ◌∷◌, ◌++◌, if◌then◌else◌, IsOk, OnErr, OnOk, vec_capacity, vec_len, map, All, nat_lt};
ghost use Rattle.ovl_blobs.specs.Blobs.{blob_views, blob_limit, blob_bytes};
ghost use Rattle.ovl_files.specs.declared.reads.TheConstants.{INPUT_LIMIT};
ghost use Rattle.ovl_files.specs.BlobFolders.{IsSpelt};

use crate::reads::INPUT_LIMIT;
use ovl_blobs::{BLOB_LIMIT, Blob};
use ovl_inode::Digest;
use std::alloc::{AllocError, Global};

/// Blobs of a folder in some order, and how many bytes they hold together: at most [`BLOB_LIMIT`]
/// and those of one more.
#[derive(Drop)]
pub struct HeldBlobs {
    alloc: Global,
    blobs: Vec<Blob>,
    bytes: usize,
    ghost within: { All (λ blob. vec_len blob.bytes ≤ INPUT_LIMIT) blobs.items },
    ghost spelt: { All (λ blob. IsSpelt blob.name) blobs.items },
    ghost counted: { bytes ≡ blob_bytes (blob_views blobs.items) },
    ghost most: { bytes ≤ blob_limit + INPUT_LIMIT },
}

impl HeldBlobs {
    /// No blobs.
    pub fn new(alloc: Global) -> HeldBlobs
        ensures { result.blobs.items ≡ [] }
    {
        HeldBlobs {
            alloc,
            blobs: Vec::new(alloc),
            bytes: 0,
        }
    }

    /// Adds a blob after the others; without its bytes where theirs are over [`BLOB_LIMIT`]
    /// already. Where memory runs out nothing changes.
    pub fn push(&mut self, name: Digest, bytes: Vec<u8>) -> Result<(), AllocError>
        requires within { vec_len bytes ≤ INPUT_LIMIT }
        requires spelt { IsSpelt name }
        ensures added { OnOk result (map (λ blob. blob.name) self.new.blobs.items
            ≡ map (λ blob. blob.name) self.old.blobs.items ++ name ∷ []) }
        ensures counted { OnOk result (vec_len self.new.blobs ≡ vec_len self.old.blobs + 1) }
        ensures kept { OnErr result (self.new.blobs.items ≡ self.old.blobs.items) }
        ensures room { vec_len self.old.blobs < vec_capacity self.old.blobs → IsOk result }
        ensures capacity { vec_capacity self.old.blobs ≤ vec_capacity self.new.blobs }
    {
        let bytes = kept(self.alloc, self.bytes, bytes);
        let count = bytes.len();
        self.blobs.push(Blob { name, bytes })?;
        self.bytes += count;
        Ok(())
    }

    /// Adds other blobs after these, each as [`HeldBlobs::push`] does. Where memory runs out
    /// nothing changes.
    pub fn append(&mut self, others: HeldBlobs) -> Result<(), AllocError>
        ensures added { OnOk result (map (λ blob. blob.name) self.new.blobs.items
            ≡ map (λ blob. blob.name) self.old.blobs.items
            ++ map (λ blob. blob.name) others.blobs.items) }
        ensures kept { OnErr result (self.new.blobs.items ≡ self.old.blobs.items) }
    {
        self.blobs.reserve(others.blobs.len())?;
        for Blob { name, bytes } in others.blobs {
            let Ok(()) = self.push(name, bytes) else {
                unreachable!();
            };
        }
        Ok(())
    }

    /// The blobs, in their order.
    pub fn into_blobs(self) -> Vec<Blob>
        ensures same { result ≡ self.blobs }
        ensures within { All (λ blob. vec_len blob.bytes ≤ INPUT_LIMIT) result.items }
        ensures spelt { All (λ blob. IsSpelt blob.name) result.items }
        ensures held { blob_bytes (blob_views result.items) ≤ blob_limit + INPUT_LIMIT }
    {
        self.blobs
    }
}

// What is kept of a blob's bytes after blobs of this many: nothing where those are over the limit
// of all blobs already.
fn kept(alloc: Global, held: usize, bytes: Vec<u8>) -> Vec<u8>
    ensures { result.items ≡ (if nat_lt blob_limit held then [] else bytes.items) }
{
    if held > BLOB_LIMIT {
        return Vec::new(alloc);
    }
    bytes
}
