//! What is known of blobs, sought by name: they are held, or their contents were measured.
ghost use Rattle.std.specs.Prelude.{◌≡◌, true};
ghost use Rattle.ovl_blobs.specs.Blobs.{are_in_order, blob_views, wrong_names};
ghost use Rattle.ovl_blobs.specs.Contents.{contents_ascend, contents_of, find_content};

use crate::blobs::Blob;
use crate::by_digest::ByName;
use crate::contents::{BlobInfo, content_held};
use ovl_inode::Digest;
use std::marker::Model;

/// What is known of blobs, by name: their contents.
#[derive(Drop)]
pub struct KnownBlobs<'a> {
    source: Source<'a>,
}

// Where the contents are from.
#[derive(Drop)]
enum Source<'a> {
    Held(CheckedBlobs<'a>),
    Measured(ByName<'a, BlobInfo>),
}

// Blobs that are held, and the names of those with wrong bytes.
#[derive(Drop)]
struct CheckedBlobs<'a> {
    blobs: ByName<'a, Blob>,
    wrong: &'a [Digest],
    ghost all_wrong: { wrong.now ≡ wrong_names (blob_views blobs.elements.now) },
}

impl<'a> Model for KnownBlobs<'a> {
    ghost use Rattle.std.specs.Prelude.{List};
    ghost use Rattle.ovl_blobs.specs.declared.contents.BlobInfo.{BlobInfo};
    ghost use Rattle.ovl_blobs.specs.Known.{known_contents};

    ghost Value = { List BlobInfo };

    ghost view = { λ known. known_contents known.source };
}

impl<'a> KnownBlobs<'a> {
    /// What is known of blobs that are held, whose names ascend strictly. `wrong` has the names of
    /// those with wrong bytes, as [`crate::finish_blobs`] gives them.
    pub fn held(blobs: &'a [Blob], wrong: &'a [Digest]) -> KnownBlobs<'a>
        requires ascend { are_in_order (blob_views blobs.now) ≡ true }
        requires all_wrong { wrong.now ≡ wrong_names (blob_views blobs.now) }
        ensures { result ≡ contents_of (blob_views blobs.now) }
    {
        KnownBlobs {
            source: Source::Held(CheckedBlobs {
                blobs: ByName::of(blobs),
                wrong,
            }),
        }
    }

    /// What is known by contents that were measured, whose names ascend strictly.
    pub fn measured(contents: &'a [BlobInfo]) -> KnownBlobs<'a>
        requires { contents_ascend contents.now ≡ true }
        ensures { result ≡ contents.now }
    {
        KnownBlobs {
            source: Source::Measured(ByName::of(contents)),
        }
    }

    /// The content of the blob of a name.
    pub fn find(&self, name: &Digest) -> Option<BlobInfo>
        ensures { result ≡ find_content self.now name.now }
    {
        match &self.source {
            Source::Held(held) => held.find(name),
            Source::Measured(contents) => contents.find(name).copied(),
        }
    }
}

impl CheckedBlobs<'_> {
    fn find(&self, name: &Digest) -> Option<BlobInfo>
        ensures { result ≡ find_content (contents_of (blob_views self.now.blobs.elements.now)) name.now }
    {
        match self.blobs.find(name) {
            Some(blob) => Some(content_held(blob, self.wrong)),
            None => None,
        }
    }
}
