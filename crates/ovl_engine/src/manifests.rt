//! Manifests that a command owns, or that are lent to it.
ghost use Rattle.std.specs.Prelude.{◌≡◌, IfOk, length, map};
ghost use Rattle.ovl_engine.specs.Requests.{ManifestTexts};

use std::alloc::{AllocError, Global};
use std::convert::AsSlice;

/// The manifests of a command: its own, of which each goes once its layer is read, or lent ones.
pub trait Manifests {
    /// The bytes of one manifest, owned or lent.
    type Manifest: AsSlice<u8> + Send + Drop;

    /// The texts of all manifests, whoever owns them.
    ghost held: { Self → ManifestTexts };

    /// The number of manifests.
    fn len(&self) -> usize
        ensures { result ≡ length (held self.now) };

    /// All manifests as a vector, in their order; none of their bytes is copied.
    fn listed(self, alloc: Global) -> Result<Vec<Self::Manifest>, AllocError>
        ensures texts { IfOk result
            (λ list. map Self.Manifest.items list.items
            ≡ map (λ manifest. manifest.items) (held self)) }
        ensures count { IfOk result (λ list. length list.items ≡ length (held self)) };
}

impl Manifests for Vec<Vec<u8>> {
    type Manifest = Vec<u8>;

    ghost held = { λ manifests. manifests.items };

    fn len(&self) -> usize {
        self.as_slice().len()
    }

    fn listed(self, _alloc: Global) -> Result<Vec<Vec<u8>>, AllocError> {
        Ok(self)
    }
}

impl<'a> Manifests for &'a [Vec<u8>] {
    type Manifest = &'a Vec<u8>;

    ghost held = { λ manifests. manifests.now };

    fn len(&self) -> usize {
        (**self).len()
    }

    fn listed(self, alloc: Global) -> Result<Vec<&'a Vec<u8>>, AllocError> {
        self.iter().collect(alloc)
    }
}
