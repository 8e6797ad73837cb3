//! Why bytes or entries are no layer.
ghost use Rattle.std.specs.Prelude.{◌≡◌};
ghost use Rattle.ovl_layer.specs.declared.faults.LayerFault.TheVariants.{Memory};
ghost use Rattle.ovl_layer.specs.declared.faults.SubtreeFault.TheVariants.{Memory as NoMemory};

use std::alloc::{AllocError, AllocFailed};
use thiserror::Error;

/// Why bytes are no manifest, or entries no layer; the first fault in the order of tests is given,
/// which `docs/FORMATS.md` has. An entry is named by its number, counted from 0.
#[derive(Clone, Copy, Debug, PartialEq, Eq, Error)]
pub enum LayerFault {
    /// The bytes are no JSON text in UTF-8.
    #[error("not JSON")]
    NotJson,
    /// The value is no object of a whole number `overlay-layer` and a list `entries`.
    #[error("wrong shape")]
    Shape,
    /// `overlay-layer` is the number of no version that is read.
    #[error("unknown version")]
    Version,
    /// There is no entry, or there are more than [`ENTRY_LIMIT`](crate::ENTRY_LIMIT).
    #[error("entry count")]
    Count,
    /// The entry has not exactly the members of its kind, or a value that none may have.
    #[error("entry {0}: wrong entry")]
    Entry(u32),
    /// The entry does not come after all entries before it, in path order.
    #[error("entry {0}: out of order")]
    Order(u32),
    /// No entry before it is its directory.
    #[error("entry {0}: no parent directory")]
    NoParent(u32),
    /// The first entry is not the root, or no directory.
    #[error("no root directory first")]
    Root,
    /// An attribute's name begins with [`ESCAPED_PREFIX`](ovl_inode::overlay::ESCAPED_PREFIX).
    #[error("entry {0}: escaped attribute")]
    Escaped(u32),
    /// Out of memory.
    #[error("out of memory")]
    Memory,
}

impl From<AllocError> for LayerFault {
    ghost from_gives = { λ _ fault. fault ≡ Memory };

    fn from(_: AllocError) -> LayerFault {
        LayerFault::Memory
    }
}

/// Why entries aren't put together.
#[derive(Clone, Copy, Debug, PartialEq, Eq, Error)]
pub enum SubtreeFault {
    /// No layer has them.
    #[error("no layer")]
    NoLayer,
    /// Out of memory.
    #[error("out of memory")]
    Memory,
}

impl<T: Drop> From<AllocFailed<T>> for SubtreeFault {
    ghost from_gives = { λ _ fault. fault ≡ NoMemory };

    fn from(_: AllocFailed<T>) -> SubtreeFault {
        SubtreeFault::Memory
    }
}
