//! Why no new layer is given.
ghost use Rattle.std.specs.Prelude.{◌≡◌};
ghost use Rattle.ovl_rewrite.specs.Passes.{failed_subtree};
ghost use Rattle.ovl_rewrite.specs.declared.faults.RewriteFault.TheVariants.{Memory};

use ovl_layer::SubtreeFault;
use std::alloc::AllocError;
use thiserror::Error;

/// Why no new layer is given.
#[derive(Clone, Copy, Debug, PartialEq, Eq, Error)]
pub enum RewriteFault {
    /// The new layer has more entries than a manifest may have, or a path with more names or a
    /// longer text.
    #[error("result over the limits")]
    LimitOut,
    /// Out of memory.
    #[error("out of memory")]
    Memory,
}

impl From<AllocError> for RewriteFault {
    ghost from_gives = { λ _ fault. fault ≡ Memory };

    fn from(_: AllocError) -> RewriteFault {
        RewriteFault::Memory
    }
}

impl From<SubtreeFault> for RewriteFault {
    ghost from_gives = { λ fault told. told ≡ failed_subtree fault };

    fn from(fault: SubtreeFault) -> RewriteFault {
        match fault {
            SubtreeFault::NoLayer => RewriteFault::LimitOut,
            SubtreeFault::Memory => RewriteFault::Memory,
        }
    }
}
