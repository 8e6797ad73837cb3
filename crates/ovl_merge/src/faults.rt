//! Why layers aren't merged.
ghost use Rattle.std.specs.Prelude.{◌≡◌};
ghost use Rattle.ovl_merge.specs.declared.faults.MergeFault.TheVariants.{Memory};
ghost use Rattle.ovl_merge.specs.Limits.{refused};

use ovl_rewrite::RewriteFault;
use std::alloc::AllocError;
use thiserror::Error;

/// Why layers aren't merged.
#[derive(Clone, Copy, Debug, PartialEq, Eq, Error)]
pub enum MergeFault {
    /// Only one layer of the stack isn't data-only, so there is none to put it into.
    #[error("no lower layer")]
    NoLower,
    /// The new lower layer has more entries than a manifest may have, or a path with more names or
    /// a longer text.
    #[error("result over the limits")]
    LimitOut,
    /// Out of memory.
    #[error("out of memory")]
    Memory,
}

impl From<AllocError> for MergeFault {
    ghost from_gives = { λ _ fault. fault ≡ Memory };

    fn from(_: AllocError) -> MergeFault {
        MergeFault::Memory
    }
}

impl From<RewriteFault> for MergeFault {
    ghost from_gives = { λ fault told. told ≡ refused fault };

    fn from(fault: RewriteFault) -> MergeFault {
        match fault {
            RewriteFault::LimitOut => MergeFault::LimitOut,
            RewriteFault::Memory => MergeFault::Memory,
        }
    }
}
