//! The steps of the machine, and why it refuses one.
ghost use Rattle.std.specs.Prelude.{◌≡◌};
ghost use Rattle.ovl_board.specs.declared.events.CoreFault.TheVariants.{Memory};

use std::alloc::{AllocError, AllocFailed};
use thiserror::Error;

/// One step of one worker of a [`crate::Core`]; workers and their lanes are counted from 0.
#[derive(Clone, Copy, Debug, PartialEq, Eq)]
pub enum Event {
    /// A worker takes the first piece of its own lane into its empty hand, while its outbox is
    /// empty.
    Pop(usize),
    /// A worker, the first, takes the first piece of another one's lane in the same way.
    Steal(usize, usize),
    /// A worker turns the piece in its hand into a parcel, and its kids become the outbox.
    Work(usize),
    /// A worker moves the first kid of its outbox to the back of its lane.
    Push(usize),
}

/// Why a core refused a call; where both hold, the first is given.
#[derive(Clone, Copy, Debug, PartialEq, Eq, Error)]
pub enum CoreFault {
    /// The step, or the number of workers, isn't possible.
    #[error("the step is not possible")]
    NotPossible,
    /// Out of memory.
    #[error("out of memory")]
    Memory,
}

impl From<AllocError> for CoreFault {
    ghost from_gives = { λ _ fault. fault ≡ Memory };

    fn from(_: AllocError) -> CoreFault {
        CoreFault::Memory
    }
}

impl<T: Drop> From<AllocFailed<T>> for CoreFault {
    ghost from_gives = { λ _ fault. fault ≡ Memory };

    fn from(_: AllocFailed<T>) -> CoreFault {
        CoreFault::Memory
    }
}
