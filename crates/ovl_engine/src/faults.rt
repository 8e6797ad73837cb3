//! Why a command gives no answer, of all that it is made of.
ghost use Rattle.std.specs.Prelude.{◌≡◌};
ghost use Rattle.ovl_engine.specs.declared.faults.EngineFault.TheVariants.{Memory};
ghost use Rattle.ovl_engine.specs.Refusals.{unread_layer, failed_run, failed_deref, failed_merge};

use ovl_board::{BoardFault, WORKER_LIMIT};
use ovl_check::BLOB_LIMIT;
use ovl_layer::LayerFault;
use ovl_lookup::LAYER_LIMIT;
use ovl_merge::MergeFault;
use ovl_pool::RunFault;
use ovl_rewrite::RewriteFault;
use std::alloc::{AllocError, AllocFailed};
use thiserror::Error;

/// Why a command gives no answer. The first of `Workers`, `Layers`, `DataLayers`, `Layer`,
/// `BlobOrder`, `BlobSize` and `NoLower` that holds is given before any work is done; `Faulty`
/// comes where a command is refused for what [`Command::Fsck`](crate::Command::Fsck) reports, and
/// `LimitOut` after that check. Layers are counted from 0, the topmost first.
#[derive(Debug, PartialEq, Eq, Drop, Error)]
pub enum EngineFault {
    /// There is no worker, or there are more than [`WORKER_LIMIT`].
    #[error("workers must be 1 to {max}", max = WORKER_LIMIT)]
    Workers,
    /// There is no manifest, or there are more than [`LAYER_LIMIT`].
    #[error("layers must be 1 to {max}", max = LAYER_LIMIT)]
    Layers,
    /// The manifest of this index states no layer, for this reason.
    #[error("layer {0}: {1}")]
    Layer(usize, LayerFault),
    /// The names of the blobs don't ascend strictly.
    #[error("blobs out of order")]
    BlobOrder,
    /// The blobs have more than [`BLOB_LIMIT`] bytes in all.
    #[error("blobs over {max} bytes", max = BLOB_LIMIT)]
    BlobSize,
    /// A command that wants a layer under the topmost one has none that isn't data-only.
    #[error("no lower layer")]
    NoLower,
    /// The layers or the blobs have faults, which this report of `fsck` has.
    #[error("the layers or the blobs have faults")]
    Faulty(Vec<u8>),
    /// A new layer has more entries than a manifest may have, or a path with more names or a longer
    /// text.
    #[error("result over the limits")]
    LimitOut,
    /// A run over the layers or the blobs gives no walk, for another reason than memory.
    #[error("{}", run_word(.0))]
    Run(RunFault),
    /// Out of memory.
    #[error("out of memory")]
    Memory,
    /// All layers would be data-only.
    #[error("data layers must leave a layer")]
    DataLayers,
}

// What is printed of a run that gave no walk.
fn run_word(fault: &RunFault) -> &'static str {
    // Made by hand (1): the text of the fault, which isn't made here.
    match fault {
        RunFault::Workers => "workers",
        RunFault::Gate => "gate",
        RunFault::Board(_) => "board",
        RunFault::Memory => "out of memory",
    }
}

impl EngineFault {
    /// The fault where the manifest of this index states no layer. Out of memory stays that.
    pub(crate) fn unread(index: usize, fault: LayerFault) -> EngineFault
        ensures { result ≡ unread_layer index fault }
    {
        // Made by hand (2): out of memory while a manifest is read.
        match fault {
            LayerFault::Memory => EngineFault::Memory,
            _ => EngineFault::Layer(index, fault),
        }
    }
}

impl From<RunFault> for EngineFault {
    ghost from_gives = { λ fault told. told ≡ failed_run fault };

    fn from(fault: RunFault) -> EngineFault {
        match fault {
            RunFault::Memory | RunFault::Board(BoardFault::Memory) => EngineFault::Memory,
            _ => EngineFault::Run(fault),
        }
    }
}

impl From<RewriteFault> for EngineFault {
    ghost from_gives = { λ fault told. told ≡ failed_deref fault };

    fn from(fault: RewriteFault) -> EngineFault {
        match fault {
            RewriteFault::LimitOut => EngineFault::LimitOut,
            RewriteFault::Memory => EngineFault::Memory,
        }
    }
}

impl From<MergeFault> for EngineFault {
    ghost from_gives = { λ fault told. told ≡ failed_merge fault };

    fn from(fault: MergeFault) -> EngineFault {
        match fault {
            MergeFault::NoLower => EngineFault::NoLower,
            MergeFault::LimitOut => EngineFault::LimitOut,
            MergeFault::Memory => EngineFault::Memory,
        }
    }
}

impl From<AllocError> for EngineFault {
    ghost from_gives = { λ _ fault. fault ≡ Memory };

    fn from(_: AllocError) -> EngineFault {
        EngineFault::Memory
    }
}

impl<T: Drop> From<AllocFailed<T>> for EngineFault {
    ghost from_gives = { λ _ fault. fault ≡ Memory };

    fn from(_: AllocFailed<T>) -> EngineFault {
        EngineFault::Memory
    }
}
