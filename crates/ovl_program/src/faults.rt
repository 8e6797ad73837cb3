//! Why the program ends without a report, and its status then.
ghost use Rattle.std.specs.Prelude.{◌≡◌};
ghost use Rattle.ovl_program.specs.declared.faults.ProgramFault.TheVariants.{Engine};
ghost use Rattle.ovl_engine.specs.declared.faults.EngineFault.TheVariants.{Memory};
ghost use Rattle.ovl_program.specs.Faults.{unread_file, unread_input, program_status};
ghost use Rattle.ovl_program.specs.Faults as faults;

use ovl_engine::EngineFault;
use ovl_files::{FileFault, ReadFault};
use std::alloc::{AllocError, AllocFailed};
use thiserror::Error;

/// Why the program ends without having printed its report.
#[derive(Debug, PartialEq, Eq, Drop, Error)]
pub enum ProgramFault {
    /// The words are none of the program's; the text says how they should be, and ends its last
    /// line itself.
    #[error("{0}")]
    Usage(String),
    /// A word isn't UTF-8.
    #[error("words must be UTF-8")]
    Words,
    /// Standard input can't be read, or has more than
    /// [`INPUT_LIMIT`](ovl_files::INPUT_LIMIT) bytes.
    #[error("cannot read standard input")]
    Input,
    /// The file or folder of this path can't be read.
    #[error("cannot read {0}")]
    Unread(String),
    /// The file of this path can't be made, or a write to it failed or took nothing.
    #[error("cannot write {0}")]
    Unwritten(String),
    /// A write to standard output failed, or took nothing.
    #[error("cannot write standard output")]
    Output,
    /// The command gives no answer, for this reason.
    #[error(transparent)]
    Engine(EngineFault),
}

impl ProgramFault {
    /// The status that the program ends with.
    pub fn status(&self) -> u8
        ensures { result ≡ program_status self.now }
    {
        // Made by hand (4): the status of the fault, which isn't made here.
        match self {
            ProgramFault::Usage(_) | ProgramFault::Words => 2,
            ProgramFault::Input | ProgramFault::Unread(_) => 3,
            ProgramFault::Unwritten(_) | ProgramFault::Output => 4,
            ProgramFault::Engine(fault) => engine_status(fault),
        }
    }
}

// The status where the command gives no answer.
fn engine_status(fault: &EngineFault) -> u8
    ensures { result ≡ faults.engine_status fault.now }
{
    // Made by hand (1): the status of the fault, which isn't made here.
    match fault {
        EngineFault::Faulty(_) => 1,
        EngineFault::Layers
        | EngineFault::DataLayers
        | EngineFault::Layer(..)
        | EngineFault::BlobOrder
        | EngineFault::BlobSize
        | EngineFault::NoLower => 3,
        EngineFault::Workers | EngineFault::LimitOut | EngineFault::Run(_) | EngineFault::Memory =>
            5,
    }
}

impl From<ReadFault> for ProgramFault {
    ghost from_gives = { λ fault told. told ≡ unread_input fault };

    fn from(fault: ReadFault) -> ProgramFault {
        match fault {
            ReadFault::Memory => ProgramFault::Engine(EngineFault::Memory),
            ReadFault::Device | ReadFault::TooLong => ProgramFault::Input,
        }
    }
}

impl From<FileFault> for ProgramFault {
    ghost from_gives = { λ fault told. told ≡ unread_file fault };

    fn from(fault: FileFault) -> ProgramFault {
        match fault {
            FileFault::Unread(path) => ProgramFault::Unread(path),
            FileFault::Memory => ProgramFault::Engine(EngineFault::Memory),
        }
    }
}

impl From<EngineFault> for ProgramFault {
    ghost from_gives = { λ fault told. told ≡ Engine fault };

    fn from(fault: EngineFault) -> ProgramFault {
        ProgramFault::Engine(fault)
    }
}

impl From<AllocError> for ProgramFault {
    ghost from_gives = { λ _ told. told ≡ Engine Memory };

    fn from(_: AllocError) -> ProgramFault {
        ProgramFault::Engine(EngineFault::Memory)
    }
}

impl<T: Drop> From<AllocFailed<T>> for ProgramFault {
    ghost from_gives = { λ _ told. told ≡ Engine Memory };

    fn from(_: AllocFailed<T>) -> ProgramFault {
        ProgramFault::Engine(EngineFault::Memory)
    }
}
