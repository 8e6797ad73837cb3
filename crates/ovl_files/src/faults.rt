//! Why a file or a folder isn't read.
ghost use Rattle.std.specs.Prelude.{◌≡◌};
ghost use Rattle.ovl_files.specs.declared.reads.ReadFault.TheVariants.{Memory as ReadMemory};
ghost use Rattle.ovl_files.specs.declared.faults.FileFault.TheVariants.{Memory};
ghost use Rattle.ovl_files.specs.Faults.{IsUnread};

use crate::reads::ReadFault;
use std::alloc::{AllocError, AllocFailed, Global};
use thiserror::Error;

/// Why a file or a folder isn't read.
#[derive(Debug, PartialEq, Eq, Drop, Error)]
pub enum FileFault {
    /// The file or folder of this path can't be read.
    #[error("cannot read {0}")]
    Unread(String),
    /// Out of memory.
    #[error("out of memory")]
    Memory,
}

impl FileFault {
    /// The fault where the file or folder of this path isn't read.
    pub fn unread(alloc: Global, path: &str, fault: ReadFault) -> FileFault
        ensures told { IsUnread (λ told. told ≡ path.now) result }
        ensures memory { fault ≡ ReadMemory → result ≡ Memory }
    {
        // Made by hand (3): out of memory while a file is read, or for the path of the fault.
        if fault == ReadFault::Memory {
            return FileFault::Memory;
        }
        match String::from_str(alloc, path) {
            Ok(path) => FileFault::Unread(path),
            Err(_) => FileFault::Memory,
        }
    }
}

impl From<AllocError> for FileFault {
    ghost from_gives = { λ _ told. told ≡ Memory };

    fn from(_: AllocError) -> FileFault {
        FileFault::Memory
    }
}

impl<T: Drop> From<AllocFailed<T>> for FileFault {
    ghost from_gives = { λ _ told. told ≡ Memory };

    fn from(_: AllocFailed<T>) -> FileFault {
        FileFault::Memory
    }
}
