//! What the words of a command line ask for.
ghost use Rattle.std.specs.Prelude.{◌≡◌};
ghost use Rattle.ovl_command_line.specs.declared.options.LineFault.TheVariants.{Memory};

use ovl_commands::Command;
use std::alloc::AllocError;
use thiserror::Error;

/// A command, with what its options say.
#[derive(Debug, PartialEq, Eq, Drop)]
pub struct Line {
    /// What is done with the layers.
    pub what: Command,
    /// The number of workers, 1 to [`WORKER_LIMIT`](ovl_board::WORKER_LIMIT).
    pub workers: usize,
    /// How many of the layers, the lowest, are data-only; fewer than
    /// [`LAYER_LIMIT`](ovl_lookup::LAYER_LIMIT).
    pub data_layers: u16,
    /// The folder of the files' contents, for each command but `show`.
    pub blobs: Option<String>,
    /// Whether the contents are read in parts, whatever their size; never for `show`.
    pub any_size: bool,
    /// How many layers merges are to leave, of those that aren't data-only, only for `merge`: at
    /// least one, and fewer than [`LAYER_LIMIT`](ovl_lookup::LAYER_LIMIT).
    pub down_to: Option<usize>,
    /// The folder for new layers, for the commands that make some.
    pub out: Option<String>,
    /// The files of the manifests, the topmost layer first. There is at least one.
    pub layers: Vec<String>,
}

/// Why words give no line.
#[derive(Debug, PartialEq, Eq, Drop, Error)]
pub enum LineFault {
    /// They ask for help or the version, which is this text.
    #[error("{0}")]
    Help(String),
    /// No command takes them, for the reason that this text has.
    #[error("{0}")]
    Usage(String),
    /// Out of memory.
    #[error("out of memory")]
    Memory,
}

impl From<AllocError> for LineFault {
    ghost from_gives = { λ _ told. told ≡ Memory };

    fn from(_: AllocError) -> LineFault {
        LineFault::Memory
    }
}
