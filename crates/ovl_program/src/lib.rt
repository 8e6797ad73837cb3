//! The program over stacks of layers but for its `main`: words, manifests and blobs in, new layers
//! and reports out.
#![tactic(auto)]

mod faults;
mod output;
mod runs;

pub use faults::ProgramFault;
pub use output::hand_out::{OutFault, hand_out};
pub use output::status::Ending;
pub use ovl_command_line::{DEFAULT_WORKERS, Line, LineFault, line};
pub use ovl_files::{
    FileFault, INPUT_LIMIT, ReadFault, SharedFiles, measure_blobs, measure_file, read_all,
    read_blobs, read_expected, read_file, read_files,
};
pub use runs::command::perform;
pub use runs::program::run;
pub use runs::standard_input::show_input;
