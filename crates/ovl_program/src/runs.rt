//! The program from its words to its status.
/// What the program does: by the words, by a line of them, or by a manifest on standard input.
pub mod arguments;
pub mod command;
pub mod program;
pub mod standard_input;
