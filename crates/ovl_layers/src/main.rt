//! Offline tools for stacks of overlay layers: what layers show, what is wrong with them, and new
//! layers that show the same.
#![tactic(auto)]

use std::process::ExitCode;

fn main(rt: HostRuntime) -> ExitCode {
    ExitCode::from(ovl_program::run(&rt))
}
