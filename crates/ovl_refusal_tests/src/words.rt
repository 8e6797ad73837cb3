//! Lines of words.

use ovl_command_line::{LineFault, line};
use ovl_engine::Command;
use ovl_test_rows::expect_so;
use std::alloc::Global;
use std::test::Fail;

const FLATTEN: [&str; 7] = [
    "flatten",
    "--workers=2",
    "--blobs",
    "b",
    "--out=o",
    "l0.json",
    "l1.json",
];

fn is_read(alloc: Global) -> Result<bool, LineFault> {
    let read = line(alloc, &FLATTEN)?;
    Ok(read.what == Command::Flatten && read.workers == 2 && read.layers.len() == 2)
}

// Whether the last words ask for help, or are refused with a usage.
fn is_refused(alloc: Global, words: &[&str], helps: bool) -> Result<bool, LineFault> {
    match line(alloc, words) {
        Err(LineFault::Memory) => Err(LineFault::Memory),
        Err(LineFault::Help(_)) => Ok(helps),
        Err(LineFault::Usage(_)) => Ok(!helps),
        Ok(_) => Ok(false),
    }
}

#[test]
fn words_make_a_line(rt: HostRuntime) -> Result<(), Fail> {
    expect_so(again!(is_read(rt.alloc()), LineFault::Memory)?)
}

#[test]
fn words_that_make_none_are_refused(rt: HostRuntime) -> Result<(), Fail> {
    let alloc = rt.alloc();
    let (help, usage) = (["merge", "--help"], ["show", "--workers", "65", "l0.json"]);
    expect_so(again!(is_refused(alloc, &help, true), LineFault::Memory)?)?;
    expect_so(again!(is_refused(alloc, &usage, false), LineFault::Memory)?)
}
