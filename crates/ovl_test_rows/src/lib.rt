//! What tests of several crates go by: rows of text, each the words of a call and, after ` -> `,
//! what comes of it, and failures of what isn't so.
#![tactic(auto)]

use std::alloc::{AllocError, Global};
use std::test::Fail;

/// The words of a row, and what is wanted of it.
pub fn parts_of(row: &str) -> (&str, &str) {
    row.split_once(" -> ").unwrap_or((row, ""))
}

/// A failure where something else was found than is wanted of a row.
pub fn same(row: &str, found: &str, wanted: &str) -> Result<(), Fail> {
    if found == wanted {
        return Ok(());
    }
    Err(Fail::new(format_args!("{row}: found {found:?}")))
}

/// A failure where this isn't so.
pub fn expect_so(is: bool) -> Result<(), Fail> {
    if is {
        return Ok(());
    }
    Err(Fail::new("it isn't so"))
}

/// A failure where this isn't so of a number.
pub fn expect_at(number: usize, is: bool) -> Result<(), Fail> {
    if is {
        return Ok(());
    }
    Err(Fail::new(format_args!("it isn't so at {number}")))
}

/// A text, or one so often as the number and `*` before it say; fails only when out of memory.
pub fn repeated(alloc: Global, text: &str) -> Result<String, AllocError> {
    match text.split_once('*') {
        Some((number, text)) => text.repeat(alloc, number.parse().unwrap_or(0)),
        None => String::from_str(alloc, text),
    }
}
