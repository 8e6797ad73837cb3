//! Reads the words of the command line by `clap`.
ghost use Rattle.std.specs.Prelude.{◌≡◌, IfOk, map, option_map, string_bytes};
ghost use Rattle.clap.specs.Words.{found_of, kind_of, rows_of};
ghost use Rattle.ovl_command_line.specs.Lines.{HasValues, IsFaultOfKind, IsGiven, IsRead, IsSound, NamesCommand, name_of};

use crate::commands::tool;
use crate::options::{Line, LineFault};
use clap::ArgMatches;
use clap::error::ErrorKind;
use ovl_commands::Command;
use std::alloc::{AllocError, Global};

/// The line that the words after the program's name ask for. Which words those are, and the texts
/// of help and of usage faults, the module `commands` says. Words that no command takes are a usage
/// fault, as a number of workers outside 1 to 64, of data-only layers over 127, or no layer at all.
/// If they ask for help or the version, that is the fault. `Memory` may come at any words.
pub fn line(alloc: Global, words: &[&str]) -> Result<Line, LineFault>
    ensures sound { IfOk result IsSound }
    ensures read { IsRead (map (λ word. word.now) words.now) result }
{
    let matches = match tool(alloc)?.try_get_matches_from(words) {
        Ok(matches) => matches,
        Err(error) => return Err(fault_of(alloc, &error)),
    };
    let (name, given) = matches.subcommand().unwrap();
    Ok(read(alloc, command_of(name), given)?)
}

fn command_of(name: &str) -> Command
    requires { NamesCommand name.now }
    ensures { name.now ≡ name_of result }
{
    match name {
        "show" => Command::Show,
        "fsck" => Command::Fsck,
        "vacuum" => Command::Vacuum,
        "deref" => Command::Deref,
        "merge" => Command::Merge,
        "flatten" => Command::Flatten,
        _ => unreachable!(),
    }
}

// The line of a command, by the values that its options have.
fn read(alloc: Global, what: Command, given: &ArgMatches<'_>) -> Result<Line, AllocError>
    requires { IsGiven what (rows_of (found_of given.now)) }
    ensures sound { IfOk result IsSound }
    ensures values { IfOk result
        (λ line. (line.what ≡ what) × HasValues line (rows_of (found_of given.now))) }
{
    let data_layers: usize = given.get_one("data-layers").unwrap();
    Ok(Line {
        what,
        workers: given.get_one("workers").unwrap(),
        data_layers: data_layers as u16,
        blobs: copy(alloc, given.get_str("blobs"))?,
        any_size: given.get_flag("any-size"),
        down_to: given.get_one("down-to"),
        out: copy(alloc, given.get_str("out"))?,
        layers: copies(alloc, given.get_strs("layers").unwrap())?,
    })
}

fn copy(alloc: Global, text: Option<&str>) -> Result<Option<String>, AllocError>
    ensures { IfOk result
        (λ copy. option_map string_bytes copy ≡ option_map (λ text. text.now) text.entry) }
{
    match text {
        Some(text) => Ok(Some(String::from_str(alloc, text)?)),
        None => Ok(None),
    }
}

fn copies(alloc: Global, texts: &[&str]) -> Result<Vec<String>, AllocError>
    ensures { IfOk result
        (λ copies. map string_bytes copies.items ≡ map (λ text. text.now) texts.now) }
{
    let mut copies = Vec::with_capacity(alloc, texts.len())?;
    for text in texts {
        copies.push(String::from_str(alloc, text)?)?;
    }
    Ok(copies)
}

// The fault of words that `clap` refuses or answers with help.
fn fault_of(alloc: Global, error: &clap::Error) -> LineFault
    ensures { IsFaultOfKind (kind_of error.now) result }
{
    // Made by hand (2): `clap` ran out of memory.
    match (error.kind(), error.to_string(alloc)) {
        (ErrorKind::OutOfMemory, _) | (_, Err(_)) => LineFault::Memory,
        (ErrorKind::DisplayHelp | ErrorKind::DisplayVersion, Ok(text)) => LineFault::Help(text),
        (_, Ok(text)) => LineFault::Usage(text),
    }
}
