//! Names and paths.

use ovl_names::{Name, Path};
use ovl_test_rows::{parts_of, repeated, same};
use std::alloc::{AllocError, Global};
use std::test::Fail;

const ROWS: &str = "\
name: a -> a
name: 255*a -> 255*a
name: a b -> a\\x20b
name: é -> \\xc3\\xa9
name: \\ -> \\x5c
name: ~! -> ~!
name:  -> the name is empty
name: 256*a -> the name has more than 255 bytes
name: 150*a/ -> the name has more than 255 bytes
name: . -> the name is `.` or `..`
name: .. -> the name is `.` or `..`
name: a/b -> the name holds `/`
name: a\0 -> the name holds NUL
path: / -> 0 /
path: /a -> 1 /a
path: /a/b -> 2 /a/b
path: /a b/\u{7f} -> 2 /a\\x20b/\\x7f
path: a -> the path does not begin with `/`
path:  -> the path does not begin with `/`
path: /a/ -> the path has an empty part
path: // -> the path has an empty part
path: /../ -> the path has an empty part
path: /a/.. -> the path has a part that is no name
path: 129*/d -> the path has more than 128 names
depth: 65*/d -> 65 names
depth: 128*/d -> 128 names
long-path: 4095 -> 16 names
long-path: 4096 -> the path has more than 4095 bytes
before: / /a -> true
before: /a /a/b -> true
before: /a/b /a-b -> true
child: /a b -> /a/b
parent: /a/b -> /a
parent: / -> none
pushed-and-joined: /a b -> /a/b/a/b
";

// A name as reports show it, or what is reported of its fault.
fn name_told(alloc: Global, text: &str) -> Result<String, AllocError> {
    match Name::of(alloc, text) {
        Ok(name) => name.copy(alloc)?.shown(alloc),
        Err(fault) => fault.to_string(alloc),
    }
}

fn shown_with_length(alloc: Global, path: &Path) -> Result<String, AllocError> {
    let shown = path.copy(alloc)?.shown(alloc)?;
    format!(in alloc; "{} {shown}", path.len())
}

// How many names a path has, and it as reports show it, or what is reported of its fault.
fn path_told(alloc: Global, text: &str) -> Result<String, AllocError> {
    match Path::parse(alloc, text) {
        Ok(path) => shown_with_length(alloc, &path),
        Err(fault) => fault.to_string(alloc),
    }
}

// How many names a path has, or what is reported of its fault.
fn depth_told(alloc: Global, text: &str) -> Result<String, AllocError> {
    match Path::parse(alloc, text) {
        Ok(path) => format!(in alloc; "{} names", path.len()),
        Err(fault) => fault.to_string(alloc),
    }
}

// The same of a path of this many bytes, at most 4,096: each name but the last has 255.
fn long_path_told(alloc: Global, bytes: &str) -> Result<String, AllocError> {
    let name = "n".repeat(alloc, 255)?;
    let names = format!(in alloc; "/{name}")?.as_str().repeat(alloc, 16)?;
    let text = names
        .as_str()
        .get(..bytes.parse().unwrap_or(0))
        .unwrap_or("");
    depth_told(alloc, text)
}

fn before_told(alloc: Global, path: &str, other: &str) -> Result<String, Fail> {
    let is_before = Path::parse(alloc, path)? < Path::parse(alloc, other)?;
    Ok(format!(in alloc; "{is_before}")?)
}

fn child_told(alloc: Global, path: &str, name: &str) -> Result<String, Fail> {
    let name = Name::of(alloc, name)?;
    let child = Path::parse(alloc, path)?.child(alloc, &name)?;
    Ok(child.shown(alloc)?)
}

fn parent_told(alloc: Global, path: &str) -> Result<String, Fail> {
    match Path::parse(alloc, path)?.parent(alloc)? {
        Some(parent) => Ok(parent.shown(alloc)?),
        None => Ok(String::from_str(alloc, "none")?),
    }
}

// A path to which a name was pushed, with its own names after it.
fn joined_told(alloc: Global, path: &str, name: &str) -> Result<String, Fail> {
    let mut path = Path::parse(alloc, path)?;
    path.push(&Name::of(alloc, name)?)?;
    let joined = path.joined(alloc, &path.names())?;
    Ok(joined.shown(alloc)?)
}

fn told(alloc: Global, call: &str, text: &str) -> Result<String, Fail> {
    let (first, second) = text.split_once(' ').unwrap_or((text, ""));
    match call {
        "name" => Ok(name_told(alloc, text)?),
        "path" => Ok(path_told(alloc, text)?),
        "depth" => Ok(depth_told(alloc, text)?),
        "long-path" => Ok(long_path_told(alloc, text)?),
        "before" => before_told(alloc, first, second),
        "child" => child_told(alloc, first, second),
        "parent" => parent_told(alloc, text),
        "pushed-and-joined" => joined_told(alloc, first, second),
        _ => Err(Fail::new("no call has this word")),
    }
}

// A failure where something else was found than the text that is wanted of a row.
fn same_repeated(alloc: Global, row: &str, found: &str, wanted: &str) -> Result<(), Fail> {
    same(row, found, repeated(alloc, wanted)?.as_str())
}

fn row_told(alloc: Global, row: &str) -> Result<(), Fail> {
    let (words, wanted) = parts_of(row);
    let (call, text) = words.split_once(": ").unwrap_or((words, ""));
    let text = repeated(alloc, text)?;
    same_repeated(
        alloc,
        row,
        told(alloc, call, text.as_str())?.as_str(),
        wanted,
    )
}

#[test]
fn names_and_paths_are_told_or_refused_by_their_first_fault(rt: HostRuntime) -> Result<(), Fail> {
    for row in ROWS.lines() {
        row_told(rt.alloc(), row)?;
    }
    Ok(())
}
