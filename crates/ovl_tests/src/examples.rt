//! What the documentation of public calls shows: its blocks of code are lines of functions here and
//! in other files of tests, and the tests say what comes of them.

use crate::samples::{manifest_of, manifests_of};
use ovl_engine::{
    Answer, Command, EngineFault, Task, answer, command, digest_blobs, named_blobs, prepare,
};
use ovl_inode::{Inode, Mark, Redirect, mark_of};
use ovl_layer::Sheet;
use ovl_lookup::{Look, Stack, walk};
use ovl_manifest::{read_layer, read_sheet};
use ovl_names::{Name, Path};
use ovl_pool::OpenGate;
use ovl_test_rows::{expect_so, parts_of, same};
use std::alloc::{AllocError, Global};
use std::sync::Wait;
use std::test::Fail;
use std::thread::Threads;

fn child_shown(alloc: Global) -> Result<String, Fail> {
    let directory = Path::parse(alloc, "/usr/bin")?;
    let path = directory.child(alloc, &Name::of(alloc, "env")?)?;
    Ok(path.shown(alloc)?)
}

fn name_refused(alloc: Global) -> Result<String, AllocError> {
    match Name::of(alloc, "a/b") {
        Ok(name) => name.shown(alloc),
        Err(fault) => fault.to_string(alloc),
    }
}

fn old_place(alloc: Global, inode: &Inode) -> Result<String, AllocError> {
    match mark_of(alloc, inode)? {
        Mark::DirMoved(Redirect::To(path)) => path.shown(alloc),
        Mark::DirMoved(Redirect::Beside(name)) => name.shown(alloc),
        mark => format!(in alloc; "{mark:?}"),
    }
}

fn old_places(alloc: Global, manifest: &[u8]) -> Result<String, Fail> {
    let mut text = String::new(alloc);
    let layer = read_layer(alloc, manifest)?;
    for (path, inode) in &layer.entries(alloc)? {
        let path = path.shown(alloc)?;
        let place = old_place(alloc, inode)?;
        text.push_str(format!(in alloc; "{path}: {place}; ")?.as_str())?;
    }
    Ok(text)
}

fn stack_read(alloc: Global, manifests: &[Vec<u8>]) -> Result<Stack, Fail> {
    let mut sheets = Vec::new(alloc);
    for manifest in manifests {
        sheets.push(read_sheet(alloc, manifest)?)?;
    }
    Ok(Stack::of_sheets(sheets, Vec::new(alloc))?)
}

fn mode_shown(alloc: Global, stack: &Stack, path: &Path) -> Result<String, AllocError> {
    match stack.look(alloc, 0, path)? {
        Look::Nothing => String::from_str(alloc, "nothing"),
        Look::Shown(inode) => format!(in alloc; "mode {}", inode.mode),
        Look::Broken(_) => String::from_str(alloc, "a file whose data is missing"),
    }
}

fn names_shown(alloc: Global, stack: &Stack, path: &Path) -> Result<String, AllocError> {
    let mut text = String::new(alloc);
    for name in &stack.names(alloc, 0, path)? {
        text.push_str(name.as_str())?;
        text.push_str(" ")?;
    }
    Ok(text)
}

fn directories_shown(alloc: Global, stack: &Stack) -> Result<String, AllocError> {
    let mut text = String::new(alloc);
    for (path, look) in &stack.list(alloc)? {
        if look.is_shown_directory() {
            text.push_str(path.shown(alloc)?.as_str())?;
            text.push_str(" ")?;
        }
    }
    Ok(text)
}

fn next_place(alloc: Global, sheet: &Sheet, path: &Path) -> Result<String, AllocError> {
    let step = walk(alloc, sheet, path)?;
    if step.closed {
        return String::from_str(alloc, "nothing");
    }
    step.next.shown(alloc)
}

// A moved directory, and what a stack shows that has it.
const MOVED: &str = "dir /n redirect=/x, whiteout /x | dir /x, file /x/k";

fn next_told(alloc: Global, path: &str) -> Result<String, Fail> {
    let (top, _) = MOVED.split_once(" | ").unwrap_or((MOVED, ""));
    let sheet = read_sheet(alloc, &manifest_of(alloc, top)?)?;
    Ok(next_place(alloc, &sheet, &Path::parse(alloc, path)?)?)
}

fn places_told(alloc: Global) -> Result<String, Fail> {
    let (top, _) = MOVED.split_once(" | ").unwrap_or((MOVED, ""));
    old_places(alloc, &manifest_of(alloc, top)?)
}

fn shown_told(alloc: Global, call: &str, path: &str) -> Result<String, Fail> {
    let (manifests, _) = manifests_of(alloc, MOVED)?;
    let stack = stack_read(alloc, &manifests)?;
    let path = Path::parse(alloc, path)?;
    match call {
        "look" => Ok(mode_shown(alloc, &stack, &path)?),
        "names" => Ok(names_shown(alloc, &stack, &path)?),
        _ => Ok(directories_shown(alloc, &stack)?),
    }
}

const ROWS: &str = "\
child -> /usr/bin/env
name -> the name holds `/`
places -> /: DirPlain; /n: /x; /x: Whiteout;\x20
next /n/k -> /x/k
next /x -> nothing
look /n/k -> mode 420
look /x -> nothing
names /n -> k\x20
list / -> / /n\x20
";

fn told(alloc: Global, call: &str, path: &str) -> Result<String, Fail> {
    match call {
        "child" => child_shown(alloc),
        "name" => Ok(name_refused(alloc)?),
        "places" => places_told(alloc),
        "next" => next_told(alloc, path),
        _ => shown_told(alloc, call, path),
    }
}

fn row_told(alloc: Global, row: &str) -> Result<(), Fail> {
    let (words, wanted) = parts_of(row);
    let (call, path) = words.split_once(' ').unwrap_or((words, ""));
    same(row, told(alloc, call, path)?.as_str(), wanted)
}

#[test]
fn examples_give_what_is_said(rt: HostRuntime) -> Result<(), Fail> {
    for row in ROWS.lines() {
        row_told(rt.alloc(), row)?;
    }
    Ok(())
}

fn flattened<R: Threads + Wait + Sync>(
    rt: &R,
    alloc: Global,
    manifests: &[Vec<u8>],
    contents: &[Vec<u8>],
) -> Result<Answer, EngineFault> {
    let blobs = named_blobs(alloc, contents)?;
    let what = Command::Flatten;
    command(rt, alloc, what, manifests, 0, &blobs, 4, &OpenGate)
}

fn merged_down<R: Threads + Wait + Sync>(
    rt: &R,
    alloc: Global,
    manifests: Vec<Vec<u8>>,
    contents: &[Vec<u8>],
) -> Result<Answer, EngineFault> {
    let blobs = named_blobs(alloc, contents)?;
    let task = Task::MergeDown(2);
    let prepared = prepare(rt, alloc, task, manifests, 0, &blobs, 4)?;
    let known = digest_blobs(rt, alloc, &prepared, &blobs, 4, &OpenGate)?;
    answer(rt, alloc, prepared, known, 4, &OpenGate)
}

// The contents of one file, `a`.
fn contents(alloc: Global) -> Result<[Vec<u8>; 1], AllocError> {
    Ok([String::from_str(alloc, "a")?.into_bytes()])
}

#[test]
fn all_layers_are_flattened(rt: HostRuntime) -> Result<(), Fail> {
    let (manifests, _) = manifests_of(rt.alloc(), "dir /a, file /a/k | dir /b")?;
    let answer = flattened(&rt, rt.alloc(), &manifests, &contents(rt.alloc())?)?;
    let (wanted, _) = manifests_of(rt.alloc(), "dir /a, file /a/k, dir /b")?;
    expect_so(answer.layers == wanted)
}

#[test]
fn three_layers_are_merged_down_to_two(rt: HostRuntime) -> Result<(), Fail> {
    let (manifests, _) = manifests_of(rt.alloc(), "dir /a, file /a/k | dir /b | dir /c")?;
    let answer = merged_down(&rt, rt.alloc(), manifests, &contents(rt.alloc())?)?;
    let (wanted, _) = manifests_of(rt.alloc(), "root | dir /a, file /a/k, dir /b")?;
    expect_so(answer.layers == wanted)
}
