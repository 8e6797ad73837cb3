//! Commands by numbers of workers and layers.

use crate::samples::{blobs_of, earlier, manifest_of, manifests_of};
use ovl_engine::{Answer, Command, EngineFault, command};
use ovl_pool::OpenGate;
use ovl_test_rows::{expect_so, parts_of, same};
use std::alloc::{AllocError, Global};
use std::sync::Wait;
use std::test::Fail;
use std::thread::Threads;

fn of_one(alloc: Global, text: &str, number: u32) -> Result<String, AllocError> {
    let path = format!(in alloc; "/d{number:02}")?;
    text.replace(alloc, "DIR", path.as_str())
}

/// A text for each of forty directories one after another, with its path in place of `DIR`.
pub(crate) fn of_forty(alloc: Global, text: &str) -> Result<String, AllocError> {
    let mut all = String::new(alloc);
    for number in 0..40 {
        all.push_str(of_one(alloc, text, number)?.as_str())?;
    }
    Ok(all)
}

/// The layer of forty directories, each with a file.
pub(crate) fn forty_layer(alloc: Global) -> Result<String, AllocError> {
    let entries = of_forty(alloc, ", dir DIR, file DIR/k")?;
    format!(in alloc; "root{entries}")
}

/// What is reported of a fault.
pub(crate) fn text_of(alloc: Global, fault: Option<EngineFault>) -> Result<String, Fail> {
    match fault {
        Some(fault) => Ok(fault.to_string(alloc)?),
        None => Ok(String::from_str(alloc, "none")?),
    }
}

/// The command of a word.
pub(crate) fn command_of_word(word: &str) -> Result<Command, Fail> {
    match word {
        "show" => Ok(Command::Show),
        "fsck" => Ok(Command::Fsck),
        "vacuum" => Ok(Command::Vacuum),
        "deref" => Ok(Command::Deref),
        "merge" => Ok(Command::Merge),
        "flatten" => Ok(Command::Flatten),
        _ => Err(Fail::new("no command has this word")),
    }
}

// A command, how many layers there are, each of only a root, or `empty` for a manifest of no bytes,
// how many workers, and blobs; after ` -> ` what refuses it.
const LIMITS: &str = "\
show 1 0 -> workers must be 1 to 64
show 1 64 -> none
show 1 65 -> workers must be 1 to 64
show 0 2 -> layers must be 1 to 128
show 128 2 -> none
show 129 2 -> layers must be 1 to 128
show 0 65 -> workers must be 1 to 64
show 1 2 b a -> none
show 1 2 ab ab -> blobs out of order
show 1 2 ab abc=abd -> blobs out of order
vacuum 2 0 -> workers must be 1 to 64
vacuum 2 65 -> workers must be 1 to 64
merge 0 2 -> layers must be 1 to 128
merge 1 2 -> no lower layer
merge 2 2 -> none
merge 129 2 -> layers must be 1 to 128
merge empty 2 -> layer 0: not JSON
";

// This many manifests of only a root.
fn roots(alloc: Global, count: usize) -> Result<Vec<Vec<u8>>, Fail> {
    let mut manifests = Vec::new(alloc);
    for _ in 0..count {
        manifests.push(manifest_of(alloc, "root")?)?;
    }
    Ok(manifests)
}

fn manifests_named(alloc: Global, word: &str) -> Result<Vec<Vec<u8>>, Fail> {
    if word == "empty" {
        return Ok(vec![in alloc; Vec::new(alloc)]?);
    }
    roots(alloc, word.parse()?)
}

// How a command of these layers and blobs ends, by this many workers.
fn ended<R: Threads + Wait + Sync>(
    rt: &R,
    alloc: Global,
    what: Command,
    layers: &str,
    workers: usize,
    words: &str,
) -> Result<String, Fail> {
    let manifests = manifests_named(alloc, layers)?;
    let blobs = blobs_of(alloc, words)?;
    let ended = command(rt, alloc, what, manifests, 0, &blobs, workers, &OpenGate);
    text_of(alloc, ended.err())
}

fn row_ended<R: Threads + Wait + Sync>(rt: &R, alloc: Global, row: &str) -> Result<(), Fail> {
    let (given, wanted) = parts_of(row);
    let (word, more) = given.split_once(' ').unwrap_or((given, ""));
    let (layers, more) = more.split_once(' ').unwrap_or((more, ""));
    let (workers, words) = more.split_once(' ').unwrap_or((more, ""));
    let what = command_of_word(word)?;
    let found = ended(rt, alloc, what, layers, workers.parse()?, words)?;
    same(row, found.as_str(), wanted)
}

#[test]
fn numbers_and_orders_are_refused(rt: HostRuntime) -> Result<(), Fail> {
    for row in LIMITS.lines() {
        row_ended(&rt, rt.alloc(), row)?;
    }
    Ok(())
}

// A stack of forty idle directories, each with an idle file.
fn idle_stack(alloc: Global) -> Result<String, AllocError> {
    let layer = forty_layer(alloc)?;
    format!(in alloc; "{layer} | {layer}")
}

// What vacuum answers of that by this many workers.
fn vacuumed<R: Threads + Wait + Sync>(
    rt: &R,
    alloc: Global,
    workers: usize,
) -> Result<Answer, Fail> {
    let (manifests, _) = manifests_of(alloc, idle_stack(alloc)?.as_str())?;
    let blobs = blobs_of(alloc, "a")?;
    let what = Command::Vacuum;
    Ok(command(rt, alloc, what, manifests, 0, &blobs, workers, &OpenGate)?)
}

// A failure where an answer doesn't leave only a root.
fn expect_root_alone(alloc: Global, answer: &Answer) -> Result<(), Fail> {
    expect_so(answer.report.ends_with(b"\nremoved 80 kept 1\n"))?;
    expect_so(answer.layers == roots(alloc, 1)?)
}

// A failure where this many workers answer something else.
fn expect_same<R: Threads + Wait + Sync>(
    rt: &R,
    alloc: Global,
    workers: usize,
    answer: &Answer,
) -> Result<(), Fail> {
    expect_so(vacuumed(rt, alloc, workers)? == *answer)
}

#[test]
fn any_number_of_workers_gives_the_same_new_layer(rt: HostRuntime) -> Result<(), Fail> {
    let alone = vacuumed(&rt, rt.alloc(), 1)?;
    expect_root_alone(rt.alloc(), &alone)?;
    for workers in [2, 7, 64] {
        expect_same(&rt, rt.alloc(), workers, &alone)?;
    }
    Ok(())
}

// A command of a stack of manifests of this version, and the last line of its report, or what
// refuses it. Below a redirect a chain of directories comes to the depth that a manifest may have.
const DEEP: &str = "\
1 show of dir /p, dir /p/q redirect=/x, whiteout /x | dir /x, 63*dir /x/a -> entries 66
1 deref of dir /p, dir /p/q redirect=/x, whiteout /x | dir /x, 62*dir /x/a -> entries 66
1 deref of dir /p, dir /p/q redirect=/x, whiteout /x | dir /x, 63*dir /x/a -> entries 67
2 show of dir /p, dir /p/q redirect=/x, whiteout /x | dir /x, 127*dir /x/a -> entries 130
2 deref of dir /p, dir /p/q redirect=/x, whiteout /x | dir /x, 126*dir /x/a -> entries 130
2 deref of dir /p, dir /p/q redirect=/x, whiteout /x | dir /x, 127*dir /x/a -> result over the limits
1 fsck of 64*dir /a redirect=/x, whiteout /x | dir /x, 63*dir /x/a -> faults 0 notes 0
1 show of 64*dir /a redirect=/x, whiteout /x | dir /x, 63*dir /x/a -> entries 128
1 merge of 64*dir /a redirect=/x, whiteout /x | dir /x, 63*dir /x/a -> entries 128
";

// The manifests of a stack in this version.
fn stated(alloc: Global, version: &str, stack: &str) -> Result<Vec<Vec<u8>>, Fail> {
    let (mut manifests, _) = manifests_of(alloc, stack)?;
    if version == "1" {
        for manifest in manifests.iter_mut() {
            *manifest = earlier(alloc, manifest)?;
        }
    }
    Ok(manifests)
}

// The last line of a report, or the text of a fault.
fn last_line(alloc: Global, answered: Result<Answer, EngineFault>) -> Result<String, Fail> {
    match answered {
        Ok(answer) => {
            let report = String::from_utf8(answer.report)?;
            let line = report.as_str().lines().last().unwrap_or("");
            Ok(String::from_str(alloc, line)?)
        }
        Err(fault) => Ok(fault.to_string(alloc)?),
    }
}

fn row_deep<R: Threads + Wait + Sync>(rt: &R, alloc: Global, row: &str) -> Result<(), Fail> {
    let (given, wanted) = parts_of(row);
    let (head, stack) = given.split_once(" of ").unwrap_or((given, ""));
    let (version, word) = head.split_once(' ').unwrap_or((head, ""));
    let (what, manifests) = (command_of_word(word)?, stated(alloc, version, stack)?);
    let answered = command(rt, alloc, what, manifests, 0, &[], 4, &OpenGate);
    same(row, last_line(alloc, answered)?.as_str(), wanted)
}

#[test]
fn chains_are_answered_up_to_the_depth_of_a_manifest(rt: HostRuntime) -> Result<(), Fail> {
    for row in DEEP.lines() {
        row_deep(&rt, rt.alloc(), row)?;
    }
    Ok(())
}
