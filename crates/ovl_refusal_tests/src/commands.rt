//! Commands by one worker and by two.

use crate::samples::{MOVED, ONE, OPAQUE, OVER, ROOT, Sample, TWICE, WRONG};
use ovl_check::Blob;
use ovl_engine::{
    Answer, Command, EngineFault, Task, answer, command, digest_blobs, named_blobs, prepare,
};
use ovl_pool::OpenGate;
use ovl_test_rows::expect_so;
use std::alloc::{AllocError, Global};
use std::sync::Wait;
use std::test::Fail;
use std::thread::Threads;

fn manifests_of(alloc: Global, lines: &str) -> Result<Vec<Vec<u8>>, AllocError> {
    let mut manifests = Vec::new(alloc);
    for line in lines.lines() {
        manifests.push(String::from_str(alloc, line)?.into_bytes())?;
    }
    Ok(manifests)
}

// Whether a command answers the same of manifests that it is lent as of its own.
fn is_lent<R: Threads + Wait + Sync>(
    rt: &R,
    alloc: Global,
    what: Command,
    workers: usize,
) -> Result<bool, EngineFault> {
    let blobs = blobs_of(alloc, MOVED.blobs)?;
    let own = manifests_of(alloc, MOVED.manifests)?;
    let lent = command(
        rt,
        alloc,
        what,
        own.as_slice(),
        0,
        &blobs,
        workers,
        &OpenGate,
    )?;
    Ok(lent == command(rt, alloc, what, own, 0, &blobs, workers, &OpenGate)?)
}

fn expect_lent<R: Threads + Wait + Sync>(
    rt: &R,
    alloc: Global,
    what: Command,
    workers: usize,
) -> Result<(), Fail> {
    expect_so(again!(is_lent(rt, alloc, what, workers), EngineFault::Memory)?)
}

#[test]
fn lent_manifests_are_answered_as_own_ones(rt: HostRuntime) -> Result<(), Fail> {
    for (what, _) in MOVED.ends {
        expect_lent(&rt, rt.alloc(), what, 1)?;
        expect_lent(&rt, rt.alloc(), what, 2)?;
    }
    Ok(())
}

fn three_manifests(alloc: Global) -> Result<Vec<Vec<u8>>, AllocError> {
    let mut three = manifests_of(alloc, ROOT)?;
    three.append(&mut manifests_of(alloc, MOVED.manifests)?)?;
    Ok(three)
}

fn merged<R: Threads + Wait + Sync>(rt: &R, alloc: Global) -> Result<Answer, EngineFault> {
    let blobs = blobs_of(alloc, MOVED.blobs)?;
    let manifests = three_manifests(alloc)?;
    let prepared = prepare(rt, alloc, Task::MergeDown(1), manifests, 0, &blobs, 2)?;
    let known = digest_blobs(rt, alloc, &prepared, &blobs, 2, &OpenGate)?;
    answer(rt, alloc, prepared, known, 2, &OpenGate)
}

// How many contents are wanted where three layers are merged down to one.
fn wanted<R: Threads + Sync>(rt: &R, alloc: Global) -> Result<usize, EngineFault> {
    let manifests = three_manifests(alloc)?;
    let prepared = prepare(rt, alloc, Task::MergeDown(1), manifests, 0, &[], 2)?;
    Ok(prepared.wanted_names(alloc)?.len())
}

// Whether three layers are merged down to one, and want one content.
fn is_merged_down<R: Threads + Wait + Sync>(rt: &R, alloc: Global) -> Result<bool, EngineFault> {
    let answer = merged(rt, alloc)?;
    Ok(ends_so(&answer.report, "entries 6") && wanted(rt, alloc)? == 1)
}

#[test]
fn three_layers_are_merged_down(rt: HostRuntime) -> Result<(), Fail> {
    expect_so(again!(is_merged_down(&rt, rt.alloc()), EngineFault::Memory)?)
}

// Whether a report ends so, where no content is known.
fn is_answered_over<R: Threads + Wait + Sync>(
    rt: &R,
    alloc: Global,
    what: Command,
    workers: usize,
    end: &str,
) -> Result<bool, EngineFault> {
    let manifests = manifests_of(alloc, MOVED.manifests)?;
    let prepared = prepare(rt, alloc, Task::Once(what), manifests, 0, &[], workers)?;
    let answered = answer(rt, alloc, prepared, Vec::new(alloc), workers, &OpenGate)?;
    Ok(answered.report.ends_with(end.as_bytes()))
}

fn are_over_contents<R: Threads + Wait + Sync>(
    rt: &R,
    alloc: Global,
    what: Command,
    end: &str,
) -> Result<(), Fail> {
    let is = again!(
        is_answered_over(rt, alloc, what, 2, end),
        EngineFault::Memory
    );
    expect_so(is == Ok(true))
}

#[test]
fn a_show_over_contents_is_answered(rt: HostRuntime) -> Result<(), Fail> {
    are_over_contents(&rt, rt.alloc(), Command::Show, "\nentries 6\n")
}

#[test]
fn a_check_over_contents_is_answered(rt: HostRuntime) -> Result<(), Fail> {
    are_over_contents(&rt, rt.alloc(), Command::Fsck, "\nfaults 3 notes 0\n")
}

// Adds the blob of a word.
fn push_blob(alloc: Global, blobs: &mut Vec<Blob>, word: &str) -> Result<(), AllocError> {
    let (named, bytes) = word.split_once('=').unwrap_or((word, word));
    for mut blob in named_blobs(alloc, &manifests_of(alloc, named)?)? {
        blob.bytes = String::from_str(alloc, bytes)?.into_bytes();
        blobs.push(blob)?;
    }
    Ok(())
}

fn blobs_of(alloc: Global, words: &str) -> Result<Vec<Blob>, AllocError> {
    let mut blobs = Vec::new(alloc);
    for word in words.split_whitespace() {
        push_blob(alloc, &mut blobs, word)?;
    }
    Ok(blobs)
}

// Whether a report's last line is this one.
fn ends_so(report: &[u8], line: &str) -> bool {
    let Some((b'\n', lines)) = report.split_last() else {
        return false;
    };
    match lines.strip_suffix(line.as_bytes()) {
        Some(before) => before.is_empty() || before.ends_with(b"\n"),
        None => false,
    }
}

// Whether an answer has this end, or a refusal this one after `!`.
fn is_told(answered: &Result<Answer, EngineFault>, end: &str) -> bool {
    match (answered, end.strip_prefix("! ")) {
        (Ok(answer), None) => ends_so(&answer.report, end),
        (Err(EngineFault::Faulty(report)), Some(end)) => ends_so(report, end),
        (Err(EngineFault::NoLower), Some(end)) => end == "no lower layer",
        _ => false,
    }
}

// What a command of a sample answers.
fn answered<R: Threads + Wait + Sync>(
    rt: &R,
    alloc: Global,
    what: Command,
    sample: Sample,
    workers: usize,
) -> Result<Answer, EngineFault> {
    let blobs = blobs_of(alloc, sample.blobs)?;
    let manifests = manifests_of(alloc, sample.manifests)?;
    command(rt, alloc, what, manifests, 0, &blobs, workers, &OpenGate)
}

// Whether a command of a sample ends so; out of memory is handed on.
fn ends<R: Threads + Wait + Sync>(
    rt: &R,
    alloc: Global,
    what: Command,
    sample: Sample,
    workers: usize,
    end: &str,
) -> Result<bool, EngineFault> {
    match answered(rt, alloc, what, sample, workers) {
        Err(EngineFault::Memory) => Err(EngineFault::Memory),
        answered => Ok(is_told(&answered, end)),
    }
}

// A failure where a command of a sample doesn't end as it says, by this many workers.
fn end_by<R: Threads + Wait + Sync>(
    rt: &R,
    alloc: Global,
    sample: Sample,
    workers: usize,
) -> Result<(), Fail> {
    for (what, end) in sample.ends {
        let is = again!(
            ends(rt, alloc, what, sample, workers, end),
            EngineFault::Memory
        );
        expect_so(is?)?;
    }
    Ok(())
}

// The same by one worker and by two.
fn all_end<R: Threads + Wait + Sync>(rt: &R, alloc: Global, sample: Sample) -> Result<(), Fail> {
    end_by(rt, alloc, sample, 1)?;
    end_by(rt, alloc, sample, 2)
}

#[test]
fn commands_of_a_moved_directory_end_as_they_say(rt: HostRuntime) -> Result<(), Fail> {
    all_end(&rt, rt.alloc(), MOVED)
}

#[test]
fn commands_of_a_root_alone_end_as_they_say(rt: HostRuntime) -> Result<(), Fail> {
    all_end(&rt, rt.alloc(), ONE)
}

#[test]
fn commands_of_an_opaque_directory_end_as_they_say(rt: HostRuntime) -> Result<(), Fail> {
    all_end(&rt, rt.alloc(), OPAQUE)
}

#[test]
fn commands_of_a_layer_twice_end_as_they_say(rt: HostRuntime) -> Result<(), Fail> {
    all_end(&rt, rt.alloc(), TWICE)
}

#[test]
fn commands_of_a_directory_over_another_end_as_they_say(rt: HostRuntime) -> Result<(), Fail> {
    all_end(&rt, rt.alloc(), OVER)
}

#[test]
fn commands_of_wrong_contents_end_as_they_say(rt: HostRuntime) -> Result<(), Fail> {
    all_end(&rt, rt.alloc(), WRONG)
}
