//! Worked stacks, and what each command answers of them, by one worker and by four.

use crate::commands::command_of_word;
use crate::samples::{blobs_of, manifest_of, manifests_of};
use ovl_engine::{Answer, Blob, EngineFault, Task, answer, command, digest_blobs, prepare};
use ovl_pool::OpenGate;
use ovl_test_rows::same;
use std::alloc::{AllocError, Global};
use std::sync::Wait;
use std::test::Fail;
use std::thread::Threads;

// Those of examples/stacks.txt, whose head explains them.
const ROWS: &str = r#"
blobs b a

root
show: [d] /; entries 1
fsck: faults 0 notes 0
vacuum: removed 0 kept 1 => root
deref: entries 1 => root
merge: ! no lower layer
flatten: entries 1 => root

dir-old /, disk /b, dir-new /n, file-large /z
show: dir 0755 4294967295 6 -9223372036854775808+999999999 - - /; block 0060 0 0 0 - 8:4294967295 /b; dir 0755 0 1000 1732233600+020304050 - - /n; file 4755 0 0 0 9223372036854775807 [a] /z; entries 4

link /l user.b\u0020c=\x00\x7f user.a=, fifo /p\u0020q, socket /s, empty /\u00e9
show: [d] /; symlink 0777 0 0 0 - a\x20b /l user.a= user.b\x20c=007f; fifo 0000 0 0 0 - - /p\x20q; socket 7777 0 0 0 - - /s; file 0644 0 0 0 0 - /\xc3\xa9; entries 5

whiteout /f, console /g, link /l user.k=\x01 | file /f, file /g
show: [d] /; char 0600 0 0 0 - 0:1 /g; symlink 0777 0 0 0 - a\x20b /l user.k=01; entries 3
fsck: faults 0 notes 0
flatten: leaf /g; leaf /l; entries 3 => console /g, link /l user.k=\x01

empty /f whiteout= | file /f
show: [d] /; entries 1
fsck: note whiteout-unmarked 0 /f; faults 0 notes 1

dir / opaque=x, empty /f whiteout= | file /f
show: [d] /; entries 1
fsck: faults 0 notes 0
flatten: entries 1 => root

file /f whiteout= | file /f
show: [d] /; [f] /f; entries 2
fsck: note mark-ignored 0 /f; faults 0 notes 1
flatten: leaf /f; entries 2 => file /f

dir /d opaque=y | dir /d, file /d/k
show: [d] /; [d] /d; entries 2

dir /d opaque=x | dir /d, file /d/k
show: [d] /; [d] /d; [f] /d/k; entries 3

dir /p redirect=/x, dir /p/q redirect=r, whiteout /p/r, whiteout /x | dir /x, dir /x/r, file /x/r/k
show: [d] /; [d] /p; [d] /p/q; [f] /p/q/k; entries 4
fsck: faults 0 notes 0
deref: opaque /p; plain /p/q; leaf /p/q/k; whiteout /x; entries 5 => dir /p opaque=y, dir /p/q, file /p/q/k, whiteout /x
flatten: plain /p; plain /p/q; leaf /p/q/k; entries 4 => dir /p, dir /p/q, file /p/q/k

dir /p redirect=/x, dir /p/q redirect=r, whiteout /x | dir /x, dir /x/r, file /x/r/k
show: [d] /; [d] /p; [d] /p/q; [f] /p/q/k; [d] /p/r; [f] /p/r/k; entries 6
fsck: faults 0 notes 0

dir /n opaque=y, dir /n/d redirect=/x, whiteout /x | dir /n, file /n/z, dir /x, file /x/k
show: [d] /; [d] /n; [d] /n/d; [f] /n/d/k; entries 4
fsck: faults 0 notes 0
vacuum: removed 0 kept 4 => dir /n opaque=y, dir /n/d redirect=/x, whiteout /x
deref: opaque /n; opaque /n/d; leaf /n/d/k; whiteout /x; entries 5 => dir /n opaque=y, dir /n/d opaque=y, file /n/d/k, whiteout /x
merge: plain /n; plain /n/d; leaf /n/d/k; entries 4 => root | dir /n, dir /n/d, file /n/d/k
flatten: plain /n; plain /n/d; leaf /n/d/k; entries 4 => dir /n, dir /n/d, file /n/d/k

dir /n opaque=y, dir /n/d redirect=/x, whiteout /x | root | dir /n, file /n/z, dir /x, file /x/k
merge: opaque /n; moved /n/d /x; whiteout /x; entries 4 => root | dir /n opaque=y, dir /n/d redirect=/x, whiteout /x

dir /d opaque=y redirect=/x | dir /d, file /d/k, dir /x, file /x/k
show: [d] /; [d] /d; [d] /x; [f] /x/k; entries 4
fsck: note mark-ignored 0 /d; faults 0 notes 1

dir /d opaque=y redirect=/x, file /k | dir /d, file /d/k, file /k, dir /x, file /x/k
vacuum: removed /k; removed 1 kept 2 => dir /d opaque=y redirect=/x

dir /a redirect=/, dir /b redirect=/a/, dir /c redirect=a/b, dir /e redirect= | root
fsck: fault redirect-form 0 /a; fault redirect-form 0 /b; fault redirect-form 0 /c; fault redirect-form 0 /e; faults 4 notes 0
vacuum: ! fault redirect-form 0 /a; fault redirect-form 0 /b; fault redirect-form 0 /c; fault redirect-form 0 /e; faults 4 notes 0
deref: ! fault redirect-form 0 /a; fault redirect-form 0 /b; fault redirect-form 0 /c; fault redirect-form 0 /e; faults 4 notes 0
merge: ! fault redirect-form 0 /a; fault redirect-form 0 /b; fault redirect-form 0 /c; fault redirect-form 0 /e; faults 4 notes 0
flatten: ! fault redirect-form 0 /a; fault redirect-form 0 /b; fault redirect-form 0 /c; fault redirect-form 0 /e; faults 4 notes 0

dir /a redirect=/x, dir /b redirect=/x | dir /x
fsck: fault redirect-open 0 /a; fault redirect-double 0 /b; fault redirect-open 0 /b; faults 3 notes 0

dir /a redirect=/x | root
fsck: fault redirect-lost 0 /a; fault redirect-open 0 /a; faults 2 notes 0

dir /a redirect=/x, whiteout /x | file /x
fsck: fault redirect-kind 0 /a; faults 1 notes 0

bare /f metacopy= | bare /f metacopy= | file /f
show: [d] /; [f] /f; entries 2
fsck: faults 0 notes 0
merge: meta /f; entries 2 => root | bare /f metacopy=
deref: leaf /f; entries 2 => file /f
flatten: leaf /f; entries 2 => file /f

bare /f metacopy= | bare /f metacopy= | whiteout /f
show: [d] /; file 0644 0 0 0 1 missing /f; entries 2
fsck: fault data-missing 0 /f; fault data-missing 1 /f; note orphan-whiteout 2 /f; faults 2 notes 1

bare-2 /f metacopy= | bare /f metacopy= | file /f
fsck: fault data-size 0 /f; faults 1 notes 0

dir /d, file /d/k | dir /d, file /d/k
show: [d] /; [d] /d; [f] /d/k; entries 3
fsck: faults 0 notes 0
vacuum: removed /d; removed /d/k; removed 2 kept 1 => root
deref: plain /d; leaf /d/k; entries 3 => dir /d, file /d/k
merge: plain /d; leaf /d/k; entries 3 => root | dir /d, file /d/k
flatten: plain /d; leaf /d/k; entries 3 => dir /d, file /d/k

dir /d, file /d/k, whiteout /d/z | dir /d, file /d/k, file /d/z
vacuum: removed /d/k; removed 1 kept 3 => dir /d, whiteout /d/z

dir /d, file-0645 /d/k | dir /d, file /d/k
vacuum: removed 0 kept 3 => dir /d, file-0645 /d/k

dir /d, file-late /d/k | dir /d, file /d/k
show: [d] /; [d] /d; file 0644 0 0 0+000000001 1 [a] /d/k; entries 3
vacuum: removed 0 kept 3 => dir /d, file-late /d/k

dir-0700 /d | dir /d, file /d/k
vacuum: removed 0 kept 2 => dir-0700 /d

bare /m metacopy=, dir /o opaque=y, file /o/k, dir /p redirect=/x, file /p/k, whiteout /x | file /m, dir /o, file /o/k, dir /x, file /x/k
vacuum: removed /m; removed /p/k; removed 2 kept 5 => dir /o opaque=y, file /o/k, dir /p redirect=/x, whiteout /x

whiteout /a, dir /b redirect=/a | dir /a, file /a/k | dir /b, file /b/z
show: [d] /; [d] /b; [f] /b/k; entries 3
fsck: faults 0 notes 0
vacuum: removed 0 kept 3 => whiteout /a, dir /b redirect=/a
deref: whiteout /a; opaque /b; leaf /b/k; entries 4 => whiteout /a, dir /b opaque=y, file /b/k
flatten: plain /b; leaf /b/k; entries 3 => dir /b, file /b/k
merge: opaque /b; leaf /b/k; entries 3 => root | dir /b opaque=y, file /b/k

whiteout /a, dir /b redirect=/a | dir /a, file /a/k | root
show: [d] /; [d] /b; [f] /b/k; entries 3
merge: plain /b; leaf /b/k; entries 3 => root | dir /b, file /b/k

whiteout /a, dir /b redirect=/a | dir /a, file /a/k | file /b
show: [d] /; [d] /b; [f] /b/k; entries 3
merge: plain /b; leaf /b/k; entries 3 => root | dir /b, file /b/k

whiteout /a, dir /b redirect=/a | dir /a, file /a/k | dir /a
show: [d] /; [d] /b; [f] /b/k; entries 3
merge: whiteout /a; moved /b a; leaf /b/k; entries 4 => root | whiteout /a, dir /b redirect=a, file /b/k

whiteout /a, dir /b redirect=/a | dir /a redirect=/x, whiteout /x | dir /x, file /x/k
show: [d] /; [d] /b; [f] /b/k; entries 3
fsck: faults 0 notes 0
merge: moved /b x; whiteout /x; entries 3 => root | dir /b redirect=x, whiteout /x
flatten: plain /b; leaf /b/k; entries 3 => dir /b, file /b/k

bare /f metacopy=, bare /g metacopy= | file /f, file /g
merge: leaf /f; leaf /g; entries 3 => root | file /f, file /g

dir /d, bare /f metacopy= redirect=/d/g | root | dir /d, file /d/g
merge: plain /d; meta /f /d/g; entries 3 => root | dir /d, bare /f metacopy= redirect=/d/g

bare /f metacopy= redirect=/f | root | data file /f
show: [d] /; [f] /f; entries 2
fsck: faults 0 notes 0
vacuum: removed 0 kept 2 => bare /f metacopy= redirect=/f
merge: meta /f /f; entries 2 => root | bare /f metacopy= redirect=/f
deref: leaf /f; entries 2 => file /f
flatten: leaf /f; entries 2 => file /f

bare /f metacopy= redirect=/g | root | data file /g
show: [d] /; [f] /f; entries 2
fsck: faults 0 notes 0
merge: meta /f /g; entries 2 => root | bare /f metacopy= redirect=/g
flatten: leaf /f; entries 2 => file /f

bare /f metacopy= redirect=/f | data root | data file /f
merge: ! no lower layer
flatten: leaf /f; entries 2 => file /f

data bare /f metacopy= redirect=/f | data root | data file /f
merge: ! data layers must leave a layer
flatten: ! data layers must leave a layer

bare /f metacopy= redirect=/z | whiteout /z | file-b /z | data file /z
show: [d] /; [f] /f; entries 2
fsck: faults 0 notes 0
merge: leaf /f; whiteout /z; entries 3 => root | file /f, whiteout /z
flatten: leaf /f; entries 2 => file /f

bare /f metacopy= redirect=/z | root | data bare /z metacopy= | data file /z
show: [d] /; [f] /f; entries 2
fsck: faults 0 notes 0
flatten: leaf /f; entries 2 => file /f

bare /f metacopy= redirect=/z | root | bare /z metacopy= | data file /z
show: [d] /; file 0644 0 0 0 1 missing /f; file 0644 0 0 0 1 missing /z; entries 3
fsck: fault data-missing 0 /f; fault data-missing 2 /z; faults 2 notes 0

root, bare /f metacopy= redirect=a/b | empty /f
fsck: fault redirect-form 0 /f; faults 1 notes 0

dir /n opaque=y, dir /n/d redirect=r | dir /n, dir /n/r
fsck: fault redirect-lost 0 /n/d; faults 1 notes 0

dir /n opaque=y, dir /n/d, whiteout /n/d/k | dir /n, dir /n/d, empty /n/d/k
fsck: note orphan-whiteout 0 /n/d/k; faults 0 notes 1

dir /p redirect=/x, whiteout /p/k, whiteout /p/z, whiteout /x | dir /p, empty /p/k, dir /x, empty /x/z
fsck: note orphan-whiteout 0 /p/k; faults 0 notes 1

dir /d opaque=y, whiteout /d/k | dir /d, empty /d/k
fsck: note whiteout-in-opaque 0 /d/k; faults 0 notes 1

dir /d, empty /d/k origin=, dir /e impure=y, empty /e/k origin= | root
fsck: note impure-missing 0 /d; faults 0 notes 1
flatten: plain /d; leaf /d/k; plain /e; leaf /e/k; entries 5 => dir /d, empty /d/k, dir /e, empty /e/k

dir / opaque=y, dir /d opaque=z, dir /e metacopy=, empty /f opaque=y, empty /g redirect=/x | dir / redirect=/x
fsck: note mark-ignored 0 /; note mark-ignored 0 /d; note mark-ignored 0 /e; note mark-ignored 0 /f; note mark-ignored 0 /g; note mark-ignored 1 /; faults 0 notes 6
flatten: plain /d; plain /e; leaf /f; leaf /g; entries 5 => dir /d, dir /e, empty /f, empty /g

whiteout /d, whiteout /f, whiteout /z | dir /d, file /d/k, file /f
show: [d] /; entries 1
fsck: note orphan-whiteout 0 /z; faults 0 notes 1
flatten: entries 1 => root

dir-0700 / opaque=y, dir /d, file /k | dir /d opaque=y, file /d/z, file /k | dir /d, file /d/q
show: dir 0700 0 0 0 - - /; [d] /d; [f] /d/z; [f] /k; entries 4
fsck: note mark-ignored 0 /; faults 0 notes 1
flatten: plain /d; leaf /d/z; leaf /k; entries 4 => dir-0700 /, dir /d, file /d/z, file /k

bare /m metacopy= origin= user.k=v | file /m user.j=w
show: [d] /; [f] /m user.k=76; entries 2
flatten: leaf /m; entries 2 => file /m user.k=v

file /a | dir /d | file /c
merge --down-to 1: leaf /a; leaf /c; plain /d; entries 4 => root | file /a, file /c, dir /d
merge --down-to 2: leaf /a; plain /d; entries 3 => root | file /a, dir /d
merge --down-to 3: ! no lower layer

whiteout /c | dir /d, whiteout /k | file /c, file /k
merge --down-to 1: plain /d; entries 2 => root | dir /d

bare /f metacopy= redirect=/f | root | root | data file /f
merge --down-to 1: meta /f /f; entries 2 => root | bare /f metacopy= redirect=/f
merge --down-to 2: meta /f /f; entries 2 => root | bare /f metacopy= redirect=/f

whiteout /b, dir /c redirect=b | whiteout /a, dir /b redirect=a | dir /a, file /a/k
merge --down-to 1: plain /c; leaf /c/k; entries 3 => root | dir /c, file /c/k

root | data file /f
merge --down-to 1: ! no lower layer

root | dir /d | bare /f metacopy=
merge --down-to 1: ! fault data-missing 2 /f; faults 1 notes 0

root | [] | root
merge --down-to 1: ! layer 1: wrong shape

blobs abc=abd ab

empty /e, file-abc /k, file /m, file-ab /s
fsck: fault blob-digest 0 /k; fault blob-missing 0 /m; fault blob-size 0 /s; faults 3 notes 0
vacuum: ! fault blob-digest 0 /k; fault blob-missing 0 /m; fault blob-size 0 /s; faults 3 notes 0
deref: ! fault blob-digest 0 /k; fault blob-missing 0 /m; fault blob-size 0 /s; faults 3 notes 0
merge: ! no lower layer
flatten: ! fault blob-digest 0 /k; fault blob-missing 0 /m; fault blob-size 0 /s; faults 3 notes 0

bare /f metacopy= redirect=/f | root | data file /f
fsck: fault blob-missing 2 /f; faults 1 notes 0

{"entries":[{"gid":0,"kind":"dir","mode":493,"mtime":0,"path":"/","uid":0,"xattrs":{}}],"overlay-layer":1}
deref: entries 1 => root

root | {"overlay-layer":3,"entries":[]} | []
show: ! layer 1: unknown version

[] | root
fsck: ! layer 0: wrong shape
"#;

// What stands for others in a row, and those.
const SHORT: [(&str, &str); 4] = [
    ("; ", "\n"),
    ("[d]", "dir 0755 0 0 0 - -"),
    ("[f]", "file 0644 0 0 0 1 [a]"),
    (
        "[a]",
        "ca978112ca1bbdcafac231b39a23dc4da786eff8147c4e72b9807785afee48bb",
    ),
];

fn in_full(alloc: Global, report: &str) -> Result<String, AllocError> {
    let mut text = String::from_str(alloc, report)?;
    for (short, full) in SHORT {
        text = text.as_str().replace(alloc, short, full)?;
    }
    text.push_str("\n")?;
    Ok(text)
}

// What a row wants: a report with the new layers' manifests after it, or what refuses the command.
fn wanted_of(alloc: Global, wanted: &str) -> Result<String, Fail> {
    let (report, layers) = wanted.split_once(" => ").unwrap_or((wanted, ""));
    let mut text = in_full(alloc, report)?;
    for layer in layers.split(" | ") {
        let manifest = String::from_utf8(manifest_of(alloc, layer)?)?;
        text.push_str(manifest.as_str())?;
    }
    Ok(text)
}

fn answer_text(answer: Answer) -> Result<String, Fail> {
    let mut text = String::from_utf8(answer.report)?;
    for layer in answer.layers {
        text.push_str(String::from_utf8(layer)?.as_str())?;
    }
    Ok(text)
}

fn fault_text(alloc: Global, fault: EngineFault) -> Result<String, Fail> {
    match fault {
        EngineFault::Faulty(report) => {
            let report = String::from_utf8(report)?;
            Ok(format!(in alloc; "! {report}")?)
        }
        fault => Ok(format!(in alloc; "! {fault}\n")?),
    }
}

// What a task gives, part by part.
fn done<R: Threads + Wait + Sync>(
    rt: &R,
    alloc: Global,
    task: Task,
    manifests: Vec<Vec<u8>>,
    bottom: u16,
    blobs: &[Blob],
    workers: usize,
) -> Result<Answer, EngineFault> {
    let prepared = prepare(rt, alloc, task, manifests, bottom, blobs, workers)?;
    let known = digest_blobs(rt, alloc, &prepared, blobs, workers, &OpenGate)?;
    answer(rt, alloc, prepared, known, workers, &OpenGate)
}

// The same of what a command answers.
fn answered<R: Threads + Wait + Sync>(
    rt: &R,
    alloc: Global,
    what: &str,
    (stack, blobs): (&str, &str),
    workers: usize,
) -> Result<String, Fail> {
    let (manifests, bottom) = manifests_of(alloc, stack)?;
    let blobs = blobs_of(alloc, blobs)?;
    let (word, left) = what.split_once(" --down-to ").unwrap_or((what, ""));
    let ended = if left.is_empty() {
        let what = command_of_word(word)?;
        command(
            rt, alloc, what, manifests, bottom, &blobs, workers, &OpenGate,
        )
    } else {
        let task = Task::MergeDown(left.parse()?);
        done(rt, alloc, task, manifests, bottom, &blobs, workers)
    };
    match ended {
        Ok(answer) => answer_text(answer),
        Err(fault) => fault_text(alloc, fault),
    }
}

fn expect_answers<R: Threads + Wait + Sync>(
    rt: &R,
    alloc: Global,
    given: (&str, &str),
    row: &str,
) -> Result<(), Fail> {
    let (what, wanted) = row.split_once(": ").unwrap_or((row, ""));
    let wanted = wanted_of(alloc, wanted)?;
    for workers in [1, 4] {
        let found = answered(rt, alloc, what, given, workers)?;
        same(row, found.as_str(), wanted.as_str())?;
    }
    Ok(())
}

#[test]
fn worked_stacks_are_answered_as_they_are_written(rt: HostRuntime) -> Result<(), Fail> {
    let mut stack = String::new(rt.alloc());
    let mut blobs = String::new(rt.alloc());
    for line in ROWS.lines() {
        if let Some(words) = line.strip_prefix("blobs ") {
            blobs = String::from_str(rt.alloc(), words)?;
        } else if line.contains(": ") {
            expect_answers(&rt, rt.alloc(), (stack.as_str(), blobs.as_str()), line)?;
        } else if !line.is_empty() {
            stack = String::from_str(rt.alloc(), line)?;
        }
    }
    Ok(())
}
