//! Gates that look how workers share the pieces of a work.
ghost use Rattle.std.specs.Prelude.{◌≡◌, []};

use crate::commands::{command_of_word, forty_layer, of_forty, text_of};
use crate::samples::{blobs_of, manifests_of, stack_of};
use ovl_board::{BoardFault, Piece};
use ovl_engine::{Command, EngineFault, ShowWork, command};
use ovl_names::Path;
use ovl_pool::{Gate, OpenGate, RunCount, RunFault, run};
use ovl_test_rows::{expect_so, parts_of, same};
use std::alloc::Global;
use std::sync::{Mutex, Wait};
use std::test::Fail;
use std::thread::Threads;

const LOOKS_OF_A_GATE: u32 = 20_000_000;

// How often each of these pieces was asked for. As a gate it lets all pass.
#[derive(Drop)]
struct Asked<'a, R: Wait> {
    rt: &'a R,
    times: Mutex<Vec<(Piece, u64)>>,
}

impl<'a, R: Wait> Asked<'a, R> {
    // None of these pieces of a space was asked for; the space is a layer, or that of the blobs.
    fn none_of(rt: &'a R, alloc: Global, space: u16, paths: &str) -> Result<Asked<'a, R>, Fail> {
        let mut times = Vec::new(alloc);
        for path in paths.split_whitespace() {
            let dir = Path::parse(alloc, path)?;
            times.push((Piece { space, dir }, 0))?;
        }
        Ok(Asked {
            rt,
            times: Mutex::new(times),
        })
    }

    // Notes that the piece was asked for, and gives how often by now; 0 if it is none of these.
    fn note(&self, piece: &Piece) -> u64 {
        let mut asked = self.times.lock(self.rt);
        for (known, times) in asked.iter_mut() {
            if *known == *piece {
                *times = times.saturating_add(1);
                return *times;
            }
        }
        0
    }

    // Whether each of these pieces was asked for at least that often.
    fn was_met(&self, times: u64) -> bool {
        let asked = self.times.lock(self.rt);
        asked.iter().all(|(_, other)| *other >= times)
    }

    // Whether each of them was asked for once.
    fn was_met_once(&self) -> bool {
        let asked = self.times.lock(self.rt);
        asked.iter().all(|(_, times)| *times == 1)
    }
}

impl<R: Wait> Gate for Asked<'_, R> {
    ghost may_refuse = { λ _ _. ⊥ };

    fn pass(&self, piece: &Piece) -> bool {
        self.note(piece) <= u64::MAX
    }
}

// Lets `/` pass, and another directory where each other one was asked for as often while it looked.
#[derive(Drop)]
struct Meeting<'a, R: Wait>(Asked<'a, R>);

impl<R: Wait> Gate for Meeting<'_, R> {
    ghost may_refuse = { λ _ p. ¬ (p.dir ≡ []) };

    fn pass(&self, piece: &Piece) -> bool {
        if piece.dir.is_empty() {
            return true;
        }
        let times = self.0.note(piece);
        for _ in 0..LOOKS_OF_A_GATE {
            if self.0.was_met(times) {
                return true;
            }
        }
        false
    }
}

// Lets a directory pass unless it is asked for that often.
#[derive(Drop)]
struct Refusing<'a, R: Wait> {
    asked: Asked<'a, R>,
    from: u64,
}

impl<R: Wait> Gate for Refusing<'_, R> {
    ghost may_refuse = { λ _ p. ¬ (p.dir ≡ []) };

    fn pass(&self, piece: &Piece) -> bool {
        piece.dir.is_empty() || self.asked.note(piece) < self.from
    }
}

// How a command through a gate ends.
fn fault_of<R: Threads + Wait + Sync, G: Gate + Sync>(
    rt: &R,
    alloc: Global,
    what: Command,
    (stack, blobs): (&str, &str),
    workers: usize,
    gate: &G,
) -> Result<String, Fail> {
    let (manifests, bottom) = manifests_of(alloc, stack)?;
    let blobs = blobs_of(alloc, blobs)?;
    let ended = command(rt, alloc, what, manifests, bottom, &blobs, workers, gate);
    text_of(alloc, ended.err())
}

const TWO: &str = "/a /b";

// A command, its stack, and pieces of one of its spaces: a layer, or that of the blobs, where `/ba`
// and `/fb` are those of `abc` and of `ab`; of layers there are no blobs. The last three lines are of directories of the new
// layer, which no check visits.
const SHARED: &str = "\
show of dir /a, dir /b | root -> 0 /a /b
fsck of dir /a, dir /b | root -> 0 /a /b
fsck of root | dir /a, dir /b -> 1 /a /b
fsck of root | root -> 128 /ba /fb
vacuum of dir /a, dir /b | root -> 0 /a /b
deref of dir /a, dir /b | root -> 0 /a /b
merge of dir /a, dir /b | root -> 0 /a /b
flatten of dir /a, dir /b | root -> 0 /a /b
merge of root | dir /a, dir /b -> 0 /a /b
deref of dir /p redirect=/x, whiteout /x | dir /x, dir /x/a, dir /x/b -> 0 /p/a /p/b
flatten of dir /p redirect=/x, whiteout /x | dir /x, dir /x/a, dir /x/b -> 0 /p/a /p/b
";

// How a command ends of which the pieces are to meet.
fn met<R: Threads + Wait + Sync>(
    rt: &R,
    alloc: Global,
    row: &str,
    workers: usize,
) -> Result<String, Fail> {
    let (asked, shared) = parts_of(row);
    let (word, stack) = asked.split_once(" of ").unwrap_or((asked, ""));
    let (space, pieces) = shared.split_once(' ').unwrap_or((shared, ""));
    let gate = Meeting(Asked::none_of(rt, alloc, space.parse()?, pieces)?);
    let blobs = if space == "128" { "abc ab" } else { "" };
    fault_of(
        rt,
        alloc,
        command_of_word(word)?,
        (stack, blobs),
        workers,
        &gate,
    )
}

fn same_met<R: Threads + Wait + Sync>(
    rt: &R,
    alloc: Global,
    row: &str,
    workers: usize,
    wanted: &str,
) -> Result<(), Fail> {
    same(row, met(rt, alloc, row, workers)?.as_str(), wanted)
}

#[test]
fn two_workers_of_a_command_meet_and_one_is_refused(rt: HostRuntime) -> Result<(), Fail> {
    for row in SHARED.lines() {
        same_met(&rt, rt.alloc(), row, 2, "none")?;
        same_met(&rt, rt.alloc(), row, 1, "gate")?;
    }
    Ok(())
}

// As many workers as there are pieces, and after them a row as above.
const CREWS: &str = "\
4 show of dir /a, dir /b, dir /c, dir /d | root -> 0 /a /b /c /d
4 fsck of root | dir /a, dir /b, dir /c, dir /d -> 1 /a /b /c /d
4 merge of root | dir /a, dir /b, dir /c, dir /d -> 0 /a /b /c /d
12 show of dir /a, dir /b, dir /c, dir /d, dir /e, dir /f, dir /g, dir /h, dir /i, dir /j, dir /k, dir /l \
-> 0 /a /b /c /d /e /f /g /h /i /j /k /l
";

fn crew_met<R: Threads + Wait + Sync>(rt: &R, alloc: Global, row: &str) -> Result<(), Fail> {
    let (workers, row) = row.split_once(' ').unwrap_or((row, ""));
    same_met(rt, alloc, row, workers.parse()?, "none")
}

#[test]
fn all_workers_of_a_command_meet(rt: HostRuntime) -> Result<(), Fail> {
    for row in CREWS.lines() {
        crew_met(&rt, rt.alloc(), row)?;
    }
    Ok(())
}

// Each directory is asked for by the check, and by the work of the command where the check finds no
// fault. Before the stack stands from how many times on a directory is refused.
const REFUSED: &str = "\
3 of dir /a, dir /b | root -> none
2 of dir /a, dir /b | root -> gate
2 of dir /a, dir /b, dir /c redirect=/ | root -> the layers or the blobs have faults
";

// How a command ends that is refused a directory.
fn refused<R: Threads + Wait + Sync>(
    rt: &R,
    alloc: Global,
    what: Command,
    row: &str,
) -> Result<(), Fail> {
    let (asked, wanted) = parts_of(row);
    let (times, stack) = asked.split_once(" of ").unwrap_or((asked, ""));
    let (asked, from) = (Asked::none_of(rt, alloc, 0, TWO)?, times.parse()?);
    let ended = fault_of(rt, alloc, what, (stack, ""), 2, &Refusing { asked, from })?;
    same(row, ended.as_str(), wanted)
}

#[test]
fn a_new_layer_is_made_by_asked_visits_once_the_check_has_found_no_fault(
    rt: HostRuntime,
) -> Result<(), Fail> {
    for row in REFUSED.lines() {
        refused(&rt, rt.alloc(), Command::Vacuum, row)?;
        refused(&rt, rt.alloc(), Command::Deref, row)?;
        refused(&rt, rt.alloc(), Command::Merge, row)?;
        refused(&rt, rt.alloc(), Command::Flatten, row)?;
    }
    Ok(())
}

// A failure where something else is reported of a fault of a run.
fn run_told(alloc: Global, fault: RunFault, wanted: &str) -> Result<(), Fail> {
    let text = text_of(alloc, Some(EngineFault::from(fault)))?;
    same("a fault of a run", text.as_str(), wanted)
}

#[test]
fn faults_of_a_run_have_their_texts(rt: HostRuntime) -> Result<(), Fail> {
    let alloc = rt.alloc();
    let missing = BoardFault::Missing(Piece::root(alloc, 0));
    run_told(alloc, RunFault::Board(missing), "board")?;
    run_told(alloc, RunFault::Memory, "out of memory")?;
    let full = RunFault::Board(BoardFault::Memory);
    run_told(alloc, full, "out of memory")
}

// How many parcels a run over the merged tree of a layer gives, with its numbers, or how it ends.
fn counted<R: Threads + Wait + Sync, G: Gate + Sync>(
    rt: &R,
    alloc: Global,
    layer: &str,
    workers: usize,
    gate: &G,
) -> Result<String, Fail> {
    let stack = stack_of(alloc, layer)?;
    let work = ShowWork::new(&stack);
    match run(rt, alloc, &work, Piece::root(alloc, 0), workers, gate) {
        Ok((parcels, count)) => count_told(alloc, parcels.len(), count),
        Err(fault) => Ok(format!(in alloc; "{fault:?}")?),
    }
}

fn count_told(alloc: Global, parcels: usize, count: RunCount) -> Result<String, Fail> {
    let RunCount {
        known,
        delivered,
        taken,
        left,
    } = count;
    Ok(format!(in alloc; "{parcels}: {known} {delivered} {taken} {left}")?)
}

// The entries of directories at these paths.
fn directories(alloc: Global, paths: &str) -> Result<String, Fail> {
    let mut entries = String::from_str(alloc, "root")?;
    for path in paths.split_whitespace() {
        entries.push_str(format!(in alloc; ", dir {path}")?.as_str())?;
    }
    Ok(entries)
}

// Workers and the directories that are to meet, and after them the parcels, and what is known,
// delivered, taken and left.
const RUNS: &str = "\
2 /a /b -> 3: 3 3 3 0
1 /a /b -> Gate
4 /a /b /c /d -> 5: 5 5 5 0
3 /a /b /c /d -> Gate
7 /a /b /c /d /e /f /g -> 8: 8 8 8 0
12 /a /b /c /d /e /f /g /h /i /j /k /l -> 13: 13 13 13 0
";

fn row_met<R: Threads + Wait + Sync>(rt: &R, alloc: Global, row: &str) -> Result<(), Fail> {
    let (asked, wanted) = parts_of(row);
    let (workers, paths) = asked.split_once(' ').unwrap_or((asked, ""));
    let layer = directories(alloc, paths)?;
    let gate = Meeting(Asked::none_of(rt, alloc, 0, paths)?);
    let found = counted(rt, alloc, layer.as_str(), workers.parse()?, &gate)?;
    same(row, found.as_str(), wanted)
}

#[test]
fn workers_meet_over_the_merged_tree(rt: HostRuntime) -> Result<(), Fail> {
    for row in RUNS.lines() {
        row_met(&rt, rt.alloc(), row)?;
    }
    Ok(())
}

// A failure where a run through no gate is counted as something else.
fn same_counted<R: Threads + Wait + Sync>(
    rt: &R,
    alloc: Global,
    workers: usize,
    wanted: &str,
) -> Result<(), Fail> {
    let found = counted(rt, alloc, "dir /a, dir /b", workers, &OpenGate)?;
    same("an open gate", found.as_str(), wanted)
}

#[test]
fn a_run_has_a_worker_at_least(rt: HostRuntime) -> Result<(), Fail> {
    same_counted(&rt, rt.alloc(), 1, "3: 3 3 3 0")?;
    same_counted(&rt, rt.alloc(), 0, "Workers")
}

// The paths of forty directories and of the root, each asked for once where a run asks through this
// gate.
fn forty_asked<R: Wait>(rt: &R, alloc: Global) -> Result<Asked<'_, R>, Fail> {
    let paths = of_forty(alloc, " DIR")?;
    Asked::none_of(rt, alloc, 0, format!(in alloc; "/{paths}")?.as_str())
}

#[test]
fn each_directory_is_asked_for_once(rt: HostRuntime) -> Result<(), Fail> {
    let layer = forty_layer(rt.alloc())?;
    let gate = forty_asked(&rt, rt.alloc())?;
    let found = counted(&rt, rt.alloc(), layer.as_str(), 7, &gate)?;
    same("forty", found.as_str(), "41: 41 41 41 0")?;
    expect_so(gate.was_met_once())
}
