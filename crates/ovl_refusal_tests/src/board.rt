//! Walks of a work, its machine of steps, lanes, and runs by several workers.

use ovl_board::{
    BoardFault, Core, CoreFault, Event, Parcel, Piece, Tree, all_lawful, assemble, copies,
    plain_walk, sort_parcels,
};
use ovl_lanes::{LaneFault, lanes};
use ovl_names::Path;
use ovl_pool::{OpenGate, RunFault, run};
use ovl_test_rows::expect_so;
use std::alloc::{AllocError, Global};
use std::sync::Wait;
use std::test::Fail;
use std::thread::Threads;

// Those of two workers over the tree of `/`, `/a` and `/a/a`.
const STEPS: [Event; 8] = [
    Event::Pop(0),
    Event::Work(0),
    Event::Push(0),
    Event::Steal(1, 0),
    Event::Work(1),
    Event::Push(1),
    Event::Pop(1),
    Event::Work(1),
];

fn push_path(alloc: Global, paths: &mut Vec<Path>, text: &str) -> Result<(), AllocError> {
    match Path::parse(alloc, text) {
        Ok(path) => Ok(paths.push(path)?),
        Err(_) => Err(AllocError),
    }
}

// A tree of this many paths: its root, directories of one letter, and such directories in these.
fn tree_of(alloc: Global, size: usize) -> Result<Tree, AllocError> {
    let mut paths = Vec::new(alloc);
    push_path(alloc, &mut paths, "/")?;
    for high in 'a'..='j' {
        let directory = format!(in alloc; "/{high}")?;
        push_path(alloc, &mut paths, directory.as_str())?;
        for low in 'a'..='t' {
            if paths.len() < size {
                let path = format!(in alloc; "/{high}/{low}")?;
                push_path(alloc, &mut paths, path.as_str())?;
            }
        }
    }
    paths.truncate(size);
    match Tree::of(paths) {
        Ok(tree) => Ok(tree),
        Err(_) => Err(AllocError),
    }
}

fn reversed(alloc: Global, work: &Tree) -> Result<Vec<Parcel<()>>, AllocError> {
    let mut parcels = plain_walk(alloc, work, Piece::root(alloc, 0))?;
    parcels.reverse();
    Ok(parcels)
}

// Parcels that aren't sorted stay in their order.
fn are_sorted(parcels: &mut Vec<Parcel<()>>, before: &[Parcel<()>]) -> Result<bool, AllocError> {
    if sort_parcels(parcels).is_err() {
        if parcels.as_slice() != before {
            return Ok(false);
        }
        sort_parcels(parcels)?;
    }
    Ok(true)
}

fn is_sorted(alloc: Global, work: &Tree) -> Result<bool, AllocError> {
    let mut parcels = reversed(alloc, work)?;
    let is = are_sorted(&mut parcels, &reversed(alloc, work)?)?;
    Ok(is && plain_walk(alloc, work, Piece::root(alloc, 0))? == parcels)
}

fn is_assembled(alloc: Global, work: &Tree) -> Result<bool, BoardFault> {
    let parcels = reversed(alloc, work)?;
    if !all_lawful(&parcels) {
        return Ok(false);
    }
    let assembled = assemble(alloc, &Piece::root(alloc, 0), parcels)?;
    Ok(plain_walk(alloc, work, Piece::root(alloc, 0))? == assembled)
}

fn are_copied(alloc: Global, parcels: &[Parcel<()>]) -> Result<bool, AllocError> {
    for parcel in parcels {
        let piece = parcel.piece.copy(alloc)?;
        let kids = copies(alloc, &parcel.kids)?;
        if piece != parcel.piece || kids != parcel.kids {
            return Ok(false);
        }
    }
    Ok(true)
}

// A step that is refused changes nothing, so that it can be taken then.
fn is_stepped(alloc: Global, work: &Tree) -> Result<bool, CoreFault> {
    let mut core = Core::start(alloc, work, Piece::root(alloc, 0), 2)?;
    for event in STEPS {
        again!(core.step(alloc, event), CoreFault::Memory)?;
    }
    match core.finish() {
        Ok(parcels) => Ok(parcels.len() == 3 && are_copied(alloc, &parcels)?),
        Err(_) => Ok(false),
    }
}

// A piece that can't be pushed comes back, and the lane has those before it, in their order.
fn are_pushed(alloc: Global) -> Result<bool, LaneFault> {
    let Some(mut seat) = lanes(alloc, 2)?.pop() else {
        return Ok(false);
    };
    for space in 0..40 {
        if let Err(back) = seat.lane.push(Piece::root(alloc, space)) {
            if back.space != space || seat.lane.push(back).is_err() {
                return Ok(false);
            }
        }
    }
    for space in 0..40 {
        if seat.lane.pop().map(|piece| piece.space) != Some(space) {
            return Ok(false);
        }
    }
    Ok(true)
}

#[test]
fn parcels_are_sorted(rt: HostRuntime) -> Result<(), Fail> {
    let work = again!(tree_of(rt.alloc(), 30), AllocError)?;
    expect_so(again!(is_sorted(rt.alloc(), &work), AllocError)?)
}

#[test]
fn parcels_are_assembled(rt: HostRuntime) -> Result<(), Fail> {
    let work = again!(tree_of(rt.alloc(), 30), AllocError)?;
    expect_so(again!(is_assembled(rt.alloc(), &work), BoardFault::Memory)?)
}

#[test]
fn a_core_is_stepped(rt: HostRuntime) -> Result<(), Fail> {
    let work = again!(tree_of(rt.alloc(), 3), AllocError)?;
    expect_so(again!(is_stepped(rt.alloc(), &work), CoreFault::Memory)?)
}

#[test]
fn pieces_are_pushed(rt: HostRuntime) -> Result<(), Fail> {
    expect_so(again!(are_pushed(rt.alloc()), LaneFault::Memory)?)
}

fn is_run<R: Threads + Wait + Sync>(
    rt: &R,
    alloc: Global,
    work: &Tree,
    workers: usize,
) -> Result<bool, RunFault> {
    let (parcels, count) = run(rt, alloc, work, Piece::root(alloc, 0), workers, &OpenGate)?;
    let walk = plain_walk(alloc, work, Piece::root(alloc, 0))?;
    Ok(
        parcels == walk
            && (count.known, count.delivered, count.taken, count.left) == (200, 200, 200, 0),
    )
}

// Whether a tree of 200 paths is run.
fn is_tree_run<R: Threads + Wait + Sync>(
    rt: &R,
    alloc: Global,
    workers: usize,
) -> Result<bool, Fail> {
    let work = again!(tree_of(alloc, 200), AllocError)?;
    Ok(again!(
        is_run(rt, alloc, &work, workers),
        RunFault::Memory | RunFault::Board(BoardFault::Memory)
    )?)
}

#[test]
fn a_tree_is_run_by_one_worker(rt: HostRuntime) -> Result<(), Fail> {
    expect_so(is_tree_run(&rt, rt.alloc(), 1)?)
}

#[test]
fn a_tree_is_run_by_two_workers(rt: HostRuntime) -> Result<(), Fail> {
    expect_so(is_tree_run(&rt, rt.alloc(), 2)?)
}

#[test]
fn a_tree_is_run_by_seven_workers(rt: HostRuntime) -> Result<(), Fail> {
    expect_so(is_tree_run(&rt, rt.alloc(), 7)?)
}
