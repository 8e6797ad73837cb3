//! The merged tree of a stack as the work of two workers, step by step.

use crate::samples::stack_of;
use crate::works::told;
use ovl_board::{Core, CoreFault, Event, Parcel, Piece, all_lawful, assemble};
use ovl_engine::ShowWork;
use ovl_lookup::Stack;
use ovl_names::Name;
use ovl_test_rows::{expect_so, same};
use std::alloc::Global;
use std::test::Fail;

// What a core of two workers over a stack's merged tree gives of these steps, after one that isn't
// possible.
fn shared(alloc: Global, stack: &Stack, steps: &[Event]) -> Result<String, Fail> {
    let work = ShowWork::new(stack);
    let mut core = Core::start(alloc, &work, Piece::root(alloc, 0), 2)?;
    if core.step(alloc, Event::Pop(1)) != Err(CoreFault::NotPossible) {
        return Err(Fail::new("the second worker has nothing"));
    }
    for event in steps {
        core.step(alloc, *event)?;
    }
    match core.finish() {
        Ok(parcels) => assembled(alloc, parcels),
        Err(_) => Err(Fail::new("open")),
    }
}

// The pieces of parcels, and after `=` those of the walk that is assembled from them.
fn assembled<T: Drop>(alloc: Global, parcels: Vec<Parcel<Vec<(Name, T)>>>) -> Result<String, Fail> {
    if !all_lawful(&parcels) {
        return Err(Fail::new("unlawful kids"));
    }
    let arrived = told(alloc, &parcels)?;
    let walk = assemble(alloc, &Piece::root(alloc, 0), parcels)?;
    let walk = told(alloc, &walk)?;
    Ok(format!(in alloc; "{arrived}= {walk}")?)
}

const STEPS: [Event; 8] = [
    Event::Pop(0),
    Event::Work(0),
    Event::Push(0),
    Event::Push(0),
    Event::Steal(1, 0),
    Event::Pop(0),
    Event::Work(0),
    Event::Work(1),
];

#[test]
fn two_workers_share_the_directories(rt: HostRuntime) -> Result<(), Fail> {
    let stack = stack_of(rt.alloc(), "dir /a, dir /b")?;
    let found = shared(rt.alloc(), &stack, &STEPS)?;
    same(
        "two workers",
        found.as_str(),
        "0/: a b; 0/b:; 0/a:; = 0/: a b; 0/a:; 0/b:; ",
    )
}

// Whether this many workers are refused.
fn is_refused(alloc: Global, stack: &Stack, workers: usize) -> bool {
    let work = ShowWork::new(stack);
    let core = Core::start(alloc, &work, Piece::root(alloc, 0), workers);
    core.err() == Some(CoreFault::NotPossible)
}

#[test]
fn a_core_has_a_worker_at_least(rt: HostRuntime) -> Result<(), Fail> {
    let stack = stack_of(rt.alloc(), "dir /a, dir /b")?;
    expect_so(is_refused(rt.alloc(), &stack, 0))
}
