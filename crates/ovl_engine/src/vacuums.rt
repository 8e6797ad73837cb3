//! Vacuum of a stack.
ghost use Rattle.std.specs.Prelude.{◌≡◌, ◌<◌, ◌≤◌, true, IfOk, MatchResult, length};
ghost use Rattle.ovl_board.specs.Machine.{worker_limit};
ghost use Rattle.ovl_lookup.specs.Sound.{IsSoundStack};
ghost use Rattle.ovl_commands.specs.declared.requests.Command.TheVariants.{Vacuum};
ghost use Rattle.ovl_engine.specs.Outcomes.{IsFailedWalk, IsRun, MayRefuseOwn, left_by_vacuum, removed_by_vacuum};
ghost use Rattle.ovl_engine.specs.FsckReports.{is_clean};
ghost use Rattle.ovl_reports.specs.VacuumReports.{vacuum_report};
ghost use Rattle.ovl_engine.specs.Kept.{KeepsTreeOf, KeepsSoundness};

use crate::faults::EngineFault;
use crate::rewrites::{expect_clean, rewritten};
use crate::stacks::drop_in_parallel;
use crate::teams::WorkerTeam;
use ovl_check::Finding;
use ovl_commands::Answer;
use ovl_lookup::Stack;
use ovl_names::Path;
use ovl_pool::Gate;
use ovl_reports::vacuum_report_of;
use ovl_vacuum::laws::{vacuum_keeps_soundness, vacuum_keeps_the_tree};
use ovl_vacuum::{VacuumDone, VacuumWork, finish_vacuum};
use std::alloc::AllocError;
use std::sync::Wait;
use std::thread::Threads;

/// The topmost layer of a stack without what changes nothing, where no fault is found in the stack,
/// and the report of what went. The new layer keeps the merged tree.
pub(crate) fn vacuum<G: Gate + Sync, R: Threads + Wait + Sync>(
    team: &WorkerTeam<'_, G, R>,
    stack: Stack,
    found: Vec<Finding>,
) -> Result<Answer, EngineFault>
    requires number { (0 < team.now.workers) × (team.now.workers ≤ worker_limit) }
    requires sound { is_clean found.items ≡ true → IsSoundStack stack }
    ensures outcome { IsRun Vacuum stack found.items
        (MayRefuseOwn Vacuum stack (G.may_refuse team.now.gate.now)) result }
    ensures tree { IfOk result (KeepsTreeOf Vacuum stack) }
    ensures sound { IfOk result (KeepsSoundness Vacuum stack) }
{
    let _layers = stack.ordinary();
    vacuum_keeps_the_tree();
    vacuum_keeps_soundness();
    expect_clean(team.alloc, found)?;
    let done = vacuumed(team, &stack)?;
    let kept = kept_of(&stack, &done.removed);
    drop_in_parallel(team.rt, team.alloc, stack, team.workers);
    let VacuumDone { layer, removed } = done;
    let alloc = team.alloc;
    let report = || -> Result<Vec<u8>, AllocError>
        ensures { IfOk result (λ report. report.items ≡ vacuum_report removed.items kept) }
    { vacuum_report_of(alloc, &removed, kept) };
    Ok(rewritten(team.rt, team.alloc, team.workers, report, &[&layer])?)
}

// What vacuum leaves of the topmost layer, and what went, whatever the blobs.
fn vacuumed<G: Gate + Sync, R: Threads + Wait + Sync>(
    team: &WorkerTeam<'_, G, R>,
    stack: &Stack,
) -> Result<VacuumDone, EngineFault>
    requires { (0 < team.now.workers) × (team.now.workers ≤ worker_limit) }
    ensures { MatchResult result
        (λ done. (done.layer ≡ left_by_vacuum stack.now)
        × (done.removed.items ≡ removed_by_vacuum stack.now))
        (λ fault. IsFailedWalk
        (MayRefuseOwn Vacuum stack.now (G.may_refuse team.now.gate.now)) fault) }
{
    let work = VacuumWork::new(stack);
    let parcels = team.walk(&work, 0)?;
    Ok(finish_vacuum(team.alloc, &work, parcels)?)
}

// How many entries vacuum keeps: those of the topmost layer that don't go.
fn kept_of(stack: &Stack, removed: &[Path]) -> u64
    requires { removed.now ≡ removed_by_vacuum stack.now }
    ensures { result ≡ length (left_by_vacuum stack.now) }
{
    u64::from(stack.top().len()) - removed.len() as u64
}
