//! Deref of a stack.
ghost use Rattle.std.specs.Prelude.{◌≡◌, ◌<◌, ◌≤◌, true, IfOk};
ghost use Rattle.ovl_lookup.specs.Sound.{IsSoundStack};
ghost use Rattle.ovl_board.specs.Machine.{worker_limit};
ghost use Rattle.ovl_commands.specs.declared.requests.Command.TheVariants.{Deref};
ghost use Rattle.ovl_engine.specs.FsckReports.{is_clean};
ghost use Rattle.ovl_engine.specs.Outcomes.{IsRun, MayRefuseOwn};
ghost use Rattle.ovl_engine.specs.Kept.{KeepsTreeOf, KeepsSoundness};

use crate::faults::EngineFault;
use crate::rewrites::{answer_telling, expect_clean, finished, walked};
use crate::teams::WorkerTeam;
use ovl_check::Finding;
use ovl_commands::Answer;
use ovl_deref::DerefWork;
use ovl_deref::laws::{deref_keeps_soundness, deref_keeps_the_tree};
use ovl_lookup::Stack;
use ovl_pool::Gate;
use std::sync::Wait;
use std::thread::Threads;

/// The topmost layer of a stack without redirects and metacopy files, where no fault is found in
/// the stack, and the report of what it has. The new layer keeps the merged tree.
pub(crate) fn deref<G: Gate + Sync, R: Threads + Wait + Sync>(
    team: &WorkerTeam<'_, G, R>,
    stack: Stack,
    found: Vec<Finding>,
) -> Result<Answer, EngineFault>
    requires number { (0 < team.now.workers) × (team.now.workers ≤ worker_limit) }
    requires sound { is_clean found.items ≡ true → IsSoundStack stack }
    ensures outcome { IsRun Deref stack found.items
        (MayRefuseOwn Deref stack (G.may_refuse team.now.gate.now)) result }
    ensures tree { IfOk result (KeepsTreeOf Deref stack) }
    ensures sound { IfOk result (KeepsSoundness Deref stack) }
{
    let _layers = stack.ordinary();
    deref_keeps_the_tree();
    deref_keeps_soundness();
    expect_clean(team.alloc, found)?;
    let work = DerefWork::new(&stack);
    let end = walked(team, &work)?;
    let layer = finished(team, stack, end)?;
    Ok(answer_telling(team.rt, team.alloc, team.workers, &layer, &[&layer])?)
}
