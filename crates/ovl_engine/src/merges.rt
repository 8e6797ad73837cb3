//! Merge of a stack.
ghost use Rattle.std.specs.Prelude.{◌≡◌, ◌<◌, ◌≤◌, true, IfOk, IfErr, length};
ghost use Rattle.ovl_lookup.specs.Sound.{IsSoundStack};
ghost use Rattle.ovl_board.specs.Machine.{worker_limit};
ghost use Rattle.ovl_merge.specs.Places.{merge_of};
ghost use Rattle.ovl_merge.specs.MergeDown.{merged_entry};
ghost use Rattle.ovl_rewrite.specs.Ends.{IsEndOf};
ghost use Rattle.ovl_rewrite.specs.Limits.{IsLayerWithinLimits};
ghost use Rattle.ovl_commands.specs.declared.requests.Command.TheVariants.{Merge};
ghost use Rattle.ovl_engine.specs.FsckReports.{is_clean};
ghost use Rattle.ovl_engine.specs.Outcomes.{IsFailedWalk, IsRun, MayRefuseOwn};
ghost use Rattle.ovl_engine.specs.Kept.{KeepsTreeOf};
ghost use Rattle.ovl_engine.specs.MergesDown.{KeepsTreeByTwo};

use crate::faults::EngineFault;
use crate::rewrites::{answer_telling, expect_clean, finished, walked};
use crate::teams::WorkerTeam;
use ovl_check::Finding;
use ovl_commands::Answer;
use ovl_lookup::Stack;
use ovl_merge::laws::merge_keeps_the_tree;
use ovl_merge::{MergeDone, MergeWork};
use ovl_pool::Gate;
use ovl_rewrite::RewriteEnd;
use std::sync::Wait;
use std::thread::Threads;

/// The two topmost layers of a stack as one, under a new topmost layer that has only its root,
/// where no fault is found in the stack, and the report of what that one has. The new layers keep
/// the merged tree.
pub(crate) fn merge<G: Gate + Sync, R: Threads + Wait + Sync>(
    team: &WorkerTeam<'_, G, R>,
    stack: Stack,
    found: Vec<Finding>,
) -> Result<Answer, EngineFault>
    requires number { (0 < team.now.workers) × (team.now.workers ≤ worker_limit) }
    requires sound { is_clean found.items ≡ true → IsSoundStack stack }
    requires several { 1 < length stack.layers }
    ensures outcome { IsRun Merge stack found.items
        (MayRefuseOwn Merge stack (G.may_refuse team.now.gate.now)) result }
    ensures tree { IfOk result (KeepsTreeOf Merge stack) }
    ensures two { IfOk result (KeepsTreeByTwo stack) }
{
    let _layers = stack.ordinary();
    merge_keeps_the_tree();
    expect_clean(team.alloc, found)?;
    let end = merge_end(team, &stack)?;
    let lower = finished(team, stack, end)?;
    let MergeDone { top, lower } = MergeDone::over(team.alloc, lower)?;
    Ok(answer_telling(team.rt, team.alloc, team.workers, &lower, &[&top, &lower])?)
}

/// The end of a merge of a stack's two topmost layers, once it is walked.
pub(crate) fn merge_end<G: Gate + Sync, R: Threads + Wait + Sync>(
    team: &WorkerTeam<'_, G, R>,
    stack: &Stack,
) -> Result<RewriteEnd, EngineFault>
    requires number { (0 < team.now.workers) × (team.now.workers ≤ worker_limit) }
    requires several { 1 < length stack.now.layers }
    ensures told { IfOk result (IsEndOf (merged_entry (merge_of stack.now))) }
    ensures made { IfOk result (λ _. IsSoundStack stack.now
        → IsLayerWithinLimits (merged_entry (merge_of stack.now))) }
    ensures fault { IfErr result
        (IsFailedWalk (MayRefuseOwn Merge stack.now (G.may_refuse team.now.gate.now))) }
{
    let work = MergeWork::new(stack)?;
    walked(team, &work)
}
