//! Flatten of a stack.
ghost use Rattle.std.specs.Prelude.{◌≡◌, ◌<◌, ◌≤◌, true, IfOk};
ghost use Rattle.ovl_lookup.specs.Sound.{IsSoundStack};
ghost use Rattle.ovl_board.specs.Machine.{worker_limit};
ghost use Rattle.ovl_commands.specs.declared.requests.Command.TheVariants.{Flatten};
ghost use Rattle.ovl_engine.specs.FsckReports.{is_clean};
ghost use Rattle.ovl_engine.specs.Outcomes.{IsRun, MayRefuseOwn};
ghost use Rattle.ovl_engine.specs.Kept.{KeepsTreeOf, KeepsSoundness, IsQuietOf};

use crate::faults::EngineFault;
use crate::rewrites::{answer_telling, expect_clean, finished, walked};
use crate::teams::WorkerTeam;
use ovl_check::Finding;
use ovl_check::laws::{shown_layers_are_clean, unmarked_layers_are_quiet};
use ovl_commands::Answer;
use ovl_flatten::FlattenWork;
use ovl_flatten::laws::{flatten_has_no_marks, flatten_is_sound, flatten_keeps_the_tree};
use ovl_lookup::Stack;
use ovl_pool::Gate;
use std::sync::Wait;
use std::thread::Threads;

/// What a stack shows, as one layer, where no fault is found in the stack, and the report of what
/// it has. Alone the new layer shows the same, and the check finds nothing in it.
pub(crate) fn flatten<G: Gate + Sync, R: Threads + Wait + Sync>(
    team: &WorkerTeam<'_, G, R>,
    stack: Stack,
    found: Vec<Finding>,
) -> Result<Answer, EngineFault>
    requires number { (0 < team.now.workers) × (team.now.workers ≤ worker_limit) }
    requires sound { is_clean found.items ≡ true → IsSoundStack stack }
    ensures outcome { IsRun Flatten stack found.items
        (MayRefuseOwn Flatten stack (G.may_refuse team.now.gate.now)) result }
    ensures tree { IfOk result (KeepsTreeOf Flatten stack) }
    ensures sound { IfOk result (KeepsSoundness Flatten stack) }
    ensures quiet { IfOk result (IsQuietOf Flatten stack) }
{
    let _layers = stack.ordinary();
    flatten_keeps_the_tree();
    flatten_is_sound();
    flatten_has_no_marks();
    unmarked_layers_are_quiet();
    shown_layers_are_clean();
    expect_clean(team.alloc, found)?;
    let work = FlattenWork::new(&stack);
    let end = walked(team, &work)?;
    let layer = finished(team, stack, end)?;
    Ok(answer_telling(team.rt, team.alloc, team.workers, &layer, &[&layer])?)
}
