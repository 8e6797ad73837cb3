//! The check of a stack by workers. It must not know commands.
ghost use Rattle.std.specs.Prelude.{◌≡◌, ◌<◌, ◌≤◌, ◌+◌, true, List, IfOk, MatchResult, length, map};
ghost use Rattle.ovl_lookup.specs.Stacks.{all_layers};
ghost use Rattle.ovl_lookup.specs.Sound.{IsSoundStack};
ghost use Rattle.ovl_board.specs.Machine.{worker_limit};
ghost use Rattle.ovl_board.specs.Parcels.{parcel_views};
ghost use Rattle.ovl_blobs.specs.Blobs.{BlobView};
ghost use Rattle.ovl_check.specs.Contents.{findings_of_contents};
ghost use Rattle.ovl_blobs.specs.Contents.{contents_of, contents_ascend};
ghost use Rattle.ovl_check.specs.Checks.{check_seen};
ghost use Rattle.ovl_check.specs.CheckViews.{check_view};
ghost use Rattle.ovl_check.specs.Walks.{AreLayerWalks};
ghost use Rattle.ovl_check.specs.Findings.{findings};
ghost use Rattle.ovl_engine.specs.FsckReports.{is_clean};
ghost use Rattle.ovl_engine.specs.Outcomes.{IsFailedWalk, MayRefuseLayers};

use crate::faults::EngineFault;
use crate::teams::WorkerTeam;
use ovl_board::Parcel;
use ovl_check::laws::{findings_need_contents, findings_tell_soundness};
use ovl_check::{BlobInfo, CheckOut, CheckWork, Finding, finish_check};
use ovl_lookup::Stack;
use ovl_pool::Gate;
use std::sync::Wait;
use std::thread::Threads;

/// All that is found in a stack by contents of blobs, whose names ascend strictly, in the order of
/// the report. The layers are checked one after the other, each by all workers.
pub(crate) fn findings_of<G: Gate + Sync, R: Threads + Wait + Sync>(
    team: &WorkerTeam<'_, G, R>,
    stack: &Stack,
    contents: &[BlobInfo],
) -> Result<Vec<Finding>, EngineFault>
    requires number { (0 < team.now.workers) × (team.now.workers ≤ worker_limit) }
    requires ascend { contents_ascend contents.now ≡ true }
    ensures found { MatchResult result
        (λ found. (blobs : List BlobView) → contents_of blobs ≡ contents.now
        → found.items ≡ findings blobs stack.now)
        (λ fault. IsFailedWalk (MayRefuseLayers stack.now (G.may_refuse team.now.gate.now)) fault) }
    ensures sound { IfOk result (λ found. (blobs : List BlobView) → contents_of blobs ≡ contents.now
        → is_clean found.items ≡ true → IsSoundStack stack.now) }
{
    findings_need_contents();
    findings_tell_soundness();
    let found = checked(team, stack, &CheckWork::of_contents(stack, contents))?;
    Ok(found)
}

// All that a check of a stack finds.
fn checked<G: Gate + Sync, R: Threads + Wait + Sync>(
    team: &WorkerTeam<'_, G, R>,
    stack: &Stack,
    work: &CheckWork<'_>,
) -> Result<Vec<Finding>, EngineFault>
    requires number { (0 < team.now.workers) × (team.now.workers ≤ worker_limit) }
    requires same { (check_view work.now).stack ≡ stack.now }
    ensures { MatchResult result
        (λ found. found.items ≡ findings_of_contents (check_view work.now).contents stack.now)
        (λ fault. IsFailedWalk (MayRefuseLayers stack.now (G.may_refuse team.now.gate.now)) fault) }
{
    let walks = layer_walks(team, stack, work)?;
    Ok(finish_check(team.alloc, work, walks)?)
}

// The plain walks of the layers of a stack, the data-only ones too, in order.
fn layer_walks<'a, G: Gate + Sync, R: Threads + Wait + Sync>(
    team: &WorkerTeam<'_, G, R>,
    stack: &Stack,
    work: &CheckWork<'a>,
) -> Result<Vec<Vec<Parcel<CheckOut<'a>>>>, EngineFault>
    requires number { (0 < team.now.workers) × (team.now.workers ≤ worker_limit) }
    requires same { (check_view work.now).stack ≡ stack.now }
    ensures { MatchResult result
        (λ walks. (length walks.items ≡ length (all_layers stack.now))
        × AreLayerWalks (check_view work.now) 0
        (map (λ parcels. parcel_views check_seen parcels.items) walks.items))
        (λ fault. IsFailedWalk (MayRefuseLayers stack.now (G.may_refuse team.now.gate.now)) fault) }
{
    let mut walks = Vec::new(team.alloc);
    for i in 0..stack.layers() {
        walks.push(team.walk(work, i as u16)?)?;
    }
    Ok(walks)
}
