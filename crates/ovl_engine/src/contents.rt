//! What is known of blobs that are held. It must not know files.
ghost use Rattle.std.specs.Prelude.{◌≡◌, ◌<◌, ◌≤◌, true, List, IfOk, IfErr, MatchResult};
ghost use Rattle.ovl_board.specs.Machine.{worker_limit};
ghost use Rattle.ovl_blobs.specs.Blobs.{BlobView, are_in_order, blob_views, wrong_names};
ghost use Rattle.ovl_blobs.specs.Contents.{contents_of, contents_ascend};
ghost use Rattle.ovl_commands.specs.Commands as commands;
ghost use Rattle.ovl_engine.specs.Tasks.{command_of};
ghost use Rattle.ovl_engine.specs.Outcomes.{IsFailedWalk, MayRefuseBlobs};

use crate::faults::EngineFault;
use crate::preparations::Prepared;
use crate::tasks::checks;
use crate::teams::WorkerTeam;
use ovl_check::{BLOB_SPACE, Blob, BlobInfo, BlobWork, contents_held, finish_blobs};
use ovl_inode::Digest;
use ovl_pool::Gate;
use std::alloc::Global;
use std::sync::Wait;
use std::thread::Threads;

/// What [`answer`](crate::answer) is to know of blobs that are held, whose names ascend strictly:
/// the content of each, digested once, by 1 to [`WORKER_LIMIT`](ovl_board::WORKER_LIMIT) workers;
/// of none where the task doesn't check the layers. Fails as a command does in its work.
pub fn digest_blobs<G: Gate + Sync, R: Threads + Wait + Sync>(
    rt: &R,
    alloc: Global,
    prepared: &Prepared,
    blobs: &[Blob],
    workers: usize,
    gate: &G,
) -> Result<Vec<BlobInfo>, EngineFault>
    requires number { (0 < workers) × (workers ≤ worker_limit) }
    requires ascend { are_in_order (blob_views blobs.now) ≡ true }
    ensures known { IfOk result (λ contents. commands.checks (command_of prepared.now.task) ≡ true
        → contents_of (blob_views blobs.now) ≡ contents.items) }
    ensures ascend { IfOk result (λ contents. contents_ascend contents.items ≡ true) }
    ensures held { IfOk result
        (λ contents. (of : List BlobView) × (contents_of of ≡ contents.items)) }
    ensures fault { IfErr result
        (λ fault. (commands.checks (command_of prepared.now.task) ≡ true)
        × IsFailedWalk (MayRefuseBlobs (blob_views blobs.now) (G.may_refuse gate.now)) fault) }
{
    if !checks(prepared.task.command()) {
        return Ok(Vec::new(alloc));
    }
    let team = WorkerTeam {
        rt,
        alloc,
        workers,
        gate,
    };
    let wrong = wrong_blobs(&team, blobs)?;
    Ok(contents_held(alloc, blobs, &wrong)?)
}

// The names of the blobs whose bytes have another digest.
fn wrong_blobs<G: Gate + Sync, R: Threads + Wait + Sync>(
    team: &WorkerTeam<'_, G, R>,
    blobs: &[Blob],
) -> Result<Vec<Digest>, EngineFault>
    requires number { (0 < team.now.workers) × (team.now.workers ≤ worker_limit) }
    requires ascend { are_in_order (blob_views blobs.now) ≡ true }
    ensures { MatchResult result
        (λ wrong. wrong.items ≡ wrong_names (blob_views blobs.now))
        (λ fault. IsFailedWalk
        (MayRefuseBlobs (blob_views blobs.now) (G.may_refuse team.now.gate.now)) fault) }
{
    let work = BlobWork::new(blobs);
    let parcels = team.walk(&work, BLOB_SPACE)?;
    Ok(finish_blobs(team.alloc, &work, parcels)?)
}
