//! What comes before any work: the stack is read, and all that refuses a task is tested. It must
//! not know what a task gives.
ghost use Rattle.std.specs.Prelude.{◌≡◌, ◌↔◌, ◌<◌, ◌≤◌, true, false, Err, IfOk, IfErr, OnOk, length, nat_lt, nat_le};
ghost use Rattle.ovl_lookup.specs.Stacks.{layer_limit};
ghost use Rattle.ovl_board.specs.Machine.{worker_limit};
ghost use Rattle.ovl_blobs.specs.Blobs.{blob_views, are_in_order, blob_limit, blob_bytes};
ghost use Rattle.ovl_engine.specs.declared.faults.EngineFault.TheVariants.{Workers, Layers, DataLayers};
ghost use Rattle.ovl_commands.specs.Commands as commands;
ghost use Rattle.ovl_engine.specs.Tasks.{command_of, left_of};
ghost use Rattle.ovl_engine.specs.Requests.{request_for};
ghost use Rattle.ovl_engine.specs.Refusals.{blob_refusal};
ghost use Rattle.ovl_engine.specs.Refusals as refusals;
ghost use Rattle.ovl_engine.specs.Outcomes.{IsAccepted, IsRefusal};
ghost use Rattle.ovl_engine.specs.Prepared.{AreAsked};
ghost use Rattle.ovl_engine.specs.Kept.{IsRequestOf};

use crate::faults::EngineFault;
use crate::manifests::Manifests;
use crate::stacks::read_stack;
use crate::tasks::{Task, checks};
use ovl_board::WORKER_LIMIT;
use ovl_check::{BLOB_LIMIT, Blob, blobs_in_order, stated_names};
use ovl_commands::Command;
use ovl_inode::Digest;
use ovl_lookup::{LAYER_LIMIT, Stack};
use std::alloc::{AllocError, Global};
use std::thread::Threads;

/// A task that nothing refuses before its work, and the stack that it is done over.
#[derive(Drop)]
pub struct Prepared {
    /// The task.
    pub task: Task,
    /// The layers that the manifests state.
    pub stack: Stack,
}

impl Prepared {
    /// The names of blobs whose contents [`answer`](crate::answer) wants to know: those that the
    /// layers state, ascending, each once; none where the task doesn't check them.
    pub fn wanted_names(&self, alloc: Global) -> Result<Vec<Digest>, AllocError>
        ensures { IfOk result
            (λ names. AreAsked (command_of self.now.task) self.now.stack names.items) }
    {
        if checks(self.task.command()) {
            stated_names(alloc, &self.stack)
        } else {
            Ok(Vec::new(alloc))
        }
    }
}

/// Reads the manifests, by at most as many threads as there are workers, and tests all that refuses
/// a task before any worker starts: in this order, that the workers are outside 1 to
/// [`WORKER_LIMIT`], that the manifests are outside 1 to [`LAYER_LIMIT`], that all layers would be
/// data-only, that a manifest states no layer, that the names of the blobs don't ascend strictly,
/// that the blobs have more than [`BLOB_LIMIT`] bytes in all, and that there are fewer layers that
/// aren't data-only than the task wants: two for a merge, and for merges one more than are to be
/// left, which is at least one. Where contents aren't held there are no blobs here, and there is no
/// limit of their bytes. Own manifests go while they are read.
///
/// All layers but the lowest as one, by four workers, with these contents of files; no layer is
/// data-only:
///
/// ```
/// let blobs = named_blobs(alloc, contents)?;
/// let task = Task::MergeDown(2);
/// let prepared = prepare(rt, alloc, task, manifests, 0, &blobs, 4)?;
/// let known = digest_blobs(rt, alloc, &prepared, &blobs, 4, &OpenGate)?;
/// answer(rt, alloc, prepared, known, 4, &OpenGate)
/// ```
pub fn prepare<R: Threads + Sync, M: Manifests + Drop>(
    rt: &R,
    alloc: Global,
    task: Task,
    manifests: M,
    bottom: u16,
    blobs: &[Blob],
    workers: usize,
) -> Result<Prepared, EngineFault>
    ensures accepted { OnOk result
        (IsAccepted (request_for task (M.held manifests) bottom blobs.now workers)) }
    ensures task { IfOk result (λ prepared. prepared.task ≡ task) }
    ensures stack { IfOk result (λ prepared. IsRequestOf prepared.stack
        (request_for task (M.held manifests) bottom blobs.now workers)) }
    ensures number { OnOk result ((0 < workers) × (workers ≤ worker_limit)) }
    ensures ascend { OnOk result (are_in_order (blob_views blobs.now) ≡ true) }
    ensures enough { IfOk result (λ prepared. refusals.lacks_layers (command_of prepared.task)
        (left_of prepared.task) (length prepared.stack.layers) ≡ false) }
    ensures refused { IfErr result
        (IsRefusal (request_for task (M.held manifests) bottom blobs.now workers)) }
    ensures workers { (result ≡ Err Workers) ↔ (refusals.is_outside worker_limit workers ≡ true) }
    ensures layers { (result ≡ Err Layers)
        ↔ ((refusals.is_outside worker_limit workers ≡ false)
        × (refusals.is_outside layer_limit (length (M.held manifests)) ≡ true)) }
    ensures data_layers { (result ≡ Err DataLayers)
        ↔ ((refusals.is_outside worker_limit workers ≡ false)
        × (refusals.is_outside layer_limit (length (M.held manifests)) ≡ false)
        × (nat_le (length (M.held manifests)) bottom ≡ true)) }
{
    if is_outside(WORKER_LIMIT, workers) {
        return Err(EngineFault::Workers);
    }
    if is_outside(LAYER_LIMIT, manifests.len()) {
        return Err(EngineFault::Layers);
    }
    if usize::from(bottom) >= manifests.len() {
        return Err(EngineFault::DataLayers);
    }
    let stack = read_stack(rt, alloc, manifests.listed(alloc)?, bottom, workers)?;
    if let Some(fault) = blob_fault(blobs) {
        return Err(fault);
    }
    if lacks_layers(task, stack.ordinary()) {
        return Err(EngineFault::NoLower);
    }
    Ok(Prepared { task, stack })
}

// Whether a number is none, or over a limit.
fn is_outside(limit: usize, number: usize) -> bool
    ensures { result ≡ refusals.is_outside limit number }
{
    number == 0 || number > limit
}

// Whether there are fewer layers that aren't data-only than a task wants.
fn lacks_layers(task: Task, layers: usize) -> bool
    ensures { result ≡ refusals.lacks_layers (command_of task) (left_of task) layers }
{
    match task {
        Task::Once(what) => wants_lower(what) && layers < 2,
        Task::MergeDown(left) => left == 0 || layers <= left,
    }
}

// Whether a command wants a layer under the topmost.
fn wants_lower(what: Command) -> bool
    ensures { result ≡ commands.wants_lower what }
{
    match what {
        Command::Show | Command::Fsck | Command::Vacuum | Command::Deref | Command::Flatten =>
            false,
        Command::Merge => true,
    }
}

// What the blobs are refused for, if there is anything.
fn blob_fault(blobs: &[Blob]) -> Option<EngineFault>
    ensures { result ≡ blob_refusal (blob_views blobs.now) }
{
    if !blobs_in_order(blobs) {
        return Some(EngineFault::BlobOrder);
    }
    if are_over_limit(blobs) {
        return Some(EngineFault::BlobSize);
    }
    None
}

// Whether the blobs have more bytes in all than they may.
fn are_over_limit(blobs: &[Blob]) -> bool
    ensures { result ≡ nat_lt blob_limit (blob_bytes (blob_views blobs.now)) }
{
    let mut left = BLOB_LIMIT;
    for blob in blobs {
        if blob.bytes.len() > left {
            return true;
        }
        left -= blob.bytes.len();
    }
    false
}
