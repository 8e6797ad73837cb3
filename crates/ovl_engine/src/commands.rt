//! A command over manifests and blobs that are held.
ghost use Rattle.std.specs.Prelude.{◌≡◌, ◌↔◌, true, false, Err, IfOk, length, nat_le};
ghost use Rattle.ovl_lookup.specs.Stacks.{layer_limit};
ghost use Rattle.ovl_board.specs.Machine.{worker_limit};
ghost use Rattle.ovl_engine.specs.declared.faults.EngineFault.TheVariants.{Workers, Layers, DataLayers};
ghost use Rattle.ovl_engine.specs.Requests.{request_of};
ghost use Rattle.ovl_engine.specs.Refusals as refusals;
ghost use Rattle.ovl_engine.specs.Outcomes.{IsOutcome};
ghost use Rattle.ovl_commands.specs.Commands.{makes_layers, stays_sound, stands_alone};
ghost use Rattle.ovl_engine.specs.Kept.{KeepsTree, HasSoundStack, IsQuiet, after};

use crate::answers::answer;
use crate::contents::digest_blobs;
use crate::faults::EngineFault;
use crate::manifests::Manifests;
use crate::preparations::prepare;
use crate::tasks::Task;
use ovl_check::Blob;
use ovl_commands::{Answer, Command};
use ovl_pool::Gate;
use std::alloc::Global;
use std::sync::Wait;
use std::thread::Threads;

/// What a command gives of the layers that the manifests state, the topmost first and the last
/// `bottom` of them data-only, and of the blobs, by 1 to
/// [`WORKER_LIMIT`](ovl_board::WORKER_LIMIT) workers: what [`prepare`], [`digest_blobs`] and
/// [`answer`] give, one after the other. The answer is the same for every number of workers and
/// every order of their visits. Lent manifests, `&[Vec<u8>]`, stay as they are; of a list of its
/// own, `Vec<Vec<u8>>`, it lets each go once its layer is read, so that the command's work has
/// their memory.
///
/// Refused before any worker starts if the workers are outside 1 to
/// [`WORKER_LIMIT`](ovl_board::WORKER_LIMIT), else if the manifests are outside 1 to
/// [`LAYER_LIMIT`](ovl_lookup::LAYER_LIMIT), else if all layers would be data-only, else if a
/// manifest states no layer, the first of them, with its fault, else if the names of the blobs
/// don't ascend strictly, else if the blobs have more than [`BLOB_LIMIT`](ovl_check::BLOB_LIMIT)
/// bytes in all, else if a merge has fewer than two layers that aren't data-only. A command that
/// makes new layers first checks as [`Command::Fsck`] does, and is refused with that report if it
/// has a fault, else with `LimitOut` where a new layer passes a limit of manifests. Else the
/// manifests with the new ones in place of the topmost, as many of them data-only as before, show
/// the same merged tree, and after vacuum and deref have no fault of a layer; after flatten so does
/// the new one in place of all, none data-only. `Run` comes only if the gate refuses a piece that
/// the command reaches; `Memory` can come at any time but before the first three refusals. It waits
/// for its workers, and returns only if each question to the gate does. The merged tree, what is
/// checked and the new layers are those of `docs/PROFILE.md`, the reports those of
/// `docs/FORMATS.md`. overlayfs.rst: "Data-only lower layers".
///
/// All layers as one, by four workers, with these contents of files; no layer is data-only:
///
/// ```
/// let blobs = named_blobs(alloc, contents)?;
/// let what = Command::Flatten;
/// command(rt, alloc, what, manifests, 0, &blobs, 4, &OpenGate)
/// ```
pub fn command<G: Gate + Sync, R: Threads + Wait + Sync, M: Manifests + Drop>(
    rt: &R,
    alloc: Global,
    what: Command,
    manifests: M,
    bottom: u16,
    blobs: &[Blob],
    workers: usize,
    gate: &G,
) -> Result<Answer, EngineFault>
    ensures outcome { IsOutcome (request_of what (M.held manifests) bottom blobs.now workers)
        (G.may_refuse gate.now) result }
    ensures keeps { IfOk result (λ answer. makes_layers what ≡ true
        → let request = request_of what
        (M.held manifests) bottom blobs.now workers in KeepsTree request (after request answer)) }
    ensures sound { IfOk result (λ answer. stays_sound what ≡ true
        → HasSoundStack
        (after (request_of what (M.held manifests) bottom blobs.now workers) answer)) }
    ensures quiet { IfOk result (λ answer. stands_alone what ≡ true
        → let request = request_of what
        (M.held manifests) bottom blobs.now workers in IsQuiet request (after request answer)) }
    ensures workers { (result ≡ Err Workers) ↔ (refusals.is_outside worker_limit workers ≡ true) }
    ensures layers { (result ≡ Err Layers)
        ↔ ((refusals.is_outside worker_limit workers ≡ false)
        × (refusals.is_outside layer_limit (length (M.held manifests)) ≡ true)) }
    ensures data_layers { (result ≡ Err DataLayers)
        ↔ ((refusals.is_outside worker_limit workers ≡ false)
        × (refusals.is_outside layer_limit (length (M.held manifests)) ≡ false)
        × (nat_le (length (M.held manifests)) bottom ≡ true)) }
{
    let prepared = prepare(
        rt,
        alloc,
        Task::Once(what),
        manifests,
        bottom,
        blobs,
        workers,
    )?;
    let contents = digest_blobs(rt, alloc, &prepared, blobs, workers, gate)?;
    answer(rt, alloc, prepared, contents, workers, gate)
}
