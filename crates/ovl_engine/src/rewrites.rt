//! What the commands that make new layers share: the stack is clean, the work is walked, the stack
//! goes, the layer is made, and the answer is written.
ghost use Rattle.std.specs.Prelude.{◌≡◌, ◌⊎◌, ◌<◌, ◌≤◌, true, Ok, Err, IfOk, IfErr, OnOk, map};
ghost use Rattle.ovl_layer.specs.Layers.{IsLayer};
ghost use Rattle.ovl_board.specs.Machine.{worker_limit};
ghost use Rattle.ovl_board.specs.Pieces.{space_root};
ghost use Rattle.ovl_pool.specs.Runs.{MayBeRefused};
ghost use Rattle.ovl_rewrite.specs.Ends.{IsEndOf};
ghost use Rattle.ovl_rewrite.specs.Limits.{IsLayerWithinLimits, PassesLimits};
ghost use Rattle.ovl_rewrite.specs.NewLayers.{NewLayer, IsOf};
ghost use Rattle.ovl_manifest.specs.Manifest.{read_layer};
ghost use Rattle.ovl_manifest.specs.Text.{manifest_text};
ghost use Rattle.ovl_reports.specs.LayerReports.{layer_report};
ghost use Rattle.ovl_engine.specs.FsckReports as fsck_reports;
ghost use Rattle.ovl_engine.specs.declared.faults.EngineFault.TheVariants.{LimitOut, Memory};
ghost use Rattle.ovl_engine.specs.Outcomes.{IsFailedWalk, IsUnclean, IsRewritten, new_manifests};

use crate::faults::EngineFault;
use crate::fsck_reports::{fsck_report_of, is_clean};
use crate::stacks::drop_in_parallel;
use crate::teams::WorkerTeam;
use ovl_check::Finding;
use ovl_commands::Answer;
use ovl_layer::Layer;
use ovl_lookup::Stack;
use ovl_manifest::write_layer;
use ovl_pool::Gate;
use ovl_reports::{layer_report_of, side_by_side};
use ovl_rewrite::{Rewrite, RewriteEnd};
use std::alloc::{AllocError, Global};
use std::sync::Wait;
use std::thread::Threads;

/// Comes before new layers are made: a stack in which a fault is found is refused with the report
/// of `fsck`.
pub(crate) fn expect_clean(alloc: Global, found: Vec<Finding>) -> Result<(), EngineFault>
    ensures clean { IfOk result (λ _. fsck_reports.is_clean found.items ≡ true) }
    ensures refused { IfErr result (IsUnclean found.items) }
{
    if is_clean(&found) {
        return Ok(());
    }
    Err(EngineFault::Faulty(fsck_report_of(alloc, &found)?))
}

/// The end of a work that makes a new layer, once it is walked.
pub(crate) fn walked<W: Rewrite + Sync, G: Gate + Sync, R: Threads + Wait + Sync>(
    team: &WorkerTeam<'_, G, R>,
    work: &W,
) -> Result<RewriteEnd, EngineFault>
    requires number { (0 < team.now.workers) × (team.now.workers ≤ worker_limit) }
    ensures told { IfOk result (IsEndOf (W.new_of work.now)) }
    ensures made { IfOk result
        (λ _. W.is_sound work.now → IsLayerWithinLimits (W.new_of work.now)) }
    ensures fault { IfErr result (IsFailedWalk
        (MayBeRefused (W.kids_of work.now) (G.may_refuse team.now.gate.now) (space_root 0))) }
{
    let parcels = team.walk(work, 0)?;
    Ok(RewriteEnd::of(team.alloc, work, parcels)?)
}

/// The new layer of such an end. The stack goes first, so that its rows aren't beside the
/// layer.
pub(crate) fn finished<G, R: Threads + Sync>(
    team: &WorkerTeam<'_, G, R>,
    stack: Stack,
    end: RewriteEnd,
) -> Result<Layer, EngineFault>
    requires { 0 < team.now.workers }
    ensures layer { IfOk result (λ layer. (new : NewLayer) → IsEndOf new end → IsOf new layer) }
    ensures kept { IfOk result (λ _. (new : NewLayer) → IsEndOf new end → PassesLimits new → ⊥) }
    ensures limit { result ≡ Err LimitOut → (new : NewLayer) → IsEndOf new end
        → IsLayerWithinLimits new → PassesLimits new }
    ensures fault { IfErr result (λ fault. (fault ≡ LimitOut) ⊎ (fault ≡ Memory)) }
{
    drop_in_parallel(team.rt, team.alloc, stack, team.workers);
    Ok(end.finish(team.alloc)?)
}

/// The answer with the report that `report` writes and these new layers, whose manifests are
/// written beside it where there are several workers.
pub(crate) fn rewritten<R: Threads, F: FnOnce() -> Result<Vec<u8>, AllocError> + Send>(
    rt: &R,
    alloc: Global,
    workers: usize,
    report: F,
    layers: &[&Layer],
) -> Result<Answer, AllocError>
    requires { F.pre report }
    ensures report { IfOk result (λ answer. F.post report (Ok answer.report)) }
    ensures answer { IfOk result
        (λ answer. IsRewritten answer.report.items (map (λ layer. layer.now) layers.now) answer) }
    ensures back { IfOk result
        (λ answer. map read_layer (new_manifests answer) ≡ map (λ layer. Ok layer.now) layers.now) }
{
    let write = || -> Result<Vec<Vec<u8>>, AllocError>
        ensures texts { IfOk result
            (λ manifests. map (λ manifest. manifest.items) manifests.items
            ≡ map (λ layer. manifest_text layer.now) layers.entry.now) }
        ensures back { IfOk result
            (λ manifests. map read_layer (map (λ manifest. manifest.items) manifests.items)
            ≡ map (λ layer. Ok layer.now) layers.entry.now) }
    { manifests_of(alloc, layers) };
    let (report, manifests) = side_by_side(rt, workers, report, write);
    Ok(Answer {
        report: report?,
        layers: manifests?,
        clean: true,
    })
}

/// The answer with these new layers, whose report lists the entries of the layer `told`.
pub(crate) fn answer_telling<R: Threads>(
    rt: &R,
    alloc: Global,
    workers: usize,
    told: &Layer,
    layers: &[&Layer],
) -> Result<Answer, AllocError>
    ensures report { IfOk result (λ answer. answer.report.items ≡ layer_report told.now) }
    ensures layer { OnOk result (IsLayer told.now) }
    ensures answer { IfOk result
        (λ answer. IsRewritten answer.report.items (map (λ layer. layer.now) layers.now) answer) }
    ensures back { IfOk result
        (λ answer. map read_layer (new_manifests answer) ≡ map (λ layer. Ok layer.now) layers.now) }
{
    let report = || -> Result<Vec<u8>, AllocError>
        ensures told { IfOk result (λ report. report.items ≡ layer_report told.entry.now) }
        ensures layer { OnOk result (IsLayer told.entry.now) }
    { layer_report_of(alloc, told) };
    rewritten(rt, alloc, workers, report, layers)
}

// The manifests of layers, in order.
fn manifests_of(alloc: Global, layers: &[&Layer]) -> Result<Vec<Vec<u8>>, AllocError>
    ensures texts { IfOk result
        (λ manifests. map (λ manifest. manifest.items) manifests.items
        ≡ map (λ layer. manifest_text layer.now) layers.now) }
    ensures back { IfOk result
        (λ manifests. map read_layer (map (λ manifest. manifest.items) manifests.items)
        ≡ map (λ layer. Ok layer.now) layers.now) }
{
    let mut manifests = Vec::with_capacity(alloc, layers.len())?;
    for layer in layers {
        manifests.push(write_layer(alloc, layer)?)?;
    }
    Ok(manifests)
}
