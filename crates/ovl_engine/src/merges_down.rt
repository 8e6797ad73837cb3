//! Merges one after the other, until a given number of layers is left.
ghost use Rattle.std.specs.Prelude.{◌≡◌, ◌+◌, ◌<◌, ◌≤◌, true, List, IfOk, IfErr, ◌∷◌, length};
ghost use Rattle.ovl_names.specs.Paths.{PathNames};
ghost use Rattle.ovl_layer.specs.Layers.{IsLayer};
ghost use Rattle.ovl_lookup.specs.Stacks.{layer_limit};
ghost use Rattle.ovl_lookup.specs.Merged.{look};
ghost use Rattle.ovl_lookup.specs.Sound.{IsSoundStack};
ghost use Rattle.ovl_board.specs.Machine.{worker_limit};
ghost use Rattle.ovl_check.specs.declared.findings.Finding.{Finding};
ghost use Rattle.ovl_blobs.specs.Blobs.{BlobView};
ghost use Rattle.ovl_blobs.specs.Contents.{contents_of, contents_ascend};
ghost use Rattle.ovl_check.specs.Findings.{findings};
ghost use Rattle.ovl_commands.specs.declared.requests.Command.TheVariants.{Merge};
ghost use Rattle.ovl_engine.specs.declared.faults.EngineFault.TheVariants.{Memory};
ghost use Rattle.ovl_engine.specs.FsckReports.{is_clean};
ghost use Rattle.ovl_engine.specs.Outcomes.{IsFailure, MayRefuseOwn};
ghost use Rattle.ovl_engine.specs.Prepared.{MayRefuseWork};
ghost use Rattle.ovl_engine.specs.MergesDown.{IsLeftByMerge, IsRunDown, KeepsTreeDown, MergeLeads};

use crate::checks::findings_of;
use crate::faults::EngineFault;
use crate::merges::{merge, merge_end};
use crate::rewrites::expect_clean;
use crate::teams::WorkerTeam;
use ovl_check::BlobInfo;
use ovl_commands::Answer;
use ovl_layer::{Layer, Sheet};
use ovl_lookup::Stack;
use ovl_merge::laws::merged_layer_keeps_the_tree;
use ovl_pool::Gate;
use std::alloc::Global;
use std::sync::Wait;
use std::thread::Threads;

/// What merges of a stack give until a given number of layers is left: the answer of the last.
pub(crate) fn merged_down<G: Gate + Sync, R: Threads + Wait + Sync>(
    team: &WorkerTeam<'_, G, R>,
    stack: Stack,
    contents: &[BlobInfo],
    left: usize,
) -> Result<Answer, EngineFault>
    requires number { (0 < team.now.workers) × (team.now.workers ≤ worker_limit) }
    requires fewer { (0 < left) × (left < length stack.layers) }
    requires ascend { contents_ascend contents.now ≡ true }
    requires held { (blobs : List BlobView) × (contents_of blobs ≡ contents.now) }
    ensures outcome { (blobs : List BlobView) → contents_of blobs ≡ contents.now
        → IsRunDown left blobs stack
        (λ one. MayRefuseWork Merge one (G.may_refuse team.now.gate.now)) result }
    ensures keeps { IfOk result (KeepsTreeDown left stack) }
{
    let before = stack.ordinary() - left - 1;
    let mut last = stack;
    for done in 0..before {
        last = merged_over(team, last, contents)?;
    }
    let found = findings_of(team, &last, contents)?;
    merge(team, last, found)
}

// The stack that a merge leaves of one in which no fault is found.
fn merged_over<G: Gate + Sync, R: Threads + Wait + Sync>(
    team: &WorkerTeam<'_, G, R>,
    stack: Stack,
    contents: &[BlobInfo],
) -> Result<Stack, EngineFault>
    requires number { (0 < team.now.workers) × (team.now.workers ≤ worker_limit) }
    requires several { 1 < length stack.layers }
    requires ascend { contents_ascend contents.now ≡ true }
    requires held { (blobs : List BlobView) × (contents_of blobs ≡ contents.now) }
    ensures next { IfOk result
        (λ next. (blobs : List BlobView) → contents_of blobs ≡ contents.now
        → MergeLeads blobs stack next) }
    ensures tree { IfOk result (λ next. (path : PathNames) → look next path ≡ look stack path) }
    ensures fault { IfErr result (λ fault. (blobs : List BlobView) → contents_of blobs ≡ contents.now
        → IsFailure Merge stack (findings blobs stack)
        (MayRefuseWork Merge stack (G.may_refuse team.now.gate.now)) fault) }
{
    let found = findings_of(team, &stack, contents)?;
    expect_clean(team.alloc, found)?;
    left_by_merge(team, stack)
}

// The stack that a merge leaves of a sound one.
fn left_by_merge<G: Gate + Sync, R: Threads + Wait + Sync>(
    team: &WorkerTeam<'_, G, R>,
    stack: Stack,
) -> Result<Stack, EngineFault>
    requires number { (0 < team.now.workers) × (team.now.workers ≤ worker_limit) }
    requires several { 1 < length stack.layers }
    requires sound { IsSoundStack stack }
    ensures next { IfOk result (IsLeftByMerge stack) }
    ensures tree { IfOk result (λ next. (path : PathNames) → look next path ≡ look stack path) }
    ensures fault { IfErr result (λ fault. (found : List Finding) → is_clean found ≡ true
        → IsFailure Merge stack found
        (MayRefuseOwn Merge stack (G.may_refuse team.now.gate.now)) fault) }
{
    // Each layer of a stack is one, and there are no more than there may be.
    let _all = stack.layers();
    let _each = stack.ordinary();
    merged_layer_keeps_the_tree();
    let end = merge_end(team, &stack)?;
    let (mut both, data_only) = stack.into_sheets();
    let rest = both.split_off(2)?;
    drop(both);
    let lower = end.finish(team.alloc)?;
    Ok(laid_over(team.alloc, lower, rest, data_only)?)
}

// The stack of a layer over sheets, and over data-only ones.
fn laid_over(
    alloc: Global,
    layer: Layer,
    mut sheets: Vec<Sheet>,
    data_only: Vec<Sheet>,
) -> Result<Stack, EngineFault>
    requires { length sheets.items + length data_only.items < layer_limit }
    ensures layers { IfOk result (λ stack. stack.layers ≡ layer ∷ sheets.items) }
    ensures data_only { IfOk result (λ stack. stack.data_only ≡ data_only.items) }
    ensures is_layer { IfOk result (λ _. IsLayer layer) }
    ensures fault { IfErr result (λ fault. fault ≡ Memory) }
{
    // Made by hand (1): `Sheet::of` gives a layer back only when out of memory.
    let Ok(sheet) = Sheet::of(alloc, layer) else {
        return Err(EngineFault::Memory);
    };
    sheets.insert(0, sheet)?;
    match Stack::of_sheets(sheets, data_only) {
        Ok(stack) => Ok(stack),
        Err(_) => unreachable!(),
    }
}
