//! From manifests to a stack, and its end. It must not know commands.
ghost use Rattle.std.specs.Prelude.{◌≡◌, ◌+◌, ◌-◌, ◌^◌, ◌<◌, ◌≤◌, None, Ok, IfOk, IfErr, MatchResult, length, map};
ghost use Rattle.std.specs.Thread.{IsSync, IsSend};
ghost use Rattle.ovl_lookup.specs.Stacks.{layer_limit, stack_with};
ghost use Rattle.ovl_engine.specs.Refusals.{layers_from, stated_layers, first_unread, IsUnreadLayer};

use crate::faults::EngineFault;
use ovl_layer::Sheet;
use ovl_lookup::Stack;
use ovl_manifest::read_sheet;
use std::alloc::Global;
use std::convert::AsSlice;
use std::thread::{Threads, for_each_mut, join};

/// The stack of the layers that 1 to [`LAYER_LIMIT`](ovl_lookup::LAYER_LIMIT) manifests state, the
/// topmost first, of which the last `bottom`, fewer than all, are data-only. They are read by at
/// most as many threads as there are workers, and each goes once its layer is read.
pub(crate) fn read_stack<R: Threads + Sync, M: AsSlice<u8> + Send + Drop>(
    rt: &R,
    alloc: Global,
    manifests: Vec<M>,
    bottom: u16,
    workers: usize,
) -> Result<Stack, EngineFault>
    requires number { 0 < workers }
    requires limit { length manifests.items ≤ layer_limit }
    requires some { bottom < length manifests.items }
    ensures read { IfOk result (λ _. first_unread (map M.items manifests.items) ≡ None) }
    ensures stack { IfOk result
        (λ stack. stack ≡ stack_with (stated_layers (map M.items manifests.items)) bottom) }
    ensures count { IfOk result (λ stack. length stack.layers ≡ length manifests.items - bottom) }
    ensures unread { IfErr result
        (λ fault. IsUnreadLayer (layers_from 0 (map M.items manifests.items)) fault) }
{
    let ordinary = manifests.len() - usize::from(bottom);
    let share = manifests.len().div_ceil(workers);
    let mut layers = read_layers(rt, alloc, 0, manifests, share)?;
    let data_only = layers.split_off(ordinary)?;
    match Stack::of_sheets(layers, data_only) {
        Ok(stack) => Ok(stack),
        // There are as many layers as manifests.
        Err(_) => Err(EngineFault::Layers),
    }
}

// The layers that the manifests state, of which the first has this index. Each share of this many
// of them is read by a thread of its own, the last by this one.
#[cycle(shares)]
fn read_layers<R: Threads + Sync, M: AsSlice<u8> + Send + Drop>(
    rt: &R,
    alloc: Global,
    first: usize,
    mut manifests: Vec<M>,
    share: usize,
) -> Result<Vec<Sheet>, EngineFault>
    requires some { 0 < share }
    requires room { first + length manifests.items < 2 ^ 64 }
    ensures { MatchResult result
        (λ layers. layers_from first (map M.items manifests.items) ≡ Ok layers.items)
        (λ fault. IsUnreadLayer (layers_from first (map M.items manifests.items)) fault) }
{
    if manifests.len() <= share {
        return read_share(alloc, first, manifests);
    }
    let rest = manifests.split_off(share)?;
    let behind = first + share;
    let front = || -> Result<Vec<Sheet>, EngineFault>
        requires { first + length manifests.items < 2 ^ 64 }
        ensures { MatchResult result
            (λ layers. layers_from first (map M.items manifests.items) ≡ Ok layers.items)
            (λ fault. IsUnreadLayer (layers_from first (map M.items manifests.items)) fault) }
    { read_share(alloc, first, manifests) };
    let back = || -> Result<Vec<Sheet>, EngineFault>
        requires shared { IsSync R.row × IsSend M.row }
        requires some { 0 < share }
        requires room { behind + length rest.items < 2 ^ 64 }
        ensures { MatchResult result
            (λ layers. layers_from behind (map M.items rest.items) ≡ Ok layers.items)
            (λ fault. IsUnreadLayer (layers_from behind (map M.items rest.items)) fault) }
    { read_layers(rt, alloc, behind, rest, share) };
    let (read, more) = join(rt, front, back);
    let mut layers = read?;
    layers.append(&mut more?)?;
    Ok(layers)
}

// The layers that the manifests state, of which the first has this index, read one after another.
// Each manifest goes before the next is read.
fn read_share<M: AsSlice<u8> + Drop>(
    alloc: Global,
    first: usize,
    manifests: Vec<M>,
) -> Result<Vec<Sheet>, EngineFault>
    requires { first + length manifests.items < 2 ^ 64 }
    ensures { MatchResult result
        (λ layers. layers_from first (map M.items manifests.items) ≡ Ok layers.items)
        (λ fault. IsUnreadLayer (layers_from first (map M.items manifests.items)) fault) }
{
    let mut layers = Vec::new(alloc);
    for manifest in manifests {
        match read_sheet(alloc, manifest.as_slice()) {
            Ok(layer) => layers.push(layer)?,
            Err(fault) => return Err(EngineFault::unread(first + layers.len(), fault)),
        }
    }
    Ok(layers)
}

/// Lets a stack go, its layers shared by at most as many threads as there are workers. When out of
/// memory for that, this thread does it by itself.
pub(crate) fn drop_in_parallel<R: Threads + Sync>(
    rt: &R,
    alloc: Global,
    stack: Stack,
    workers: usize,
)
    requires { 0 < workers }
{
    let (layers, data_only) = stack.into_sheets();
    let Ok(mut sheets): Result<Vec<Option<Sheet>>, _> = layers
        .into_iter()
        .chain(data_only)
        .map(Some)
        .collect(alloc)
    else {
        return;
    };
    for_each_mut(rt, &mut sheets, workers, &|_, sheet| drop(sheet.take()));
}
