//! The works of commands that make new layers, walked by one thread.

use crate::samples::moved_stack;
use ovl_board::{Piece, plain_walk};
use ovl_deref::{DerefWork, finish_deref};
use ovl_flatten::{FlattenWork, finish_flatten};
use ovl_layer::Layer;
use ovl_lookup::Stack;
use ovl_merge::{MergeDone, MergeFault, MergeWork, finish_merge};
use ovl_rewrite::RewriteFault;
use ovl_test_rows::expect_so;
use ovl_vacuum::{VacuumWork, finish_vacuum};
use std::alloc::{AllocError, Global};
use std::test::Fail;

fn has_entries(alloc: Global, layer: &Layer, count: usize) -> Result<bool, AllocError> {
    Ok(layer.entries(alloc)?.len() == count)
}

fn is_vacuumed(alloc: Global, stack: &Stack) -> Result<bool, AllocError> {
    let work = VacuumWork::new(stack);
    let parcels = plain_walk(alloc, &work, Piece::root(alloc, 0))?;
    let done = finish_vacuum(alloc, &work, parcels)?;
    Ok(done.removed.len() == 1 && has_entries(alloc, &done.layer, 5)?)
}

fn is_dereferenced(alloc: Global, stack: &Stack) -> Result<bool, RewriteFault> {
    let work = DerefWork::new(stack);
    let parcels = plain_walk(alloc, &work, Piece::root(alloc, 0))?;
    let layer = finish_deref(alloc, &work, parcels)?;
    Ok(has_entries(alloc, &layer, 7)?)
}

fn merged(alloc: Global, stack: &Stack) -> Result<MergeDone, MergeFault> {
    let work = MergeWork::new(stack)?;
    let parcels = plain_walk(alloc, &work, Piece::root(alloc, 0))?;
    finish_merge(alloc, &work, parcels)
}

fn is_merged(alloc: Global, stack: &Stack) -> Result<bool, MergeFault> {
    let done = merged(alloc, stack)?;
    Ok(has_entries(alloc, &done.top, 1)? && has_entries(alloc, &done.lower, 6)?)
}

fn is_flattened(alloc: Global, stack: &Stack) -> Result<bool, RewriteFault> {
    let work = FlattenWork::new(stack);
    let parcels = plain_walk(alloc, &work, Piece::root(alloc, 0))?;
    let layer = finish_flatten(alloc, &work, parcels)?;
    Ok(has_entries(alloc, &layer, 6)?)
}

#[test]
fn a_layer_is_vacuumed(rt: HostRuntime) -> Result<(), Fail> {
    let stack = moved_stack(rt.alloc())?;
    expect_so(again!(is_vacuumed(rt.alloc(), &stack), AllocError)?)
}

#[test]
fn a_layer_is_dereferenced(rt: HostRuntime) -> Result<(), Fail> {
    let stack = moved_stack(rt.alloc())?;
    expect_so(again!(is_dereferenced(rt.alloc(), &stack), RewriteFault::Memory)?)
}

#[test]
fn two_layers_are_merged(rt: HostRuntime) -> Result<(), Fail> {
    let stack = moved_stack(rt.alloc())?;
    expect_so(again!(is_merged(rt.alloc(), &stack), MergeFault::Memory)?)
}

#[test]
fn a_stack_is_flattened(rt: HostRuntime) -> Result<(), Fail> {
    let stack = moved_stack(rt.alloc())?;
    expect_so(again!(is_flattened(rt.alloc(), &stack), RewriteFault::Memory)?)
}
