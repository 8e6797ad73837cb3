//! What a stack shows: by walks, looks, names and views, and its whole tree.
ghost use Rattle.std.specs.Prelude.{◌<◌, length};
ghost use Rattle.ovl_lookup.specs.Stacks.{all_layers};
ghost use Rattle.ovl_lookup.specs.DirViews.{IsViewOver};

use crate::samples::moved_stack;
use ovl_lookup::{DirView, Look, PathRope, Stack, walk};
use ovl_names::{Name, NameFault, Path, PathFault};
use ovl_test_rows::expect_so;
use std::alloc::{AllocError, Global};
use std::test::Fail;

fn next_path(alloc: Global, stack: &Stack, path: &Path) -> Result<Path, AllocError>
    requires { 0 < length stack.now.layers }
{
    let rope = PathRope::of(alloc, &path.names())?;
    let own = stack.own_step(alloc, 0, &rope)?;
    own.turned.unwrap_or(rope).path(alloc)
}

fn has_nothing(alloc: Global, stack: &Stack, path: &Path) -> Result<bool, AllocError>
    requires { 0 < length stack.now.layers }
{
    Ok(stack.own_names(alloc, 0, path)?.is_empty() && stack.data_place(alloc, path)?.is_none())
}

// Whether the walk of a layer of the stack's own goes to this path.
fn goes_to(alloc: Global, stack: &Stack, path: &Path, next: &Path) -> Result<bool, AllocError>
    requires { 0 < length (all_layers stack.now) }
{
    let rope = PathRope::of(alloc, &path.names())?;
    let step = stack.own_walk(alloc, 0, rope)?.copied(alloc)?;
    Ok(step.next == *next && step.found.is_some() && !step.closed)
}

// Of the moved directory.
fn is_walked(alloc: Global, stack: &Stack, path: &Path) -> Result<bool, AllocError> {
    if stack.ordinary() < 1 || stack.layers() < 1 {
        return Ok(false);
    }
    let step = walk(alloc, stack.sheet(0), path)?;
    Ok(
        step.next.len() == 1
            && goes_to(alloc, stack, path, &step.next)?
            && next_path(alloc, stack, path)? == step.next
            && has_nothing(alloc, stack, path)?,
    )
}

fn has_shown_kind(alloc: Global, stack: &Stack, path: &Path) -> Result<bool, AllocError> {
    let rope = PathRope::of(alloc, &path.names())?;
    Ok(stack.shown_kind(alloc, 0, rope)?.is_directory())
}

fn is_looked_at(alloc: Global, stack: &Stack, path: &Path) -> Result<bool, AllocError> {
    Ok(stack.look(alloc, 0, path)?.is_shown_directory())
}

fn is_listed(alloc: Global, stack: &Stack, path: &Path) -> Result<bool, AllocError> {
    Ok(stack.names(alloc, 0, path)?.len() == 1 && stack.list(alloc)?.len() == 6)
}

// Of the moved directory too.
fn is_shown(alloc: Global, stack: &Stack, path: &Path) -> Result<bool, AllocError> {
    Ok(
        is_looked_at(alloc, stack, path)?
            && has_shown_kind(alloc, stack, path)?
            && is_listed(alloc, stack, path)?,
    )
}

fn has_file(
    alloc: Global,
    stack: &Stack,
    view: &DirView<'_>,
    file: &Name,
) -> Result<bool, AllocError>
    requires { IsViewOver stack.now view.now }
{
    let look = view.look(alloc, stack, file)?;
    Ok(matches!(&look, Look::Shown(_)) && view.data(alloc, stack, file)?.is_some())
}

// A metacopy file in the root.
fn is_viewed(alloc: Global, stack: &Stack, file: &Name) -> Result<bool, AllocError> {
    match DirView::of(alloc, stack, 0, &Path::root(alloc))? {
        Some(view) => has_file(alloc, stack, &view, file),
        None => Ok(false),
    }
}

fn has_two(alloc: Global, stack: &Stack, view: &DirView<'_>) -> Result<bool, AllocError>
    requires { IsViewOver stack.now view.now }
{
    let names = view.names(alloc, stack)?;
    Ok(names.len() == 2 && view.looks(alloc, stack)?.len() == 2)
}

fn has_two_in(
    alloc: Global,
    stack: &Stack,
    view: &DirView<'_>,
    dir: &Name,
) -> Result<bool, AllocError>
    requires { IsViewOver stack.now view.now }
{
    match view.child(alloc, stack, dir)? {
        Some(child) => has_two(alloc, stack, &child),
        None => Ok(false),
    }
}

// A directory in the root.
fn is_entered(alloc: Global, stack: &Stack, dir: &Name) -> Result<bool, AllocError> {
    match DirView::of(alloc, stack, 0, &Path::root(alloc))? {
        Some(view) => has_two_in(alloc, stack, &view, dir),
        None => Ok(false),
    }
}

#[test]
fn a_moved_directory_is_walked(rt: HostRuntime) -> Result<(), Fail> {
    let stack = moved_stack(rt.alloc())?;
    let path = again!(Path::parse(rt.alloc(), "/n/d"), PathFault::Memory)?;
    expect_so(again!(is_walked(rt.alloc(), &stack, &path), AllocError)?)
}

#[test]
fn a_moved_directory_is_shown(rt: HostRuntime) -> Result<(), Fail> {
    let stack = moved_stack(rt.alloc())?;
    let path = again!(Path::parse(rt.alloc(), "/n/d"), PathFault::Memory)?;
    expect_so(again!(is_shown(rt.alloc(), &stack, &path), AllocError)?)
}

#[test]
fn a_metacopy_file_is_viewed(rt: HostRuntime) -> Result<(), Fail> {
    let stack = moved_stack(rt.alloc())?;
    let file = again!(Name::of(rt.alloc(), "m"), NameFault::Memory)?;
    expect_so(again!(is_viewed(rt.alloc(), &stack, &file), AllocError)?)
}

#[test]
fn a_directory_is_entered(rt: HostRuntime) -> Result<(), Fail> {
    let stack = moved_stack(rt.alloc())?;
    let dir = again!(Name::of(rt.alloc(), "n"), NameFault::Memory)?;
    expect_so(again!(is_entered(rt.alloc(), &stack, &dir), AllocError)?)
}
