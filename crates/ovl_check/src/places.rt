//! What layers have at whole paths that redirects name. It must not know codes.
ghost use Rattle.std.specs.Prelude.{◌≡◌, ◌<◌, ◌≤◌, Some, IfOk, length};
ghost use Rattle.std.specs.Option.{option_map};
ghost use Rattle.ovl_lookup.specs.Stacks.{all_layers};
ghost use Rattle.ovl_inode.specs.declared.marks.Mark.TheVariants.{DirPlain};
ghost use Rattle.ovl_layer.specs.Sheets.{path_at};
ghost use Rattle.ovl_inode.specs.Kinds.{size_of};
ghost use Rattle.ovl_lookup.specs.Walk.{walk, mark_at as the_mark};
ghost use Rattle.ovl_lookup.specs.Passes.{IsOwnMarked, own_step_of};
ghost use Rattle.ovl_lookup.specs.Merged.{look as the_look};
ghost use Rattle.ovl_lookup.specs.ShownKinds.{shown_kind_of};
ghost use Rattle.ovl_check.specs.Checks.{layer_at, first_below as the_first_below, layers_below};
ghost use Rattle.ovl_check.specs.Facts.{data_size};

use ovl_inode::{Inode, Mark, file_size};
use ovl_layer::Sheet;
use ovl_lookup::{OwnStep, PathRope, ShownKind, Stack};
use ovl_names::Path;
use std::alloc::{AllocError, Global};

/// The walk of a rope in layer `i`.
pub(crate) fn step_of<'a>(
    alloc: Global,
    stack: &'a Stack,
    i: usize,
    rope: &PathRope<'a>,
) -> Result<OwnStep<'a>, AllocError>
    requires { i < length (all_layers stack.now) }
    ensures value { IfOk result
        (λ step. own_step_of rope.now step ≡ walk (layer_at stack.now i) rope.now) }
    ensures marked { IfOk result IsOwnMarked }
{
    stack.own_step(alloc, i, rope)
}

/// The first of the layers below layer `i`; below a data-only one there is none.
pub(crate) fn first_below(stack: &Stack, i: usize) -> usize
    ensures value { result ≡ the_first_below stack.now i }
    ensures inside { result ≤ length stack.now.layers }
{
    let layers = stack.ordinary();
    if i < layers { i + 1 } else { layers }
}

/// The kind of what the layers below layer `i` show at a path, by walks from their roots.
pub(crate) fn shown_kind_below<'a>(
    alloc: Global,
    stack: &'a Stack,
    i: usize,
    path: PathRope<'a>,
) -> Result<ShownKind, AllocError>
    requires { i < length (all_layers stack.now) }
    ensures { IfOk result
        (λ shown_kind. shown_kind ≡ shown_kind_of (the_look (layers_below stack.now i) path.entry)) }
{
    stack.shown_kind(alloc, first_below(stack, i), path)
}

/// The size of the data of a metacopy file with this path as its redirect.
pub(crate) fn data_size_below(
    alloc: Global,
    stack: &Stack,
    i: usize,
    path: &Path,
) -> Result<Option<u64>, AllocError>
    requires { i < length (all_layers stack.now) }
    ensures { IfOk result
        (λ size. size ≡ data_size (layers_below stack.now i) (Some path.now) path.now) }
{
    let rope = PathRope::of(alloc, &path.names())?;
    let found = stack.data(alloc, first_below(stack, i), rope, Some(path))?;
    Ok(size_in(found))
}

/// The size of this file, if there is one.
pub(crate) fn size_in(found: Option<&Inode>) -> Option<u64>
    ensures { result ≡ option_map size_of (option_map (λ inode. inode.now) found.entry) }
{
    match found {
        Some(inode) => Some(file_size(inode)),
        None => None,
    }
}

/// The mark of the row at `path`. The root counts as a plain directory, whatever mark the layer
/// keeps for it: if `path` is the root, `plain` is given.
pub(crate) fn mark_in<'a>(sheet: &'a Sheet, row: u32, path: &Path, plain: &'a Mark) -> &'a Mark
    requires row { row < length sheet.now }
    requires path { path_at sheet.now row ≡ path.now }
    requires plain { plain.now ≡ DirPlain }
    ensures { the_mark sheet.now path.now ≡ Some result.now }
{
    if path.is_empty() {
        return plain;
    }
    sheet.mark(row)
}
