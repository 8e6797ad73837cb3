//! What the layers below show in the place of a directory that is checked. It must not know codes.
ghost use Rattle.std.specs.Prelude.{◌≡◌, ◌<◌, ℕ, true, false, None, length, unwrap_or, IfOk, IfSome};
ghost use Rattle.std.specs.List.{list_any};
ghost use Rattle.ovl_lookup.specs.Stacks.{all_layers};
ghost use Rattle.ovl_names.specs.Paths.{child_path};
ghost use Rattle.ovl_lookup.specs.DirViews.{IsViewOver};
ghost use Rattle.ovl_lookup.specs.Merged.{shows};
ghost use Rattle.ovl_check.specs.Checks.{layers_below};
ghost use Rattle.ovl_check.specs.Facts.{IsViewBelow, data_size, next_of};
ghost use Rattle.ovl_check.specs.Facts as facts;

use crate::directories::{CheckedDirectory, Child};
use crate::places::{first_below, size_in};
use ovl_inode::Mark;
use ovl_lookup::{DirView, PathRope, Stack};
use ovl_names::{Name, Path};
use std::alloc::{AllocError, Global};

/// The view of the layers below layer `i` where the walk of a directory of this path with these
/// entries goes on, made only if that is open and an entry asks.
pub(crate) fn below_children<'p, 'a: 'p>(
    alloc: Global,
    stack: &'a Stack,
    i: usize,
    path: &'p Path,
    turned: &Option<PathRope<'a>>,
    closed: bool,
    children: &[Child<'_>],
) -> Result<Option<DirView<'p>>, AllocError>
    requires { i < length (all_layers stack.now) }
    ensures { IfOk result
        (λ below. closed ≡ false → list_any (λ child. facts.asks child.mark.now) children.now ≡ true
        → IsViewBelow stack.now i (unwrap_or turned.now path.now) below) }
{
    if closed {
        return Ok(None);
    }
    if !any_asks(children) {
        return Ok(None);
    }
    let from = first_below(stack, i);
    match turned {
        Some(next) => DirView::at(alloc, stack, from, next.copy(alloc)?),
        None => DirView::of(alloc, stack, from, path),
    }
}

fn any_asks(children: &[Child<'_>]) -> bool
    ensures { result ≡ list_any (λ child. facts.asks child.mark.now) children.now }
{
    children.iter().any(|child| asks(child.mark))
}

// Whether an entry of this mark asks what the layers below have at its name.
fn asks(mark: &Mark) -> bool
    ensures { result ≡ facts.asks mark.now }
{
    matches!(mark, Mark::Whiteout | Mark::Meta(_))
}

/// Whether the layers below that of a directory show something under a name in its place.
pub(crate) fn show_in(stack: &Stack, directory: &CheckedDirectory<'_, '_>, name: &Name) -> bool
    requires { IfSome directory.now.below (IsViewOver stack.now) }
    ensures { (i : ℕ) → IsViewBelow stack.now i (next_of directory.now) directory.now.below
        → result ≡ shows (layers_below stack.now i) (child_path (next_of directory.now) name.now) }
{
    // Each of them is a layer.
    let _layers = stack.ordinary();
    match &directory.below {
        Some(view) => view.shows(stack, name),
        None => false,
    }
}

/// The size of the data that they have there, below a metacopy file without an absolute redirect.
pub(crate) fn data_size_in(
    alloc: Global,
    stack: &Stack,
    directory: &CheckedDirectory<'_, '_>,
    name: &Name,
) -> Result<Option<u64>, AllocError>
    requires { IfSome directory.now.below (IsViewOver stack.now) }
    ensures { IfOk result
        (λ size. (i : ℕ) → IsViewBelow stack.now i (next_of directory.now) directory.now.below
        → size ≡ data_size (layers_below stack.now i) None
        (child_path (next_of directory.now) name.now)) }
{
    // Each of them is a layer.
    let _layers = stack.ordinary();
    let Some(view) = &directory.below else {
        return Ok(None);
    };
    Ok(size_in(view.data(alloc, stack, name)?))
}
