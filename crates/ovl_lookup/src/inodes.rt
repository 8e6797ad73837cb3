//! What is shown in a directory, as inodes that a new layer may have.
ghost use Rattle.std.specs.Prelude.{◌≡◌, IfOk};
ghost use Rattle.std.specs.List.{filter_map};
ghost use Rattle.ovl_lookup.specs.ShownInodes.{named_shown};
ghost use Rattle.ovl_lookup.specs.ShownInodes as shown;

use crate::{DirView, Look, Stack};
use ovl_inode::Inode;
use ovl_names::{Name, Path};
use std::alloc::{AllocError, Global};

/// The names in a directory of the merged tree, in order, each with the inode that is shown there,
/// whole or broken; none where the stack shows no directory. Fails only when out of memory.
pub fn shown_inodes(
    alloc: Global,
    stack: &Stack,
    dir: &Path,
) -> Result<Vec<(Name, Inode)>, AllocError>
    ensures { IfOk result (λ inodes. inodes.items ≡ shown.shown_inodes stack.now dir.now) }
{
    // Each layer of a stack is one.
    let _layers = stack.ordinary();
    let Some(view) = DirView::of(alloc, stack, 0, dir)? else {
        return Ok(Vec::new(alloc));
    };
    let looks = view.looks(alloc, stack)?;
    inodes_of(alloc, looks)
}

// The inodes of what is shown at these names.
fn inodes_of(alloc: Global, looks: Vec<(Name, Look)>) -> Result<Vec<(Name, Inode)>, AllocError>
    ensures { IfOk result (λ inodes. inodes.items ≡ filter_map named_shown looks.items) }
{
    let mut inodes = Vec::with_capacity(alloc, looks.len())?;
    for (name, look) in looks {
        if let Some(inode) = look.into_inode() {
            inodes.push((name, inode))?;
        }
    }
    Ok(inodes)
}
