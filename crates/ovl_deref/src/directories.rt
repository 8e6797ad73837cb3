//! The names in a directory of the dereferenced layer, each with its inode.
ghost use Rattle.std.specs.Prelude.{◌≡◌, Some, IfOk, IfSome};
ghost use Rattle.ovl_names.specs.Paths.{child_path};
ghost use Rattle.ovl_inode.specs.Marks.{mark_of};
ghost use Rattle.ovl_layer.specs.Layers.{entry_at};
ghost use Rattle.ovl_lookup.specs.DirViews.{IsViewOf};
ghost use Rattle.ovl_lookup.specs.Words.{top_layer, lower_layers};
ghost use Rattle.ovl_deref.specs.declared.directories.OwnPlace.TheVariants.{Row};
ghost use Rattle.ovl_deref.specs.Deref.{dereferenced_inode};
ghost use Rattle.ovl_deref.specs.Directories as directories;
ghost use Rattle.ovl_deref.specs.Visits.{IsOwnPlace};

use crate::inodes::{filled, unfolded};
use ovl_inode::{Inode, Mark};
use ovl_lookup::{DirView, Found, Stack, is_moved, shown_inodes};
use ovl_names::{Name, Path};
use std::alloc::{AllocError, Global};

/// The names in a directory of the new layer, each with its inode: at and in a moved one those that
/// are shown, else the topmost layer's own.
pub(crate) fn inodes_in(
    alloc: Global,
    stack: &Stack,
    dir: &Path,
) -> Result<Vec<(Name, Inode)>, AllocError>
    ensures { IfOk result (λ inodes. inodes.items ≡ directories.inodes_in stack.now dir.now) }
{
    // Each layer of a stack is one.
    let _layers = stack.ordinary();
    match own_place(stack, dir) {
        OwnPlace::Moved => shown_inodes(alloc, stack, dir),
        OwnPlace::Row(row) => own_inodes(alloc, stack, dir, row),
        OwnPlace::Absent => Ok(Vec::new(alloc)),
    }
}

// What the topmost layer has at the path of a directory.
#[derive(Clone, Copy)]
enum OwnPlace {
    // The directory or one above it is moved.
    Moved,
    // The row of this number; neither it nor one above it is moved.
    Row(u32),
    // Nothing, and none above it is moved.
    Absent,
}

// What the topmost layer has at the path of a directory, by one walk: the first name on it that is
// missing or moved decides, or else the row at its end, of whatever kind.
fn own_place(stack: &Stack, dir: &Path) -> OwnPlace
    ensures { IsOwnPlace (top_layer stack.now) dir.now result }
{
    let sheet = stack.top();
    let mut row = sheet.root_number();
    for name in dir.names() {
        let Some(child) = sheet.child(row, name) else {
            return OwnPlace::Absent;
        };
        if is_moved(sheet.mark(child)) {
            return OwnPlace::Moved;
        }
        row = child;
    }
    OwnPlace::Row(row)
}

// The topmost layer's own names in the directory of a row, where neither it nor one above it is
// moved, each with its inode in the new layer, in one pass over the rows.
fn own_inodes(
    alloc: Global,
    stack: &Stack,
    dir: &Path,
    row: u32,
) -> Result<Vec<(Name, Inode)>, AllocError>
    requires { IsOwnPlace (top_layer stack.now) dir.now (Row row) }
    ensures { IfOk result (λ inodes. inodes.items ≡ directories.inodes_in stack.now dir.now) }
{
    let sheet = stack.top();
    let rows = sheet.below(row);
    let mut view = None;
    let mut inodes = Vec::with_capacity(alloc, rows.len())?;
    for (number, name) in rows {
        let entry = Found::in_row(sheet, number);
        let inode = dereferenced(alloc, stack, &mut view, dir, name, &entry)?;
        inodes.push((name.copy(alloc)?, inode))?;
    }
    Ok(inodes)
}

// What becomes of the entry at a name in a directory, by the view of that.
fn dereferenced<'a>(
    alloc: Global,
    stack: &'a Stack,
    view: &mut Option<DirView<'a>>,
    dir: &'a Path,
    name: &Name,
    entry: &Found<'_>,
) -> Result<Inode, AllocError>
    requires view { IfSome view.old (IsViewOf stack.now 0 dir.now) }
    requires entry { entry_at (top_layer stack.now) (child_path dir.now name.now)
        ≡ Some entry.now.inode.now }
    requires marked { entry.now.mark.now ≡ mark_of entry.now.inode.now }
    ensures inode { IfOk result
        (λ new. new ≡ dereferenced_inode (top_layer stack.now) (lower_layers stack.now)
        (child_path dir.now name.now) entry.now.inode.now) }
    ensures view { IfSome view.new (IsViewOf stack.now 0 dir.now) }
{
    // A stack has a topmost layer.
    let _layers = stack.ordinary();
    match entry.mark {
        Mark::DirMoved(_) => unfolded(alloc, entry.inode),
        Mark::Meta(_) => {
            let look = DirView::look_cached(alloc, stack, view, dir, name)?;
            filled(alloc, entry.inode, &look)
        }
        Mark::Whiteout
        | Mark::DirOpaque
        | Mark::DirBad
        | Mark::DirPlain
        | Mark::MetaBad
        | Mark::Leaf => entry.inode.copy(alloc),
    }
}
