//! A directory of a layer, gathered once for all in it. It must not know codes.
ghost use Rattle.std.specs.Prelude.{◌≡◌, ◌<◌, false, None, All, length, map, filter, IfOk, MatchOption};
ghost use Rattle.std.specs.List.{list_any};
ghost use Rattle.ovl_lookup.specs.Stacks.{all_layers};
ghost use Rattle.ovl_inode.specs.declared.marks.Mark.TheVariants.{DirPlain};
ghost use Rattle.ovl_inode.specs.Attributes.{origin_name};
ghost use Rattle.ovl_inode.specs.Marks as marks;
ghost use Rattle.ovl_layer.specs.Layers.{is_directory_at};
ghost use Rattle.ovl_layer.specs.Sheets.{path_at};
ghost use Rattle.ovl_board.specs.Pieces.{piece_in};
ghost use Rattle.ovl_check.specs.Checks.{layer_at};
ghost use Rattle.ovl_check.specs.Facts.{IsGathered, IsBelowOf, IsChildMarked, child_seen, held_in};

use crate::below::below_children;
use crate::marks::{attribute_is, has_attribute};
use crate::places::mark_in;
use ovl_board::Piece;
use ovl_inode::{Inode, Mark, is_directory, overlay};
use ovl_layer::Sheet;
use ovl_lookup::{DirView, OwnDirectory, PathRope, Stack};
use ovl_names::{Name, Path};
use std::alloc::{AllocError, Global};

/// An entry directly in a directory of a layer.
#[derive(Drop)]
pub(crate) struct Child<'a> {
    pub(crate) name: &'a Name,
    pub(crate) inode: &'a Inode,
    pub(crate) mark: &'a Mark,
}

/// A directory of a layer, gathered once for all that is in it.
#[derive(Drop)]
pub(crate) struct CheckedDirectory<'p, 'a> {
    pub(crate) path: &'p Path,
    pub(crate) inode: &'a Inode,
    pub(crate) mark: &'p Mark,
    // Whether its `opaque` says that it may hold marked whiteouts.
    pub(crate) is_marked: bool,
    // The path by which the layers below know it, where marks turn it from its own, and whether
    // they are hidden there.
    pub(crate) turned: Option<PathRope<'a>>,
    pub(crate) closed: bool,
    pub(crate) children: Vec<Child<'a>>,
    // The view of the layers below there, where they aren't hidden and an entry asks them.
    pub(crate) below: Option<DirView<'p>>,
}

/// The directory that layer `i` has at a path, and `None` where it has none; the mark of plain
/// directories is lent for the root, which counts as one.
pub(crate) fn directory_at<'p, 'a: 'p>(
    alloc: Global,
    stack: &'a Stack,
    i: usize,
    path: &'p Path,
    plain: &'p Mark,
) -> Result<Option<CheckedDirectory<'p, 'a>>, AllocError>
    requires inside { i < length (all_layers stack.now) }
    requires plain { plain.now ≡ DirPlain }
    ensures { IfOk result (λ found. MatchOption found
        (is_directory_at (layer_at stack.now i) path.now ≡ false)
        (λ directory. (directory.path.now ≡ path.now) × IsGathered (layer_at stack.now i) directory
        × IsBelowOf stack.now i directory)) }
{
    // Each of them is a layer.
    let _layers = stack.layers();
    let Some(own) = stack.own_directory(alloc, i, path)? else {
        return Ok(None);
    };
    let OwnDirectory {
        row,
        turned,
        closed,
    } = own;
    let sheet = stack.any_sheet(i);
    let inode = sheet.inode(row);
    let mark = mark_in(sheet, row, path, plain);
    let children = children_in(alloc, sheet, row)?;
    let below = below_children(alloc, stack, i, path, &turned, closed, &children)?;
    Ok(Some(CheckedDirectory {
        path,
        inode,
        mark,
        is_marked: attribute_is(inode, overlay::OPAQUE, b"x"),
        turned,
        closed,
        children,
        below,
    }))
}

// What a layer has directly below the row of a number, in one pass over the rows.
fn children_in(alloc: Global, sheet: &Sheet, row: u32) -> Result<Vec<Child<'_>>, AllocError>
    requires { row < length sheet.now }
    ensures seen { IfOk result
        (λ children. map child_seen children.items ≡ held_in sheet.now (path_at sheet.now row)) }
    ensures marks { IfOk result (λ children. All IsChildMarked children.items) }
{
    let rows = sheet.below(row);
    let mut children = Vec::with_capacity(alloc, rows.len())?;
    for (number, name) in rows {
        children.push(Child {
            name,
            inode: sheet.inode(number),
            mark: sheet.mark(number),
        })?;
    }
    Ok(children)
}

/// Whether one of these has `origin`.
pub(crate) fn hold_origin(children: &[Child<'_>]) -> bool
    ensures { result
        ≡ list_any (λ child. marks.has_attribute child.inode.now origin_name) children.now }
{
    children
        .iter()
        .any(|child| has_attribute(child.inode, overlay::ORIGIN))
}

/// The pieces of those entries of a piece's directory that are directories themselves.
pub(crate) fn kids_of(
    alloc: Global,
    piece: &Piece,
    children: &[Child<'_>],
) -> Result<Vec<Piece>, AllocError>
    ensures { IfOk result (λ kids. kids.items
        ≡ map (λ child. piece_in piece.now child.name.now)
        (filter (λ child. marks.is_directory child.inode.now) children.now)) }
{
    let directories = children.iter().filter(|child| is_directory(child.inode));
    piece.children(alloc, directories.map(|child| child.name))
}
