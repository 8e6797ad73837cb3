//! Walks of one directory, and of names in it, in one of the two layers.
ghost use Rattle.std.specs.Prelude.{◌≡◌, ◌<◌, ℕ, Option, None, length, is_some, IfOk, IfSome};
ghost use Rattle.std.specs.Option.{option_map};
ghost use Rattle.ovl_names.specs.Paths.{PathNames, child_path};
ghost use Rattle.ovl_merge.specs.Stands.{IsStand, StandsAt, IsRowAt, IsThing, IsNameWalk, name_on, next_lookup_to};

use ovl_inode::Mark;
use ovl_layer::Sheet;
use ovl_lookup::{Arrival, Found, NextLookup, PathRope};
use ovl_names::Name;
use std::alloc::{AllocError, Global};

/// Where the walk of a directory's path is in a layer.
#[derive(Drop)]
pub(crate) struct Stand<'a> {
    // The number of its row, if the layer has the directory; else nothing is found at any name in
    // it.
    pub(crate) row: Option<u32>,
    // The path by which the layer below knows the directory, unless it is hidden there.
    next: Option<PathRope<'a>>,
}

/// How the walk of a name in a directory ends in a layer, with nothing copied.
#[derive(Drop)]
pub(crate) struct NameWalk<'a> {
    pub(crate) found: Option<Found<'a>>,
    pub(crate) next_lookup: NextLookup<'a>,
}

impl<'a> Stand<'a> {
    /// The stand of a path in a layer.
    pub(crate) fn at(
        alloc: Global,
        sheet: &'a Sheet,
        rope: PathRope<'a>,
    ) -> Result<Stand<'a>, AllocError>
        ensures { IfOk result (IsStand sheet.now rope.entry) }
    {
        // Each sheet is a layer.
        let _root = sheet.root_number();
        let Arrival { row, next, closed } = Arrival::at(alloc, sheet, rope)?;
        if closed {
            return Ok(Stand { row, next: None });
        }
        Ok(Stand {
            row,
            next: Some(next),
        })
    }

    /// Whether the layer has the directory.
    pub(crate) fn is_inside(&self) -> bool
        ensures { result ≡ is_some self.now.row }
    {
        self.row.is_some()
    }

    /// The path by which the layer below knows the directory, unless it is hidden there.
    pub(crate) fn next_lookup(&self) -> Option<&PathRope<'a>>
        ensures { option_map (λ path. path.now) result ≡ self.now.next }
    {
        self.next.as_ref()
    }
}

/// How the walk of a name ends in the directory of a row, if the layer has that.
pub(crate) fn name_walk_in<'a>(
    sheet: &'a Sheet,
    directory: Option<u32>,
    name: &'a Name,
) -> NameWalk<'a>
    requires { IfSome directory (λ row. row < length sheet.now) }
    ensures { (path : PathNames) (next : Option PathNames) → StandsAt sheet.now path directory next
        → IsNameWalk sheet.now (child_path path name.now) next result }
{
    name_walk_at(sheet, name, row_in(sheet, directory, name))
}

// The number of the row that the layer has by a name in a directory, if it has one.
fn row_in(sheet: &Sheet, directory: Option<u32>, name: &Name) -> Option<u32>
    requires { IfSome directory (λ row. row < length sheet.now) }
    ensures inside { IfSome result (λ row. row < length sheet.now) }
    ensures row { (path : PathNames) (next : Option PathNames)
        → StandsAt sheet.now path directory next
        → IsRowAt sheet.now (child_path path name.now) result }
{
    match directory {
        Some(directory) => sheet.child(directory, name.as_str()),
        None => None,
    }
}

/// How the walk of a name in a directory ends, by the number of the row that the layer has by it
/// there, if it has one.
pub(crate) fn name_walk_at<'a>(sheet: &'a Sheet, name: &'a Name, row: Option<u32>) -> NameWalk<'a>
    requires { IfSome row (λ row. row < length sheet.now) }
    ensures { (path : PathNames) → IsRowAt sheet.now (child_path path name.now) row
        → (directory : Option ℕ) (next : Option PathNames) → StandsAt sheet.now path directory next
        → IsNameWalk sheet.now (child_path path name.now) next result }
{
    match row {
        Some(row) => thing_at(sheet, row, name),
        None => nothing_at(name),
    }
}

// The walk's end at a name that the layer doesn't have.
fn nothing_at(name: &Name) -> NameWalk<'_>
    ensures found { result.found ≡ None }
    ensures next_lookup { (next : Option PathNames)
        → next_lookup_to next result.next_lookup ≡ name_on next name.now }
{
    NameWalk {
        found: None,
        next_lookup: NextLookup::Beside(name),
    }
}

// The walk's end at what the layer has by this name in the row of a number.
fn thing_at<'a>(sheet: &'a Sheet, row: u32, name: &'a Name) -> NameWalk<'a>
    requires { row < length sheet.now }
    ensures { IsThing sheet.now row name.now result }
{
    let (inode, mark) = (sheet.inode(row), sheet.mark(row));
    let next_lookup = NextLookup::of(mark, name);
    if matches!(mark, Mark::Whiteout) {
        return NameWalk {
            found: None,
            next_lookup,
        };
    }
    NameWalk {
        found: Some(Found { inode, mark }),
        next_lookup,
    }
}
