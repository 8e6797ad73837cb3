//! Walks in one layer. They must not know other layers.
ghost use Rattle.std.specs.Prelude.{◌≡◌, ◌<◌, ◌++◌, [], false, Some, length, take, drop, unwrap_or, IfOk, MatchOption};
ghost use Rattle.ovl_names.specs.Names.{PathName};
ghost use Rattle.ovl_names.specs.Paths.{PathNames, child_path};
ghost use Rattle.ovl_inode.specs.Marks.{mark_of};
ghost use Rattle.ovl_layer.specs.Layers.{entry_at, is_directory_at};
ghost use Rattle.ovl_layer.specs.Sheets.{path_at};
ghost use Rattle.ovl_lookup.specs.NextLookups.{next_on, closed_on};
ghost use Rattle.ovl_lookup.specs.Passes.{IsDescent, IsArrival, IsOwnDirectory, IsOwnEntry, IsMarked, IsOwnMarked, step_of, own_step_of};
ghost use Rattle.ovl_lookup.specs.Walk as walks;

use crate::ropes::PathRope;
use ovl_inode::{Inode, Mark, Redirect, is_directory, is_whiteout};
use ovl_layer::{Sheet, SheetRow};
use ovl_names::{Name, Path};
use std::alloc::{AllocError, Global};

/// What a walk in one layer found, and where it goes on.
#[derive(Debug, Drop)]
pub struct Step {
    /// The inode at the path, as the layer has it; a whiteout isn't found.
    pub found: Option<Inode>,
    /// The path by which the layer below knows this one.
    pub next: Path,
    /// Whether the layers below are hidden there.
    pub closed: bool,
}

/// The walk of a path in one layer: what is found there, the path that goes on in the layer below,
/// and whether it is closed. A path may have any number of names. Fails only when out of memory.
/// overlayfs.rst: "whiteouts and opaque directories", "renaming directories", "Metadata only copy
/// up", "Data-only lower layers"; a redirect of one name, beside the old one, is this profile's.
///
/// Where the layers below have what one layer lets through at a path:
///
/// ```
/// let step = walk(alloc, sheet, path)?;
/// if step.closed {
///     return String::from_str(alloc, "nothing");
/// }
/// step.next.shown(alloc)
/// ```
pub fn walk(alloc: Global, sheet: &Sheet, path: &Path) -> Result<Step, AllocError>
    ensures { IfOk result (λ step. step ≡ walks.walk sheet.now path.now) }
{
    let step = follow(alloc, sheet, PathRope::of(alloc, &path.names())?)?;
    step.copied(alloc)
}

/// What a walk in one layer found, and where it goes on, with nothing copied.
#[derive(Debug, Drop)]
pub struct RopeStep<'a> {
    /// What the layer has at the path; a whiteout isn't found.
    pub found: Option<Found<'a>>,
    /// The path by which the layer below knows this one.
    pub next: PathRope<'a>,
    /// Whether the layers below are hidden there.
    pub closed: bool,
}

/// An inode of a layer, with its mark, which the layer keeps beside it.
#[derive(Debug, Drop)]
pub struct Found<'a> {
    /// The inode, as the layer has it.
    pub inode: &'a Inode,
    /// What the inode means to the overlay.
    pub mark: &'a Mark,
}

impl<'a> Found<'a> {
    /// What a layer has in the row of a number.
    pub fn in_row(sheet: &'a Sheet, number: u32) -> Found<'a>
        requires { number < length sheet.now }
        ensures value { entry_at sheet.now (path_at sheet.now number) ≡ Some result.inode.now }
        ensures marked { result.mark.now ≡ mark_of result.inode.now }
    {
        Found {
            inode: sheet.inode(number),
            mark: sheet.mark(number),
        }
    }
}

impl<'a> RopeStep<'a> {
    /// The step with an inode and a path of its own. Fails only when out of memory.
    pub fn copied(self, alloc: Global) -> Result<Step, AllocError>
        ensures { IfOk result (λ step. step ≡ step_of self.entry) }
    {
        let RopeStep {
            found,
            next,
            closed,
        } = self;
        let next = next.path(alloc)?;
        let found = match found {
            Some(found) => Some(found.inode.copy(alloc)?),
            None => None,
        };
        Ok(Step {
            found,
            next,
            closed,
        })
    }
}

/// The walk of a rope in one layer, see [`walk`], with nothing copied. Fails only when out of
/// memory.
pub fn follow<'a>(
    alloc: Global,
    sheet: &'a Sheet,
    rope: PathRope<'a>,
) -> Result<RopeStep<'a>, AllocError>
    ensures value { IfOk result (λ step. step_of step ≡ walks.walk sheet.now rope.entry) }
    ensures marked { IfOk result IsMarked }
{
    let OwnStep {
        found,
        turned,
        closed,
    } = OwnStep::at(alloc, sheet, &rope)?;
    Ok(RopeStep {
        found,
        next: turned.unwrap_or(rope),
        closed,
    })
}

/// What a walk in one layer found, and where it goes on if marks turn it from its own path.
#[derive(Debug, Drop)]
pub struct OwnStep<'a> {
    /// What the layer has at the path; a whiteout isn't found.
    pub found: Option<Found<'a>>,
    /// The path by which the layer below knows this one, where marks turn it from its own.
    pub turned: Option<PathRope<'a>>,
    /// Whether the layers below are hidden there.
    pub closed: bool,
}

impl<'a> OwnStep<'a> {
    /// The walk of a rope in one layer, see [`walk`]. Fails only when out of memory.
    pub fn at(
        alloc: Global,
        sheet: &'a Sheet,
        rope: &PathRope<'a>,
    ) -> Result<OwnStep<'a>, AllocError>
        ensures value { IfOk result
            (λ step. own_step_of rope.now step ≡ walks.walk sheet.now rope.now) }
        ensures marked { IfOk result IsOwnMarked }
    {
        let Descent { own, depth, number } = descend(alloc, sheet, rope)?;
        if depth == rope.len() {
            return Ok(own.step(sheet));
        }
        let Some(number) = number else {
            let closed = own.closed;
            return own.step_past(rope, depth, closed);
        };
        if depth + 1 < rope.len() {
            // What is no directory hides what the layers below have there.
            return own.step_past(rope, depth, true);
        }
        let entered = own.enter(alloc, sheet, number, depth)?;
        if is_whiteout(sheet.inode(number)) {
            return Ok(OwnStep {
                found: None,
                turned: entered.turned,
                closed: entered.closed,
            });
        }
        Ok(entered.step(sheet))
    }
}

// The rope with the path by which its first `depth` names are known one layer down in their place,
// if marks turn it.
fn past<'a>(
    turned: Option<PathRope<'a>>,
    rope: &PathRope<'a>,
    depth: usize,
) -> Result<Option<PathRope<'a>>, AllocError>
    ensures { IfOk result
        (λ next. unwrap_or next rope.now
        ≡ unwrap_or turned.entry (take depth rope.now) ++ drop depth rope.now) }
{
    match turned {
        Some(next) => Ok(Some(rope.redirected(next, depth)?)),
        None => Ok(None),
    }
}

/// A directory of one layer, and how its walk goes on.
#[derive(Debug, Drop)]
pub struct OwnDirectory<'a> {
    /// The number of its row in the layer's sheet.
    pub row: u32,
    /// The path by which the layer below knows it, where marks turn it from its own.
    pub turned: Option<PathRope<'a>>,
    /// Whether the layers below are hidden there.
    pub closed: bool,
}

impl<'a> OwnDirectory<'a> {
    // A walk that finds what is here.
    fn step(self, sheet: &'a Sheet) -> OwnStep<'a>
        requires { self.row < length sheet.now }
        ensures value { (path : PathNames) → own_step_of path result ≡ record {
          found = entry_at sheet.now (path_at sheet.now self.entry.row);
          next = unwrap_or self.entry.turned path;
          closed = self.entry.closed;
        } }
        ensures marked { IsOwnMarked result }
    {
        let OwnDirectory {
            row,
            turned,
            closed,
        } = self;
        OwnStep {
            found: Some(Found::in_row(sheet, row)),
            turned,
            closed,
        }
    }

    // A walk of a rope that finds nothing past this many names of it, which lead here.
    fn step_past(
        self,
        rope: &PathRope<'a>,
        depth: usize,
        closed: bool,
    ) -> Result<OwnStep<'a>, AllocError>
        ensures value { IfOk result (λ step. own_step_of rope.now step ≡ walks.nothing_found
            (unwrap_or self.entry.turned (take depth rope.now) ++ drop depth rope.now)
            closed) }
        ensures marked { IfOk result IsOwnMarked }
    {
        Ok(OwnStep {
            found: None,
            turned: past(self.turned, rope, depth)?,
            closed,
        })
    }

    // The walk one name further: from this directory, whose path has `depth` names, to a row
    // directly in it, of a directory or of something else.
    fn enter(
        self,
        alloc: Global,
        sheet: &'a Sheet,
        number: u32,
        depth: usize,
    ) -> Result<OwnDirectory<'a>, AllocError>
        requires inside { self.row < length sheet.now }
        requires number { number < length sheet.now }
        requires depth { depth ≡ length (path_at sheet.now self.row) }
        ensures { IfOk result
            (λ entered. (path : PathNames) (name : PathName)
            → IsOwnDirectory sheet.now path self.entry
            → path_at sheet.now number ≡ child_path path name
            → IsOwnEntry sheet.now (child_path path name) entered) }
    {
        // Each sheet is a layer.
        let _root = sheet.root_number();
        let Some(name) = sheet.name(number) else {
            // Only the root has no name.
            return Ok(self);
        };
        let (turned, closed) = self.turned_by(alloc, sheet, sheet.mark(number), name, depth)?;
        Ok(OwnDirectory {
            row: number,
            turned,
            closed,
        })
    }

    // How the walk goes on at an entry of this mark and name in this directory, which lies so deep.
    fn turned_by(
        self,
        alloc: Global,
        sheet: &'a Sheet,
        mark: &'a Mark,
        name: &'a Name,
        depth: usize,
    ) -> Result<(Option<PathRope<'a>>, bool), AllocError>
        requires inside { self.row < length sheet.now }
        requires depth { depth ≡ length (path_at sheet.now self.row) }
        ensures next { IfOk result
            (λ entered. unwrap_or entered.0 (child_path (path_at sheet.now self.entry.row) name.now)
            ≡ next_on mark.now
            (unwrap_or self.entry.turned (path_at sheet.now self.entry.row)) name.now) }
        ensures closed { IfOk result
            (λ entered. entered.1 ≡ closed_on mark.now name.now self.entry.closed) }
    {
        let OwnDirectory {
            row,
            turned,
            closed,
        } = self;
        match mark {
            Mark::DirMoved(Redirect::To(origin)) | Mark::Meta(Some(Redirect::To(origin))) => {
                Ok((Some(PathRope::of(alloc, &origin.names())?), false))
            }
            Mark::DirMoved(Redirect::Beside(own)) | Mark::Meta(Some(Redirect::Beside(own))) => {
                let next = turned_or_own(alloc, sheet, turned, row, depth)?;
                Ok((Some(next.child(own.as_str())?), closed))
            }
            Mark::DirPlain | Mark::Meta(None) => Ok((turned_child(turned, name)?, closed)),
            Mark::Whiteout | Mark::DirOpaque | Mark::DirBad | Mark::MetaBad | Mark::Leaf => {
                Ok((turned_child(turned, name)?, true))
            }
        }
    }
}

// The path of the entry `name` in a directory that is known by this path, if marks turn it.
fn turned_child<'a>(
    turned: Option<PathRope<'a>>,
    name: &'a Name,
) -> Result<Option<PathRope<'a>>, AllocError>
    ensures { (dir : PathNames)
        → IfOk result
        (λ child. unwrap_or child (child_path dir name.now)
        ≡ child_path (unwrap_or turned.entry dir) name.now) }
{
    match turned {
        Some(next) => Ok(Some(next.child(name.as_str())?)),
        None => Ok(None),
    }
}

// The path by which the layer below knows the directory of a row, which lies so deep.
fn turned_or_own<'a>(
    alloc: Global,
    sheet: &'a Sheet,
    turned: Option<PathRope<'a>>,
    row: u32,
    depth: usize,
) -> Result<PathRope<'a>, AllocError>
    requires inside { row < length sheet.now }
    requires depth { depth ≡ length (path_at sheet.now row) }
    ensures { IfOk result (λ next. next ≡ unwrap_or turned.entry (path_at sheet.now row)) }
{
    match turned {
        Some(next) => Ok(next),
        None => rope_of_row(alloc, sheet, row, depth),
    }
}

// The path of a row, which lies so deep, in names that the layer holds. A call for each name.
fn rope_of_row<'a>(
    alloc: Global,
    sheet: &'a Sheet,
    row: u32,
    depth: usize,
) -> Result<PathRope<'a>, AllocError>
    requires inside { row < length sheet.now }
    requires depth { depth ≡ length (path_at sheet.now row) }
    ensures { IfOk result (λ rope. rope ≡ path_at sheet.now row) }
{
    if depth == 0 {
        return Ok(PathRope::root(alloc));
    }
    let Some(SheetRow { name, parent, .. }) = sheet.row(row) else {
        return Ok(PathRope::root(alloc));
    };
    let Some(name) = name else {
        // Only the root has no name.
        return Ok(PathRope::root(alloc));
    };
    rope_of_row(alloc, sheet, *parent, depth - 1)?.child(name.as_str())
}

/// How far a path goes through directories of a layer: the last of them, how many names lead to it,
/// and the number of what the layer has at the next name, if it has anything.
#[derive(Drop)]
pub(crate) struct Descent<'a> {
    pub(crate) own: OwnDirectory<'a>,
    pub(crate) depth: usize,
    pub(crate) number: Option<u32>,
}

/// How far a path goes through directories. No name is kept while no mark turns the path.
pub(crate) fn descend<'a>(
    alloc: Global,
    sheet: &'a Sheet,
    rope: &PathRope<'_>,
) -> Result<Descent<'a>, AllocError>
    ensures { IfOk result (λ descent. IsDescent sheet.now rope.now descent) }
{
    let mut own = OwnDirectory {
        row: sheet.root_number(),
        turned: None,
        closed: false,
    };
    let mut depth = 0;
    for name in rope.names() {
        let number = sheet.child(own.row, name);
        let Some(child) = number else {
            return Ok(Descent { own, depth, number });
        };
        if own.turned.is_none() && matches!(sheet.mark(child), Mark::DirPlain) {
            // The layer below knows it by its own path, as it does the directory above.
            own.row = child;
            depth += 1;
            continue;
        }
        if !is_directory(sheet.inode(child)) {
            return Ok(Descent { own, depth, number });
        }
        own = own.enter(alloc, sheet, child, depth)?;
        depth += 1;
    }
    let number = None;
    Ok(Descent { own, depth, number })
}

/// The directory that a layer has at a path.
pub(crate) fn directory_in<'a>(
    alloc: Global,
    sheet: &'a Sheet,
    path: &Path,
) -> Result<Option<OwnDirectory<'a>>, AllocError>
    ensures { IfOk result (λ found. MatchOption found
        (is_directory_at sheet.now path.now ≡ false)
        (IsOwnDirectory sheet.now path.now)) }
{
    let rope = PathRope::of(alloc, &path.names())?;
    let Descent { own, depth, .. } = descend(alloc, sheet, &rope)?;
    if depth < rope.len() {
        return Ok(None);
    }
    Ok(Some(own))
}

/// Where the walk of a path leads in one layer.
#[derive(Debug, Drop)]
pub struct Arrival<'a> {
    /// The number of the row of its directory, if the layer has one there.
    pub row: Option<u32>,
    /// The path by which the layer below knows it.
    pub next: PathRope<'a>,
    /// Whether the layers below are hidden there, and at every path below it.
    pub closed: bool,
}

impl<'a> Arrival<'a> {
    /// Where the walk of a rope leads. Fails only when out of memory.
    pub fn at(
        alloc: Global,
        sheet: &'a Sheet,
        rope: PathRope<'a>,
    ) -> Result<Arrival<'a>, AllocError>
        ensures { IfOk result (IsArrival sheet.now rope.entry) }
    {
        let Descent { own, depth, number } = descend(alloc, sheet, &rope)?;
        let OwnDirectory {
            row,
            turned,
            closed,
        } = own;
        if depth == rope.len() {
            return Ok(Arrival {
                row: Some(row),
                next: turned.unwrap_or(rope),
                closed,
            });
        }
        let next = past(turned, &rope, depth)?.unwrap_or(rope);
        Ok(Arrival {
            row: None,
            next,
            closed: closed || number.is_some(),
        })
    }
}
