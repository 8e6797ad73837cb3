//! A directory of the topmost layer: which of its entries change nothing.
ghost use Rattle.std.specs.Prelude.{◌≡◌, ◌<◌, [], length, unwrap_or, IfOk, IfSome, MatchOption};
ghost use Rattle.ovl_names.specs.Paths.{child_path};
ghost use Rattle.ovl_layer.specs.Layers.{names_below};
ghost use Rattle.ovl_layer.specs.Sheets.{path_at};
ghost use Rattle.ovl_inode.specs.Inodes.{visible as visible_inode};
ghost use Rattle.ovl_lookup.specs.declared.looks.Look.TheVariants.{Shown};
ghost use Rattle.ovl_lookup.specs.Merged.{look};
ghost use Rattle.ovl_lookup.specs.Equal.{look_eq};
ghost use Rattle.ovl_lookup.specs.DirViews.{IsViewOf};
ghost use Rattle.ovl_lookup.specs.Passes.{IsOwnDirectory};
ghost use Rattle.ovl_lookup.specs.Words.{top_layer};
ghost use Rattle.ovl_vacuum.specs.Vacuum.{may_be_idle as idle_mark};
ghost use Rattle.ovl_vacuum.specs.Directories.{is_idle_at, idle_name, vacuum_kids, vacuum_out};
ghost use Rattle.ovl_vacuum.specs.Visits.{IsTopDirectory, IsBelowTop, is_metacopy as metacopy_mark};

use ovl_board::Piece;
use ovl_inode::{Inode, Mark, is_directory, visible};
use ovl_lookup::{DirView, Look, OwnDirectory, PathRope, Stack};
use ovl_names::{Name, Path};
use std::alloc::{AllocError, Global};

/// A piece's directory in the topmost layer, sought once for all that is in it.
#[derive(Drop)]
pub(crate) struct TopDirectory<'a> {
    stack: &'a Stack,
    piece: &'a Piece,
    // The number of its row.
    row: u32,
    // The view of the layers below where its walk goes on; `None` where that is closed, or they
    // show no directory there.
    below: Option<DirView<'a>>,
}

impl<'a> TopDirectory<'a> {
    /// The directory that the topmost layer has at a piece's path, and `None` where it has none or
    /// nothing in it.
    pub(crate) fn of(
        alloc: Global,
        stack: &'a Stack,
        piece: &'a Piece,
    ) -> Result<Option<TopDirectory<'a>>, AllocError>
        ensures { IfOk result (λ found. MatchOption found
            (names_below (top_layer stack.now) piece.now.dir ≡ [])
            (IsTopDirectory stack.now piece.now)) }
    {
        let Some(own) = own_directory(alloc, stack, &piece.dir)? else {
            return Ok(None);
        };
        let OwnDirectory {
            row,
            turned,
            closed,
        } = own;
        if stack.top().below(row).is_empty() {
            return Ok(None);
        }
        let below = view_below(alloc, stack, &piece.dir, turned, closed)?;
        Ok(Some(TopDirectory {
            stack,
            piece,
            row,
            below,
        }))
    }

    /// The pieces of the directories in it, and the names in it, each with whether its entry is
    /// idle.
    pub(crate) fn told(&self, alloc: Global) -> Result<(Vec<Piece>, Vec<(Name, bool)>), AllocError>
        requires { IsTopDirectory self.now.stack.now self.now.piece.now self.now }
        ensures kids { IfOk result
            (λ told. told.0.items ≡ vacuum_kids self.now.stack.now self.now.piece.now) }
        ensures names { IfOk result
            (λ told. told.1.items ≡ vacuum_out self.now.stack.now self.now.piece.now) }
    {
        let kids = self.kids(alloc)?;
        let names = self.idle_names(alloc)?;
        Ok((kids, names))
    }

    // The pieces of the directories in it.
    fn kids(&self, alloc: Global) -> Result<Vec<Piece>, AllocError>
        requires { IsTopDirectory self.now.stack.now self.now.piece.now self.now }
        ensures { IfOk result
            (λ kids. kids.items ≡ vacuum_kids self.now.stack.now self.now.piece.now) }
    {
        let sheet = self.stack.top();
        let rows = sheet.below(self.row);
        let directories = rows.filter(|row| is_directory(sheet.inode(row.0)));
        self.piece.children(alloc, directories.map(|row| row.1))
    }

    // The names in it, each with whether its entry is idle.
    fn idle_names(&self, alloc: Global) -> Result<Vec<(Name, bool)>, AllocError>
        requires { IsTopDirectory self.now.stack.now self.now.piece.now self.now }
        ensures { IfOk result
            (λ names. names.items ≡ vacuum_out self.now.stack.now self.now.piece.now) }
    {
        let sheet = self.stack.top();
        let rows = sheet.below(self.row);
        // Its view in the merged tree, made where an entry needs it.
        let mut whole = None;
        let mut names = Vec::with_capacity(alloc, rows.len())?;
        for (row, name) in rows {
            names.push(self.idle_name(alloc, &mut whole, row, name)?)?;
        }
        Ok(names)
    }

    // A name in it, which is that of a row, with whether its entry is idle.
    fn idle_name(
        &self,
        alloc: Global,
        whole: &mut Option<DirView<'a>>,
        row: u32,
        name: &Name,
    ) -> Result<(Name, bool), AllocError>
        requires visited { IsTopDirectory self.now.stack.now self.now.piece.now self.now }
        requires whole { IfSome whole.old (IsViewOf self.now.stack.now 0 self.now.piece.now.dir) }
        requires inside { row < length (top_layer self.now.stack.now) }
        requires stands { path_at (top_layer self.now.stack.now) row
            ≡ child_path self.now.piece.now.dir name.now }
        ensures name { IfOk result (λ told. told
            ≡ idle_name self.now.stack.now self.now.piece.now.dir name.now) }
        ensures whole { IfSome whole.new (IsViewOf self.now.stack.now 0 self.now.piece.now.dir) }
    {
        let idle = self.is_idle(alloc, whole, row, name)?;
        Ok((name.copy(alloc)?, idle))
    }

    // Whether the entry of a row in it, which has this name, is idle.
    fn is_idle(
        &self,
        alloc: Global,
        whole: &mut Option<DirView<'a>>,
        row: u32,
        name: &Name,
    ) -> Result<bool, AllocError>
        requires visited { IsTopDirectory self.now.stack.now self.now.piece.now self.now }
        requires whole { IfSome whole.old (IsViewOf self.now.stack.now 0 self.now.piece.now.dir) }
        requires inside { row < length (top_layer self.now.stack.now) }
        requires stands { path_at (top_layer self.now.stack.now) row
            ≡ child_path self.now.piece.now.dir name.now }
        ensures idle { IfOk result (λ idle. idle
            ≡ is_idle_at self.now.stack.now (child_path self.now.piece.now.dir name.now)) }
        ensures whole { IfSome whole.new (IsViewOf self.now.stack.now 0 self.now.piece.now.dir) }
    {
        let sheet = self.stack.top();
        let Some(below) = &self.below else {
            return Ok(false);
        };
        let mark = sheet.mark(row);
        if !may_be_idle(mark) {
            return Ok(false);
        }
        let lower = below.look(alloc, self.stack, name)?;
        if is_metacopy(mark) {
            self.is_shown(alloc, whole, name, &lower)
        } else {
            is_visible(alloc, &lower, sheet.inode(row))
        }
    }

    // Whether `lower` is what the whole stack shows at a name in the directory.
    fn is_shown(
        &self,
        alloc: Global,
        whole: &mut Option<DirView<'a>>,
        name: &Name,
        lower: &Look,
    ) -> Result<bool, AllocError>
        requires { IfSome whole.old (IsViewOf self.now.stack.now 0 self.now.piece.now.dir) }
        ensures same { IfOk result (λ same. same ≡ look_eq lower.now
            (look self.now.stack.now (child_path self.now.piece.now.dir name.now))) }
        ensures whole { IfSome whole.new (IsViewOf self.now.stack.now 0 self.now.piece.now.dir) }
    {
        let shown = DirView::look_cached(alloc, self.stack, whole, &self.piece.dir, name)?;
        Ok(*lower == shown)
    }
}

// The directory that the topmost layer has at a path, with how its walk goes on, and `None` where
// it has none.
fn own_directory<'a>(
    alloc: Global,
    stack: &'a Stack,
    path: &Path,
) -> Result<Option<OwnDirectory<'a>>, AllocError>
    ensures { IfOk result (λ found. MatchOption found
        (names_below (top_layer stack.now) path.now ≡ [])
        (IsOwnDirectory (top_layer stack.now) path.now)) }
{
    // A stack has a topmost layer.
    let _top = stack.top();
    stack.own_directory(alloc, 0, path)
}

// The view of the layers below the topmost one at a path, or where marks turn that to, unless they
// are hidden there.
fn view_below<'a>(
    alloc: Global,
    stack: &'a Stack,
    path: &'a Path,
    turned: Option<PathRope<'a>>,
    closed: bool,
) -> Result<Option<DirView<'a>>, AllocError>
    ensures { IfOk result (IsBelowTop stack.now (unwrap_or turned.entry path.now) closed) }
{
    // A stack has a topmost layer.
    let _top = stack.top();
    if closed {
        return Ok(None);
    }
    match turned {
        Some(next) => DirView::at(alloc, stack, 1, next),
        None => DirView::of(alloc, stack, 1, path),
    }
}

// Whether `look` is what is shown of an inode that isn't a metacopy file.
fn is_visible(alloc: Global, look: &Look, inode: &Inode) -> Result<bool, AllocError>
    ensures { IfOk result (λ same. same ≡ look_eq look.now (Shown (visible_inode inode.now))) }
{
    match look {
        Look::Shown(shown) => Ok(*shown == visible(alloc, inode)?),
        Look::Nothing | Look::Broken(_) => Ok(false),
    }
}

// Whether an entry of this mark can change nothing.
fn may_be_idle(mark: &Mark) -> bool
    ensures { result ≡ idle_mark mark.now }
{
    match mark {
        Mark::Whiteout | Mark::DirOpaque | Mark::DirMoved(_) | Mark::DirBad => false,
        Mark::DirPlain | Mark::Meta(_) | Mark::MetaBad | Mark::Leaf => true,
    }
}

// Whether the mark is that of a metacopy file, whatever its redirect says.
fn is_metacopy(mark: &Mark) -> bool
    ensures { result ≡ metacopy_mark mark.now }
{
    matches!(mark, Mark::Meta(_) | Mark::MetaBad)
}
