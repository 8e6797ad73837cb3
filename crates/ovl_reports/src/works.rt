//! The merged tree as work. It must not know who runs it.
ghost use Rattle.std.specs.Prelude.{◌≡◌, ◌<◌, [], IfOk, All, length};
ghost use Rattle.ovl_layer.specs.Layers.{IsLayer};
ghost use Rattle.ovl_lookup.specs.Merged as merged;
ghost use Rattle.ovl_reports.specs.Directories.{HasAllNames, looks_in};
ghost use Rattle.ovl_reports.specs.Directories as directories;

use ovl_board::{Piece, Work};
use ovl_lookup::{DirView, Look, Stack};
use ovl_names::{DEPTH_LIMIT, Name, Path};
use std::alloc::{AllocError, Global};
use std::marker::Model;

/// The merged tree of a stack as work, whose pieces are its directories, from `/` of space 0. The
/// output of a directory is each name in it, in order, with what is shown there; its kids are those
/// that are directories. A kid has the space of its piece. overlayfs.rst: "Directories", "readdir".
#[derive(Drop)]
pub struct ShowWork<'a> {
    stack: &'a Stack,
}

impl<'a> Model for ShowWork<'a> {
    ghost use Rattle.ovl_lookup.specs.Stacks.{StackView};

    ghost Value = { StackView };

    ghost view = { λ a. a.stack.now };
}

impl<'a> ShowWork<'a> {
    /// The work of this stack.
    pub fn new(stack: &'a Stack) -> ShowWork<'a>
        ensures value { result ≡ stack.now }
        ensures names { HasAllNames stack.now }
    {
        let _layers = stack.ordinary();
        ShowWork { stack }
    }

    /// What is shown at `/`, of a stack of 1 to 128 layers.
    pub fn root_look(&self, alloc: Global) -> Result<Look, AllocError>
        ensures value { IfOk result (λ look. look ≡ merged.look self.now []) }
        ensures some { 0 < length self.now.layers }
        ensures each { All IsLayer self.now.layers }
    {
        let _layers = self.stack.ordinary();
        self.stack.look(alloc, 0, &Path::root(alloc))
    }
}

impl<'a> Work for ShowWork<'a> {
    type Out = Vec<(Name, Look)>;

    ghost use Rattle.std.specs.Prelude.{List};
    ghost use Rattle.ovl_reports.specs.Directories.{NamedLook, looks_set, show_kids, show_out, show_depth};

    ghost Seen = { List NamedLook };

    ghost seen_set = { looks_set };

    ghost seen = { λ looks. looks.items };

    ghost kids_of = { show_kids };

    ghost out_of = { show_out };

    ghost deepest_of = { show_depth };

    fn visit(
        &self,
        alloc: Global,
        piece: &Piece,
    ) -> Result<(Vec<Piece>, Vec<(Name, Look)>), AllocError> {
        let looks = looks_at(alloc, self.stack, &piece.dir)?;
        let kids = directories_in(alloc, piece, &looks)?;
        Ok((kids, looks))
    }

    fn deepest(&self) -> u32 {
        (DEPTH_LIMIT * self.stack.ordinary()) as u32
    }
}

// What a directory of the merged tree shows: each name in it with what is shown there; none where
// no directory is shown.
fn looks_at(alloc: Global, stack: &Stack, dir: &Path) -> Result<Vec<(Name, Look)>, AllocError>
    ensures { IfOk result (λ looks. looks.items ≡ looks_in stack.now dir.now) }
{
    let _layers = stack.ordinary();
    let Some(view) = DirView::of(alloc, stack, 0, dir)? else {
        return Ok(Vec::new(alloc));
    };
    let looks = view.looks(alloc, stack)?;
    Ok(looks)
}

// The entries of a piece's directory that are directories, as pieces.
fn directories_in(
    alloc: Global,
    piece: &Piece,
    looks: &[(Name, Look)],
) -> Result<Vec<Piece>, AllocError>
    ensures { IfOk result (λ kids. kids.items ≡ directories.directories_in piece.now looks.now) }
{
    let directories = looks.iter().filter(|entry| entry.1.is_shown_directory());
    piece.children(alloc, directories.map(|entry| &entry.0))
}
