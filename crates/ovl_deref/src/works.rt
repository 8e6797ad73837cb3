//! A stack as the work of its deref. It must not know how the new layer is put together.
ghost use Rattle.std.specs.Prelude.{◌≡◌};
ghost use Rattle.ovl_rewrite.specs.NewLayers.{TellsLayer};
ghost use Rattle.ovl_deref.specs.Directories.{new_at, deref_kids, deref_out};

use crate::directories::inodes_in;
use ovl_board::{Piece, Work};
use ovl_inode::Inode;
use ovl_lookup::Stack;
use ovl_names::{DEPTH_LIMIT, Name};
use ovl_rewrite::{Rewrite, directories};
use std::alloc::{AllocError, Global};
use std::marker::Model;

/// A stack as work of deref, whose pieces are the directories of its new topmost layer, from `/` of
/// space 0. The output of a directory is each name in it, in order, with its inode in the new
/// layer; its kids are those that are directories, but for what no manifest can hold. A kid has the
/// space of its piece.
#[derive(Drop)]
pub struct DerefWork<'a> {
    stack: &'a Stack,
}

impl<'a> Model for DerefWork<'a> {
    ghost use Rattle.ovl_lookup.specs.Stacks.{StackView};

    ghost Value = { StackView };

    ghost view = { λ a. a.stack.now };
}

impl<'a> DerefWork<'a> {
    /// The work of this stack; its visits give the new topmost layer.
    pub fn new(stack: &'a Stack) -> DerefWork<'a>
        ensures value { result ≡ stack.now }
        ensures tells { TellsLayer (new_at stack.now) (deref_kids stack.now) (deref_out stack.now) }
    {
        // Each layer of a stack is one.
        let _layers = stack.ordinary();
        DerefWork { stack }
    }
}

impl<'a> Work for DerefWork<'a> {
    type Out = Vec<(Name, Inode)>;

    ghost use Rattle.std.specs.Prelude.{List};
    ghost use Rattle.ovl_rewrite.specs.Directories.{NamedInode, inodes_set, inodes_seen, visited_kids};
    ghost use Rattle.ovl_deref.specs.Directories.{deref_kids, deref_out, deref_depth};

    ghost Seen = { List NamedInode };

    ghost seen_set = { inodes_set };

    ghost seen = { inodes_seen };

    ghost kids_of = { λ stack. visited_kids (deref_kids stack) };

    ghost out_of = { deref_out };

    ghost deepest_of = { deref_depth };

    fn visit(
        &self,
        alloc: Global,
        piece: &Piece,
    ) -> Result<(Vec<Piece>, Vec<(Name, Inode)>), AllocError> {
        let inodes = inodes_in(alloc, self.stack, &piece.dir)?;
        let kids = directories(alloc, piece, &inodes)?;
        Ok((kids, inodes))
    }

    fn deepest(&self) -> u32 {
        (DEPTH_LIMIT * self.stack.ordinary()) as u32
    }
}

impl<'a> Rewrite for DerefWork<'a> {
    ghost use Rattle.ovl_lookup.specs.Sound.{IsSoundStack};

    ghost new_of = { new_at };

    ghost is_sound = { IsSoundStack };

    fn root(&self, alloc: Global) -> Result<Inode, AllocError> {
        // Each layer of a stack is one.
        let _layers = self.stack.ordinary();
        self.stack.top().root().inode().copy(alloc)
    }
}
