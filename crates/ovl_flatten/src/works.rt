//! A stack as the work of its flatten. It must not know how the new layer is put together.
ghost use Rattle.std.specs.Prelude.{◌≡◌};
ghost use Rattle.ovl_rewrite.specs.NewLayers.{TellsLayer};
ghost use Rattle.ovl_flatten.specs.Flatten.{flattened_at};
ghost use Rattle.ovl_flatten.specs.Directories.{flatten_kids, flatten_out};

use ovl_board::{Piece, Work};
use ovl_inode::{Inode, visible};
use ovl_lookup::{Stack, shown_inodes};
use ovl_names::{DEPTH_LIMIT, Name};
use ovl_rewrite::{Rewrite, directories};
use std::alloc::{AllocError, Global};
use std::marker::Model;

/// A stack as work of flatten, whose pieces are the directories of its merged tree, from `/` of
/// space 0. The output of a directory is each name in it, in order, with the inode that is shown
/// there; its kids are those that are directories, but for what no manifest can hold. A kid has the
/// space of its piece.
#[derive(Drop)]
pub struct FlattenWork<'a> {
    stack: &'a Stack,
}

impl<'a> Model for FlattenWork<'a> {
    ghost use Rattle.ovl_lookup.specs.Stacks.{StackView};

    ghost Value = { StackView };

    ghost view = { λ a. a.stack.now };
}

impl<'a> FlattenWork<'a> {
    /// The work of this stack; its visits give the flattened layer.
    pub fn new(stack: &'a Stack) -> FlattenWork<'a>
        ensures value { result ≡ stack.now }
        ensures tells { TellsLayer (flattened_at stack.now) (flatten_kids stack.now)
            (flatten_out stack.now) }
    {
        // Each layer of a stack is one.
        let _layers = stack.ordinary();
        FlattenWork { stack }
    }
}

impl<'a> Work for FlattenWork<'a> {
    type Out = Vec<(Name, Inode)>;

    ghost use Rattle.std.specs.Prelude.{List};
    ghost use Rattle.ovl_rewrite.specs.Directories.{NamedInode, inodes_set, inodes_seen, visited_kids};
    ghost use Rattle.ovl_flatten.specs.Directories.{flatten_kids, flatten_out, flatten_depth};

    ghost Seen = { List NamedInode };

    ghost seen_set = { inodes_set };

    ghost seen = { inodes_seen };

    ghost kids_of = { λ stack. visited_kids (flatten_kids stack) };

    ghost out_of = { flatten_out };

    ghost deepest_of = { flatten_depth };

    fn visit(
        &self,
        alloc: Global,
        piece: &Piece,
    ) -> Result<(Vec<Piece>, Vec<(Name, Inode)>), AllocError> {
        let inodes = shown_inodes(alloc, self.stack, &piece.dir)?;
        let kids = directories(alloc, piece, &inodes)?;
        Ok((kids, inodes))
    }

    fn deepest(&self) -> u32 {
        (DEPTH_LIMIT * self.stack.ordinary()) as u32
    }
}

impl<'a> Rewrite for FlattenWork<'a> {
    ghost use Rattle.ovl_lookup.specs.Sound.{IsSoundStack};

    ghost new_of = { flattened_at };

    ghost is_sound = { IsSoundStack };

    fn root(&self, alloc: Global) -> Result<Inode, AllocError> {
        // Each layer of a stack is one.
        let _layers = self.stack.ordinary();
        visible(alloc, self.stack.top().root().inode())
    }
}
