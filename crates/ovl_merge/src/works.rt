//! A stack as the work of a merge. It must not know how the new layer is put together.
ghost use Rattle.std.specs.Prelude.{◌≡◌, ◌↔◌, ◌<◌, Err, IfOk, IfErr, length};
ghost use Rattle.ovl_rewrite.specs.NewLayers.{TellsLayer};
ghost use Rattle.ovl_merge.specs.declared.faults.MergeFault.TheVariants.{NoLower};
ghost use Rattle.ovl_merge.specs.Places.{merge_of};
ghost use Rattle.ovl_merge.specs.MergeDown.{merged_entry};
ghost use Rattle.ovl_merge.specs.Directories.{entries_in, merge_kids, merge_out};
ghost use Rattle.ovl_merge.specs.Reckoned.{IsVisited};

use crate::MergeFault;
use crate::candidates::{candidates_in, hidden_names};
use crate::directories::Directory;
use crate::entries::inode_in;
use ovl_board::{Piece, Work};
use ovl_inode::{Inode, visible};
use ovl_lookup::Stack;
use ovl_names::{DEPTH_LIMIT, Name, Path};
use ovl_rewrite::{Rewrite, directories};
use std::alloc::{AllocError, Global};
use std::marker::Model;

/// A stack as work of merge, whose pieces are the directories of its new lower layer, from `/` of
/// space 0. The output of a directory is each name in it, in order, with its inode in the new
/// layer; its kids are those that are directories, but for what no manifest can hold. A kid has the
/// space of its piece.
#[derive(Drop)]
pub struct MergeWork<'a> {
    pub(crate) stack: &'a Stack,
}

impl<'a> Model for MergeWork<'a> {
    ghost use Rattle.std.specs.Prelude.{◌<◌, length};
    ghost use Rattle.ovl_lookup.specs.Stacks.{StackView};

    ghost Value = { StackView };

    ghost view = { λ a. a.stack.now };

    ghost invariant = { λ a. 1 < length a.stack.now.layers };
}

impl<'a> MergeWork<'a> {
    /// The work of this stack, whose visits give the new lower layer; refused exactly if it has one
    /// layer beside data-only ones.
    pub fn new(stack: &'a Stack) -> Result<MergeWork<'a>, MergeFault>
        ensures value { IfOk result (λ work. work ≡ stack.now) }
        ensures refused { (result ≡ Err NoLower) ↔ (length stack.now.layers ≡ 1) }
        ensures other { IfErr result (λ fault. fault ≡ NoLower) }
        ensures tells { IfOk result
            (λ _. TellsLayer (merged_entry (merge_of stack.now)) (merge_kids stack.now)
            (merge_out stack.now)) }
    {
        if stack.ordinary() == 1 {
            return Err(MergeFault::NoLower);
        }
        Ok(MergeWork { stack })
    }
}

impl<'a> Work for MergeWork<'a> {
    type Out = Vec<(Name, Inode)>;

    ghost use Rattle.std.specs.Prelude.{List};
    ghost use Rattle.ovl_rewrite.specs.Directories.{NamedInode, inodes_set, inodes_seen, visited_kids};
    ghost use Rattle.ovl_merge.specs.Directories.{merge_kids, merge_out, merge_depth};

    ghost Seen = { List NamedInode };

    ghost seen_set = { inodes_set };

    ghost seen = { inodes_seen };

    ghost kids_of = { λ stack. visited_kids (merge_kids stack) };

    ghost out_of = { merge_out };

    ghost deepest_of = { λ _. merge_depth };

    fn visit(
        &self,
        alloc: Global,
        piece: &Piece,
    ) -> Result<(Vec<Piece>, Vec<(Name, Inode)>), AllocError> {
        let inodes = inodes_at(alloc, self.stack, &piece.dir)?;
        let kids = directories(alloc, piece, &inodes)?;
        Ok((kids, inodes))
    }

    fn deepest(&self) -> u32 {
        // A directory of the new layer is one that two layers show together.
        let _layers = self.stack.ordinary();
        2 * DEPTH_LIMIT as u32
    }
}

impl<'a> Rewrite for MergeWork<'a> {
    ghost use Rattle.ovl_lookup.specs.Sound.{IsSoundStack};

    ghost new_of = { λ stack. merged_entry (merge_of stack) };

    ghost is_sound = { IsSoundStack };

    fn root(&self, alloc: Global) -> Result<Inode, AllocError> {
        // Each layer of a stack is one.
        let _layers = self.stack.ordinary();
        visible(alloc, self.stack.top().root().inode())
    }
}

// The names in a directory of the new layer, each with its inode; none where the two layers show no
// directory.
fn inodes_at(alloc: Global, stack: &Stack, dir: &Path) -> Result<Vec<(Name, Inode)>, AllocError>
    requires { 1 < length stack.now.layers }
    ensures { IfOk result (λ inodes. inodes.items ≡ entries_in (merge_of stack.now) dir.now) }
{
    // Each layer of a stack is one.
    let _layers = stack.ordinary();
    match Directory::at(alloc, stack, dir)? {
        Some(directory) => inodes_in(alloc, stack, &directory),
        None => Ok(Vec::new(alloc)),
    }
}

// The names in a directory of the new layer, which the two layers show, each with its inode.
fn inodes_in(
    alloc: Global,
    stack: &Stack,
    directory: &Directory<'_>,
) -> Result<Vec<(Name, Inode)>, AllocError>
    requires several { 1 < length stack.now.layers }
    requires visited { IsVisited stack.now directory.now.path directory.now }
    ensures { IfOk result
        (λ inodes. inodes.items ≡ entries_in (merge_of stack.now) directory.now.path) }
{
    let hidden = hidden_names(alloc, stack, directory)?;
    let candidates = candidates_in(alloc, stack, directory, &hidden)?;
    let mut whole = None;
    let mut inodes = Vec::with_capacity(alloc, candidates.len())?;
    for candidate in &candidates {
        if let Some(inode) = inode_in(alloc, stack, &mut whole, directory, candidate)? {
            inodes.push((candidate.name.copy(alloc)?, inode))?;
        }
    }
    Ok(inodes)
}
