//! The layers of a merge, by the walk of its work.
ghost use Rattle.std.specs.Prelude.{◌≡◌, ◌<◌, Err, IfOk, length};
ghost use Rattle.std.specs.List.{All};
ghost use Rattle.ovl_layer.specs.Layers.{IsLayer};
ghost use Rattle.ovl_lookup.specs.Stacks.{StackView};
ghost use Rattle.ovl_lookup.specs.Sound.{IsSoundStack};
ghost use Rattle.ovl_board.specs.Parcels.{parcel_views};
ghost use Rattle.ovl_rewrite.specs.Directories.{inodes_seen};
ghost use Rattle.ovl_merge.specs.declared.faults.MergeFault.TheVariants.{NoLower, LimitOut};
ghost use Rattle.ovl_merge.specs.Places.{merge_of};
ghost use Rattle.ovl_merge.specs.MergeDown.{merged_top, IsMergedDown};
ghost use Rattle.ovl_merge.specs.Directories.{IsMergeWalk};
ghost use Rattle.ovl_merge.specs.Limits.{PassesMergeLimit};

use crate::{MergeFault, MergeWork};
use ovl_board::Parcel;
use ovl_inode::Inode;
use ovl_layer::{Layer, SubtreeBuilder};
use ovl_names::Name;
use ovl_rewrite::RewriteEnd;
use std::alloc::{AllocError, Global};

/// The layers that a merge makes of the two topmost ones of a stack.
#[derive(Drop)]
pub struct MergeDone {
    /// The new topmost layer, which has only the visible root of the old one.
    pub top: Layer,
    /// The new layer below it: what both old ones have over the rest of the stack.
    pub lower: Layer,
}

impl MergeDone {
    /// The layers of a merge that makes this lower one: the topmost has only its root. Fails only
    /// when out of memory.
    pub fn over(alloc: Global, lower: Layer) -> Result<MergeDone, AllocError>
        ensures top { IfOk result (λ done. (stack : StackView) → 1 < length stack.layers
            → All IsLayer stack.layers → IsMergedDown (merge_of stack) lower
            → done.top ≡ merged_top (merge_of stack)) }
        ensures lower { IfOk result (λ done. done.lower ≡ lower) }
    {
        let root = lower.root().inode().copy(alloc)?;
        match SubtreeBuilder::none(alloc).under(root) {
            Some(top) => Ok(MergeDone { top, lower }),
            // The root of a layer is one by itself.
            None => unreachable!(),
        }
    }
}

/// The two topmost layers as one, below a topmost layer that has only its root. The parcels are the
/// plain walk of the work from `/` of space 0. Over a sound stack it is refused, unless memory runs
/// out, exactly if the new lower layer passes a limit of manifests.
///
/// By one thread:
///
/// ```
/// let work = MergeWork::new(stack)?;
/// let parcels = plain_walk(alloc, &work, Piece::root(alloc, 0))?;
/// Ok(finish_merge(alloc, &work, parcels)?)
/// ```
pub fn finish_merge(
    alloc: Global,
    work: &MergeWork<'_>,
    parcels: Vec<Parcel<Vec<(Name, Inode)>>>,
) -> Result<MergeDone, MergeFault>
    requires { IsMergeWalk work.now (parcel_views inodes_seen parcels.items) }
    ensures top { IfOk result (λ done. done.top ≡ merged_top (merge_of work.now)) }
    ensures lower { IfOk result (λ done. IsMergedDown (merge_of work.now) done.lower) }
    ensures kept { IfOk result (λ _. PassesMergeLimit (merge_of work.now) → ⊥) }
    ensures limit { IsSoundStack work.now → result ≡ Err LimitOut
        → PassesMergeLimit (merge_of work.now) }
    ensures two { result ≡ Err NoLower → ⊥ }
{
    // Each layer of a stack is one.
    let _layers = work.stack.ordinary();
    let lower = RewriteEnd::of(alloc, work, parcels)?.finish(alloc)?;
    Ok(MergeDone::over(alloc, lower)?)
}
