//! What a work has to say of the layer that it makes. It must not know how that is put together.
ghost use Rattle.std.specs.Prelude.{IfOk, List, Vec};
ghost use Rattle.std.specs.Global.{Global};
ghost use Rattle.ovl_board.specs.declared.works.Parcel.{Parcel};
ghost use Rattle.ovl_board.specs.Pieces.{space_root};
ghost use Rattle.ovl_board.specs.Parcels.{IsPlain, parcel_views};
ghost use Rattle.ovl_rewrite.specs.Directories.{NamedInode, inodes_seen};
ghost use Rattle.ovl_rewrite.specs.Limits.{IsLayerWithinLimits};
ghost use Rattle.ovl_rewrite.specs.NewLayers.{NewLayer, IsToldWithin};

use ovl_board::Work;
use ovl_inode::Inode;
use ovl_names::Name;
use std::alloc::{AllocError, Global};

/// A work that makes a new layer. Its pieces are the directories of that layer, from `/` of space
/// 0: the output of one is each name in it, in order, with its inode, and its kids are those that
/// are directories, but for what no manifest can hold.
pub trait Rewrite: Work<Out = Vec<(Name, Inode)>> {
    /// What the new layer has at each path.
    ghost new_of: { Self → NewLayer };

    /// What the work is over is sound.
    ghost is_sound: { Self → Type 0 };

    /// The root of the new layer, which the plain walk gives with it. Fails only when out of
    /// memory.
    fn root(&self, alloc: Global) -> Result<Inode, AllocError>
        ensures told { IfOk result (λ root. (parcels : List (Parcel (Vec NamedInode Global)))
            → IsPlain (Self.kids_of self.now) (Self.out_of self.now) (space_root 0)
            (parcel_views Self.seen parcels)
            → IsToldWithin (new_of self.now) root (parcel_views inodes_seen parcels)) }
        ensures made { IfOk result
            (λ _. is_sound self.now → IsLayerWithinLimits (new_of self.now)) };
}
