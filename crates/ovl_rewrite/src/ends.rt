//! The end of a work that makes a new layer, by what its walk put out. It must not know what the
//! work is over.
ghost use Rattle.std.specs.Prelude.{◌≡◌, Err, IfOk};
ghost use Rattle.std.specs.List.{count_by, list_any};
ghost use Rattle.ovl_inode.specs.Marks as marks;
ghost use Rattle.ovl_layer.specs.Layers.{IsLayer};
ghost use Rattle.ovl_board.specs.Pieces.{space_root};
ghost use Rattle.ovl_board.specs.Parcels.{IsPlain, parcel_view, parcel_views};
ghost use Rattle.ovl_rewrite.specs.declared.faults.RewriteFault.TheVariants.{LimitOut};
ghost use Rattle.ovl_rewrite.specs.Directories.{inodes_seen};
ghost use Rattle.ovl_rewrite.specs.Ends.{IsEndOf};
ghost use Rattle.ovl_rewrite.specs.Limits.{IsLayerWithinLimits, PassesLimits};
ghost use Rattle.ovl_rewrite.specs.NewLayers.{NewLayer, IsOf};
ghost use Rattle.ovl_rewrite.specs.NewLayers as new_layers;

use crate::layers::layer_told;
use crate::{Rewrite, RewriteFault};
use ovl_board::Parcel;
use ovl_inode::{Inode, is_directory};
use ovl_layer::Layer;
use ovl_names::Name;
use std::alloc::{AllocError, Global};

/// What a new layer is made of once its work is walked: its root, and what the walk put out. What
/// the work is over needn't stay for it.
#[derive(Drop)]
pub struct RewriteEnd {
    root: Inode,
    parcels: Vec<Parcel<Vec<(Name, Inode)>>>,
}

impl RewriteEnd {
    /// The end of a work whose plain walk from `/` of space 0 gave these parcels. Fails only when
    /// out of memory.
    pub fn of<W: Rewrite>(
        alloc: Global,
        work: &W,
        parcels: Vec<Parcel<Vec<(Name, Inode)>>>,
    ) -> Result<RewriteEnd, AllocError>
        requires { IsPlain (W.kids_of work.now) (W.out_of work.now) (space_root 0)
            (parcel_views W.seen parcels.items) }
        ensures told { IfOk result (IsEndOf (W.new_of work.now)) }
        ensures made { IfOk result
            (λ _. W.is_sound work.now → IsLayerWithinLimits (W.new_of work.now)) }
    {
        let root = work.root(alloc)?;
        Ok(RewriteEnd { root, parcels })
    }

    /// The new layer. `LimitOut` comes only if it passes a limit of manifests, or its entries are no
    /// layer; at once if a directory was left out of the walk.
    pub fn finish(self, alloc: Global) -> Result<Layer, RewriteFault>
        ensures is { IfOk result (λ layer. IsLayer layer) }
        ensures layer { IfOk result
            (λ layer. (new : NewLayer) → IsEndOf new self → IsOf new layer) }
        ensures kept { IfOk result
            (λ _. (new : NewLayer) → IsEndOf new self → PassesLimits new → ⊥) }
        ensures limit { result ≡ Err LimitOut → (new : NewLayer) → IsEndOf new self
            → IsLayerWithinLimits new → PassesLimits new }
    {
        let RewriteEnd { root, parcels } = self;
        if is_any_left_out(&parcels) {
            return Err(RewriteFault::LimitOut);
        }
        layer_told(alloc, root, parcels)
    }
}

// Whether something was left out of the walk that gave these parcels.
fn is_any_left_out(parcels: &[Parcel<Vec<(Name, Inode)>>]) -> bool
    ensures { result ≡ list_any new_layers.leaves_out (parcel_views inodes_seen parcels.now) }
{
    parcels.iter().any(|parcel| leaves_out(parcel))
}

// Whether a directory was left out at the directory of this one: not each is among its kids.
fn leaves_out(parcel: &Parcel<Vec<(Name, Inode)>>) -> bool
    ensures { result ≡ new_layers.leaves_out (parcel_view inodes_seen parcel.now) }
{
    parcel.kids.len() != directory_count(&parcel.out)
}

fn directory_count(inodes: &[(Name, Inode)]) -> usize
    ensures { result ≡ count_by (λ entry. marks.is_directory entry.1) inodes.now }
{
    inodes.iter().filter(|entry| is_directory(&entry.1)).count()
}
