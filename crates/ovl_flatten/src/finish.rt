//! The flattened layer, by the walk of its work.
ghost use Rattle.std.specs.Prelude.{◌≡◌, Err, IfOk};
ghost use Rattle.ovl_layer.specs.Layers.{IsLayer};
ghost use Rattle.ovl_lookup.specs.Sound.{IsSoundStack};
ghost use Rattle.ovl_board.specs.Parcels.{parcel_views};
ghost use Rattle.ovl_rewrite.specs.declared.faults.RewriteFault.TheVariants.{LimitOut};
ghost use Rattle.ovl_rewrite.specs.Directories.{inodes_seen};
ghost use Rattle.ovl_flatten.specs.Flatten.{IsFlattened};
ghost use Rattle.ovl_flatten.specs.Directories.{IsFlattenWalk};
ghost use Rattle.ovl_flatten.specs.Limits.{PassesFlattenLimit};

use crate::works::FlattenWork;
use ovl_board::Parcel;
use ovl_inode::Inode;
use ovl_layer::Layer;
use ovl_names::Name;
use ovl_rewrite::{RewriteEnd, RewriteFault};
use std::alloc::Global;

/// What the stack shows, as one layer. The parcels are the plain walk of the work from `/` of space
/// 0. Over a sound stack it is refused, unless memory runs out, exactly if that layer passes a
/// limit of manifests.
///
/// By one thread:
///
/// ```
/// let work = FlattenWork::new(stack);
/// let parcels = plain_walk(alloc, &work, Piece::root(alloc, 0))?;
/// Ok(finish_flatten(alloc, &work, parcels)?)
/// ```
pub fn finish_flatten(
    alloc: Global,
    work: &FlattenWork<'_>,
    parcels: Vec<Parcel<Vec<(Name, Inode)>>>,
) -> Result<Layer, RewriteFault>
    requires { IsFlattenWalk work.now (parcel_views inodes_seen parcels.items) }
    ensures is { IfOk result (λ layer. IsLayer layer) }
    ensures layer { IfOk result (λ layer. IsFlattened layer work.now) }
    ensures kept { IfOk result (λ _. PassesFlattenLimit work.now → ⊥) }
    ensures limit { IsSoundStack work.now → result ≡ Err LimitOut → PassesFlattenLimit work.now }
{
    RewriteEnd::of(alloc, work, parcels)?.finish(alloc)
}
