//! The dereferenced layer, by the walk of its work.
ghost use Rattle.std.specs.Prelude.{◌≡◌, Err, IfOk};
ghost use Rattle.ovl_lookup.specs.Sound.{IsSoundStack};
ghost use Rattle.ovl_lookup.specs.Words.{top_layer, lower_layers};
ghost use Rattle.ovl_board.specs.Parcels.{parcel_views};
ghost use Rattle.ovl_rewrite.specs.declared.faults.RewriteFault.TheVariants.{LimitOut};
ghost use Rattle.ovl_rewrite.specs.Directories.{inodes_seen};
ghost use Rattle.ovl_deref.specs.Deref.{IsDereferenced};
ghost use Rattle.ovl_deref.specs.Directories.{IsDerefWalk};
ghost use Rattle.ovl_deref.specs.Limits.{PassesDerefLimit};

use crate::works::DerefWork;
use ovl_board::Parcel;
use ovl_inode::Inode;
use ovl_layer::Layer;
use ovl_names::Name;
use ovl_rewrite::{RewriteEnd, RewriteFault};
use std::alloc::Global;

/// The topmost layer without redirects and metacopy files. The parcels are the plain walk of the
/// work from `/` of space 0. Over a sound stack it is refused, unless memory runs out, exactly if
/// it passes a limit of manifests.
///
/// By one thread:
///
/// ```
/// let work = DerefWork::new(stack);
/// let parcels = plain_walk(alloc, &work, Piece::root(alloc, 0))?;
/// Ok(finish_deref(alloc, &work, parcels)?)
/// ```
pub fn finish_deref(
    alloc: Global,
    work: &DerefWork<'_>,
    parcels: Vec<Parcel<Vec<(Name, Inode)>>>,
) -> Result<Layer, RewriteFault>
    requires { IsDerefWalk work.now (parcel_views inodes_seen parcels.items) }
    ensures layer { IfOk result
        (λ layer. IsDereferenced layer (top_layer work.now) (lower_layers work.now)) }
    ensures kept { IfOk result (λ _. PassesDerefLimit work.now → ⊥) }
    ensures limit { IsSoundStack work.now → result ≡ Err LimitOut → PassesDerefLimit work.now }
{
    RewriteEnd::of(alloc, work, parcels)?.finish(alloc)
}
