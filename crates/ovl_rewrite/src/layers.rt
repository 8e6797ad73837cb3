//! A new layer, put together from what a walk over its directories put out, in one pass. It must
//! not know of limits.
ghost use Rattle.std.specs.Prelude.{◌≡◌, ◌≤◌, true, Err, IfOk, OnOk, MatchResult, [], length};
ghost use Rattle.std.specs.Vec.Iter.{into_iter_items};
ghost use Rattle.ovl_names.specs.Order.{ascends};
ghost use Rattle.ovl_layer.specs.Layers.{Entries, entry_cmp, IsLayer};
ghost use Rattle.ovl_board.specs.Parcels.{parcel_views};
ghost use Rattle.ovl_rewrite.specs.declared.faults.RewriteFault.TheVariants.{LimitOut};
ghost use Rattle.ovl_rewrite.specs.Directories.{inodes_seen};
ghost use Rattle.ovl_rewrite.specs.Passes.{WalksUnder, StopsUnder};
ghost use Rattle.ovl_rewrite.specs.NewLayers.{NewLayer, IsOf, IsToldBy};

use crate::RewriteFault;
use ovl_board::Parcel;
use ovl_inode::{Inode, is_directory};
use ovl_layer::{Layer, SubtreeBuilder};
use ovl_names::Name;
use std::alloc::Global;
use std::vec::IntoIter;

/// The layer with this root that the parcels give, which are the plain walk over its directories
/// from `/` of space 0. `LimitOut` comes only if its entries are no layer.
pub(crate) fn layer_told(
    alloc: Global,
    root: Inode,
    parcels: Vec<Parcel<Vec<(Name, Inode)>>>,
) -> Result<Layer, RewriteFault>
    ensures is { IfOk result (λ layer. IsLayer layer) }
    ensures layer { IfOk result
        (λ layer. (new : NewLayer) → IsToldBy new root (parcel_views inodes_seen parcels.items)
        → IsOf new layer) }
    ensures limit { result ≡ Err LimitOut → (new : NewLayer)
        → IsToldBy new root (parcel_views inodes_seen parcels.items)
        → (entries : Entries) × (ascends entry_cmp entries ≡ true) × IsOf new entries
        × (IsLayer entries → ⊥) }
{
    let mut rest = parcels.into_iter();
    let below = next_below(alloc, &mut rest)?;
    let Some(layer) = below.under(root) else {
        return Err(RewriteFault::LimitOut);
    };
    // The type keeps that it is a layer.
    let _root = layer.root();
    Ok(layer)
}

// The entries under the directory of the next parcel; its parcel and those of what lies under it
// are taken. `LimitOut` comes only if no layer has these entries.
fn next_below(
    alloc: Global,
    rest: &mut IntoIter<Parcel<Vec<(Name, Inode)>>>,
) -> Result<SubtreeBuilder, RewriteFault>
    ensures fewer { OnOk result
        (length (into_iter_items rest.new) ≤ length (into_iter_items rest.old)) }
    ensures entries { IfOk result
        (λ below. WalksUnder (parcel_views inodes_seen (into_iter_items rest.old))
        (parcel_views inodes_seen (into_iter_items rest.new)) below) }
    ensures limit { result ≡ Err LimitOut
        → StopsUnder (parcel_views inodes_seen (into_iter_items rest.old)) }
    ensures none { into_iter_items rest.old ≡ [] → MatchResult result (λ below. below ≡ [])
        (λ _. ⊥) }
{
    let Some(Parcel { out, .. }) = rest.next() else {
        return Ok(SubtreeBuilder::none(alloc));
    };
    let mut siblings = SubtreeBuilder::with_room(alloc, out.len())?;
    for (name, inode) in out {
        let below = if is_directory(&inode) {
            next_below(alloc, rest)?
        } else {
            SubtreeBuilder::none(alloc)
        };
        siblings.add(name, inode, below)?;
    }
    Ok(siblings)
}
