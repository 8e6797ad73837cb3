//! The walk of a work by one thread, by which all others are measured.
ghost use Rattle.std.specs.Prelude.{◌≡◌, ◌++◌, ◌-◌, IfOk, length, map};
ghost use Rattle.ovl_board.specs.Pieces.{HasLawfulKids};
ghost use Rattle.ovl_board.specs.Walks.{preorder};
ghost use Rattle.ovl_board.specs.Parcels.{IsPlain, parcel_views, own_view};

use crate::pieces::{Piece, copies};
use crate::works::{Parcel, Work};
use std::alloc::{AllocError, Global};

/// The plain walk of a work: the parcels of all pieces that kids lead to from `root`, in the order
/// of pieces, each once. The root's parcel comes first, and then the walk from each kid in turn. It
/// goes as deep as the work says, a call for each name. Fails only when out of memory.
pub fn plain_walk<W: Work>(
    alloc: Global,
    work: &W,
    root: Piece,
) -> Result<Vec<Parcel<W::Out>>, AllocError>
    ensures { IfOk result (λ parcels.
        IsPlain (W.kids_of work.now) (W.out_of work.now) root (parcel_views W.seen parcels.items)) }
{
    let _deepest = work.deepest();
    let mut parcels = Vec::new(alloc);
    walk_from(alloc, work, root, &mut parcels)?;
    Ok(parcels)
}

// Appends the parcels of `piece` and of what lies under it.
fn walk_from<W: Work>(
    alloc: Global,
    work: &W,
    piece: Piece,
    parcels: &mut Vec<Parcel<W::Out>>,
) -> Result<(), AllocError>
    requires { HasLawfulKids (W.kids_of work.now) (W.deepest_of work.now) }
    ensures { IfOk result
        (λ _. parcel_views W.seen parcels.new.items ≡ parcel_views W.seen parcels.old.items
        ++ map (own_view (W.kids_of work.now) (W.out_of work.now))
        (preorder (W.kids_of work.now) (W.deepest_of work.now - length piece.dir) piece)) }
{
    let (kids, out) = work.visit(alloc, &piece)?;
    let below = copies(alloc, &kids)?;
    parcels.push(Parcel { piece, kids, out })?;
    for kid in below {
        walk_from(alloc, work, kid, parcels)?;
    }
    Ok(())
}
