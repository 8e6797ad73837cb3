//! Laws of walks and of balance; the contract of each is its statement.
ghost use Rattle.ovl_board.specs.Laws.{ReachedByNames, HasReachedPieces, KeepsBalance, BalancedArePlain, PlainAreOwn, BalancedHaveNoFault, OwnAssemble, InOrderHaveNoFault};

use crate::works::Work;

/// With lawful kids, a piece is reached exactly if it lies under the root, in its space, and each
/// step of its path down from the root goes to a kid.
pub fn reached_by_names()
    ensures { ReachedByNames }
{}

/// A plain walk has exactly the pieces that are reached from the root, ascending and each once, and
/// the parcels that the work makes of them: so it is the only one.
pub fn plain_walk_has_the_reached_pieces<W: Work>(_work: &W)
    ensures { HasReachedPieces (W.kids_of _work.now) (W.out_of _work.now) }
{}

/// After every list of events, from the start on, each piece is the root or a kid as often as it
/// has a parcel or is open. An event that isn't possible changes nothing.
pub fn events_keep_the_balance<W: Work>(_work: &W)
    ensures { KeepsBalance (W.kids_of _work.now) (W.out_of _work.now) }
{}

/// A work's own parcels that are in balance with nothing open are its plain walk, in some order.
pub fn balanced_parcels_are_plain<W: Work>(_work: &W)
    ensures { BalancedArePlain (W.kids_of _work.now) (W.out_of _work.now) }
{}

/// The parcels of a plain walk, in whatever order, are the work's own.
pub fn plain_parcels_are_own<W: Work>(_work: &W)
    ensures { PlainAreOwn (W.kids_of _work.now) (W.out_of _work.now) }
{}

/// Parcels with lawful kids that are in balance with nothing open can be assembled without a fault.
pub fn balanced_parcels_have_no_fault()
    ensures { BalancedHaveNoFault }
{}

/// A work's own parcels meet the condition of [`crate::assemble`], and in order they are its plain
/// walk.
pub fn own_parcels_assemble<W: Work>(_work: &W)
    ensures { OwnAssemble (W.kids_of _work.now) (W.out_of _work.now) W.seen }
{}

/// Parcels that can be put in order have none of the faults of [`crate::assemble`].
pub fn parcels_in_order_have_no_fault<W: Work>(_work: &W)
    ensures { InOrderHaveNoFault W.Out }
{}
