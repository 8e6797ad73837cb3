//! What a work is, and what comes of its pieces. It must not know threads.
ghost use Rattle.std.specs.Prelude.{◌≡◌, ◌↔◌, ℕ, List, IfOk, IsTrue, All, AllPairs};
ghost use Rattle.ovl_board.specs.declared.pieces.Piece.{Piece};
ghost use Rattle.ovl_board.specs.Pieces.{IsBefore, IsOneBelow, AreLawfulKids, HasLawfulKids};
ghost use Rattle.ovl_board.specs.Balance.{AllLawful};
ghost use Rattle.ovl_board.specs.Assembly.{bare};

use crate::pieces::Piece;
use std::alloc::{AllocError, Global};

/// Work that is split into pieces: a visit of a piece gives its output, and the pieces that come
/// after it. Both depend only on the piece.
pub trait Work {
    /// What a visit puts out.
    type Out: Drop;

    /// What contracts see of an output, which is plain data.
    ghost Seen: { Type 0 };

    ghost seen_set: { IsSet Seen };

    ghost seen: { Self.Out → Seen };

    /// The kids and the output of a piece, and the most names that a kid may have.
    ghost kids_of: { Self → Piece → List Piece };

    ghost out_of: { Self → Piece → Seen };

    ghost deepest_of: { Self → ℕ };

    /// The kids and the output of a piece. Kids have the piece's space, lie one name below it,
    /// ascend strictly, and have at most as many names as [`Work::deepest`] says. Fails only when
    /// out of memory.
    fn visit(&self, alloc: Global, piece: &Piece) -> Result<(Vec<Piece>, Self::Out), AllocError>
        ensures kids { IfOk result (λ r. r.0.items ≡ kids_of self.now piece.now) }
        ensures out { IfOk result (λ r. seen r.1 ≡ out_of self.now piece.now) };

    /// The most names that a kid's path may have.
    fn deepest(&self) -> u32
        ensures deepest { result ≡ deepest_of self.now }
        ensures lawful { HasLawfulKids (kids_of self.now) (deepest_of self.now) };
}

/// What came of a piece: its kids, and the output of its visit.
#[derive(Debug, PartialEq, Eq, Drop)]
pub struct Parcel<T> {
    /// The piece that was visited.
    pub piece: Piece,
    /// The pieces that come after it.
    pub kids: Vec<Piece>,
    /// What its visit put out.
    pub out: T,
}

/// Whether the kids of each parcel are lawful, as [`kids_lawful`] says of one.
pub fn all_lawful<T>(parcels: &[Parcel<T>]) -> bool
    ensures { IsTrue result ↔ AllLawful (bare parcels.now) }
{
    for parcel in parcels {
        if !kids_lawful(parcel) {
            return false;
        }
    }
    true
}

/// Whether the kids of a parcel have its piece's space, lie one name below it and ascend strictly.
pub fn kids_lawful<T>(parcel: &Parcel<T>) -> bool
    ensures { IsTrue result ↔ AreLawfulKids parcel.now.piece parcel.now.kids.items }
{
    let below = all_below(&parcel.piece, &parcel.kids);
    let ascending = ascends(&parcel.kids);
    below && ascending
}

fn all_below(piece: &Piece, kids: &[Piece]) -> bool
    ensures { IsTrue result ↔ All (IsOneBelow piece.now) kids.now }
{
    for kid in kids {
        if !piece.is_parent_of(kid) {
            return false;
        }
    }
    true
}

fn ascends(kids: &[Piece]) -> bool
    ensures { IsTrue result ↔ AllPairs IsBefore kids.now }
{
    for i in 1..kids.len() {
        if kids[i - 1] >= kids[i] {
            return false;
        }
    }
    true
}
