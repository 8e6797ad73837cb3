//! The parcels of a run, put in the order of the walk. It must not know what an output is.
ghost use Rattle.std.specs.Prelude.{◌≡◌, ◌≤◌, [], ◌∷◌, ◌++◌, map, reverse, OnOk, OnErr, IfOk, IsTrue, MatchOption, MatchResult, All, AllPairs, Contains, IsSorted, IsPermutation};
ghost use Rattle.ovl_board.specs.declared.assembly.BoardFault.TheVariants.{Memory};
ghost use Rattle.ovl_board.specs.Pieces.{IsBefore, piece_cmp};
ghost use Rattle.ovl_board.specs.Parcels.{pieces_of};
ghost use Rattle.ovl_board.specs.Balance.{AllLawful, IsBalanced, kids_in, times};
ghost use Rattle.ovl_board.specs.Assembly.{IsBoardFault, IsInOrder, IsLeast, IsAbsent, AreExpected, IsListFault, bare};

use crate::pieces::{Piece, copies};
use crate::works::Parcel;
use std::alloc::{AllocError, Global};
use thiserror::Error;

/// Why parcels are no walk; where several hold, the first of them is given, with its least piece.
#[derive(Debug, PartialEq, Eq, Drop, Error)]
pub enum BoardFault {
    /// Two parcels have this piece.
    #[error("two parcels have one piece")]
    Double(Piece),
    /// A parcel has this piece, to which no kids lead from the root.
    #[error("a parcel has a piece to which no kids lead from the root")]
    Stranger(Piece),
    /// Kids lead to this piece from the root, and no parcel has it.
    #[error("no parcel has a piece to which kids lead from the root")]
    Missing(Piece),
    /// Out of memory.
    #[error("out of memory")]
    Memory,
}

impl From<AllocError> for BoardFault {
    ghost from_gives = { λ _ fault. fault ≡ Memory };

    fn from(_: AllocError) -> BoardFault {
        BoardFault::Memory
    }
}

/// The parcels in the order of their pieces, where each piece to which their kids lead from `root`
/// has one parcel and no other piece has any; else the first fault in the order of [`BoardFault`].
/// The kids of each parcel must be lawful, see [`crate::all_lawful`]. It sorts parcels only if they
/// don't come in order, and copies pieces only if there is a fault.
pub fn assemble<T: Drop>(
    alloc: Global,
    root: &Piece,
    parcels: Vec<Parcel<T>>,
) -> Result<Vec<Parcel<T>>, BoardFault>
    requires { AllLawful (bare parcels.items) }
    ensures { MatchResult result
        (λ assembled. IsInOrder root.now parcels.items assembled.items)
        (λ fault. IsBoardFault root.now (bare parcels.items) fault) }
{
    if is_walk(alloc, root, &parcels)? {
        return Ok(parcels);
    }
    assemble_unordered(alloc, root, parcels)
}

// As `assemble`, of parcels in any order.
fn assemble_unordered<T: Drop>(
    alloc: Global,
    root: &Piece,
    mut parcels: Vec<Parcel<T>>,
) -> Result<Vec<Parcel<T>>, BoardFault>
    requires { AllLawful (bare parcels.items) }
    ensures { MatchResult result
        (λ assembled. IsInOrder root.now parcels.items assembled.items)
        (λ fault. IsBoardFault root.now (bare parcels.items) fault) }
{
    sort_parcels(&mut parcels)?;
    if is_walk(alloc, root, &parcels)? {
        return Ok(parcels);
    }
    // Other parcels have a fault.
    let pieces = parcel_pieces(alloc, &parcels)?;
    let expected = expected_pieces(alloc, root, &parcels)?;
    compare(alloc, &pieces, &expected)?;
    Ok(parcels)
}

/// Puts parcels into the order of their pieces; fails, with nothing changed, only when out of
/// memory.
pub fn sort_parcels<T>(parcels: &mut Vec<Parcel<T>>) -> Result<(), AllocError>
    ensures same { IsPermutation parcels.old.items parcels.new.items }
    ensures sorted { OnOk result (IsSorted piece_cmp (pieces_of (bare parcels.new.items))) }
    ensures kept { OnErr result (parcels.new.items ≡ parcels.old.items) }
{
    parcels.sort_by(|a, b| a.piece.cmp(&b.piece))
}

// Whether the parcels go down the tree of kids, from the root: each of them has the piece that
// became open last, and then its kids are open, the first of them last; and in the end no piece is
// open. That is the walk: lawful kids lie below their piece and ascend, so pieces ascend where they
// go down.
fn is_walk<T>(alloc: Global, root: &Piece, parcels: &[Parcel<T>]) -> Result<bool, AllocError>
    requires { AllLawful (bare parcels.now) }
    ensures balanced { IfOk result
        (λ walk. IsTrue walk → IsBalanced root.now (bare parcels.now) []) }
    ensures ascend { IfOk result
        (λ walk. IsTrue walk → AllPairs IsBefore (pieces_of (bare parcels.now))) }
{
    let mut open = Vec::new(alloc);
    open.push(root)?;
    for parcel in parcels {
        let Some(piece) = open.pop() else {
            return Ok(false);
        };
        if *piece != parcel.piece {
            return Ok(false);
        }
        push_reversed(&mut open, &parcel.kids)?;
    }
    Ok(open.is_empty())
}

// Appends the kids, the last one first.
fn push_reversed<'a>(waiting: &mut Vec<&'a Piece>, kids: &'a [Piece]) -> Result<(), AllocError>
    ensures { OnOk result
        (map (λ piece. piece.now) waiting.new.items
        ≡ map (λ piece. piece.now) waiting.old.items ++ reverse kids.now) }
{
    waiting.extend(kids.iter().rev())
}

// Whether sorted pieces are the expected ones, each once; else the first fault.
fn compare(alloc: Global, pieces: &[Piece], expected: &[Piece]) -> Result<(), BoardFault>
    requires pieces { IsSorted piece_cmp pieces.now }
    requires expected { IsSorted piece_cmp expected.now }
    ensures { MatchResult result
        (λ _. AreExpected pieces.now expected.now)
        (λ fault. IsListFault pieces.now expected.now fault) }
{
    if let Some(double) = first_double(pieces) {
        return Err(BoardFault::Double(double.copy(alloc)?));
    }
    if let Some(stranger) = first_absent(pieces, expected) {
        return Err(BoardFault::Stranger(stranger.copy(alloc)?));
    }
    if let Some(missing) = first_absent(expected, pieces) {
        return Err(BoardFault::Missing(missing.copy(alloc)?));
    }
    Ok(())
}

fn parcel_pieces<T>(alloc: Global, parcels: &[Parcel<T>]) -> Result<Vec<Piece>, AllocError>
    ensures { IfOk result (λ pieces. pieces.items ≡ pieces_of (bare parcels.now)) }
{
    let mut pieces = Vec::new(alloc);
    for parcel in parcels {
        pieces.push(parcel.piece.copy(alloc)?)?;
    }
    Ok(pieces)
}

// The root and all kids, in order.
fn expected_pieces<T>(
    alloc: Global,
    root: &Piece,
    parcels: &[Parcel<T>],
) -> Result<Vec<Piece>, AllocError>
    ensures same { IfOk result
        (λ pieces. IsPermutation (root.now ∷ kids_in (bare parcels.now)) pieces.items) }
    ensures sorted { IfOk result (λ pieces. IsSorted piece_cmp pieces.items) }
{
    let mut expected = Vec::new(alloc);
    expected.push(root.copy(alloc)?)?;
    for parcel in parcels {
        expected.append(&mut copies(alloc, &parcel.kids)?)?;
    }
    expected.sort()?;
    Ok(expected)
}

// The least piece that is twice in a sorted list.
fn first_double(pieces: &[Piece]) -> Option<&Piece>
    requires { IsSorted piece_cmp pieces.now }
    ensures { MatchOption result
        (AllPairs IsBefore pieces.now)
        (λ p. IsLeast (λ q. 2 ≤ times q pieces.now) p.now) }
{
    for i in 1..pieces.len() {
        if pieces[i - 1] == pieces[i] {
            return Some(&pieces[i]);
        }
    }
    None
}

// The least piece of a sorted list that isn't in another one.
fn first_absent<'a>(pieces: &'a [Piece], among: &[Piece]) -> Option<&'a Piece>
    requires pieces { IsSorted piece_cmp pieces.now }
    requires among { IsSorted piece_cmp among.now }
    ensures { MatchOption result
        (All (Contains among.now) pieces.now)
        (λ p. IsLeast (IsAbsent pieces.now among.now) p.now) }
{
    for piece in pieces {
        if among.binary_search(piece).is_err() {
            return Some(piece);
        }
    }
    None
}
