//! Two ordered lists of parcels as one.
ghost use Rattle.std.specs.Prelude.{◌++◌, IfOk, IsPermutation};
ghost use Rattle.ovl_pool.specs.WorkerOutputs.{AreInPieceOrder};

use itertools::Itertools;
use ovl_board::Parcel;
use std::alloc::{AllocError, Global};

/// The parcels of both lists, in the order of pieces where each of the lists is.
pub(crate) fn merge<T: Drop>(
    alloc: Global,
    first: Vec<Parcel<T>>,
    second: Vec<Parcel<T>>,
) -> Result<Vec<Parcel<T>>, AllocError>
    ensures same { IfOk result (λ both. IsPermutation (first.items ++ second.items) both.items) }
    ensures order { IfOk result
        (λ both. AreInPieceOrder first.items → AreInPieceOrder second.items
        → AreInPieceOrder both.items) }
{
    first
        .into_iter()
        .merge_by(second, |one, other| one.piece <= other.piece)
        .collect(alloc)
}
