//! Lanes for workers, from the first to the close.
ghost use Rattle.std.specs.Prelude.{◌≡◌, ◌↔◌, ◌⊎◌, ◌<◌, length, List, All, Err, IfOk, vec_len};
ghost use Rattle.ovl_board.specs.Machine.{worker_limit};
ghost use Rattle.ovl_board.specs.declared.pieces.Piece.{Piece};
ghost use Rattle.ovl_lanes.specs.declared.seats.LaneFault.TheVariants.{Count, Memory};
ghost use Rattle.ovl_lanes.specs.Lanes.{account_of, IsSettled, IsWhole};
ghost use Rattle.ovl_lanes.specs.Seats.{IsNew};

use crate::ends::{Lane, Thief};
use crate::gathered::Gathered;
use ovl_board::WORKER_LIMIT;
use std::alloc::{AllocError, AllocFailed, Global};
use thiserror::Error;

/// Both ends of one lane.
#[derive(Drop)]
pub struct Seat {
    /// The owner's end.
    pub lane: Lane,
    /// The end at which others take.
    pub thief: Thief,
}

/// Ends a lane to which all its passes were joined again, and gives how many pieces were pushed,
/// were taken and are left. Piece by piece, those taken with those left are those pushed. The
/// pieces that are left are dropped with the lane.
pub fn close(seat: Seat) -> Gathered
    requires { IsWhole seat.lane }
    ensures left { (left : List Piece)
        × ((length left ≡ result.left) × IsSettled (account_of seat.lane) left) }
    ensures pushed { length (account_of seat.lane).pushed ≡ result.pushed }
    ensures taken { length (account_of seat.lane).taken ≡ result.taken }
{
    let Seat { mut lane, thief: _ } = seat;
    let left = lane.left();
    let pushed = lane.pushed();
    Gathered {
        pushed,
        taken: pushed - left,
        left,
    }
}

/// Why there are no lanes; where both hold, the first is given.
#[derive(Clone, Copy, Debug, PartialEq, Eq, Error)]
pub enum LaneFault {
    #[error("there are 1 to 64 lanes")]
    Count,
    #[error("out of memory")]
    Memory,
}

impl From<AllocError> for LaneFault {
    ghost from_gives = { λ _ fault. fault ≡ Memory };

    fn from(_: AllocError) -> LaneFault {
        LaneFault::Memory
    }
}

impl<T: Drop> From<AllocFailed<T>> for LaneFault {
    ghost from_gives = { λ _ fault. fault ≡ Memory };

    fn from(_: AllocFailed<T>) -> LaneFault {
        LaneFault::Memory
    }
}

/// Empty lanes, `n` of them, one for each worker. Refuses every number outside 1 to
/// [`WORKER_LIMIT`], and fails otherwise only when out of memory.
pub fn lanes(alloc: Global, n: usize) -> Result<Vec<Seat>, LaneFault>
    ensures refused { (result ≡ Err Count) ↔ ((n < 1) ⊎ (worker_limit < n)) }
    ensures one_each { IfOk result (λ seats. vec_len seats ≡ n) }
    ensures new { IfOk result (λ seats. All IsNew seats.items) }
{
    if n < 1 || n > WORKER_LIMIT {
        return Err(LaneFault::Count);
    }
    let mut seats = Vec::new(alloc);
    for _ in 0..n {
        seats.push(empty_lane(alloc)?)?;
    }
    Ok(seats)
}

fn empty_lane(alloc: Global) -> Result<Seat, AllocError>
    ensures { IfOk result IsNew }
{
    let (lane, thief) = Lane::new(alloc)?;
    Ok(Seat { lane, thief })
}
