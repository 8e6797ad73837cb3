//! Lanes by one thread: each step and its account.
ghost use Rattle.std.specs.Prelude.{IfOk};
ghost use Rattle.ovl_lanes.specs.Lanes.{IsOneLane, IsWhole};
ghost use Rattle.ovl_lanes.specs.Seats.{IsNew};

use ovl_board::Piece;
use ovl_lanes::{Gathered, LaneFault, Seat, close, lanes};
use ovl_test_rows::{expect_at, same};
use std::alloc::{AllocError, Global};
use std::test::Fail;

/// The seat of only one lane.
pub(crate) fn seat(alloc: Global) -> Result<Seat, Fail>
    ensures { IfOk result IsNew }
{
    lanes(alloc, 1)?.pop().ok_or_else(|| Fail::from("no lane"))
}

// One try to steal, by a pass of its own.
fn steal_once(seat: &mut Seat) -> Option<Piece>
    requires { IsOneLane seat.old.lane seat.old.thief }
    ensures { IsWhole seat.old.lane → IsWhole seat.new.lane }
{
    let mut pass = seat.lane.split_pass();
    let piece = seat.thief.steal(&mut pass);
    seat.lane.join_pass(pass);
    piece
}

// Whether this many lanes are refused.
fn is_refused(alloc: Global, number: usize) -> bool {
    lanes(alloc, number).err() == Some(LaneFault::Count)
}

#[test]
fn there_are_1_to_64_lanes(rt: HostRuntime) -> Result<(), Fail> {
    for number in [0, 1, 64, 65] {
        let is = is_refused(rt.alloc(), number);
        expect_at(number, is == (number == 0 || number == 65))?;
    }
    Ok(())
}

fn space_of(piece: Option<Piece>) -> Option<u16> {
    match piece {
        Some(piece) => Some(piece.space),
        None => None,
    }
}

// What is stolen from a new lane with the roots of two spaces, by its space, and the lane's numbers.
fn stolen(alloc: Global, mut seat: Seat) -> Result<String, AllocError>
    requires { IsNew seat }
{
    let first = seat.lane.push(Piece::root(alloc, 2)).is_ok();
    let second = seat.lane.push(Piece::root(alloc, 1)).is_ok();
    let stolen = space_of(steal_once(&mut seat));
    let Gathered {
        pushed,
        taken,
        left,
    } = close(seat);
    format!(in alloc; "{first} {second} {stolen:?} {pushed} {taken} {left}")
}

#[test]
fn a_lane_gives_its_first_piece_to_a_pass(rt: HostRuntime) -> Result<(), Fail> {
    let found = stolen(rt.alloc(), seat(rt.alloc())?)?;
    same("two pieces", found.as_str(), "true true Some(2) 2 1 1")
}

// What the owner of a new lane with the root of a space takes, twice, and a pass then.
fn taken(alloc: Global, mut seat: Seat) -> Result<String, AllocError>
    requires { IsNew seat }
{
    let pushed = seat.lane.push(Piece::root(alloc, 2)).is_ok();
    let first = space_of(seat.lane.pop());
    let second = space_of(seat.lane.pop());
    let stolen = space_of(steal_once(&mut seat));
    format!(in alloc; "{pushed} {first:?} {second:?} {stolen:?}")
}

#[test]
fn a_lane_gives_its_piece_to_its_owner_and_then_nothing(rt: HostRuntime) -> Result<(), Fail> {
    let found = taken(rt.alloc(), seat(rt.alloc())?)?;
    same("one piece", found.as_str(), "true Some(2) None None")
}
