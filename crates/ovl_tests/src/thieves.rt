//! One lane with its owner and three thieves, each in a thread of its own.

ghost use Rattle.std.specs.Prelude.{◌≡◌, IfOk};
ghost use Rattle.std.specs.Thread.{IsSync};
ghost use Rattle.ovl_lanes.specs.Lanes.{account_of, thief_id, IsPass, IsSameLane};
ghost use Rattle.ovl_lanes.specs.Seats.{IsNew};

use crate::lanes::seat;
use ovl_board::Piece;
use ovl_lanes::{Gathered, Lane, Pass, Seat, Thief, close};
use ovl_test_rows::expect_so;
use std::alloc::{AllocError, Global};
use std::test::Fail;
use std::thread::{Threads, join};

const PIECES: u16 = 10_000;

const TRIES: u32 = 20_000;

// Pushes the pieces, each of a space of its own.
fn pushing(alloc: Global, mut lane: Lane) -> Result<Lane, AllocError>
    ensures same { IfOk result (λ ended. IsSameLane lane ended) }
    ensures passes { IfOk result (λ ended. ((account_of ended).split ≡ (account_of lane).split)
        × ((account_of ended).joined ≡ (account_of lane).joined)) }
{
    for space in 0..PIECES {
        if lane.push(Piece::root(alloc, space)).is_err() {
            return Err(AllocError);
        }
    }
    Ok(lane)
}

// The pass with the pieces that came of this many tries.
fn stealing(alloc: Global, thief: &Thief, mut pass: Pass) -> Result<(Pass, Vec<Piece>), AllocError>
    requires { IsPass (thief_id thief.now) pass }
    ensures { IfOk result (λ ended. IsPass (thief_id thief.now) ended.0) }
{
    let mut stolen = Vec::new(alloc);
    for _ in 0..TRIES {
        if let Some(piece) = thief.steal(&mut pass) {
            stolen.push(piece)?;
        }
    }
    Ok((pass, stolen))
}

fn two_stealing<R: Threads + Sync>(
    rt: &R,
    alloc: Global,
    thief: &Thief,
    first: Pass,
    second: Pass,
) -> Result<(Pass, Pass, Vec<Piece>), AllocError>
    requires first { IsPass (thief_id thief.now) first }
    requires second { IsPass (thief_id thief.now) second }
    ensures { IfOk result
        (λ ended. IsPass (thief_id thief.now) ended.0 × IsPass (thief_id thief.now) ended.1) }
{
    let (one, other) = join(
        rt,
        || -> Result<(Pass, Vec<Piece>), AllocError>
            requires { IsPass (thief_id thief.now) first }
            ensures { IfOk result (λ ended. IsPass (thief_id thief.entry.now) ended.0) }
        { stealing(alloc, thief, first) },
        || -> Result<(Pass, Vec<Piece>), AllocError>
            requires { IsPass (thief_id thief.now) second }
            ensures { IfOk result (λ ended. IsPass (thief_id thief.entry.now) ended.0) }
        { stealing(alloc, thief, second) },
    );
    let (first, mut stolen) = one?;
    let (second, mut more) = other?;
    stolen.append(&mut more)?;
    Ok((first, second, stolen))
}

fn three_stealing<R: Threads + Sync>(
    rt: &R,
    alloc: Global,
    thief: &Thief,
    first: Pass,
    second: Pass,
    third: Pass,
) -> Result<(Pass, Pass, Pass, Vec<Piece>), AllocError>
    requires first { IsPass (thief_id thief.now) first }
    requires second { IsPass (thief_id thief.now) second }
    requires third { IsPass (thief_id thief.now) third }
    ensures { IfOk result
        (λ ended. IsPass (thief_id thief.now) ended.0 × IsPass (thief_id thief.now) ended.1
        × IsPass (thief_id thief.now) ended.2) }
{
    let (one, others) = join(
        rt,
        || -> Result<(Pass, Vec<Piece>), AllocError>
            requires { IsPass (thief_id thief.now) first }
            ensures { IfOk result (λ ended. IsPass (thief_id thief.entry.now) ended.0) }
        { stealing(alloc, thief, first) },
        || -> Result<(Pass, Pass, Vec<Piece>), AllocError>
            requires { IsSync R.row × IsPass (thief_id thief.now) second
                × IsPass (thief_id thief.now) third }
            ensures { IfOk result (λ ended. IsPass (thief_id thief.entry.now) ended.0
                × IsPass (thief_id thief.entry.now) ended.1) }
        { two_stealing(rt, alloc, thief, second, third) },
    );
    let (first, mut stolen) = one?;
    let (second, third, mut more) = others?;
    stolen.append(&mut more)?;
    Ok((first, second, third, stolen))
}

// The numbers of the lane after that, and what was stolen.
fn hammered<R: Threads + Sync>(
    rt: &R,
    alloc: Global,
    seat: Seat,
) -> Result<(Gathered, Vec<Piece>), AllocError>
    requires { IsNew seat }
{
    let Seat {
        mut lane,
        thief: shared,
    } = seat;
    let thief = &shared;
    let first = lane.split_pass();
    let second = lane.split_pass();
    let third = lane.split_pass();
    let (ended, taken) = join(
        rt,
        || -> Result<Lane, AllocError>
            ensures same { IfOk result (λ ended. IsSameLane lane ended) }
            ensures passes { IfOk result
                (λ ended. ((account_of ended).split ≡ (account_of lane).split)
                × ((account_of ended).joined ≡ (account_of lane).joined)) }
        { pushing(alloc, lane) },
        || -> Result<(Pass, Pass, Pass, Vec<Piece>), AllocError>
            requires { IsSync R.row × IsPass (thief_id thief.now) first
                × IsPass (thief_id thief.now) second
                × IsPass (thief_id thief.now) third }
            ensures { IfOk result (λ ended. IsPass (thief_id thief.entry.now) ended.0
                × IsPass (thief_id thief.entry.now) ended.1
                × IsPass (thief_id thief.entry.now) ended.2) }
        { three_stealing(rt, alloc, thief, first, second, third) },
    );
    let mut lane = ended?;
    let (first, second, third, stolen) = taken?;
    lane.join_pass(first);
    lane.join_pass(second);
    lane.join_pass(third);
    let seat = Seat {
        lane,
        thief: shared,
    };
    Ok((close(seat), stolen))
}

// Whether all pieces were pushed, this many of them taken, and the others left.
fn are_all(gathered: &Gathered, stolen: usize) -> bool {
    let all = u64::from(PIECES);
    gathered.pushed == all
        && gathered.taken + gathered.left == all
        && gathered.taken == stolen as u64
}

// Whether no piece is there twice.
fn are_different(pieces: &mut Vec<Piece>) -> Result<bool, AllocError> {
    let number = pieces.len();
    pieces.sort()?;
    pieces.dedup();
    Ok(pieces.len() == number)
}

#[test]
fn no_piece_is_lost_or_stolen_twice(rt: HostRuntime) -> Result<(), Fail> {
    let (gathered, mut stolen) = hammered(&rt, rt.alloc(), seat(rt.alloc())?)?;
    expect_so(are_all(&gathered, stolen.len()) && are_different(&mut stolen)?)
}
