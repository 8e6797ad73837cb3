//! A worker for each lane, and the lanes closed again.
ghost use Rattle.std.specs.Prelude.{◌≡◌, ◌<◌, ◌+◌, ◌^◌, IfOk, OnOk, All, List, length, vec_len};
ghost use Rattle.std.specs.List.{AllWithin};
ghost use Rattle.ovl_board.specs.declared.pieces.Piece.{Piece};
ghost use Rattle.ovl_lanes.specs.Lanes.{IsWhole};
ghost use Rattle.ovl_lanes.specs.Seats.{IsNew};
ghost use Rattle.ovl_pool.specs.Flows.{HaveRoot, HaveNothing, AreUntouched, AreSettled, all_pushed, all_taken, each_one};
ghost use Rattle.ovl_pool.specs.Passes.{AreSeated, HasNone};

use crate::workers::{Other, Worker};
use ovl_board::Piece;
use ovl_lanes::{Seat, Thief, close};
use std::alloc::{AllocError, Global};

/// A worker for each lane, and the thieves of all lanes. A worker has a pass to each other lane,
/// beginning with that of the next worker; the first one's lane holds the root.
pub(crate) fn seat_workers(
    alloc: Global,
    seats: Vec<Seat>,
    root: Piece,
) -> Result<(Vec<Worker>, Vec<Thief>), AllocError>
    requires one { 0 < vec_len seats }
    requires new { All IsNew seats.items }
    ensures seated { IfOk result (λ r. AreSeated r.1.items r.0.items) }
    ensures one_each { IfOk result (λ r. vec_len r.0 ≡ vec_len seats) }
    ensures root { IfOk result (λ r. HaveRoot root r.0.items) }
{
    // Made by hand (1): a new lane is below its end, so it gives a piece back only when out of
    // memory.
    let (mut workers, thieves) = split_seats(alloc, seats)?;
    let count = workers.len();
    for number in 0..count {
        for step in 1..count {
            add_pass(&mut workers, &thieves, number, (number + step) % count)?;
        }
    }
    match workers[0].lane.push(root) {
        Ok(()) => Ok((workers, thieves)),
        Err(_) => Err(AllocError),
    }
}

// A worker without passes for each lane, and the thieves.
fn split_seats(alloc: Global, mut seats: Vec<Seat>) -> Result<(Vec<Worker>, Vec<Thief>), AllocError>
    requires { All IsNew seats.items }
    ensures seated { IfOk result (λ r. AreSeated r.1.items r.0.items) }
    ensures one_each { IfOk result (λ r. vec_len r.0 ≡ vec_len seats) }
    ensures nothing { IfOk result (λ r. HaveNothing r.0.items) }
{
    let mut workers = Vec::new(alloc);
    let mut thieves = Vec::new(alloc);
    while let Some(Seat { lane, thief }) = seats.pop() {
        let others = Vec::new(alloc);
        workers.push(Worker { lane, others })?;
        thieves.push(thief)?;
    }
    Ok((workers, thieves))
}

// Splits a pass of the lane off for the worker of that number.
fn add_pass(
    workers: &mut [Worker],
    thieves: &[Thief],
    number: usize,
    lane: usize,
) -> Result<(), AllocError>
    requires seated { AreSeated thieves.now workers.old }
    requires worker { number < length workers.old }
    requires lane { lane < length workers.old }
    ensures seated { OnOk result (AreSeated thieves.now workers.new) }
    ensures same { OnOk result (AreUntouched workers.old workers.new) }
{
    let pass = workers[lane].lane.split_pass();
    workers[number].others.push(Other { lane, pass })?;
    Ok(())
}

/// Joins all passes to their lanes again and closes the lanes: how many pieces were taken from
/// them, and how many are left. Piece by piece, those taken with those left are those pushed.
pub(crate) fn close_lanes(mut workers: Vec<Worker>, thieves: Vec<Thief>) -> (u64, u64)
    requires seated { AreSeated thieves.items workers.items }
    requires fits { all_pushed each_one workers.items < 2 ^ 64 }
    ensures taken { result.0 ≡ all_taken each_one workers.items }
    ensures whole { all_pushed each_one workers.items ≡ result.0 + result.1 }
    ensures left { (left : List Piece)
        × ((length left ≡ result.1) × AreSettled workers.items left) }
{
    for number in 0..workers.len() {
        return_passes(&mut workers, &thieves, number);
    }
    counts_of_lanes(workers, thieves)
}

// Joins the passes of the worker of that number to their lanes again.
fn return_passes(workers: &mut [Worker], thieves: &[Thief], number: usize)
    requires seated { AreSeated thieves.now workers.old }
    requires worker { number < length workers.old }
    requires before { AllWithin HasNone workers.old 0 number }
    ensures seated { AreSeated thieves.now workers.new }
    ensures without { AllWithin HasNone workers.new 0 (number + 1) }
    ensures same { AreUntouched workers.old workers.new }
{
    while let Some(Other { lane, pass }) = workers[number].others.pop() {
        workers[lane].lane.join_pass(pass);
    }
}

// How many pieces were taken from the lanes, and how many are left in them.
fn counts_of_lanes(mut workers: Vec<Worker>, mut thieves: Vec<Thief>) -> (u64, u64)
    requires whole { All (λ worker. IsWhole worker.lane) workers.items }
    requires one_each { vec_len workers ≡ vec_len thieves }
    requires none { All HasNone workers.items }
    requires fits { all_pushed each_one workers.items < 2 ^ 64 }
    ensures taken { result.0 ≡ all_taken each_one workers.items }
    ensures whole { all_pushed each_one workers.items ≡ result.0 + result.1 }
    ensures left { (left : List Piece)
        × ((length left ≡ result.1) × AreSettled workers.items left) }
{
    let mut taken = 0u64;
    let mut left = 0u64;
    while let Some(Worker { lane, others: _ }) = workers.pop() {
        let Some(thief) = thieves.pop() else {
            unreachable!();
        };
        let gathered = close(Seat { lane, thief });
        taken += gathered.taken;
        left += gathered.left;
    }
    (taken, left)
}
