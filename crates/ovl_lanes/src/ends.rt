//! The two ends of a lane. They must not know kids, nor when a run is done.
ghost use Rattle.std.specs.Prelude.{◌≡◌, ◌≤◌, true, false, length};
ghost use Rattle.crossbeam_deque.specs.Handles.{view, worker_view, worker_flavor, worker_index, stealer_flavor};

use crate::accounts::Account;
use crate::rules::{Fair, Left, Lends, Puts, Steals, Takes};
use crossbeam_deque::{Pass as View, Steal, Stealer, Worker};
use ovl_board::Piece;
use std::alloc::{AllocError, Global};

// Slots of a new lane; where they don't do, it grows by rings of twice the size.
const FIRST_SLOTS: usize = 4;

/// The owner's end of a lane.
#[derive(Drop)]
pub struct Lane {
    deque: Worker<Piece, Global, Account, Fair>,
    pushed: u64,
    ghost owns: { (worker_view deque).owner ≡ true },
    ghost fifo: { worker_flavor deque ≡ 0 },
    ghost counted: { length (worker_view deque).pushed ≡ pushed },
    ghost reached: { worker_index deque ≤ pushed },
}

/// The leave of one worker to steal from one lane. It is split from the lane, and joined to it
/// again before the lane is closed.
#[derive(Drop)]
pub struct Pass {
    account: View<Piece, Account>,
    ghost out: { ((view account).owner ≡ false) × ((view account).split ≡ 1) },
}

/// The end of a lane from which the other workers steal; they share it.
#[derive(Drop)]
pub struct Thief {
    deque: Stealer<Piece, Global, Account, Fair>,
    ghost fifo: { stealer_flavor deque ≡ 0 },
}

impl Lane {
    ghost use Rattle.std.specs.Prelude.{◌≡◌, ◌≤◌, ◌+◌, [], ◌∷◌, ◌++◌, length, List, IfOk, IfErr, IfSome, MatchResult, MatchOption};
    ghost use Rattle.ovl_board.specs.declared.pieces.Piece.{Piece};
    ghost use Rattle.ovl_board.specs.Balance.{times};
    ghost use Rattle.ovl_lanes.specs.Accounts.{owned};
    ghost use Rattle.ovl_lanes.specs.Lanes.{account_of, stolen_by, IsOfLane, IsOneLane, IsSameLane, IsSettled, IsUsedUp, IsWhole};

    /// A lane with nothing in it, and its thief.
    pub(crate) fn new(alloc: Global) -> Result<(Lane, Thief), AllocError>
        ensures { IfOk result
            (λ ends. (account_of ends.0 ≡ owned 0 0 [] []) × IsOneLane ends.0 ends.1) }
    {
        let deque = Worker::<Piece, Global, Account, Fair>::fifo_as(alloc, FIRST_SLOTS)?;
        let thief = Thief {
            deque: deque.stealer()?,
        };
        Ok((Lane { deque, pushed: 0 }, thief))
    }

    /// How many pieces were pushed.
    pub(crate) fn pushed(&self) -> u64
        ensures { length (account_of self.now).pushed ≡ result }
    {
        self.pushed
    }

    /// How many pieces are left in a whole lane.
    pub(crate) fn left(&mut self) -> u64
        requires { IsWhole self.old }
        ensures left { (left : List Piece)
            × ((length left ≡ result) × IsSettled (account_of self.old) left
            × (length (account_of self.old).pushed ≡ length (account_of self.old).taken + result)) }
        ensures same { account_of self.new ≡ account_of self.old }
    {
        self.deque.len_as::<Left>() as u64
    }

    /// Adds a piece at the back of the lane. Gives it back, with nothing changed, when out of
    /// memory, where the deque is at its own end, or 2^64 - 1 pieces were pushed already; never
    /// while a slot of the lane wasn't used yet.
    pub fn push(&mut self, piece: Piece) -> Result<(), Piece>
        ensures same { IsSameLane self.old self.new }
        ensures counted { MatchResult result
            (λ _. account_of self.new
            ≡ record (account_of self.old)
            { pushed = (account_of self.old).pushed ++ piece ∷ [] })
            (λ back. (back ≡ piece) × (account_of self.new ≡ account_of self.old)) }
        ensures refused { IfErr result (λ _. IsUsedUp self.old) }
    {
        if self.pushed == u64::MAX {
            return Err(piece);
        }
        self.deque.push_as::<Puts>(piece)?;
        self.pushed += 1;
        Ok(())
    }

    /// Takes the first piece of the lane, one that was pushed and wasn't taken before; `None` where
    /// it was empty at one moment. With no pass out, it gives a piece exactly if there is one left.
    pub fn pop(&mut self) -> Option<Piece>
        ensures same { IsSameLane self.old self.new }
        ensures counted { MatchOption result
            (account_of self.new ≡ account_of self.old)
            (λ piece. account_of self.new
            ≡ record (account_of self.old)
            { taken = (account_of self.old).taken ++ piece ∷ [] }) }
        ensures pushed { IfSome result
            (λ piece. (p : Piece)
            → times p ((account_of self.old).taken ++ piece ∷ [])
            ≤ times p (account_of self.old).pushed) }
        ensures empty { MatchOption result (IsWhole self.old → IsSettled (account_of self.old) [])
            (λ _. Unit {0}) }
    {
        self.deque.pop_as::<Takes>()
    }

    /// A pass of this lane for one worker more; it has stolen nothing.
    pub fn split_pass(&mut self) -> Pass
        ensures same { IsSameLane self.old self.new }
        ensures pass { IsOfLane self.new result × (stolen_by result ≡ []) }
        ensures counted { account_of self.new
            ≡ record (account_of self.old) { split = (account_of self.old).split + 1 } }
    {
        Pass {
            account: self.deque.another::<Lends>(),
        }
    }

    /// Takes back a pass that was split from this lane, with what was stolen by it.
    pub fn join_pass(&mut self, pass: Pass)
        requires { IsOfLane self.old pass }
        ensures same { IsSameLane self.old self.new }
        ensures counted { account_of self.new ≡ record (account_of self.old) {
          joined = (account_of self.old).joined + 1;
          taken = (account_of self.old).taken ++ stolen_by pass;
        } }
    {
        let Pass { account } = pass;
        self.deque.absorb::<Lends>(account);
    }
}

impl Thief {
    ghost use Rattle.std.specs.Prelude.{◌≡◌, [], ◌∷◌, ◌++◌, MatchOption};
    ghost use Rattle.ovl_lanes.specs.Lanes.{stolen_by, IsOfThief};

    /// One try to take the first piece of the lane, by a pass that was split from it; `None` where
    /// the lane was empty at one moment, or where another worker was quicker.
    pub fn steal(&self, pass: &mut Pass) -> Option<Piece>
        requires { IsOfThief self.now pass.old }
        ensures same { IsOfThief self.now pass.new }
        ensures counted { MatchOption result
            (stolen_by pass.new ≡ stolen_by pass.old)
            (λ piece. stolen_by pass.new ≡ stolen_by pass.old ++ piece ∷ []) }
    {
        match self.deque.steal_as::<Steals>(&mut pass.account) {
            Steal::Success(piece) => Some(piece),
            Steal::Empty | Steal::Retry => None,
        }
    }
}
