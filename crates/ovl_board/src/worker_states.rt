//! What one worker of the machine holds. It must not know the work.
ghost use Rattle.std.specs.Prelude.{◌≡◌, ◌↔◌, [], ◌∷◌, Some, None, IsTrue, IsSome, MatchOption, MatchResult, option_copied};
ghost use Rattle.ovl_board.specs.declared.events.CoreFault.TheVariants.{NotPossible, Memory};
ghost use Rattle.ovl_board.specs.WorkerStates.{empty_worker_state, is_free, pushed_worker_state};

use crate::events::CoreFault;
use crate::pieces::Piece;
use std::alloc::Global;
use std::collections::VecDeque;
use std::marker::Model;

/// What a worker has: the lane of pieces to do, the piece in its hand, and the kids that it has
/// still to push.
#[derive(Drop)]
pub(crate) struct WorkerState {
    lane: VecDeque<Piece>,
    hand: Option<Piece>,
    outbox: VecDeque<Piece>,
}

impl Model for WorkerState {
    ghost use Rattle.ovl_board.specs.WorkerStates.{WorkerStateView};

    ghost Value = { WorkerStateView };

    ghost view = { λ a. record { lane = a.lane.items; hand = a.hand; outbox = a.outbox.items } };
}

impl WorkerState {
    /// A state with nothing on it.
    pub(crate) fn new(alloc: Global) -> WorkerState
        ensures { result ≡ empty_worker_state }
    {
        WorkerState {
            lane: VecDeque::new(alloc),
            hand: None,
            outbox: VecDeque::new(alloc),
        }
    }

    /// A state whose lane holds one piece.
    pub(crate) fn with_piece(alloc: Global, piece: Piece) -> Result<WorkerState, CoreFault>
        ensures { MatchResult result
            (λ worker_state. worker_state ≡ record empty_worker_state { lane = piece ∷ [] })
            (λ fault. fault ≡ Memory) }
    {
        let mut worker_state = WorkerState::new(alloc);
        worker_state.lane.push_back(piece)?;
        Ok(worker_state)
    }

    /// Whether the worker may take a piece: its hand and its outbox are empty.
    pub(crate) fn is_free(&self) -> bool
        ensures { result ≡ is_free self.now }
    {
        self.hand.is_none() && self.outbox.is_empty()
    }

    /// Whether nothing is on it.
    pub(crate) fn is_empty(&self) -> bool
        ensures { IsTrue result ↔ (self.now ≡ empty_worker_state) }
    {
        self.lane.is_empty() && self.hand.is_none() && self.outbox.is_empty()
    }

    /// Takes the first piece of the lane, if there is one.
    pub(crate) fn take_first(&mut self) -> Option<Piece>
        ensures { MatchOption result
            ((self.old.lane ≡ []) × (self.new ≡ self.old))
            (λ piece. (self.old.lane ≡ piece ∷ self.new.lane)
            × (self.new ≡ record self.old { lane = self.new.lane })) }
    {
        self.lane.pop_front()
    }

    /// Puts a piece into the hand.
    pub(crate) fn hold(&mut self, piece: Piece)
        ensures { self.new ≡ record self.old { hand = Some piece } }
    {
        self.hand = Some(piece);
    }

    /// The piece in the hand, if there is one.
    pub(crate) fn piece_in_hand(&self) -> Option<&Piece>
        ensures { option_copied result ≡ self.now.hand }
    {
        self.hand.as_ref()
    }

    /// Takes the piece out of the hand, and makes its kids the outbox.
    pub(crate) fn put_down(&mut self, outbox: VecDeque<Piece>) -> Piece
        requires { IsSome self.old.hand }
        ensures piece { self.old.hand ≡ Some result }
        ensures after { self.new ≡ record self.old { hand = None; outbox = outbox.items } }
    {
        self.outbox = outbox;
        self.hand.take().unwrap()
    }

    /// Moves the first kid of the outbox to the back of the lane.
    pub(crate) fn push(&mut self) -> Result<(), CoreFault>
        ensures done { MatchResult result (λ _. pushed_worker_state self.old ≡ Some self.new)
            (λ _. self.new ≡ self.old) }
        ensures refused { (result ≡ Err NotPossible) ↔ (pushed_worker_state self.old ≡ None) }
    {
        if self.outbox.is_empty() {
            return Err(CoreFault::NotPossible);
        }
        self.lane.reserve(1)?;
        if let Some(piece) = self.outbox.pop_front() {
            self.lane.push_back_reserved(piece);
        }
        Ok(())
    }
}
