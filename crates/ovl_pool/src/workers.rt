//! What one worker does until nothing is left.
ghost use Rattle.std.specs.Prelude.{◌≡◌, OnOk};
ghost use Rattle.ovl_pool.specs.Flows.{IsPushed, IsPushedOf};
ghost use Rattle.ovl_pool.specs.Passes.{ends_of};

use crate::gates::Gate;
use crate::shares::Shares;
use crate::tallies::Tally;
use crate::tally_handle::{NextAction, TallyHandle};
use crate::worker_outputs::WorkerOutput;
use crossbeam_utils::Backoff;
use ovl_board::{Parcel, Piece, Work, copies};
use ovl_lanes::{Lane, Pass, Thief};
use std::alloc::{AllocError, Global};
use std::collections::VecDeque;
use std::sync::ledger::Ledger;
use std::sync::{Mutex, Wait};

/// A worker: its lane, and the lanes of the others in the turn in which it steals from them.
#[derive(Drop)]
pub(crate) struct Worker {
    pub(crate) lane: Lane,
    pub(crate) others: Vec<Other>,
}

/// The lane of another worker by its number, with the pass to it.
#[derive(Drop)]
pub(crate) struct Other {
    pub(crate) lane: usize,
    pub(crate) pass: Pass,
}

impl Other {
    ghost use Rattle.std.specs.Prelude.{◌≡◌, [], ◌∷◌, ◌++◌, MatchOption};
    ghost use Rattle.ovl_lanes.specs.Lanes.{stolen_by};
    ghost use Rattle.ovl_pool.specs.Passes.{IsOther};

    // One try at the lane that the pass names.
    fn steal(&mut self, thieves: &[Thief]) -> Option<Piece>
        requires { IsOther thieves.now self.old }
        ensures same { IsOther thieves.now self.new × (self.new.lane ≡ self.old.lane) }
        ensures counted { MatchOption result
            (stolen_by self.new.pass ≡ stolen_by self.old.pass)
            (λ piece. stolen_by self.new.pass ≡ stolen_by self.old.pass ++ piece ∷ []) }
    {
        thieves[self.lane].steal(&mut self.pass)
    }
}

impl Worker {
    ghost use Rattle.std.specs.Prelude.{◌≡◌, MatchOption};
    ghost use Rattle.ovl_pool.specs.Flows.{IsTaken, IsUntouched};
    ghost use Rattle.ovl_pool.specs.Passes.{HasPasses, post_of};

    // A piece of the own lane, or else of another one.
    fn find(&mut self, thieves: &[Thief]) -> Option<Piece>
        requires { HasPasses thieves.now self.old }
        ensures passes { HasPasses thieves.now self.new }
        ensures same { post_of self.new ≡ post_of self.old }
        ensures taken { MatchOption result (IsUntouched self.old self.new)
            (λ piece. IsTaken self.old self.new piece) }
    {
        if let Some(piece) = self.lane.pop() {
            return Some(piece);
        }
        for i in 0..self.others.len() {
            if let Some(piece) = self.others[i].steal(thieves) {
                return Some(piece);
            }
        }
        None
    }
}

/// What the workers of a run share: the work that they do, the gate that they ask, the tally to
/// which they note it, and the thieves of all lanes.
#[derive(Drop)]
pub(crate) struct RunContext<'a, W, G, R, K: Ledger, D: Ledger> {
    pub(crate) rt: &'a R,
    pub(crate) alloc: Global,
    pub(crate) work: &'a W,
    pub(crate) gate: &'a G,
    pub(crate) tally: &'a Mutex<Tally<K, D>>,
    pub(crate) thieves: &'a [Thief],
}

impl<W: Work, G: Gate, R: Wait, K: Ledger, D: Ledger> RunContext<'_, W, G, R, K, D> {
    ghost use Rattle.std.specs.Prelude.{IfOk};
    ghost use Rattle.ovl_pool.specs.WorkerThreads.{IsWorkerStart, IsWorkerEnd};
    ghost use Rattle.ovl_pool.specs.WorkerOutputs.{IsClean, AreInPieceOrder};
    ghost use Rattle.ovl_pool.specs.Passes.{HasPasses};
    ghost use Rattle.ovl_pool.specs.WorkerSteps.{IsWorkerOutputOf, IsWorkerStep, IsCleanWorkerStep, IsServed, IsCleanServed};

    /// Serves pieces until all that are known are delivered, or a worker met a fault, and sorts its
    /// parcels; so each worker sorts its own, beside the others.
    pub(crate) fn run_worker(
        &self,
        worker: Worker,
        shares: Shares<K, D>,
    ) -> (Worker, WorkerOutput<W::Out>, Shares<K, D>)
        requires begun { IsWorkerStart self.now.thieves.now worker shares }
        ensures ended { IsWorkerEnd W.seen W.kids_of W.out_of G.may_refuse self.now
            worker shares result.0 result.1 result.2 }
        ensures order { IsClean result.1 → AreInPieceOrder result.1.parcels.items }
    {
        let (worker, worker_output, shares) = self.work_loop(worker, shares);
        (worker, worker_output.sorted(), shares)
    }

    // Serves pieces until all that are known are delivered, or a worker met a fault. A worker that
    // finds no piece spins for a moment, then yields its processor, and tries again
    // (`Backoff::snooze`); it doesn't sleep.
    fn work_loop(
        &self,
        mut worker: Worker,
        shares: Shares<K, D>,
    ) -> (Worker, WorkerOutput<W::Out>, Shares<K, D>)
        requires begun { IsWorkerStart self.now.thieves.now worker shares }
        ensures ended { IsWorkerEnd W.seen W.kids_of W.out_of G.may_refuse self.now
            worker shares result.0 result.1 result.2 }
    {
        // Made by hand (3): a refused growth: the worker's output says so, and the others know.
        let mut worker_output = WorkerOutput::empty(self.alloc);
        let mut tally_handle = TallyHandle::of(self.rt, self.tally, shares);
        let idle = Backoff::new();
        for _ in self.rt.forever() {
            match self.step(&mut worker, &mut tally_handle, &mut worker_output) {
                Ok(NextAction::Work) => idle.reset(),
                Ok(NextAction::Wait) => idle.snooze(),
                Ok(NextAction::End(finished)) => return (
                    worker,
                    worker_output,
                    tally_handle.into_shares(finished),
                ),
                Err(AllocError) => {
                    worker_output.out_of_memory = true;
                    let finished = tally_handle.fail();
                    return (worker, worker_output, tally_handle.into_shares(finished));
                }
            }
        }
        unreachable!()
    }

    // Finds a piece and serves it, or notes all that was delivered where it finds none. Fails as
    // these do.
    fn step(
        &self,
        worker: &mut Worker,
        tally_handle: &mut TallyHandle<'_, R, K, D>,
        worker_output: &mut WorkerOutput<W::Out>,
    ) -> Result<NextAction, AllocError>
        requires passes { HasPasses self.now.thieves.now worker.old }
        requires own { IsWorkerOutputOf W.seen W.kids_of W.out_of G.may_refuse self.now worker_output.old }
        ensures turned { IsWorkerStep W.seen W.kids_of W.out_of G.may_refuse self.now
            worker.old worker.new tally_handle.old tally_handle.new worker_output.old worker_output.new }
        ensures clean { IfOk result (λ next. IsClean worker_output.new
            → IsCleanWorkerStep worker.old worker.new tally_handle.old tally_handle.new worker_output.old worker_output.new next) }
    {
        if let Some(piece) = worker.find(self.thieves) {
            let Worker { lane, others: _ } = worker;
            return self.serve(lane, tally_handle, worker_output, piece);
        }
        tally_handle.flush()
    }

    // Asks the gate, visits the piece, keeps its parcel, notes it, and only then pushes its kids.
    // Fails where memory runs out, or where a lane or the tally is at its end.
    fn serve(
        &self,
        lane: &mut Lane,
        tally_handle: &mut TallyHandle<'_, R, K, D>,
        worker_output: &mut WorkerOutput<W::Out>,
        piece: Piece,
    ) -> Result<NextAction, AllocError>
        requires { IsWorkerOutputOf W.seen W.kids_of W.out_of G.may_refuse self.now worker_output.old }
        ensures served { IsServed W.seen W.kids_of W.out_of G.may_refuse self.now
            piece lane.old lane.new tally_handle.old tally_handle.new worker_output.old worker_output.new }
        ensures clean { IfOk result (λ next. IsClean worker_output.new
            → IsCleanServed (W.kids_of self.now.work.now piece)
            piece lane.old lane.new tally_handle.old tally_handle.new worker_output.old worker_output.new next) }
    {
        // Made by hand (1): the gate refused the piece: the output says so, and the others know.
        if !self.gate.pass(&piece) {
            worker_output.refused = Some(piece);
            return Ok(NextAction::End(tally_handle.fail()));
        }
        let (kids, out) = self.work.visit(self.alloc, &piece)?;
        let below = copies(self.alloc, &kids)?;
        let count = kids.len() as u64;
        worker_output.parcels.push(Parcel { piece, kids, out })?;
        let next_action = tally_handle.deliver(count)?;
        push_all(lane, below)?;
        Ok(next_action)
    }
}

// Pushes the pieces to the lane, in their order. Fails where memory runs out or the lane is at its
// end.
fn push_all(lane: &mut Lane, pieces: Vec<Piece>) -> Result<(), AllocError>
    ensures same { ends_of lane.new ≡ ends_of lane.old }
    ensures pushed { OnOk result (IsPushed lane.old lane.new pieces.items) }
    ensures within { IsPushedOf lane.old lane.new pieces.items }
{
    // Made by hand (1): a lane gives a piece back when out of memory, or at 2^64 - 1 pieces.
    let mut pieces = VecDeque::from(pieces);
    while let Some(piece) = pieces.pop_front() {
        if lane.push(piece).is_err() {
            return Err(AllocError);
        }
    }
    Ok(())
}
