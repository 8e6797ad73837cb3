//! Work by several workers as a machine of single steps, on one thread.
ghost use Rattle.std.specs.Prelude.{◌≡◌, ◌↔◌, ◌<◌, ◌⊎◌, Some, None, IsTrue, IfOk, IsOk, IfErr, OnOk, OnErr, MatchResult};
ghost use Rattle.std.specs.Coded.{Coded-set};
ghost use Rattle.ovl_board.specs.declared.events.CoreFault.TheVariants.{NotPossible, Memory};
ghost use Rattle.ovl_board.specs.Parcels.{AreOwn, AreOwn-prop, IsPlainUnordered, parcel_views};
ghost use Rattle.ovl_board.specs.Machine.{worker_limit, IsCoreState, IsIdle, after, after_take, after_steal, after_push, work_piece, worker_state_of, start_state, start_worker_states as first_worker_states};
ghost use Rattle.ovl_board.specs.CoreViews.{core_state};

use crate::events::{CoreFault, Event};
use crate::pieces::Piece;
use crate::worker_states::WorkerState;
use crate::works::{Parcel, Work};
use std::alloc::{AllocError, Global};
use std::collections::VecDeque;

/// The most workers that share a work.
pub const WORKER_LIMIT: usize = 64;

/// The work of several workers as a machine of single steps. Each worker has a lane of pieces, a
/// hand for one piece, and an outbox of kids that it has still to push; a piece that was worked on
/// becomes a parcel.
pub struct Core<'a, W: Work> {
    work: &'a W,
    root: Piece,
    worker_states: Vec<WorkerState>,
    parcels: Vec<Parcel<W::Out>>,
    ghost own: { AreOwn (W.kids_of work.now) (W.out_of work.now)
        (parcel_views W.seen parcels.items) } by { AreOwn-prop W.seen_set (Coded-set root-code)
            (W.kids_of work.now) (W.out_of work.now) (parcel_views W.seen parcels.items) },
    ghost kept: { IsCoreState root (core_state W.seen worker_states.items parcels.items) },
}

impl<W: Work> Drop for Core<'_, W> {
    fn drop(self) {
        let Core {
            work: _,
            root: _,
            worker_states: _,
            parcels: _,
        } = self;
    }
}

impl<'a, W: Work> Core<'a, W> {
    ghost use Rattle.std.specs.Prelude.{◌≡◌, ◌↔◌, ◌<◌, ◌⊎◌, Some, None, IsTrue, IfOk, IsOk, IfErr, OnOk, OnErr};
    ghost use Rattle.ovl_board.specs.declared.events.CoreFault.TheVariants.{NotPossible};
    ghost use Rattle.ovl_board.specs.Parcels.{IsPlainUnordered, parcel_views};
    ghost use Rattle.ovl_board.specs.Machine.{worker_limit, IsIdle, after, start_state, work_piece, worker_state_of};
    ghost use Rattle.ovl_board.specs.Cores.{work_of, root_of, parcels_of, state_of};

    /// A core of 1 to [`WORKER_LIMIT`] workers, whose first lane holds the root of the work;
    /// everything else is empty. Refuses every other number of workers as not possible, and fails
    /// otherwise only when out of memory.
    pub fn start(
        alloc: Global,
        work: &'a W,
        root: Piece,
        workers: usize,
    ) -> Result<Core<'a, W>, CoreFault>
        ensures refused { (result ≡ Err NotPossible) ↔ ((workers < 1) ⊎ (worker_limit < workers)) }
        ensures started { IfOk result (λ core. state_of W.seen core ≡ start_state root workers) }
        ensures given { IfOk result (λ core. (work_of core ≡ work.now) × (root_of core ≡ root)) }
    {
        if workers < 1 || workers > WORKER_LIMIT {
            return Err(CoreFault::NotPossible);
        }
        let worker_states = start_worker_states(alloc, root.copy(alloc)?, workers)?;
        Ok(Core {
            work,
            root,
            worker_states,
            parcels: Vec::new(alloc),
        })
    }

    /// Does one event exactly, or refuses it: as not possible where it isn't, else if memory runs
    /// out. A refused step changes nothing: its parcels are the same ones, outputs and all.
    pub fn step(&mut self, alloc: Global, event: Event) -> Result<(), CoreFault>
        ensures done { OnOk result
            (after (W.kids_of (work_of self.old)) (W.out_of (work_of self.old))
            (state_of W.seen self.old) event
            ≡ Some (state_of W.seen self.new)) }
        ensures refused { (result ≡ Err NotPossible) ↔
            (after (W.kids_of (work_of self.old)) (W.out_of (work_of self.old))
            (state_of W.seen self.old) event
            ≡ None) }
        ensures same { OnErr result (state_of W.seen self.new ≡ state_of W.seen self.old) }
        ensures parcels { OnErr result (parcels_of self.new ≡ parcels_of self.old) }
        ensures given { (work_of self.new ≡ work_of self.old)
            × (root_of self.new ≡ root_of self.old) }
    {
        match event {
            Event::Pop(worker) => take(&mut self.worker_states, worker, worker),
            Event::Steal(worker, lane) => steal(&mut self.worker_states, worker, lane),
            Event::Work(worker) => self.work_piece(alloc, worker),
            Event::Push(worker) => push(&mut self.worker_states, worker),
        }
    }

    // Turns the piece in a worker's hand into a parcel, and puts its kids into the outbox.
    fn work_piece(&mut self, alloc: Global, worker: usize) -> Result<(), CoreFault>
        ensures done { OnOk result
            (work_piece (W.kids_of (work_of self.old)) (W.out_of (work_of self.old))
            (state_of W.seen self.old) worker
            (worker_state_of (state_of W.seen self.old).worker_states worker).hand
            ≡ Some (state_of W.seen self.new)) }
        ensures refused { (result ≡ Err NotPossible) ↔
            ((worker_state_of (state_of W.seen self.old).worker_states worker).hand ≡ None) }
        ensures same { OnErr result (state_of W.seen self.new ≡ state_of W.seen self.old) }
        ensures parcels { OnErr result (parcels_of self.new ≡ parcels_of self.old) }
        ensures given { (work_of self.new ≡ work_of self.old)
            × (root_of self.new ≡ root_of self.old) }
    {
        if worker >= self.worker_states.len() {
            return Err(CoreFault::NotPossible);
        }
        let Some(piece) = self.worker_states[worker].piece_in_hand() else {
            return Err(CoreFault::NotPossible);
        };
        let (kids, out) = self.work.visit(alloc, piece)?;
        let outbox = outbox_of(alloc, &kids)?;
        self.parcels.reserve(1)?;
        let piece = self.worker_states[worker].put_down(outbox);
        self.parcels.push_reserved(Parcel { piece, kids, out });
        Ok(())
    }

    /// Whether nothing is open: lanes, hands and outboxes are empty.
    pub fn idle(&self) -> bool
        ensures { IsTrue result ↔ IsIdle (state_of W.seen self.now).worker_states }
    {
        are_empty(&self.worker_states)
    }

    /// The parcels, where nothing is open: those of the plain walk from the root, in the order in
    /// which they came. Otherwise the core as it was.
    pub fn finish(self) -> Result<Vec<Parcel<W::Out>>, Core<'a, W>>
        ensures idle { IsOk result ↔ IsIdle (state_of W.seen self.entry).worker_states }
        ensures given { IfOk result (λ parcels. parcels.items ≡ parcels_of self.entry) }
        ensures plain { IfOk result (λ parcels.
            IsPlainUnordered (W.kids_of (work_of self.entry)) (W.out_of (work_of self.entry))
            (root_of self.entry)
            (parcel_views W.seen parcels.items)) }
        ensures back { IfErr result (λ core. core ≡ self.entry) }
    {
        let _deepest = self.work.deepest();
        if !self.idle() {
            return Err(self);
        }
        let Core {
            work: _,
            root: _,
            worker_states: _,
            parcels,
        } = self;
        Ok(parcels)
    }
}

fn start_worker_states(
    alloc: Global,
    root: Piece,
    workers: usize,
) -> Result<Vec<WorkerState>, CoreFault>
    requires { 0 < workers }
    ensures { MatchResult result (λ worker_states. worker_states.items ≡ first_worker_states root workers)
        (λ fault. fault ≡ Memory) }
{
    let mut worker_states = Vec::with_capacity(alloc, workers)?;
    worker_states.push(WorkerState::with_piece(alloc, root)?)?;
    for _ in 1..workers {
        worker_states.push(WorkerState::new(alloc))?;
    }
    Ok(worker_states)
}

fn are_empty(worker_states: &[WorkerState]) -> bool
    ensures { IsTrue result ↔ IsIdle worker_states.now }
{
    for worker_state in worker_states {
        if !worker_state.is_empty() {
            return false;
        }
    }
    true
}

fn take(worker_states: &mut Vec<WorkerState>, worker: usize, lane: usize) -> Result<(), CoreFault>
    ensures { MatchResult result
        (λ _. after_take worker_states.old.items worker lane ≡ Some worker_states.new.items)
        (λ fault. (fault ≡ NotPossible) × (after_take worker_states.old.items worker lane ≡ None)
        × (worker_states.new.items ≡ worker_states.old.items)) }
{
    if worker >= worker_states.len()
        || lane >= worker_states.len()
        || !worker_states[worker].is_free()
    {
        return Err(CoreFault::NotPossible);
    }
    let Some(piece) = worker_states[lane].take_first() else {
        return Err(CoreFault::NotPossible);
    };
    worker_states[worker].hold(piece);
    Ok(())
}

fn steal(worker_states: &mut Vec<WorkerState>, worker: usize, lane: usize) -> Result<(), CoreFault>
    ensures { MatchResult result
        (λ _. after_steal worker_states.old.items worker lane ≡ Some worker_states.new.items)
        (λ fault. (fault ≡ NotPossible) × (after_steal worker_states.old.items worker lane ≡ None)
        × (worker_states.new.items ≡ worker_states.old.items)) }
{
    if worker == lane {
        return Err(CoreFault::NotPossible);
    }
    take(worker_states, worker, lane)
}

fn push(worker_states: &mut Vec<WorkerState>, worker: usize) -> Result<(), CoreFault>
    ensures done { MatchResult result
        (λ _. after_push worker_states.old.items worker ≡ Some worker_states.new.items)
        (λ _. worker_states.new.items ≡ worker_states.old.items) }
    ensures refused { (result ≡ Err NotPossible) ↔ (after_push worker_states.old.items worker ≡ None) }
{
    if worker >= worker_states.len() {
        return Err(CoreFault::NotPossible);
    }
    worker_states[worker].push()
}

fn outbox_of(alloc: Global, kids: &[Piece]) -> Result<VecDeque<Piece>, AllocError>
    ensures { IfOk result (λ outbox. outbox.items ≡ kids.now) }
{
    let mut outbox = VecDeque::with_capacity(alloc, kids.len())?;
    for kid in kids {
        outbox.push_back(kid.copy(alloc)?)?;
    }
    Ok(outbox)
}
