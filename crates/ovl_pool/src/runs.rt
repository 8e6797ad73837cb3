//! A run from its root to the plain walk. It must not know what an output means.
ghost use Rattle.std.specs.Prelude.{◌≡◌, ◌↔◌, ◌<◌, ◌≤◌, ◌+◌, ◌⊎◌, [], List, length, Err, IfOk, IfErr, vec_len};
ghost use Rattle.ovl_board.specs.declared.pieces.Piece.{Piece};
ghost use Rattle.ovl_board.specs.Machine.{worker_limit};
ghost use Rattle.ovl_board.specs.Parcels.{IsPlain, parcel_views};
ghost use Rattle.ovl_pool.specs.declared.runs.RunFault.TheVariants.{Workers, Gate as GateFault, Board, Memory};
ghost use Rattle.ovl_board.specs.Balance.{IsBalanced, AllLawful};
ghost use Rattle.ovl_board.specs.Assembly.{IsInOrder, bare};
ghost use Rattle.ovl_pool.specs.Flows.{AreSettled, CountsParcels, all_pushed, all_taken, each_one};
ghost use Rattle.ovl_pool.specs.WorkerOutputs.{IsClean};
ghost use Rattle.ovl_pool.specs.Passes.{AreSeated};
ghost use Rattle.ovl_pool.specs.Runs.{MayBeRefused, IsBoardMemory, IsEndFault, IsRunFault, CountsAll, no_lanes};

use crate::gates::Gate;
use crate::seating::{close_lanes, seat_workers};
use crate::shares::Shares;
use crate::tallies::Tally;
use crate::worker_outputs::WorkerOutput;
use crate::workers::{RunContext, Worker};
use ovl_board::laws::balanced_parcels_have_no_fault;
use ovl_board::{BoardFault, Parcel, Piece, Work, assemble};
use ovl_lanes::{LaneFault, Thief, lanes};
use std::alloc::{AllocError, Global};
use std::marker::Brand;
use std::sync::ledger::{Blank, Ledger};
use std::sync::{Mutex, Wait};
use std::thread::Threads;
use thiserror::Error;

/// How many pieces a run knew, delivered, took from its lanes, and left in them.
#[derive(Clone, Copy, Debug, PartialEq, Eq)]
pub struct RunCount {
    /// The root, and all kids of the pieces that were delivered.
    pub known: u64,
    /// The pieces that have a parcel.
    pub delivered: u64,
    /// The pieces that workers took from a lane, their own or another one's.
    pub taken: u64,
    /// The pieces that were left in the lanes.
    pub left: u64,
}

/// Why a run gave no walk.
#[derive(Debug, PartialEq, Eq, Drop, Error)]
pub enum RunFault {
    /// The number of workers is outside 1 to [`ovl_board::WORKER_LIMIT`].
    #[error("there are 1 to 64 workers")]
    Workers,
    /// The gate refused a piece that is reached from the root.
    #[error("the gate refused a piece")]
    Gate,
    /// The parcels that the workers brought can't be assembled. Out of memory then: no run makes
    /// parcels that have another fault.
    #[error("the parcels are no walk: {0}")]
    Board(BoardFault),
    /// Out of memory.
    #[error("out of memory")]
    Memory,
}

impl From<LaneFault> for RunFault {
    ghost from_gives = { λ lanes fault. fault ≡ no_lanes lanes };

    fn from(lanes: LaneFault) -> RunFault {
        match lanes {
            LaneFault::Count => RunFault::Workers,
            LaneFault::Memory => RunFault::Memory,
        }
    }
}

impl From<BoardFault> for RunFault {
    ghost from_gives = { λ board fault. fault ≡ Board board };

    fn from(board: BoardFault) -> RunFault {
        RunFault::Board(board)
    }
}

impl From<AllocError> for RunFault {
    ghost from_gives = { λ _ fault. fault ≡ Memory };

    fn from(_: AllocError) -> RunFault {
        RunFault::Memory
    }
}

/// Runs the work from `root` by 1 to [`ovl_board::WORKER_LIMIT`] workers, each in a thread of its
/// own with a lane of its own, and gives the plain walk: a worker visits the pieces of its lane,
/// steals from the others where it has none, and ends where all that is known was delivered or a
/// worker met a fault. The gate is asked for each piece before its visit.
///
/// At Ok the parcels are the plain walk, whatever the workers did: each of its pieces was known,
/// delivered and taken once, and none is left. `Workers` is for every other number of them; `Gate`
/// where the gate refused a piece that is reached from the root; `Board` only if memory to assemble
/// the parcels is refused. A run that is refused memory otherwise gives `Memory`, or `Gate` if that
/// came as well. It waits for locks, and returns only if each visit and each question to the gate
/// does.
///
/// What holds of a work of 200 pieces, whatever the number of workers, and nothing is refused:
///
/// ```
/// let (parcels, count) = run(rt, alloc, work, Piece::root(alloc, 0), workers, &OpenGate)?;
/// let walk = plain_walk(alloc, work, Piece::root(alloc, 0))?;
/// Ok(
///     parcels == walk
///         && (count.known, count.delivered, count.taken, count.left) == (200, 200, 200, 0),
/// )
/// ```
pub fn run<W: Work + Sync, G: Gate + Sync, R: Threads + Wait + Sync>(
    rt: &R,
    alloc: Global,
    work: &W,
    root: Piece,
    workers: usize,
    gate: &G,
) -> Result<(Vec<Parcel<W::Out>>, RunCount), RunFault>
where
    W::Out: Send,
    ensures plain { IfOk result (λ done.
        IsPlain (W.kids_of work.now) (W.out_of work.now) root (parcel_views W.seen done.0.items)) }
    ensures balance { IfOk result (λ done. IsBalanced root (bare done.0.items) []) }
    ensures counted { IfOk result (λ done. CountsAll (vec_len done.0) done.1) }
    ensures workers { (result ≡ Err Workers) ↔ ((workers < 1) ⊎ (worker_limit < workers)) }
    ensures gate { (result ≡ Err GateFault)
        → MayBeRefused (W.kids_of work.now) (G.may_refuse gate.now) root }
    ensures board { IfErr result IsBoardMemory }
{
    let blanks = Blanks {
        kids: Blank::new(workers as u64),
        parcels: Blank::new(workers as u64),
    };
    run_noted::<W, G, R, Brand, Brand>(rt, alloc, work, root, workers, gate, blanks)
}

// The blanks of a run's two ledgers: of the kids that workers note, and of the parcels.
#[derive(Drop)]
struct Blanks {
    kids: Blank,
    parcels: Blank,
}

// As `run`, by two ledgers of which each worker has a part.
fn run_noted<
    W: Work + Sync,
    G: Gate + Sync,
    R: Threads + Wait + Sync,
    K: Ledger + Send,
    D: Ledger + Send,
>(
    rt: &R,
    alloc: Global,
    work: &W,
    root: Piece,
    workers: usize,
    gate: &G,
    blanks: Blanks,
) -> Result<(Vec<Parcel<W::Out>>, RunCount), RunFault>
where
    W::Out: Send,
    requires kids { (blanks.kids.name ≡ K.name) × (blanks.kids.parts ≡ K.parts)
        × (blanks.kids.parts ≡ workers) }
    requires parcels { (blanks.parcels.name ≡ D.name) × (blanks.parcels.parts ≡ D.parts)
        × (blanks.parcels.parts ≡ workers) }
    ensures plain { IfOk result (λ done.
        IsPlain (W.kids_of work.now) (W.out_of work.now) root (parcel_views W.seen done.0.items)) }
    ensures balance { IfOk result (λ done. IsBalanced root (bare done.0.items) []) }
    ensures counted { IfOk result (λ done. CountsAll (vec_len done.0) done.1) }
    ensures workers { (result ≡ Err Workers) ↔ ((workers < 1) ⊎ (worker_limit < workers)) }
    ensures gate { (result ≡ Err GateFault)
        → MayBeRefused (W.kids_of work.now) (G.may_refuse gate.now) root }
    ensures board { IfErr result IsBoardMemory }
{
    let _deepest = work.deepest();
    let seats = lanes(alloc, workers)?;
    let first = root.copy(alloc)?;
    let (crowd, thieves) = seat_workers(alloc, seats, first)?;
    let (kids, known) = blanks.kids.open::<K>();
    let (parcels, delivered) = blanks.parcels.open::<D>();
    let tally = Mutex::new(Tally::start(kids, parcels));
    let context = RunContext {
        rt,
        alloc,
        work,
        gate,
        tally: &tally,
        thieves: &thieves,
    };
    let (ended, worker_output, shares) = context.run_workers(crowd, Shares { known, delivered })?;
    let count = run_count(tally.into_inner(), shares, ended, thieves);
    outcome(alloc, &root, worker_output, count)
}

// The numbers of the tally and of the lanes, once all workers ended: it puts the shares together,
// joins all passes to their lanes again and closes the lanes.
fn run_count<K: Ledger, D: Ledger>(
    mut tally: Tally<K, D>,
    shares: Shares<K, D>,
    workers: Vec<Worker>,
    thieves: Vec<Thief>,
) -> RunCount
    requires seated { AreSeated thieves.items workers.items }
    requires whole { (shares.known.parts ≡ K.parts) × (shares.delivered.parts ≡ D.parts) }
    requires foreknown { all_pushed each_one workers.items ≤ shares.known.amount + 1 }
    ensures known { result.known ≡ shares.known.amount + 1 }
    ensures delivered { result.delivered ≡ shares.delivered.amount }
    ensures taken { result.taken ≡ all_taken each_one workers.items }
    ensures pushed { all_pushed each_one workers.items ≡ result.taken + result.left }
    ensures left { (left : List Piece)
        × ((length left ≡ result.left) × AreSettled workers.items left) }
{
    let Shares {
        mut known,
        mut delivered,
    } = shares;
    tally.audit(&mut known, &mut delivered);
    let (taken, left) = close_lanes(workers, thieves);
    RunCount {
        known: tally.known,
        delivered: tally.delivered,
        taken,
        left,
    }
}

// What came of a run: `Gate` where it refused a piece, else `Memory` where a worker was out of
// memory, and else what assembly says of the parcels.
fn outcome<T: Drop>(
    alloc: Global,
    root: &Piece,
    worker_output: WorkerOutput<T>,
    count: RunCount,
) -> Result<(Vec<Parcel<T>>, RunCount), RunFault>
    requires lawful { AllLawful (bare worker_output.parcels.items) }
    requires counted { IsClean worker_output → CountsParcels worker_output.parcels.items count }
    requires left { IsClean worker_output
        → (left : List Piece)
        × ((length left ≡ count.left) × IsBalanced root.now (bare worker_output.parcels.items) left) }
    ensures order { IfOk result (λ done. IsInOrder root.now worker_output.parcels.items done.0.items) }
    ensures balance { IfOk result (λ done. IsBalanced root.now (bare done.0.items) []) }
    ensures counted { IfOk result (λ done. CountsAll (vec_len done.0) done.1) }
    ensures fault { IfErr result (IsRunFault worker_output.refused worker_output.out_of_memory count) }
{
    // Made by hand (1): a growth was refused to a worker.
    let WorkerOutput {
        parcels,
        refused,
        out_of_memory,
    } = worker_output;
    if refused.is_some() {
        return Err(RunFault::Gate);
    }
    if out_of_memory {
        return Err(RunFault::Memory);
    }
    walk_of(alloc, root, parcels, count)
}

// What came of a run that met no fault: the parcels in order, with the numbers of the run. Where
// fewer pieces were delivered than are known the workers ended too early, which no run has shown;
// it is given as out of memory.
fn walk_of<T: Drop>(
    alloc: Global,
    root: &Piece,
    parcels: Vec<Parcel<T>>,
    count: RunCount,
) -> Result<(Vec<Parcel<T>>, RunCount), RunFault>
    requires lawful { AllLawful (bare parcels.items) }
    requires counted { CountsParcels parcels.items count }
    requires left { (left : List Piece)
        × ((length left ≡ count.left) × IsBalanced root.now (bare parcels.items) left) }
    ensures order { IfOk result (λ done. IsInOrder root.now parcels.items done.0.items) }
    ensures balance { IfOk result (λ done. IsBalanced root.now (bare done.0.items) []) }
    ensures counted { IfOk result (λ done. CountsAll (vec_len done.0) done.1) }
    ensures fault { IfErr result (IsEndFault count) }
{
    // Made by hand (1): workers that end before all that is known was delivered, which no run has
    // shown.
    if count.known != count.delivered {
        return Err(RunFault::Memory);
    }
    balanced_parcels_have_no_fault();
    let walk = assemble(alloc, root, parcels)?;
    Ok((walk, count))
}
