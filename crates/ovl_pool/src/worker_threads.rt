//! The threads of a run, started and joined. They must not know what a worker does.
ghost use Rattle.std.specs.Prelude.{◌≡◌, ◌++◌, IfOk, IsOkAnd};
ghost use Rattle.ovl_pool.specs.WorkerThreads.{AreSharesOfBoth};
ghost use Rattle.ovl_pool.specs.WorkerOutputs.{IsWorkerOutputOfBoth};

use crate::gates::Gate;
use crate::shares::Shares;
use crate::worker_outputs::WorkerOutput;
use crate::workers::{RunContext, Worker};
use ovl_board::Work;
use std::alloc::{AllocError, Global};
use std::sync::Wait;
use std::sync::ledger::Ledger;
use std::thread::{Threads, join};

impl<
    W: Work + Sync,
    G: Gate + Sync,
    R: Threads + Wait + Sync,
    K: Ledger + Send,
    D: Ledger + Send,
> RunContext<'_, W, G, R, K, D>
where
    W::Out: Send,
{
    ghost use Rattle.std.specs.Prelude.{◌<◌, IfOk, vec_len};
    ghost use Rattle.ovl_pool.specs.WorkerThreads.{AreStarting, HaveEnded};

    /// The work of these workers, one of them in this thread and each other one in a thread of
    /// its own, and their outputs in one. It ends when all of them ended, and gives them back.
    #[cycle(run_workers)]
    pub(crate) fn run_workers(
        &self,
        workers: Vec<Worker>,
        shares: Shares<K, D>,
    ) -> Result<(Vec<Worker>, WorkerOutput<W::Out>, Shares<K, D>), AllocError>
        requires begun { AreStarting self.now.thieves.now workers.items shares }
        ensures ended { IfOk result (λ r. HaveEnded W.seen W.kids_of W.out_of G.may_refuse self.now
            workers.items r.0.items r.1 r.2) }
    {
        if workers.len() > 1 {
            return self.halves(workers, shares);
        }
        self.alone(workers, shares)
    }

    // The work of two workers or more, of whom the later half is in another thread. Each half
    // brings one output in order, so that only two are merged here.
    #[cycle(run_workers)]
    fn halves(
        &self,
        mut workers: Vec<Worker>,
        mut shares: Shares<K, D>,
    ) -> Result<(Vec<Worker>, WorkerOutput<W::Out>, Shares<K, D>), AllocError>
        requires several { 1 < vec_len workers }
        requires begun { AreStarting self.now.thieves.now workers.items shares }
        ensures ended { IfOk result (λ r. HaveEnded W.seen W.kids_of W.out_of G.may_refuse self.now
            workers.items r.0.items r.1 r.2) }
    {
        let later = workers.split_off(workers.len() / 2)?;
        let latter = shares.split_off(later.len() as u64);
        let second = || -> Result<(Vec<Worker>, WorkerOutput<W::Out>, Shares<K, D>), AllocError>
            requires begun { AreStarting self.now.thieves.now later.items latter }
            ensures ended { IfOk result
                (λ r. HaveEnded W.seen W.kids_of W.out_of G.may_refuse self.entry.now
                later.items r.0.items r.1 r.2) }
        { self.run_workers(later, latter) };
        let first = || -> Result<(Vec<Worker>, WorkerOutput<W::Out>, Shares<K, D>), AllocError>
            requires begun { AreStarting self.now.thieves.now workers.items shares }
            ensures ended { IfOk result
                (λ r. HaveEnded W.seen W.kids_of W.out_of G.may_refuse self.entry.now
                workers.items r.0.items r.1 r.2) }
        { self.run_workers(workers, shares) };
        let (after, before) = join(self.rt, second, first);
        both(self.alloc, before, after)
    }
}

impl<W: Work, G: Gate, R: Wait, K: Ledger, D: Ledger> RunContext<'_, W, G, R, K, D> {
    ghost use Rattle.std.specs.Prelude.{IfOk};
    ghost use Rattle.ovl_pool.specs.WorkerThreads.{AreStarting, HaveEnded};

    // The work of the last of these workers, if there is one, in this thread.
    fn alone(
        &self,
        mut workers: Vec<Worker>,
        shares: Shares<K, D>,
    ) -> Result<(Vec<Worker>, WorkerOutput<W::Out>, Shares<K, D>), AllocError>
        requires begun { AreStarting self.now.thieves.now workers.items shares }
        ensures ended { IfOk result (λ r. HaveEnded W.seen W.kids_of W.out_of G.may_refuse self.now
            workers.items r.0.items r.1 r.2) }
    {
        let Some(worker) = workers.pop() else {
            return Ok((workers, WorkerOutput::empty(self.alloc), shares));
        };
        let (worker, worker_output, shares) = self.run_worker(worker, shares);
        workers.push(worker)?;
        Ok((workers, worker_output, shares))
    }
}

// What both halves brought and noted, in one. Fails where one of them did.
fn both<T: Drop, K: Ledger, D: Ledger>(
    alloc: Global,
    before: Result<(Vec<Worker>, WorkerOutput<T>, Shares<K, D>), AllocError>,
    after: Result<(Vec<Worker>, WorkerOutput<T>, Shares<K, D>), AllocError>,
) -> Result<(Vec<Worker>, WorkerOutput<T>, Shares<K, D>), AllocError>
    ensures { IfOk result (λ r. IsOkAnd before (λ b. IsOkAnd after (λ a.
        (r.0.items ≡ b.0.items ++ a.0.items)
        × (IsWorkerOutputOfBoth b.1 a.1 r.1 × AreSharesOfBoth b.2 a.2 r.2)))) }
{
    in_one(alloc, before?, after?)
}

// What two halves that ended brought and noted, in one.
fn in_one<T: Drop, K: Ledger, D: Ledger>(
    alloc: Global,
    before: (Vec<Worker>, WorkerOutput<T>, Shares<K, D>),
    after: (Vec<Worker>, WorkerOutput<T>, Shares<K, D>),
) -> Result<(Vec<Worker>, WorkerOutput<T>, Shares<K, D>), AllocError>
    ensures workers { IfOk result (λ r. r.0.items ≡ before.0.items ++ after.0.items) }
    ensures worker_output { IfOk result (λ r. IsWorkerOutputOfBoth before.1 after.1 r.1) }
    ensures shares { IfOk result (λ r. AreSharesOfBoth before.2 after.2 r.2) }
{
    let (mut ended, worker_output, noted) = before;
    let (mut more, brought, beside) = after;
    ended.append(&mut more)?;
    Ok((
        ended,
        worker_output.with(alloc, brought)?,
        noted.with(beside),
    ))
}
