//! The workers of a command. It must not know which work they do.
ghost use Rattle.std.specs.Prelude.{◌<◌, ◌≤◌, MatchResult};
ghost use Rattle.ovl_board.specs.Machine.{worker_limit};
ghost use Rattle.ovl_board.specs.Pieces.{space_root};
ghost use Rattle.ovl_board.specs.Parcels.{IsPlain, parcel_views};
ghost use Rattle.ovl_pool.specs.Runs.{MayBeRefused};
ghost use Rattle.ovl_engine.specs.Outcomes.{IsFailedWalk};

use crate::faults::EngineFault;
use ovl_board::{Parcel, Piece, Work};
use ovl_pool::{Gate, run};
use std::alloc::Global;
use std::sync::Wait;
use std::thread::Threads;

/// The workers of a command, 1 to [`ovl_board::WORKER_LIMIT`], with the gate that they ask before
/// each visit.
#[derive(Drop)]
pub(crate) struct WorkerTeam<'a, G, R> {
    pub(crate) rt: &'a R,
    pub(crate) alloc: Global,
    pub(crate) workers: usize,
    pub(crate) gate: &'a G,
}

impl<G: Gate + Sync, R: Threads + Wait + Sync> WorkerTeam<'_, G, R> {
    /// The plain walk of a work from `/` of this space.
    pub(crate) fn walk<W: Work + Sync>(
        &self,
        work: &W,
        space: u16,
    ) -> Result<Vec<Parcel<W::Out>>, EngineFault>
    where
        W::Out: Send,
        requires { (0 < self.now.workers) × (self.now.workers ≤ worker_limit) }
        ensures { MatchResult result
            (λ parcels. IsPlain (W.kids_of work.now) (W.out_of work.now) (space_root space)
            (parcel_views W.seen parcels.items))
            (λ fault. IsFailedWalk
            (MayBeRefused (W.kids_of work.now) (G.may_refuse self.now.gate.now)
            (space_root space)) fault) }
    {
        let root = Piece::root(self.alloc, space);
        let (parcels, _) = run(self.rt, self.alloc, work, root, self.workers, self.gate)?;
        Ok(parcels)
    }
}
