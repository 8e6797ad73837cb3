//! A worker's shares of the two ledgers.
ghost use Rattle.std.specs.Prelude.{◌≡◌, ◌≤◌, ◌+◌};
ghost use Rattle.ovl_pool.specs.WorkerThreads.{AreSharesOfBoth};

use std::sync::ledger::{Ledger, Share};

/// A worker's shares of the ledgers of a tally: the kids that it noted, and the parcels.
#[derive(Drop)]
pub(crate) struct Shares<K: Ledger, D: Ledger> {
    pub(crate) known: Share<K>,
    pub(crate) delivered: Share<D>,
}

impl<K: Ledger, D: Ledger> Shares<K, D> {
    /// Cuts shares for this many of the workers off, which count nothing yet.
    pub(crate) fn split_off(&mut self, workers: u64) -> Shares<K, D>
        requires workers { (workers ≤ self.old.known.parts) × (workers ≤ self.old.delivered.parts) }
        requires fresh { (self.old.known.amount ≡ 0) × (self.old.delivered.amount ≡ 0) }
        ensures parts { (result.known.parts ≡ workers) × (result.delivered.parts ≡ workers) }
        ensures fresh { (result.known.amount ≡ 0) × (result.delivered.amount ≡ 0) }
        ensures left { (self.new.known.parts + workers ≡ self.old.known.parts)
            × (self.new.delivered.parts + workers ≡ self.old.delivered.parts) }
        ensures none { (self.new.known.amount ≡ 0) × (self.new.delivered.amount ≡ 0) }
    {
        Shares {
            known: self.known.split_off(workers, 0),
            delivered: self.delivered.split_off(workers, 0),
        }
    }

    /// Both shares in one.
    pub(crate) fn with(self, other: Shares<K, D>) -> Shares<K, D>
        ensures { AreSharesOfBoth self other result }
    {
        let Shares {
            mut known,
            mut delivered,
        } = self;
        known.merge(other.known);
        delivered.merge(other.delivered);
        Shares { known, delivered }
    }
}
