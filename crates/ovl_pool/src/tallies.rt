//! How much is known and delivered, for all workers. It must not know pieces.
ghost use Rattle.std.specs.Prelude.{◌≡◌, ◌↔◌, ◌≤◌, ◌<◌, ◌+◌, ◌^◌, ◌⊎◌, IsTrue, IsSome, true, false};
ghost use Rattle.std.specs.Bool.{OnTrue, OnFalse};

use std::sync::ledger::{Book, Ledger, Share};

/// How many pieces are known, how many of them were delivered, and whether a worker met a fault.
/// The workers have shares of two ledgers, whose books it keeps: what each of them noted, and all
/// of them together.
#[derive(Drop)]
pub struct Tally<K: Ledger, D: Ledger> {
    /// The root, and all kids of the pieces that were delivered.
    pub known: u64,
    /// The pieces that have a parcel.
    pub delivered: u64,
    /// Whether a worker met a fault.
    pub failed: bool,
    kids: Book<K>,
    parcels: Book<D>,
    ghost covered: { delivered ≤ known },
    ghost known_noted: { known ≡ kids.total + 1 },
    ghost delivered_noted: { delivered ≡ parcels.total },
}

/// The sign that there is nothing more to do. Only a tally makes one, and a worker ends only by
/// one.
#[derive(Drop)]
pub(crate) struct Finished {
    told: (),
}

impl<K: Ledger, D: Ledger> Tally<K, D> {
    /// The tally before any visit: only the root is known. It keeps the empty books of the ledgers
    /// of which workers note kids and parcels.
    pub fn start(kids: Book<K>, parcels: Book<D>) -> Tally<K, D>
        requires { (kids.total ≡ 0) × (parcels.total ≡ 0) }
        ensures { (result.known ≡ 1) × (result.delivered ≡ 0) × (result.failed ≡ false) }
    {
        Tally {
            known: 1,
            delivered: 0,
            failed: false,
            kids,
            parcels,
        }
    }

    /// Notes that one of the known pieces was delivered, and that its kids are known now, in the
    /// tally and in a worker's shares. Refuses, with nothing changed, exactly if more than 2^64 - 1
    /// pieces would be known or none is undelivered.
    pub fn deliver(&mut self, kids: u64, known: &mut Share<K>, delivered: &mut Share<D>) -> bool
        requires { (0 < known.old.parts) × (0 < delivered.old.parts) }
        ensures possible { IsTrue result
            ↔ ((self.old.known + kids < 2 ^ 64) × (self.old.delivered < self.old.known)) }
        ensures counted { OnTrue result
            ((self.new.known ≡ self.old.known + kids)
            × (self.new.delivered ≡ self.old.delivered + 1)) }
        ensures noted { OnTrue result
            ((known.new.amount ≡ known.old.amount + kids)
            × (delivered.new.amount ≡ delivered.old.amount + 1)) }
        ensures refused { OnFalse result
            ((self.new.known ≡ self.old.known) × (self.new.delivered ≡ self.old.delivered)) }
        ensures same { OnFalse result
            ((known.new.amount ≡ known.old.amount)
            × (delivered.new.amount ≡ delivered.old.amount)) }
        ensures parts { (known.new.parts ≡ known.old.parts)
            × (delivered.new.parts ≡ delivered.old.parts) }
        ensures failed { self.new.failed ≡ self.old.failed }
    {
        self.deliver_many(1, kids, known, delivered)
    }

    /// Notes that this many of the known pieces were delivered, and that the kids of all of them
    /// are known now. Refuses, with nothing changed, exactly if more than 2^64 - 1 pieces would be
    /// known or fewer are undelivered.
    pub(crate) fn deliver_many(
        &mut self,
        pieces: u64,
        kids: u64,
        known: &mut Share<K>,
        delivered: &mut Share<D>,
    ) -> bool
        requires { (0 < known.old.parts) × (0 < delivered.old.parts) }
        ensures possible { IsTrue result
            ↔ ((self.old.known + kids < 2 ^ 64) × (self.old.delivered + pieces ≤ self.old.known)) }
        ensures counted { OnTrue result
            ((self.new.known ≡ self.old.known + kids)
            × (self.new.delivered ≡ self.old.delivered + pieces)) }
        ensures noted { OnTrue result
            ((known.new.amount ≡ known.old.amount + kids)
            × (delivered.new.amount ≡ delivered.old.amount + pieces)) }
        ensures refused { OnFalse result
            ((self.new.known ≡ self.old.known) × (self.new.delivered ≡ self.old.delivered)) }
        ensures same { OnFalse result
            ((known.new.amount ≡ known.old.amount)
            × (delivered.new.amount ≡ delivered.old.amount)) }
        ensures parts { (known.new.parts ≡ known.old.parts)
            × (delivered.new.parts ≡ delivered.old.parts) }
        ensures failed { self.new.failed ≡ self.old.failed }
    {
        if pieces > self.known - self.delivered {
            return false;
        }
        let Some(more) = self.known.checked_add(kids) else {
            return false;
        };
        self.kids.add(known, kids);
        self.parcels.add(delivered, pieces);
        self.known = more;
        self.delivered += pieces;
        true
    }

    /// Notes that a worker met a fault, after which there is nothing more to do.
    pub(crate) fn fail(&mut self) -> Finished
        ensures failed { self.new.failed ≡ true }
        ensures same { (self.new.known ≡ self.old.known)
            × (self.new.delivered ≡ self.old.delivered) }
    {
        self.failed = true;
        Finished { told: () }
    }

    /// Whether there is nothing more to do, exactly: all that is known was delivered, or a worker
    /// met a fault.
    pub(crate) fn finished(&self) -> Option<Finished>
        ensures { IsSome result
            ↔ ((self.now.failed ≡ true) ⊎ (self.now.delivered ≡ self.now.known)) }
    {
        if self.failed || self.delivered == self.known {
            return Some(Finished { told: () });
        }
        None
    }

    /// Shows by all shares in one, after the workers were joined, that the root and the kids that
    /// they count are known, and that the parcels that they count were delivered. Changes nothing.
    pub fn audit(&mut self, known: &mut Share<K>, delivered: &mut Share<D>)
        requires { (known.old.parts ≡ K.parts) × (delivered.old.parts ≡ D.parts) }
        ensures told { (self.new.known ≡ known.old.amount + 1)
            × (self.new.delivered ≡ delivered.old.amount) }
        ensures same { (self.new.known ≡ self.old.known)
            × (self.new.delivered ≡ self.old.delivered) }
        ensures failed { self.new.failed ≡ self.old.failed }
    {
        self.kids.audit(known);
        self.parcels.audit(delivered);
    }
}
