//! What a worker notes at the tally, and what that says it does next.
ghost use Rattle.std.specs.Prelude.{◌≡◌, ◌<◌, ◌+◌, ◌^◌, OnOk, IfOk, MatchResult};
ghost use Rattle.ovl_pool.specs.declared.tally_handle.NextAction.TheVariants.{End};
ghost use Rattle.ovl_pool.specs.declared.tallies.Finished.{Finished};

use crate::shares::Shares;
use crate::tallies::{Finished, Tally};
use std::alloc::AllocError;
use std::sync::ledger::Ledger;
use std::sync::{Mutex, Wait};

// The most pieces without kids that a worker delivers before it notes them.
const UNNOTED_LIMIT: u64 = 64;

/// What a worker does next.
#[derive(Drop)]
pub(crate) enum NextAction {
    /// It looks for a piece.
    Work,
    /// It waits for pieces of others.
    Wait,
    /// It ends: all that is known was delivered, or a worker met a fault.
    End(Finished),
}

/// A worker's way to the tally, with its shares of what is noted there. A piece with kids is noted
/// before these are pushed, since others may take them then; pieces without kids are noted some at
/// a time, so that workers seldom meet at the lock.
#[derive(Drop)]
pub(crate) struct TallyHandle<'a, R, K: Ledger, D: Ledger> {
    rt: &'a R,
    tally: &'a Mutex<Tally<K, D>>,
    shares: Shares<K, D>,
    unnoted: u64,
    ghost fits: { unnoted + 1 < 2 ^ 64 },
    ghost backed: { (0 < shares.known.parts) × (0 < shares.delivered.parts) },
}

impl<'a, R: Wait, K: Ledger, D: Ledger> TallyHandle<'a, R, K, D> {
    /// The way to this tally, with nothing noted so far.
    pub(crate) fn of(
        rt: &'a R,
        tally: &'a Mutex<Tally<K, D>>,
        shares: Shares<K, D>,
    ) -> TallyHandle<'a, R, K, D>
        requires { (0 < shares.known.parts) × (0 < shares.delivered.parts) }
        ensures shares { result.shares ≡ shares }
        ensures none { result.unnoted ≡ 0 }
    {
        TallyHandle {
            rt,
            tally,
            shares,
            unnoted: 0,
        }
    }

    /// Notes that a piece with this many kids was delivered, at once or later. Fails where the
    /// tally is at its end.
    pub(crate) fn deliver(&mut self, kids: u64) -> Result<NextAction, AllocError>
        ensures known { MatchResult result
            (λ _. self.new.shares.known.amount ≡ self.old.shares.known.amount + kids)
            (λ _. self.new.shares.known.amount ≡ self.old.shares.known.amount) }
        ensures delivered { OnOk result (self.new.shares.delivered.amount + self.new.unnoted
            ≡ self.old.shares.delivered.amount + self.old.unnoted + 1) }
        ensures settled { IfOk result (λ next.
            (finished : Finished) → next ≡ End finished → self.new.unnoted ≡ 0) }
        ensures parts { (self.new.shares.known.parts ≡ self.old.shares.known.parts)
            × (self.new.shares.delivered.parts ≡ self.old.shares.delivered.parts) }
    {
        // Made by hand (1): the tally would pass 2^64 - 1 pieces.
        let pieces = self.unnoted + 1;
        if kids == 0 && pieces < UNNOTED_LIMIT {
            self.unnoted = pieces;
            return Ok(NextAction::Work);
        }
        let mut tally = self.tally.lock(self.rt);
        let Shares { known, delivered } = &mut self.shares;
        if !tally.deliver_many(pieces, kids, known, delivered) {
            return Err(AllocError);
        }
        self.unnoted = 0;
        match tally.finished() {
            Some(finished) => Ok(NextAction::End(finished)),
            None => Ok(NextAction::Work),
        }
    }

    /// Notes all that was delivered. Fails where the tally is at its end.
    pub(crate) fn flush(&mut self) -> Result<NextAction, AllocError>
        ensures known { self.new.shares.known.amount ≡ self.old.shares.known.amount }
        ensures delivered { OnOk result (self.new.shares.delivered.amount + self.new.unnoted
            ≡ self.old.shares.delivered.amount + self.old.unnoted) }
        ensures settled { OnOk result (self.new.unnoted ≡ 0) }
        ensures parts { (self.new.shares.known.parts ≡ self.old.shares.known.parts)
            × (self.new.shares.delivered.parts ≡ self.old.shares.delivered.parts) }
    {
        // Made by hand (1): the tally would pass 2^64 - 1 pieces.
        let mut tally = self.tally.lock(self.rt);
        let Shares { known, delivered } = &mut self.shares;
        if !tally.deliver_many(self.unnoted, 0, known, delivered) {
            return Err(AllocError);
        }
        self.unnoted = 0;
        match tally.finished() {
            Some(finished) => Ok(NextAction::End(finished)),
            None => Ok(NextAction::Wait),
        }
    }

    /// Notes that the worker met a fault.
    pub(crate) fn fail(&mut self) -> Finished
        ensures { (self.new.shares ≡ self.old.shares) × (self.new.unnoted ≡ self.old.unnoted) }
    {
        // Made by hand (1): lets the others know that a worker met a fault, which its output says.
        self.tally.lock(self.rt).fail()
    }

    /// The shares, with what was noted, if the tally said that there is nothing more to do.
    pub(crate) fn into_shares(self, _over: Finished) -> Shares<K, D>
        ensures { result ≡ self.entry.shares }
    {
        let TallyHandle {
            rt: _,
            tally: _,
            shares,
            unnoted: _,
        } = self;
        shares
    }
}
