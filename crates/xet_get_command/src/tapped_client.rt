//! Connections to a store that own the taps before them.
ghost use Rattle.std.specs.Prelude.{◌≡◌, [], count_by, false};
ghost use Rattle.xet_outside.specs.Answers.{plans_in};
ghost use Rattle.xet_outside.specs.Told.{BlockCall, PlanCall};
ghost use Rattle.xet_connections.specs.HonestPlans.{PlansAreHonest, PlansAreHonest-prop};
ghost use Rattle.xet_store.specs.Taps.{AreGiven, said_behind};
ghost use Rattle.xet_ties.specs.InCall.{expired_said};
ghost use Rattle.xet_get_command.specs.steps.OwnTaps.{behind_own};

use std::alloc::Global;
use std::snapshot::Snapshot;
use xet_base::{FileRange, MerkleHash};
use xet_connections::MemClient;
use xet_store::client_log::ClientLog;
use xet_store::{BlockAnswer, BlockRequest, Client, ClientError, PlanAnswer, Tap};

/// A connection to a store in memory behind a tap of its own. It tells what a `TapClient` tells, whose tap is borrowed;
/// many of these stand in a list, and hand their taps back.
pub struct TappedClient<'a, T: Tap> {
    inner: MemClient<'a>,
    tap: T,
    // the tap at first
    start: Snapshot<T>,
    log: ClientLog,
    pub ghost given: { AreGiven (said_behind (T.told start.value) log) (T.told tap) },
    pub ghost plans: { PlansAreHonest inner.store.now log.asked (plans_in log.said) } by { PlansAreHonest-prop
        inner.store.now log.asked (plans_in log.said) },
    pub ghost unexpired: { count_by expired_said log.said ≡ 0 },
}

impl<'a, T: Tap> TappedClient<'a, T> {
    /// The connection behind the tap.
    pub fn new(inner: MemClient<'a>, tap: T) -> TappedClient<'a, T>
        ensures told { ⟦<TappedClient<'a, T> as Client>⟧.told result ≡ behind_own inner.entry.store.now
            (record { asked = []; said = []; served = [] }) (T.told tap) (T.told tap) }
        ensures tap { result.tap ≡ tap }
    {
        let start = Snapshot::of(&tap);
        TappedClient {
            inner,
            tap,
            start,
            log: ClientLog::new(),
        }
    }

    /// The tap. The connection ends.
    pub fn into_tap(self) -> T
        ensures { result ≡ self.entry.tap }
    {
        let TappedClient {
            inner: _,
            tap,
            start: _,
            log: _,
        } = self;
        tap
    }
}

impl<'a, T: Tap> Client for TappedClient<'a, T> {
    ghost told = { λ c. behind_own c.inner.store.now c.log (T.told c.start.value) (T.told c.tap) };

    /// As the connection behind the tap does: not at all.
    fn waits(&self) -> bool
        ensures { result ≡ false }
    {
        self.inner.waits()
    }

    fn plan(
        &mut self,
        alloc: Global,
        file: &MerkleHash,
        range: FileRange,
    ) -> Result<PlanAnswer, ClientError>
        ensures { PlanCall (⟦<TappedClient<'a, T> as Client>⟧.told self.old)
            (⟦<TappedClient<'a, T> as Client>⟧.told self.new) file.now range result }
    {
        let answer = self.inner.plan(alloc, file, range)?;
        self.log = self.log.and_plan(file, &range, &answer);
        Ok(answer)
    }

    fn block(&mut self, alloc: Global, request: &BlockRequest) -> Result<BlockAnswer, ClientError>
        ensures { BlockCall (⟦<TappedClient<'a, T> as Client>⟧.told self.old)
            (⟦<TappedClient<'a, T> as Client>⟧.told self.new) request.now result }
    {
        let BlockAnswer::Bytes(block) = self.inner.block(alloc, request)? else {
            return Ok(BlockAnswer::Expired);
        };
        let answer = BlockAnswer::Bytes(self.tap.pass(alloc, request, block)?);
        self.log = self.log.and_block(request, &answer);
        Ok(answer)
    }
}
