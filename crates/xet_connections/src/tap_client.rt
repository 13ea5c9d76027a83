//! Connections behind a tap.
ghost use Rattle.std.specs.Prelude.{◌≡◌, []};
ghost use Rattle.xet_outside.specs.Answers.{plans_in};
ghost use Rattle.xet_outside.specs.Told.{BlockCall, PlanCall};
ghost use Rattle.xet_connections.specs.HonestPlans.{PlansAreHonest, PlansAreHonest-prop};
ghost use Rattle.xet_store.specs.Taps.{AreGiven, behind, said_behind};

use crate::mem_client::MemClient;
use std::alloc::Global;
use std::snapshot::Snapshot;
use xet_base::{FileRange, MerkleHash};
use xet_outside::{BlockAnswer, BlockRequest, Client, ClientError, PlanAnswer};
use xet_store::Tap;
use xet_store::client_log::ClientLog;

/// A connection to a store in memory behind a tap: each block that the connection answers goes through the tap. What it
/// tells of its answers has the blocks as the tap handed them on, those that the tap had given before in front. It was
/// asked what it was asked since it was made.
pub struct TapClient<'a, 't, T: Tap> {
    inner: MemClient<'a>,
    tap: &'t mut T,
    // the tap at first
    start: Snapshot<T>,
    log: ClientLog,
    pub ghost given: { AreGiven (said_behind (T.told start.value) log) (T.told tap.now) },
    pub ghost plans: { PlansAreHonest inner.store.now log.asked (plans_in log.said) } by { PlansAreHonest-prop
        inner.store.now log.asked (plans_in log.said) },
}

impl<'a, 't, T: Tap> TapClient<'a, 't, T> {
    /// The connection behind the tap.
    pub fn new(inner: MemClient<'a>, tap: &'t mut T) -> TapClient<'a, 't, T>
        ensures told { ⟦<TapClient<'a, 't, T> as Client>⟧.told result ≡ behind inner.entry.store.now
            (record { asked = []; said = []; served = [] }) (T.told tap.entry.now)
            (T.told tap.entry.now) tap.entry.ghost_name }
        ensures tap { result.tap ≡ tap.entry }
    {
        let start = Snapshot::of(tap);
        TapClient {
            inner,
            tap,
            start,
            log: ClientLog::new(),
        }
    }

    /// The tap. The connection ends. The blocks that it said are those that the tap gave, and its answers to queries
    /// are those of the store, also where the tap hands on other blocks.
    pub fn into_tap(self) -> &'t mut T
        ensures tap { result ≡ self.entry.tap }
        ensures given { AreGiven (⟦<TapClient<'a, 't, T> as Client>⟧.told self.entry).said (T.told self.entry.tap.now) }
        ensures plans { PlansAreHonest self.entry.inner.store.now self.entry.log.asked (plans_in self.entry.log.said) }
    {
        let TapClient {
            inner: _,
            tap,
            start: _,
            log: _,
        } = self;
        tap
    }
}

impl<'a, 't, T: Tap> Client for TapClient<'a, 't, T> {
    ghost told = { λ c. behind c.inner.store.now c.log (T.told c.start.value) (T.told c.tap.now) c.tap.ghost_name };

    /// As the connection behind the tap does.
    fn waits(&self) -> bool {
        self.inner.waits()
    }

    fn plan(
        &mut self,
        alloc: Global,
        file: &MerkleHash,
        range: FileRange,
    ) -> Result<PlanAnswer, ClientError>
        ensures { PlanCall (⟦<TapClient<'a, 't, T> as Client>⟧.told self.old)
            (⟦<TapClient<'a, 't, T> as Client>⟧.told self.new) file.now range result }
    {
        let answer = self.inner.plan(alloc, file, range)?;
        self.log = self.log.and_plan(file, &range, &answer);
        Ok(answer)
    }

    fn block(&mut self, alloc: Global, request: &BlockRequest) -> Result<BlockAnswer, ClientError>
        ensures { BlockCall (⟦<TapClient<'a, 't, T> as Client>⟧.told self.old)
            (⟦<TapClient<'a, 't, T> as Client>⟧.told self.new) request.now result }
    {
        let BlockAnswer::Bytes(block) = self.inner.block(alloc, request)? else {
            return Ok(BlockAnswer::Expired);
        };
        let answer = BlockAnswer::Bytes(self.tap.pass(alloc, request, block)?);
        self.log = self.log.and_block(request, &answer);
        Ok(answer)
    }
}
