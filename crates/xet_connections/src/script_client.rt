//! A connection by a script.
ghost use Rattle.std.specs.Prelude.{◌≡◌, [], cond, drop, None, Some, slice_get, true};
ghost use Rattle.std.specs.List.{list_any};
ghost use Rattle.xet_outside.specs.Told.{BlockCall, PlanCall};
ghost use Rattle.xet_connections.specs.Scripts.{FollowsBlock, FollowsPlan, expiries_after, faults_after, says};

use crate::mem_client::MemClient;
use std::alloc::Global;
use std::collections::VecDeque;
use xet_base::{FileRange, MerkleHash};
use xet_outside::{BlockAnswer, BlockBytes, BlockRequest, Client, ClientError, PlanAnswer};
use xet_store::MemStore;

/// What a connection by a script does at one call.
#[derive(Drop)]
pub enum ClientStep {
    /// It answers as the store is.
    Honest,
    /// It fails.
    Fail,
    /// It says that the block's URL has expired. At a query it is honest.
    Expire,
    /// It finds no memory.
    NoMemory,
    /// It answers this to a query. At a block it is honest.
    SayPlan(PlanAnswer),
    /// It answers these bytes for a block. At a query it is honest.
    SayBlock(BlockBytes),
}

impl ClientStep {
    /// Whether it answers something of its own.
    fn says(&self) -> bool
        ensures { result ≡ says self.now }
    {
        matches!(self, ClientStep::SayPlan(_) | ClientStep::SayBlock(_))
    }
}

/// Whether a step answers something of its own.
fn speak(steps: &[ClientStep]) -> bool
    ensures { result ≡ list_any says steps.now }
{
    for step in steps {
        if step.says() {
            return true;
        }
    }
    false
}

/// A fake: a connection to a store in memory that does at each of its first calls what a script says. Each failure and
/// each expired answer is counted, and nothing else; the counts stand at their last value at most. It tells the store
/// where no step answers something of its own, and no lists.
#[derive(Drop)]
pub struct ScriptClient<'a> {
    inner: MemClient<'a>,
    steps: VecDeque<ClientStep>,
    // a step of the script answers something of its own
    speaks: bool,
    faults: u64,
    expiries: u64,
    ghost heard: { list_any says steps.items ≡ true → speaks ≡ true },
}

impl<'a> ScriptClient<'a> {
    /// A connection to the store by these steps, from the first to the last. It takes no memory.
    pub fn new(alloc: Global, store: &'a MemStore, steps: Vec<ClientStep>) -> ScriptClient<'a>
        ensures told { ⟦<ScriptClient<'a> as Client>⟧.told result
            ≡ record {
              store = cond (list_any says steps.items) None (Some store.now);
              asked = None;
              said = None;
              served = None;
              faults = 0;
              expiries = 0;
              link = [];
            } }
        ensures steps { result.steps.items ≡ steps.items }
        ensures store { result.inner.store.now ≡ store.now }
    {
        let speaks = speak(steps.as_slice());
        ScriptClient {
            inner: MemClient::new(alloc, store),
            steps: VecDeque::from_vec(steps),
            speaks,
            faults: 0,
            expiries: 0,
        }
    }
}

impl<'a> Client for ScriptClient<'a> {
    ghost told = { λ c. record {
      store = cond c.speaks None (⟦<MemClient<'a> as Client>⟧.told c.inner).store;
      asked = None;
      said = None;
      served = None;
      faults = c.faults;
      expiries = c.expiries;
      link = [];
    } };

    /// The next step: `Fail`, `NoMemory` and `SayPlan` as they say; at every other step, and after the last, the plan
    /// of the range.
    fn plan(
        &mut self,
        alloc: Global,
        file: &MerkleHash,
        range: FileRange,
    ) -> Result<PlanAnswer, ClientError>
        ensures call { PlanCall (⟦<ScriptClient<'a> as Client>⟧.told self.old)
            (⟦<ScriptClient<'a> as Client>⟧.told self.new) file.now range result }
        ensures follows { FollowsPlan self.old.inner.store.now file.now range
            (slice_get self.old.steps.items 0) result }
        ensures faults { (⟦<ScriptClient<'a> as Client>⟧.told self.new).faults
            ≡ faults_after (slice_get self.old.steps.items 0) (⟦<ScriptClient<'a> as Client>⟧.told self.old).faults }
        ensures expiries { (⟦<ScriptClient<'a> as Client>⟧.told self.new).expiries
            ≡ (⟦<ScriptClient<'a> as Client>⟧.told self.old).expiries }
        ensures store { self.new.inner.store.now ≡ self.old.inner.store.now }
        ensures steps { self.new.steps.items ≡ drop 1 self.old.steps.items }
    {
        match self.steps.pop_front() {
            Some(ClientStep::Fail) => {
                self.faults = self.faults.saturating_add(1);
                Err(ClientError::Failed)
            }
            Some(ClientStep::NoMemory) => Err(ClientError::OutOfMemory),
            Some(ClientStep::SayPlan(answer)) => Ok(answer),
            _ => self.inner.plan(alloc, file, range),
        }
    }

    /// The next step: `Fail`, `Expire`, `NoMemory` and `SayBlock` as they say; at every
    /// other step, and after the last, the block of the store.
    fn block(&mut self, alloc: Global, request: &BlockRequest) -> Result<BlockAnswer, ClientError>
        ensures call { BlockCall (⟦<ScriptClient<'a> as Client>⟧.told self.old)
            (⟦<ScriptClient<'a> as Client>⟧.told self.new) request.now result }
        ensures follows { FollowsBlock self.old.inner.store.now request.now
            (slice_get self.old.steps.items 0) result }
        ensures faults { (⟦<ScriptClient<'a> as Client>⟧.told self.new).faults
            ≡ faults_after (slice_get self.old.steps.items 0) (⟦<ScriptClient<'a> as Client>⟧.told self.old).faults }
        ensures expiries { (⟦<ScriptClient<'a> as Client>⟧.told self.new).expiries
            ≡ expiries_after (slice_get self.old.steps.items 0)
            (⟦<ScriptClient<'a> as Client>⟧.told self.old).expiries }
        ensures store { self.new.inner.store.now ≡ self.old.inner.store.now }
        ensures steps { self.new.steps.items ≡ drop 1 self.old.steps.items }
    {
        match self.steps.pop_front() {
            Some(ClientStep::Fail) => {
                self.faults = self.faults.saturating_add(1);
                Err(ClientError::Failed)
            }
            Some(ClientStep::Expire) => {
                self.expiries = self.expiries.saturating_add(1);
                Ok(BlockAnswer::Expired)
            }
            Some(ClientStep::NoMemory) => Err(ClientError::OutOfMemory),
            Some(ClientStep::SayBlock(block)) => Ok(BlockAnswer::Bytes(block)),
            _ => self.inner.block(alloc, request),
        }
    }
}
