//! An honest connection to a store in memory.
ghost use Rattle.std.specs.Prelude.{◌≡◌, ◌+◌, ◌≤◌, [], false, Some, IfErr, IfOk, IfSome, length};
ghost use Rattle.xet_base.specs.Store.{IsValid, terms_of_file};
ghost use Rattle.xet_store.specs.MemPlans.{IsWalk, bytes_before};
ghost use Rattle.xet_outside.specs.Told.{BlockCall, PlanCall};
ghost use Rattle.xet_store.specs.MemBlocks.{mem_block};
ghost use Rattle.xet_store.specs.MemUrls.{HasUrl, found_count, mem_url};

use crate::mem_plan::{MemAnswer, plan_answer};
use std::alloc::Global;
use xet_base::{FileRange, MerkleHash};
use xet_outside::block::{BlockAnswer, BlockRequest};
use xet_outside::client::{Client, ClientError};
use xet_outside::plan::PlanAnswer;
use xet_store::MemStore;
use xet_store::client_log::ClientLog;
use xet_store::mem_block::block_answer;
use xet_store::mem_cut::Walk;

/// A walk over the terms of a file, where it is one over this file and before the range; else one that passed nothing.
#[tactic(auto, using(xet_store::proofs::CallerLemmas::walk_start, xet_store::proofs::CallerLemmas::walk_same))]
fn walk_before(
    store: &MemStore,
    walked: MerkleHash,
    walk: Walk,
    file: &MerkleHash,
    range: FileRange,
) -> Walk
    requires { IsWalk store.now (terms_of_file store.now walked) walk.passed walk.place }
    ensures walk { IsWalk store.now (terms_of_file store.now file.now) result.passed result.place }
    ensures early { result.place ≤ range.start }
{
    let _ = store;
    if walked == *file && walk.place <= range.start {
        return walk;
    }
    Walk::start()
}

/// A connection to a store in memory. It never fails, and no answer of it is an expired one. What it was asked, what it
/// said and what it served are told to proofs alone, and take no memory.
///
/// In the Rust crates: `cas_client::LocalClient`.
#[derive(Drop)]
pub struct MemClient<'a> {
    store: &'a MemStore,
    log: ClientLog,
    // how many plans it found
    plans: u64,
    // where the xorb of each block of the last plan is looked for first
    places: Vec<usize>,
    // the file of the last plan, and how far the walk over its terms came, from where the next one goes on
    walked: MerkleHash,
    walk: Walk,
    ghost counted: { plans ≡ found_count log.said },
    ghost within: { walk.passed ≤ length (terms_of_file store.now walked) },
    ghost placed: { walk.place ≡ bytes_before store.now (terms_of_file store.now walked) walk.passed },
}

impl<'a> MemClient<'a> {
    /// A connection that was asked nothing yet. It takes no memory.
    #[tactic(auto, using(xet_store::proofs::CallerLemmas::bytes_none))]
    pub fn new(alloc: Global, store: &'a MemStore) -> MemClient<'a>
        ensures told { ⟦<MemClient<'a> as Client>⟧.told result ≡ record {
          store = Some store.now;
          asked = Some [];
          said = Some [];
          served = Some [];
          faults = 0;
          expiries = 0;
          link = [];
        } }
        ensures valid { IsValid store.now }
        ensures store { result.store.now ≡ store.now }
    {
        store.recall_valid();
        MemClient {
            store,
            log: ClientLog::new(),
            plans: 0,
            places: Vec::new(alloc),
            walked: MerkleHash([0; 32]),
            walk: Walk::start(),
        }
    }

    /// The walk from which a query for this range of this file goes on.
    #[tactic(auto, using(xet_store::proofs::CallerLemmas::walk_of))]
    fn walk_for(&self, file: &MerkleHash, range: FileRange) -> Walk
        ensures walk { IsWalk self.now.store.now (terms_of_file self.now.store.now file.now)
            result.passed result.place }
        ensures early { result.place ≤ range.start }
    {
        walk_before(self.store, self.walked, self.walk, file, range)
    }
}

impl<'a> Client for MemClient<'a> {
    ghost told = { λ c. record {
      store = Some c.store.now;
      asked = Some c.log.asked;
      said = Some c.log.said;
      served = Some c.log.served;
      faults = 0;
      expiries = 0;
      link = [];
    } };

    /// No: each answer is made from memory.
    fn waits(&self) -> bool
        ensures { result ≡ false }
    {
        false
    }

    /// The plan of the range. The plans that were found are counted from 1, and the URL of all their entries is `mem:`
    /// and the number. `OutOfMemory` where an allocation was refused, or u64::MAX plans were found.
    #[tactic(auto, using(xet_store::proofs::CallerLemmas::walk_within, xet_store::proofs::CallerLemmas::walk_place))]
    fn plan(
        &mut self,
        alloc: Global,
        file: &MerkleHash,
        range: FileRange,
    ) -> Result<PlanAnswer, ClientError>
        ensures call { PlanCall (⟦<MemClient<'a> as Client>⟧.told self.old)
            (⟦<MemClient<'a> as Client>⟧.told self.new) file.now range result }
        ensures url { IfSome (⟦<MemClient<'a> as Client>⟧.told self.old).said (λ said.
            IfOk result (HasUrl (mem_url (found_count said + 1)))) }
        ensures error { IfErr result (λ e. e ≡ ClientError.OutOfMemory) }
        ensures store { self.new.store.now ≡ self.old.store.now }
    {
        let number = self.plans.checked_add(1).ok_or(ClientError::OutOfMemory)?;
        let from = self.walk_for(file, range);
        let MemAnswer {
            answer,
            places,
            reached,
        } = plan_answer(alloc, self.store, file, from, range, number)?;
        if let PlanAnswer::Found(_) = &answer {
            self.plans = number;
        }
        self.places = places;
        self.walked = *file;
        self.walk = reached;
        self.log = self.log.and_plan(file, &range, &answer);
        Ok(answer)
    }

    /// The bytes of the block, or none where the store doesn't hold it.
    fn block(&mut self, alloc: Global, request: &BlockRequest) -> Result<BlockAnswer, ClientError>
        ensures call { BlockCall (⟦<MemClient<'a> as Client>⟧.told self.old)
            (⟦<MemClient<'a> as Client>⟧.told self.new) request.now result }
        ensures exact { IfOk result (λ a. a ≡ BlockAnswer.Bytes
            (mem_block self.old.store.now request.now.xorb request.now.chunks)) }
        ensures error { IfErr result (λ e. e ≡ ClientError.OutOfMemory) }
        ensures store { self.new.store.now ≡ self.old.store.now }
    {
        let place = self.places.get(request.index).copied().unwrap_or(0);
        let chunks = request.chunks.as_slice();
        let block = block_answer(alloc, self.store, &request.xorb, place, chunks)?;
        let answer = BlockAnswer::Bytes(block);
        self.log = self.log.and_block(request, &answer);
        Ok(answer)
    }
}
