//! A connection to a store that goes on near the place of each query.
ghost use Rattle.std.specs.Prelude.{◌≡◌, ◌<◌, All, IfOk, false, length};
ghost use Rattle.xet_outside.specs.Told.{BlockCall, PlanCall};
ghost use Rattle.xet_serve_command.specs.steps.Sessions.{new_client};

use std::alloc::Global;
use xet_base::{FileRange, MerkleHash, OutOfMemory};
use xet_connections::MemClient;
use xet_outside::{BlockAnswer, BlockRequest, Client, ClientError, PlanAnswer};
use xet_store::MemStore;

// The number of the connection whose last query started nearest before a place; where none did, of the one whose query
// started last in the file.
fn nearest(starts: &[u64], place: u64) -> usize
    requires { 0 < length starts.now }
    ensures { result < length starts.now }
{
    let mut best = 0;
    let mut least = u64::MAX;
    let mut number = 0;
    'nearest: while number < starts.len() {
        // more than any place has where the query started behind it
        let distance = place.wrapping_sub(starts[number]);
        if distance < least {
            least = distance;
            best = number;
        }
        number += 1;
    }
    best
}

// So many connections to a store.
#[tactic(auto, using(crate::proofs::Clients::all_over_more))]
fn walkers<'a>(
    alloc: Global,
    store: &'a MemStore,
    count: usize,
) -> Result<Vec<MemClient<'a>>, OutOfMemory>
    ensures same { IfOk result (λ made. All (λ c. c.store.now ≡ store.now) made.items) }
    ensures count { IfOk result (λ made. length made.items ≡ count) }
{
    let mut made = Vec::with_capacity(alloc, count)?;
    'taken: while made.len() < count {
        made.push_reserved(MemClient::new(alloc, store));
    }
    Ok(made)
}

/// A connection to a store, over others: a query is asked of the one whose last query started nearest before it, which
/// goes on over the file's terms from there. So queries in any order pass few terms. It never fails, no answer of it is
/// an expired one, and it tells the store alone.
#[derive(Drop)]
pub(crate) struct NearClient<'a> {
    store: &'a MemStore,
    walkers: Vec<MemClient<'a>>,
    // where the last query of each started
    starts: Vec<u64>,
    // the one that was asked last
    last: usize,
    ghost same: { All (λ c. c.store.now ≡ store.now) walkers.items },
    ghost each: { length starts.items ≡ length walkers.items },
    ghost within: { last < length walkers.items },
}

impl<'a> NearClient<'a> {
    /// A connection over so many others, and one at least.
    pub(crate) fn new(
        alloc: Global,
        store: &'a MemStore,
        count: usize,
    ) -> Result<NearClient<'a>, OutOfMemory>
        ensures { IfOk result (λ client. ⟦<NearClient<'a> as Client>⟧.told client ≡ new_client store.now) }
    {
        let count = count.max(1);
        let walkers = walkers(alloc, store, count)?;
        let starts = vec![in alloc; 0u64; count]?;
        Ok(NearClient {
            store,
            walkers,
            starts,
            last: 0,
        })
    }
}

impl<'a> Client for NearClient<'a> {
    ghost use Rattle.xet_serve_command.specs.steps.Sessions.{new_client};

    ghost told = { λ c. new_client c.store.now };

    /// No: each answer is made from memory.
    fn waits(&self) -> bool
        ensures { result ≡ false }
    {
        false
    }

    fn plan(
        &mut self,
        alloc: Global,
        file: &MerkleHash,
        range: FileRange,
    ) -> Result<PlanAnswer, ClientError>
        ensures call { PlanCall (⟦<NearClient<'a> as Client>⟧.told self.old)
            (⟦<NearClient<'a> as Client>⟧.told self.new) file.now range result }
        ensures store { self.new.store.now ≡ self.old.store.now }
    {
        self.last = nearest(self.starts.as_slice(), range.start);
        self.starts[self.last] = range.start;
        self.walkers[self.last].plan(alloc, file, range)
    }

    /// A block of the plan that was asked for last is looked for where that plan has it.
    fn block(&mut self, alloc: Global, request: &BlockRequest) -> Result<BlockAnswer, ClientError>
        ensures call { BlockCall (⟦<NearClient<'a> as Client>⟧.told self.old)
            (⟦<NearClient<'a> as Client>⟧.told self.new) request.now result }
        ensures store { self.new.store.now ≡ self.old.store.now }
    {
        self.walkers[self.last].block(alloc, request)
    }
}
