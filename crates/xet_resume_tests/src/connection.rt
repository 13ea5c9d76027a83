//! A connection that keeps what it was asked for.
use crate::told::put_range;
use std::alloc::Global;
use xet_base::{FileRange, MerkleHash};
use xet_connections::MemClient;
use xet_outside::{BlockAnswer, BlockRequest, Client, ClientError, PlanAnswer};
use xet_store::MemStore;

/// A connection to a store that keeps the range of each query.
#[derive(Drop)]
pub(crate) struct Connection<'a> {
    inner: MemClient<'a>,
    pub(crate) asked: String,
}

impl<'a> Connection<'a> {
    /// A connection that was asked for nothing yet.
    pub(crate) fn new(alloc: Global, store: &'a MemStore) -> Connection<'a> {
        Connection {
            inner: MemClient::new(alloc, store),
            asked: String::new(alloc),
        }
    }
}

impl<'a> Client for Connection<'a> {
    ghost use Rattle.std.specs.Prelude.{◌-◌, ◌^◌, [], None};

    // Nothing is told, and the counts stand at their last value.
    ghost told = { λ _. record {
      store = None;
      asked = None;
      said = None;
      served = None;
      faults = 2 ^ 64 - 1;
      expiries = 2 ^ 64 - 1;
      link = [];
    } };

    fn waits(&self) -> bool {
        false
    }

    fn plan(
        &mut self,
        alloc: Global,
        file: &MerkleHash,
        range: FileRange,
    ) -> Result<PlanAnswer, ClientError> {
        put_range(&mut self.asked, range);
        self.inner.plan(alloc, file, range)
    }

    fn block(&mut self, alloc: Global, request: &BlockRequest) -> Result<BlockAnswer, ClientError> {
        self.inner.block(alloc, request)
    }
}
