//! A connection by a word.
use std::alloc::Global;
use xet_base::{FileRange, MerkleHash};
use xet_connections::MemClient;
use xet_outside::{BlockAnswer, BlockRequest, Client, ClientError, PlanAnswer};
use xet_store::MemStore;

/// A connection to a store that does at each of its calls what its word says: it fails at `f`, says that a block's URL
/// has expired at `x`, and is honest at all others.
#[derive(Drop)]
pub(crate) struct Connection<'a> {
    inner: MemClient<'a>,
    word: &'a [u8],
    calls: usize,
}

impl<'a> Connection<'a> {
    pub(crate) fn new(alloc: Global, store: &'a MemStore, word: &'a str) -> Connection<'a> {
        Connection {
            inner: MemClient::new(alloc, store),
            word: word.as_bytes(),
            calls: 0,
        }
    }

    /// What it does at its next call.
    fn next(&mut self) -> u8 {
        let letter = self.word.get(self.calls).copied().unwrap_or(b'h');
        self.calls = self.calls.saturating_add(1);
        letter
    }
}

impl<'a> Client for Connection<'a> {
    ghost use Rattle.std.specs.Prelude.{◌-◌, ◌^◌, [], None};

    // Nothing is told, and the counts stand at their last value.
    ghost told = { λ _. record {
      store = None;
      asked = None;
      said = None;
      served = None;
      faults = 2 ^ 64 - 1;
      expiries = 2 ^ 64 - 1;
      link = [];
    } };

    fn plan(
        &mut self,
        alloc: Global,
        file: &MerkleHash,
        range: FileRange,
    ) -> Result<PlanAnswer, ClientError> {
        match self.next() {
            b'f' => Err(ClientError::Failed),
            _ => self.inner.plan(alloc, file, range),
        }
    }

    fn block(&mut self, alloc: Global, request: &BlockRequest) -> Result<BlockAnswer, ClientError> {
        match self.next() {
            b'f' => Err(ClientError::Failed),
            b'x' => Ok(BlockAnswer::Expired),
            _ => self.inner.block(alloc, request),
        }
    }
}
