//! A connection by a text.
use crate::meter::Meter;
use crate::row::Row;
use crate::script::{answered, given};
use crate::told::tell_request;
use std::alloc::Global;
use xet_base::{FileRange, MerkleHash};
use xet_connections::MemClient;
use xet_outside::{BlockAnswer, BlockRequest, Client, ClientError, PlanAnswer};
use xet_store::MemStore;

/// A connection to a store that does at each of its calls what its text says, and counts them. Its blocks enter the
/// meter.
#[derive(Drop)]
pub(crate) struct Connection<'a> {
    inner: MemClient<'a>,
    meter: &'a Meter<'a>,
    words: &'a str,
    plan: &'a str,
    block: &'a str,
    waits: bool,
    pub(crate) plans: u64,
    pub(crate) blocks: u64,
    /// Each request for a block.
    pub(crate) asked: String,
}

impl<'a> Connection<'a> {
    /// The connection of this row that does this.
    pub(crate) fn new(
        alloc: Global,
        row: Row<'a>,
        words: &'a str,
        store: &'a MemStore,
        meter: &'a Meter<'a>,
    ) -> Connection<'a> {
        Connection {
            inner: MemClient::new(alloc, store),
            meter,
            words,
            plan: row.find("plan").unwrap_or(""),
            block: row.find("block").unwrap_or(""),
            waits: !row.has("ready"),
            plans: 0,
            blocks: 0,
            asked: String::new(alloc),
        }
    }

    /// What it does next.
    fn word(&self) -> u8 {
        let call = self.plans.saturating_add(self.blocks);
        self.words
            .as_bytes()
            .get(call as usize)
            .copied()
            .unwrap_or(b'.')
    }
}

impl<'a> Client for Connection<'a> {
    ghost use Rattle.std.specs.Prelude.{◌-◌, ◌^◌, [], None};
    ghost use Rattle.xet_outside.specs.Told.{ClientTold};

    // Nothing is told, and the counts stand at their last value.
    ghost told = { λ _. record {
      store = None;
      asked = None;
      said = None;
      served = None;
      faults = 2 ^ 64 - 1;
      expiries = 2 ^ 64 - 1;
      link = [];
    } };

    fn waits(&self) -> bool {
        self.waits
    }

    fn plan(
        &mut self,
        alloc: Global,
        file: &MerkleHash,
        range: FileRange,
    ) -> Result<PlanAnswer, ClientError> {
        let word = self.word();
        self.plans = self.plans.saturating_add(1);
        match word {
            b'f' => Err(ClientError::Failed),
            b'n' => Ok(PlanAnswer::NoFile),
            b'e' => Ok(PlanAnswer::PastEnd),
            b'p' => answered(alloc, self.plan),
            _ => self.inner.plan(alloc, file, range),
        }
    }

    fn block(&mut self, alloc: Global, request: &BlockRequest) -> Result<BlockAnswer, ClientError> {
        let word = self.word();
        self.blocks = self.blocks.saturating_add(1);
        self.meter.enter();
        tell_request(&mut self.asked, request);
        match word {
            b'f' => Err(ClientError::Failed),
            b'x' => Ok(BlockAnswer::Expired),
            b's' => given(alloc, self.block),
            _ => self.inner.block(alloc, request),
        }
    }
}
