//! A connection that answers at once.
use crate::trace::Trace;
use bytes::Bytes;
use std::alloc::Global;
use xet_base::{FileRange, MerkleHash, OutOfMemory};
use xet_outside::{
    BlockAnswer, BlockBytes, BlockRequest, Client, ClientError, Offsets, PlanAnswer,
};

/// Answers every request with one chunk of one byte, or fails at each. Each request stands in the trace, where there is
/// one.
#[derive(Drop)]
pub(crate) struct OneByte<'a> {
    fails: bool,
    pub(crate) calls: u64,
    faults: u64,
    trace: Option<&'a Trace>,
}

impl<'a> OneByte<'a> {
    pub(crate) fn new(fails: bool, trace: Option<&'a Trace>) -> OneByte<'a> {
        OneByte {
            fails,
            calls: 0,
            faults: 0,
            trace,
        }
    }
}

/// One chunk of one byte.
fn one_chunk(alloc: Global) -> Result<BlockBytes, OutOfMemory> {
    let offsets = Offsets::from_vec(alloc, [0].to_vec(alloc)?)?;
    let bytes = Bytes::from_static(b"x");
    Ok(BlockBytes { offsets, bytes })
}

impl<'a> Client for OneByte<'a> {
    ghost use Rattle.std.specs.Prelude.{[], None};

    ghost told = { λ c. record {
      store = None;
      asked = None;
      said = None;
      served = None;
      faults = c.faults;
      expiries = 0;
      link = [];
    } };

    fn plan(
        &mut self,
        _alloc: Global,
        _file: &MerkleHash,
        _range: FileRange,
    ) -> Result<PlanAnswer, ClientError> {
        Ok(PlanAnswer::NoFile)
    }

    fn block(
        &mut self,
        alloc: Global,
        _request: &BlockRequest,
    ) -> Result<BlockAnswer, ClientError> {
        self.calls = self.calls.saturating_add(1);
        if let Some(trace) = self.trace {
            trace.add(0);
        }
        if self.fails {
            self.faults = self.faults.saturating_add(1);
            return Err(ClientError::Failed);
        }
        match one_chunk(alloc) {
            Ok(block) => Ok(BlockAnswer::Bytes(block)),
            Err(OutOfMemory) => Err(ClientError::OutOfMemory),
        }
    }
}
