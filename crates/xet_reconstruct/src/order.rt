//! Runs with a source of limits and a core of their own.
ghost use Rattle.std.specs.Prelude.{◌≡◌};
ghost use Rattle.xet_ties.specs.Legal.{Legal};
ghost use Rattle.xet_ties.specs.Setup.{setup_of};
ghost use Rattle.xet_reconstruct.specs.Lent.{lent_of};
ghost use Rattle.xet_reconstruct.specs.Ran.{RanUnder};

use crate::file_reconstructor::FileReconstructor;
use std::alloc::Global;
use std::sync::Wait;
use std::thread::Threads;
use xet_blocks::FetchPolicy;
use xet_error::Result;
use xet_lane::OpenGate;
use xet_outside::{CancelSignal, ChunkCache, Client, Sink};
use xet_run::{BudgetSource, RunCore, ToldEvents};

/// A run under these limits, with a new core and an open gate. Nobody reads the core's history, so it is told to proofs
/// alone and takes no memory.
pub(crate) fn run_within<R, P, C, K, X, S, B>(
    wanted: FileReconstructor<P>,
    rt: &R,
    alloc: Global,
    mut budget: B,
    clients: &mut [C],
    cache: &mut K,
    cancel: &mut X,
    writer: &mut S,
) -> Result<u64>
where
    R: Threads + Wait + Sync,
    P: FetchPolicy + Drop,
    C: Client + Send,
    K: ChunkCache,
    X: CancelSignal,
    S: Sink,
    B: BudgetSource + Drop,
    ensures legal { Legal (setup_of wanted.file_hash wanted.byte_range wanted.config)
        (lent_of C.told K.told X.told S.told clients.old cache.old cancel.old writer.old)
        (lent_of C.told K.told X.told S.told clients.new cache.new cancel.new writer.new) result }
    ensures ran { RanUnder (B.told budget) (setup_of wanted.file_hash wanted.byte_range wanted.config)
        (lent_of C.told K.told X.told S.told clients.old cache.old cancel.old writer.old)
        (lent_of C.told K.told X.told S.told clients.new cache.new cancel.new writer.new) result }
{
    let mut core = RunCore::<ToldEvents>::new(alloc);
    let answer = wanted.run_over(
        rt,
        alloc,
        &mut core,
        &mut budget,
        &OpenGate,
        clients,
        cache,
        cancel,
        writer,
    );
    core.check_history();
    answer
}
