//! Fetches the bytes of one range into a reply by a run.
ghost use Rattle.std.specs.Prelude.{◌≡◌, None, IfOk, map};
ghost use Rattle.xet_ties.specs.Causes.{refused_setting};
ghost use Rattle.xet_ties.specs.Legal.{Legal};
ghost use Rattle.xet_ties.specs.Setup.{setup_of};
ghost use Rattle.xet_serve.specs.Sessions.{any_setup};
ghost use Rattle.xet_serve.specs.steps.Fetching.{FailedAs, RangeCall, new_sink, run_told};

use std::alloc::Global;
use std::sync::Wait;
use std::thread::Threads;
use xet_base::{FileRange, MerkleHash, OutOfMemory};
use xet_blocks::Steady;
use xet_error::FileReconstructionError;
use xet_outside::{ChunkCache, Client, NeverCancel, Sink};
use xet_reconstruct::FileReconstructor;
use xet_serve_lines::add_range;
use xet_sinks::VecSink;
use xet_terms::ReconstructionConfig;

/// How a fetch of a range ended.
#[derive(Clone, Copy, PartialEq, Eq, Drop)]
pub(crate) enum Fetched {
    /// Its bytes are in the reply.
    Whole,
    /// The file isn't stored.
    Missing,
    /// By the error of this number.
    Failed(u64),
}

// Runs the reconstruction of a range.
fn run<R: Threads + Wait + Sync, C: Client + Send, K: ChunkCache>(
    rt: &R,
    alloc: Global,
    config: &ReconstructionConfig,
    file: MerkleHash,
    range: FileRange,
    clients: &mut [C],
    cache: &mut K,
    bytes: &mut VecSink,
) -> xet_error::Result<u64>
    ensures { Legal (setup_of file range config.now)
        (run_told (record { clients = map C.told clients.old; cache = K.told cache.old })
        (⟦<VecSink as Sink>⟧.told bytes.old))
        (run_told (record { clients = map C.told clients.new; cache = K.told cache.new })
        (⟦<VecSink as Sink>⟧.told bytes.new)) result }
{
    FileReconstructor::new(file, Steady { size: 0 })
        .with_byte_range(range)
        .with_config(config)
        .reconstruct_to_writer(rt, alloc, clients, cache, &mut NeverCancel, bytes)
}

// What an error of a run comes to.
fn failed(error: FileReconstructionError) -> Result<Fetched, OutOfMemory>
    ensures { IfOk result (FailedAs error) }
{
    match error {
        FileReconstructionError::OutOfMemory => Err(OutOfMemory),
        FileReconstructionError::ClientError => Ok(Fetched::Failed(2)),
        FileReconstructionError::FileNotFound => Ok(Fetched::Missing),
        FileReconstructionError::UrlExpired => Ok(Fetched::Failed(4)),
        FileReconstructionError::IoError => Ok(Fetched::Failed(5)),
        FileReconstructionError::CorruptedReconstruction(_) => Ok(Fetched::Failed(6)),
        FileReconstructionError::ConfigurationError(_) => Ok(Fetched::Failed(7)),
        FileReconstructionError::Cancelled => Ok(Fetched::Failed(8)),
        FileReconstructionError::InternalWriterError(_) => Ok(Fetched::Failed(9)),
    }
}

// Fetches a range by an empty writer.
fn fetch_by<R: Threads + Wait + Sync, C: Client + Send, K: ChunkCache>(
    rt: &R,
    alloc: Global,
    config: &ReconstructionConfig,
    file: MerkleHash,
    range: FileRange,
    clients: &mut [C],
    cache: &mut K,
    bytes: &mut VecSink,
    reply: &mut Vec<u8>,
) -> Result<Fetched, OutOfMemory>
    requires settings { refused_setting (any_setup config.now) (map C.told clients.old) ≡ None }
    requires empty { ⟦<VecSink as Sink>⟧.told bytes.old ≡ new_sink }
    ensures { RangeCall config.now.tries file range
        (record { clients = map C.told clients.old; cache = K.told cache.old })
        (record { clients = map C.told clients.new; cache = K.told cache.new })
        reply.old.items reply.new.items result }
{
    match run(rt, alloc, config, file, range, clients, cache, bytes) {
        Ok(_) => {
            add_range(reply, range.start, bytes.taken())?;
            Ok(Fetched::Whole)
        }
        Err(error) => failed(error),
    }
}

/// Fetches a range of a file by a run, and adds where it starts, how many bytes it has and the bytes to a reply.
pub(crate) fn fetch_by_run<R: Threads + Wait + Sync, C: Client + Send, K: ChunkCache>(
    rt: &R,
    alloc: Global,
    config: &ReconstructionConfig,
    file: MerkleHash,
    range: FileRange,
    clients: &mut [C],
    cache: &mut K,
    reply: &mut Vec<u8>,
) -> Result<Fetched, OutOfMemory>
    requires settings { refused_setting (any_setup config.now) (map C.told clients.old) ≡ None }
    ensures { RangeCall config.now.tries file range
        (record { clients = map C.told clients.old; cache = K.told cache.old })
        (record { clients = map C.told clients.new; cache = K.told cache.new })
        reply.old.items reply.new.items result }
{
    let mut bytes = VecSink::new(alloc);
    fetch_by(
        rt, alloc, config, file, range, clients, cache, &mut bytes, reply,
    )
}
