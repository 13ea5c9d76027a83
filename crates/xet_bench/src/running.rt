//! A run over the made store.
ghost use Rattle.std.specs.Prelude.{◌≡◌, [], IfErr, IfOk, OnOk, Some, map, replicate, string_bytes};
ghost use Rattle.xet_ties.specs.Legal.{Legal};
ghost use Rattle.xet_bench.specs.Bench.{bench_bytes, bench_store, bench_text};
ghost use Rattle.xet_bench.specs.Running.{BenchCause, unmet_by};
ghost use Rattle.xet_bench.specs.declared.running.BenchError.TheVariants as bench_error;
ghost use Rattle.xet_bench.specs.steps.Fetches.{Fetched, IsRefusal, new_client, new_sink, told_of, whole_setup};

use crate::made_store::{FILE, make_store};
use crate::summary::summary;
use std::alloc::Global;
use std::sync::Wait;
use std::thread::Threads;
use xet_base::OutOfMemory;
use xet_blocks::Steady;
use xet_connections::MemClient;
use xet_error::{FileReconstructionError, Result, Setting};
use xet_outside::{ChunkCache, Client, NeverCancel, NoCache, Sink};
use xet_reconstruct::FileReconstructor;
use xet_reconstruct::laws::calls_are_complete;
use xet_run::BookView;
use xet_sinks::VecSink;
use xet_store::{MapCache, MemStore};
use xet_terms::ReconstructionConfig;

/// How large the file of the made store is, and how it is fetched.
#[derive(Clone, Copy)]
pub struct Bench {
    /// How many terms the file has.
    pub terms: u32,
    /// How many connections fetch it.
    pub lanes: usize,
    /// The settings of the run.
    pub config: ReconstructionConfig,
    /// Whether the run has a cache.
    pub cache: bool,
}

/// Why there is no summary.
#[derive(Clone, Copy, PartialEq, Eq, Debug, Drop)]
pub enum BenchError {
    /// An allocation was refused.
    OutOfMemory,
    /// This setting of the run fails first.
    Settings(Setting),
}

impl From<OutOfMemory> for BenchError {
    ghost from_gives = { λ _ e. e ≡ bench_error.OutOfMemory };

    fn from(_: OutOfMemory) -> BenchError {
        BenchError::OutOfMemory
    }
}

// So many connections to the store.
#[tactic(auto, using(crate::proofs::Fetching::clients_more))]
fn connect<'a>(
    alloc: Global,
    store: &'a MemStore,
    count: usize,
) -> std::result::Result<Vec<MemClient<'a>>, OutOfMemory>
    ensures { IfOk result (λ clients. map (⟦<MemClient<'a> as Client>⟧.told) clients.items
        ≡ replicate count (new_client store.now)) }
{
    let mut clients = Vec::with_capacity(alloc, count)?;
    'taken: while clients.len() < count {
        clients.push_reserved(MemClient::new(alloc, store));
    }
    Ok(clients)
}

// The run of the whole file over these connections.
fn run_over<R: Threads + Wait + Sync, C: Client + Send, K: ChunkCache, O: Sink>(
    rt: &R,
    alloc: Global,
    config: ReconstructionConfig,
    view: BookView,
    clients: &mut [C],
    cache: &mut K,
    out: &mut O,
) -> Result<u64>
    ensures { Legal (whole_setup config) (told_of (map C.told clients.old) (K.told cache.old) (O.told out.old))
        (told_of (map C.told clients.new) (K.told cache.new) (O.told out.new)) result }
{
    FileReconstructor::new(FILE, Steady { size: 0 })
        .with_config(&config)
        .with_budget_book(view)
        .reconstruct_to_writer(rt, alloc, clients, cache, &mut NeverCancel, out)
}

// The run over as many connections to the made store as are wanted.
fn run<R: Threads + Wait + Sync, K: ChunkCache>(
    rt: &R,
    alloc: Global,
    bench: Bench,
    view: BookView,
    store: &MemStore,
    cache: &mut K,
    out: &mut VecSink,
) -> Result<u64>
    requires store { store.now ≡ bench_store bench.terms }
    requires cache { (K.told cache.old).entries ≡ Some [] }
    requires out { ⟦<VecSink as Sink>⟧.told out.old ≡ new_sink }
    ensures { Fetched bench (⟦<VecSink as Sink>⟧.told out.new) result }
{
    store.recall_valid();
    calls_are_complete();
    let mut clients = match connect(alloc, store, bench.lanes) {
        Ok(clients) => clients,
        Err(_) => return Err(FileReconstructionError::OutOfMemory),
    };
    run_over(
        rt,
        alloc,
        bench.config,
        view,
        clients.as_mut_slice(),
        cache,
        out,
    )
}

// Why a run failed where nothing fails but a setting.
fn reason(bench: &Bench, error: FileReconstructionError) -> BenchError
    requires { IsRefusal bench.now error }
    ensures { BenchCause bench.now result }
{
    let _ = bench;
    match error {
        FileReconstructionError::OutOfMemory => BenchError::OutOfMemory,
        FileReconstructionError::ConfigurationError(setting) => BenchError::Settings(setting),
        FileReconstructionError::ClientError => unreachable!(),
        FileReconstructionError::FileNotFound => unreachable!(),
        FileReconstructionError::UrlExpired => unreachable!(),
        FileReconstructionError::IoError => unreachable!(),
        FileReconstructionError::CorruptedReconstruction(_) => unreachable!(),
        FileReconstructionError::Cancelled => unreachable!(),
        FileReconstructionError::InternalWriterError(_) => unreachable!(),
    }
}

// Fetches the file's bytes with this cache.
fn fetch_with<R: Threads + Wait + Sync, K: ChunkCache>(
    rt: &R,
    alloc: Global,
    bench: Bench,
    view: BookView,
    store: &MemStore,
    cache: &mut K,
    out: &mut VecSink,
) -> std::result::Result<(), BenchError>
    requires store { store.now ≡ bench_store bench.terms }
    requires cache { (K.told cache.old).entries ≡ Some [] }
    requires out { ⟦<VecSink as Sink>⟧.told out.old ≡ new_sink }
    ensures met { OnOk result (unmet_by bench ≡ None) }
    ensures took { OnOk result ((⟦<VecSink as Sink>⟧.told out.new).took ≡ Some (bench_bytes bench.terms)) }
    ensures cause { IfErr result (BenchCause bench) }
{
    match run(rt, alloc, bench, view, store, cache, out) {
        Ok(_) => Ok(()),
        Err(error) => Err(reason(&bench, error)),
    }
}

// Fetches the file's bytes, with a new cache where one is wanted.
fn fetch<R: Threads + Wait + Sync>(
    rt: &R,
    alloc: Global,
    bench: Bench,
    view: BookView,
    store: &MemStore,
    out: &mut VecSink,
) -> std::result::Result<(), BenchError>
    requires store { store.now ≡ bench_store bench.terms }
    requires out { ⟦<VecSink as Sink>⟧.told out.old ≡ new_sink }
    ensures met { OnOk result (unmet_by bench ≡ None) }
    ensures took { OnOk result ((⟦<VecSink as Sink>⟧.told out.new).took ≡ Some (bench_bytes bench.terms)) }
    ensures cause { IfErr result (BenchCause bench) }
{
    if bench.cache {
        let mut cache = MapCache::new(alloc);
        return fetch_with(rt, alloc, bench, view, store, &mut cache, out);
    }
    fetch_with(rt, alloc, bench, view, store, &mut NoCache, out)
}

// The four lines of a file of this store.
fn summary_over<R: Threads + Wait + Sync>(
    rt: &R,
    alloc: Global,
    bench: Bench,
    view: BookView,
    store: &MemStore,
) -> std::result::Result<String, BenchError>
    requires { store.now ≡ bench_store bench.terms }
    ensures met { OnOk result (unmet_by bench ≡ None) }
    ensures text { IfOk result (λ text. string_bytes text ≡ bench_text bench.terms) }
    ensures cause { IfErr result (BenchCause bench) }
{
    let mut out = VecSink::new(alloc);
    fetch(rt, alloc, bench, view, store, &mut out)?;
    let text = summary(alloc, bench.terms, out.taken())?;
    Ok(text)
}

/// The summary of the made file after a run of all of it: the same for any lanes, settings and cache, and for any book,
/// which the run asks for its limit of unwritten bytes.
///
/// - `Settings` where there is no connection or a setting fails, with the first that does, and never `Ok` then.
/// - `OutOfMemory` where an allocation was refused.
pub fn run_bench<R: Threads + Wait + Sync>(
    rt: &R,
    alloc: Global,
    bench: Bench,
    view: BookView,
) -> std::result::Result<String, BenchError>
    ensures met { OnOk result (unmet_by bench ≡ None) }
    ensures text { IfOk result (λ text. string_bytes text ≡ bench_text bench.terms) }
    ensures cause { IfErr result (BenchCause bench) }
{
    let store = make_store(alloc, bench.terms)?;
    summary_over(rt, alloc, bench, view, &store)
}
