//! The made file on its way.
ghost use Rattle.std.specs.Prelude.{◌≡◌, ◌≤◌, IfOk, IsSome, OnOk, Some, string_bytes, true};
ghost use Rattle.xet_pointer.specs.Pointers.{pointer_of};
ghost use Rattle.xet_roundtrip.specs.Roundtrip.{IsRoundtrip};
ghost use Rattle.xet_roundtrip.specs.steps.Trips.{Downloaded, GivesBack, IsOverStore, IsSent};
ghost use Rattle.xet_upload.specs.declared.data_error.DataError.TheVariants as data_error;
ghost use Rattle.xet_download.specs.Telling.{told_by};

use std::alloc::Global;
use std::ops::Bound::Unbounded;
use std::sync::{Arc, Wait};
use std::thread::Threads;
use xet_base::{IdSource, OutOfMemory, Text};
use xet_connections::MemClient;
use xet_download::FileDownloadSession;
use xet_download::laws::downloads_are_exact;
use xet_events::{BudgetBook, BudgetSettings};
use xet_outside::{ChunkCache, Client, NoCache, Sink};
use xet_pattern::{counted_lines, pattern};
use xet_pointer::{PointerError, XetFileInfo};
use xet_reconstruct::laws::calls_are_complete;
use xet_sinks::{VecSink, VecSource};
use xet_store::MemStore;
use xet_terms::ReconstructionConfig;
use xet_upload::DataError;
use xet_upload_laws::{SendError, Sent, send};

// How many bytes a chunk has; the last may have fewer.
const CHUNK: usize = 1_000;

// The limits of a download without options.
const BUDGET: BudgetSettings = BudgetSettings {
    base: 67_108_864,
    per_file: 0,
    limit: u64::MAX,
};

/// A download session over one connection to a store.
type MemorySession<'a> = FileDownloadSession<MemClient<'a>, NoCache>;

// Uploads the file of so many bytes. Nothing that it is sent through has faults: want of memory is the only error.
fn upload<W: Wait>(rt: &W, alloc: Global, size: u32) -> Result<Sent, OutOfMemory>
    requires { size ≤ 1000000 }
    ensures { IfOk result (λ sent. GivesBack size sent.info sent.store) }
{
    let source = VecSource::new(pattern(alloc, size)?);
    match send(rt, alloc, source, u64::from(size), CHUNK) {
        Ok(sent) => Ok(sent),
        Err(SendError::Clash) => unreachable!(),
        Err(SendError::Data(_)) => Err(OutOfMemory),
    }
}

// A session over a store.
fn session<'a>(alloc: Global, store: &'a MemStore) -> Result<MemorySession<'a>, OutOfMemory>
    ensures { IfOk result (λ session. IsOverStore store.now
        (told_by ⟦<MemClient<'a> as Client>⟧.told ⟦<NoCache as ChunkCache>⟧.told session)) }
{
    let mut clients = Vec::new(alloc);
    clients.push(MemClient::new(alloc, store))?;
    let book = Arc::new(alloc, BudgetBook::new(alloc, BUDGET)?)?;
    let config = ReconstructionConfig::new();
    let session = FileDownloadSession::from_client(
        alloc,
        clients,
        NoCache,
        config,
        IdSource::new(1),
    )?;
    Ok(session.with_budget_book(book))
}

// That memory was wanting, which the error says.
fn wanting(error: DataError) -> OutOfMemory
    requires { error ≡ data_error.OutOfMemory }
{
    match error {
        DataError::OutOfMemory => OutOfMemory,
        DataError::ClientError => unreachable!(),
        DataError::IOError => unreachable!(),
        DataError::HashStringParsingFailure => unreachable!(),
        DataError::InvalidOperation(_) => unreachable!(),
        DataError::SizeMismatch { .. } => unreachable!(),
        DataError::FileReconstructionError(_) => unreachable!(),
        DataError::SourceEnded { .. } => unreachable!(),
    }
}

// Downloads the whole file of a pointer record, which the store has. No connection, cache or writer of it fails.
fn download<R: Threads + Wait + Sync>(
    rt: &R,
    alloc: Global,
    store: &MemStore,
    info: &XetFileInfo,
    writer: &mut VecSink,
) -> Result<(), OutOfMemory>
    requires sent { IsSent info.now store.now }
    ensures { OnOk result (Downloaded store.now info.now (⟦<VecSink as Sink>⟧.told writer.old)
        (⟦<VecSink as Sink>⟧.told writer.new)) }
{
    downloads_are_exact();
    calls_are_complete();
    let mut session = session(alloc, store)?;
    match session.download_to_writer(rt, alloc, info, (Unbounded, Unbounded), writer) {
        Ok(_) => Ok(()),
        Err(error) => Err(wanting(error)),
    }
}

// Whether the bytes come back that were sent.
fn comes_back<R: Threads + Wait + Sync>(
    rt: &R,
    alloc: Global,
    store: &MemStore,
    info: &XetFileInfo,
    size: u32,
) -> Result<bool, OutOfMemory>
    requires { GivesBack size info.now store.now }
    ensures { IfOk result (λ same. same ≡ true) }
{
    let mut writer = VecSink::new(alloc);
    download(rt, alloc, store, info, &mut writer)?;
    let wanted = pattern(alloc, size)?;
    Ok(writer.taken() == wanted.as_slice())
}

// The record of a pointer's text.
fn read_again(alloc: Global, text: &Text) -> Result<XetFileInfo, OutOfMemory>
    requires { IsSome (pointer_of text.now) }
    ensures { IfOk result (λ info. pointer_of text.now ≡ Some info) }
{
    match XetFileInfo::from_pointer_file(alloc, text.as_str()) {
        Ok(info) => Ok(info),
        Err(PointerError::NotPointer) => unreachable!(),
        Err(PointerError::OutOfMemory) => Err(OutOfMemory),
    }
}

/// Uploads a file of so many bytes to an empty store in memory, in chunks of 1000 bytes, reads the text of its pointer
/// record again, downloads the file by it, and compares the bytes, which are the same. It answers the text of the
/// record, and a line that says how many bytes came back.
///
/// `OutOfMemory` where an allocation was refused.
///
/// It has no source in the Rust crates.
pub fn roundtrip<R: Threads + Wait + Sync>(
    rt: &R,
    alloc: Global,
    size: u32,
) -> Result<String, OutOfMemory>
    requires { size ≤ 1000000 }
    ensures { IfOk result (λ text. IsRoundtrip size (string_bytes text)) }
{
    let sent = upload(rt, alloc, size)?;
    let pointer = sent.info.as_pointer_file(alloc)?;
    let info = read_again(alloc, &pointer)?;
    if !comes_back(rt, alloc, &sent.store, &info, size)? {
        unreachable!()
    }
    counted_lines(alloc, &pointer, size)
}
