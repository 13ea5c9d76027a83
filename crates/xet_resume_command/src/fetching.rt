//! Ranges of a stored file, fetched into a file in memory.
ghost use Rattle.std.specs.Prelude.{◌≡◌, [], map};
ghost use Rattle.xet_gaps.specs.Gaps.{AreGaps, new_gaps};
ghost use Rattle.xet_resume.specs.Fetches.{FetchCall};
ghost use Rattle.xet_resume_command.specs.steps.Filling.{AllAnswer, ContentIs, RangeAnswer, told_of};
ghost use Rattle.xet_terms.specs.Settings.{first_config};

use crate::wanted::ResumeWanted;
use std::alloc::Global;
use std::sync::Wait;
use std::thread::Threads;
use xet_base::FileRange;
use xet_connections::MemClient;
use xet_outside::{Client, NeverCancel, NoCache, Sink};
use xet_resume::{GapRecord, ResumeError, fetch_range};
use xet_sinks::MemFile;
use xet_store::MemStore;
use xet_terms::ReconstructionConfig;

// Fetches what is missing of a range over these connections, with no cache, by the settings of a run that is given
// none.
fn fetch_over<R: Threads + Wait + Sync, C: Client + Send>(
    rt: &R,
    alloc: Global,
    range: FileRange,
    clients: &mut [C],
    gaps: &mut GapRecord,
    file: &mut MemFile,
) -> Result<u64, ResumeError>
    ensures are { AreGaps 0 gaps.old.length_is gaps.old.gaps }
    ensures call { FetchCall first_config range gaps.old gaps.new
        (told_of (map C.told clients.old) (⟦<MemFile as Sink>⟧.told file.old))
        (told_of (map C.told clients.new) (⟦<MemFile as Sink>⟧.told file.new)) result }
{
    // The gaps of a record are in order.
    let _ = gaps.gaps();
    let config = ReconstructionConfig::new();
    fetch_range(
        rt,
        alloc,
        gaps,
        range,
        &config,
        clients,
        &mut NoCache,
        &mut NeverCancel,
        file,
    )
}

// Fetches what is missing of a range from a store.
fn fetch<R: Threads + Wait + Sync>(
    rt: &R,
    alloc: Global,
    store: &MemStore,
    range: FileRange,
    gaps: &mut GapRecord,
    file: &mut MemFile,
) -> Result<u64, ResumeError>
    ensures { RangeAnswer store.now range gaps.old gaps.new (⟦<MemFile as Sink>⟧.told file.old)
        (⟦<MemFile as Sink>⟧.told file.new) result }
{
    let mut clients = [MemClient::new(alloc, store)];
    fetch_over(rt, alloc, range, &mut clients, gaps, file)
}

/// Fetches the ranges into an empty file, in their order, up to one that fails. Answers how many bytes it has then.
pub(crate) fn fetch_all<R: Threads + Wait + Sync>(
    rt: &R,
    alloc: Global,
    store: &MemStore,
    wanted: &ResumeWanted,
    gaps: &mut GapRecord,
    file: &mut MemFile,
) -> Result<u64, ResumeError>
    requires gaps { gaps.old ≡ new_gaps wanted.now.file wanted.now.length }
    requires empty { ContentIs (⟦<MemFile as Sink>⟧.told file.old) [] }
    ensures { AllAnswer store.now wanted.now gaps.new (⟦<MemFile as Sink>⟧.told file.new) result }
{
    let mut count = 0;
    for range in wanted.ranges() {
        count += fetch(rt, alloc, store, *range, gaps, file)?;
    }
    Ok(count)
}
