//! Callers, as the pages of `xet_gaps` and `xet_resume` show them.
use std::alloc::Global;
use std::sync::Wait;
use std::thread::Threads;
use xet_base::{MerkleHash, OutOfMemory};
use xet_outside::{ChunkCache, Client, NeverCancel, PlaceSink};
use xet_resume::{GapRecord, GapTextError, ResumeError, fetch_range};
use xet_terms::ReconstructionConfig;

/// The record that was kept, or a new one of the whole file.
pub(crate) fn kept_or_new(
    alloc: Global,
    kept: &str,
    file: MerkleHash,
    length: u64,
) -> Result<GapRecord, OutOfMemory> {
    match GapRecord::from_text(alloc, kept) {
        Ok(gaps) => Ok(gaps),
        Err(GapTextError::OutOfMemory) => Err(OutOfMemory),
        Err(GapTextError::NotGaps) => GapRecord::new(alloc, file, length),
    }
}

/// Fetches what is missing, at most four bytes a call, and goes on after each error until nothing is missing, for 1000
/// calls at most. Answers the last error, where there was one.
pub(crate) fn fetch_rest<R, C, K, F>(
    rt: &R,
    alloc: Global,
    gaps: &mut GapRecord,
    clients: &mut [C],
    cache: &mut K,
    file: &mut F,
) -> Result<(), ResumeError>
where
    R: Threads + Wait + Sync,
    C: Client + Send,
    K: ChunkCache,
    F: PlaceSink,
{
    let config = ReconstructionConfig::new();
    let mut last = Ok(());
    for _ in 0..1000 {
        let Some(next) = gaps.next_gap(4) else {
            break;
        };
        let answer = fetch_range(
            rt,
            alloc,
            gaps,
            next,
            &config,
            clients,
            cache,
            &mut NeverCancel,
            file,
        );
        if let Err(error) = answer {
            last = Err(error);
        }
    }
    last
}
