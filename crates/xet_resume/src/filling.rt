//! Reads the parts of a range that are missing, one after another.
ghost use Rattle.std.specs.Prelude.{◌≡◌, ℕ, IfOk, None, map};
ghost use Rattle.std.specs.List.{AllByRecursion};
ghost use Rattle.xet_gaps.specs.Gaps.{AreGaps, Touches, missing_bytes, parts_of};
ghost use Rattle.xet_reconstruct.specs.Lent.{lent_of};
ghost use Rattle.xet_resume.specs.Fetches.{stop_of};
ghost use Rattle.xet_resume.specs.Fills.{Fills};
ghost use Rattle.xet_resume.specs.steps.Filling.{common};
ghost use Rattle.xet_ties.specs.Causes.{refused_setting};
ghost use Rattle.xet_ties.specs.Setup.{setup_of};

use crate::part::fill_part;
use crate::resume_error::ResumeError;
use std::alloc::Global;
use std::sync::Wait;
use std::thread::Threads;
use xet_base::{FileRange, MerkleHash};
use xet_outside::{CancelSignal, ChunkCache, Client, PlaceSink};
use xet_terms::ReconstructionConfig;

/// How far a range was read, and the answer: how many bytes that were, or the error that ended it.
#[derive(Clone, Copy)]
pub(crate) struct Filled {
    pub(crate) reached: u64,
    pub(crate) answer: Result<u64, ResumeError>,
}

/// What a gap and a range have in common.
fn cut(gap: FileRange, range: FileRange) -> FileRange
    ensures { result ≡ common gap range }
{
    FileRange {
        start: gap.start.max(range.start),
        end: gap.end.min(range.end),
    }
}

/// Reads what gaps and a range have in common, part after part, up to a part that ends it. Each of the gaps has bytes
/// of the range.
pub(crate) fn fill<R, C, K, X, F>(
    rt: &R,
    alloc: Global,
    file_hash: MerkleHash,
    gaps: &[FileRange],
    range: FileRange,
    config: &ReconstructionConfig,
    clients: &mut [C],
    cache: &mut K,
    cancel: &mut X,
    file: &mut F,
) -> Filled
where
    R: Threads + Wait + Sync,
    C: Client + Send,
    K: ChunkCache,
    X: CancelSignal,
    F: PlaceSink,
    requires settings { refused_setting (setup_of file_hash range config.now) (map C.told clients.old) ≡ None }
    requires are { (end : ℕ) × AreGaps 0 end gaps.now }
    requires each { AllByRecursion (Touches range) gaps.now }
    ensures fills { Fills config.now file_hash (parts_of gaps.now range) range.end
        (lent_of C.told K.told X.told F.told clients.old cache.old cancel.old file.old)
        (lent_of C.told K.told X.told F.told clients.new cache.new cancel.new file.new) result.reached
        (stop_of result.answer) }
    ensures counted { IfOk result.answer (λ n. n ≡ missing_bytes (parts_of gaps.now range)) }
{
    let mut count = 0;
    for gap in gaps {
        let part = cut(*gap, range);
        match fill_part(
            rt, alloc, file_hash, part, config, clients, cache, cancel, file,
        ) {
            Ok(()) => count += part.end - part.start,
            Err(stopped) => {
                return Filled {
                    reached: part.start + stopped.count,
                    answer: Err(stopped.error),
                };
            }
        }
    }
    Filled {
        reached: range.end,
        answer: Ok(count),
    }
}
