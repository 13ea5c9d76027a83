//! Stores without chunks that no term holds.
ghost use Rattle.std.specs.Prelude.{◌≡◌, ◌≢◌, [], IfErr, IfOk, MatchBool};
ghost use Rattle.xet_audit.specs.Findings.{faults};
ghost use Rattle.xet_audit.specs.Raws.{IsUncounted, store_of_raw};
ghost use Rattle.xet_compact.specs.Compacts.{Clashes, IsCompacted, Serves, dropped_count, kept_xorbs};
ghost use Rattle.xet_compact.specs.Refusals.{CompactCause};
ghost use Rattle.xet_compact.specs.declared.compaction.CompactError.TheVariants as compact_error;
ghost use Rattle.xet_compact.specs.steps.Ascending.{AreXorbs, ClashCause};
ghost use Rattle.xet_compact.specs.steps.Kept.{AreAllFiles, IsKept};

use crate::ascending::{merged_xorbs, sorted_files};
use crate::kept_store::KeptStore;
use std::alloc::{AllocError, Global};
use thiserror::Error;
use xet_audit::laws::audits_tell_validity;
use xet_audit::{RawFile, RawStore, RawXorb, audit};
use xet_base::{List, MerkleHash, OutOfMemory};

/// A compacted store.
#[derive(Drop)]
pub struct Compacted {
    /// The store, whose xorbs and files stand by ascending hash.
    pub store: RawStore,
    /// How many chunks no term holds, those of dropped xorbs among them.
    pub dropped_chunks: u64,
}

/// Why a store was not compacted. It prints its variant's name.
#[derive(Clone, Copy, PartialEq, Eq, Debug, Drop, Error)]
pub enum CompactError {
    /// An allocation was refused.
    #[error("OutOfMemory")]
    OutOfMemory,
    /// The store isn't valid: an audit finds something of kinds 1 to 7.
    #[error("NotValid")]
    NotValid,
    /// Two lists of chunks that differ would stand under this hash: of several such hashes the least.
    #[error("Clash")]
    Clash(MerkleHash),
}

impl From<OutOfMemory> for CompactError {
    ghost from_gives = { λ _ e. e ≡ compact_error.OutOfMemory };

    fn from(_error: OutOfMemory) -> CompactError {
        CompactError::OutOfMemory
    }
}

impl From<AllocError> for CompactError {
    ghost from_gives = { λ _ e. e ≡ compact_error.OutOfMemory };

    fn from(_error: AllocError) -> CompactError {
        CompactError::OutOfMemory
    }
}

/// The store without xorbs that no file names and chunks that no term holds. A xorb that keeps all its chunks keeps its
/// hash, another gets that of the kept chunks, and of two with one hash and equal chunks one stays. Files keep their
/// hashes, and their terms are renumbered. Kept chunks share memory with the store's.
///
/// `NotValid` exactly where an audit without hashes finds something. `Clash` exactly where two kept lists of chunks
/// that differ would stand under one hash. `OutOfMemory` where memory was refused.
///
/// It takes time linear in the bytes of cut xorbs, in chunks and in terms, but for look-ups of hashes and two sorts; a
/// term costs one comparison, however many chunks it has.
pub fn compact(alloc: Global, raw: &RawStore) -> Result<Compacted, CompactError>
    ensures compacted { IfOk result (λ c. IsCompacted (store_of_raw raw.now) (store_of_raw c.store)) }
    ensures dropped { IfOk result (λ c. c.dropped_chunks ≡ dropped_count (store_of_raw raw.now)) }
    ensures uncounted { IfOk result (λ c. IsUncounted c.store) }
    ensures serves { IfOk result (λ c. Serves (store_of_raw raw.now) (store_of_raw c.store)) }
    ensures valid { IfOk result (λ _. faults (store_of_raw raw.now) ≡ []) }
    ensures clear { IfOk result (λ _. (h : MerkleHash) → Clashes (store_of_raw raw.now) h → ⊥) }
    ensures cause { IfErr result (CompactCause (store_of_raw raw.now)) }
{
    if !is_valid(alloc, raw)? {
        return Err(CompactError::NotValid);
    }
    compact_valid(alloc, raw)
}

// Whether an audit without hashes finds nothing.
fn is_valid(alloc: Global, raw: &RawStore) -> Result<bool, OutOfMemory>
    ensures { IfOk result (λ valid. MatchBool valid (faults (store_of_raw raw.now) ≡ [])
        (faults (store_of_raw raw.now) ≢ [])) }
{
    let report = audit(alloc, raw, false)?;
    Ok(report.findings.len() == 0)
}

// The store, which is valid, compacted.
fn compact_valid(alloc: Global, raw: &RawStore) -> Result<Compacted, CompactError>
    requires { faults (store_of_raw raw.now) ≡ [] }
    ensures compacted { IfOk result (λ c. IsCompacted (store_of_raw raw.now) (store_of_raw c.store)) }
    ensures dropped { IfOk result (λ c. c.dropped_chunks ≡ dropped_count (store_of_raw raw.now)) }
    ensures uncounted { IfOk result (λ c. IsUncounted c.store) }
    ensures serves { IfOk result (λ c. Serves (store_of_raw raw.now) (store_of_raw c.store)) }
    ensures clear { IfOk result (λ _. (h : MerkleHash) → Clashes (store_of_raw raw.now) h → ⊥) }
    ensures cause { IfErr result (CompactCause (store_of_raw raw.now)) }
{
    audits_tell_validity();
    let kept = KeptStore::of(alloc, raw)?;
    let dropped_chunks = kept.dropped_chunks()?;
    let files = ascending_files(alloc, &kept)?;
    let xorbs = ascending_xorbs(alloc, kept)?;
    Ok(Compacted {
        store: RawStore { xorbs, files },
        dropped_chunks,
    })
}

// The files that are kept, by ascending hash.
fn ascending_files(alloc: Global, kept: &KeptStore<'_>) -> Result<List<RawFile>, OutOfMemory>
    requires { IsKept kept.now.raw.now kept.now.index kept.now.kept }
    ensures { IfOk result (AreAllFiles (store_of_raw kept.now.raw.now)) }
{
    let files = kept.files(alloc)?;
    sorted_files(files)
}

// The xorbs that are kept, by ascending hash, or their least clash.
fn ascending_xorbs(alloc: Global, kept: KeptStore<'_>) -> Result<List<RawXorb>, CompactError>
    requires { IsKept kept.raw.now kept.index kept.kept }
    ensures merged { IfOk result (AreXorbs (kept_xorbs (store_of_raw kept.entry.raw.now))) }
    ensures cause { IfErr result (ClashCause (kept_xorbs (store_of_raw kept.entry.raw.now))) }
{
    let xorbs = kept.into_xorbs(alloc)?;
    merged_xorbs(xorbs)
}
