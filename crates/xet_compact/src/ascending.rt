//! Xorbs and files by ascending hash.
ghost use Rattle.std.specs.Prelude.{◌≡◌, ◌↔◌, AllPairs, IfErr, IfOk, IsFalse, IsTrue, MatchBool, MatchOption};
ghost use Rattle.xet_base.specs.Hashes.{hash_eq};
ghost use Rattle.xet_compact.specs.steps.Ascending.{AreFiles, AreXorbs, ClashCause, ClashesAt, NoneClashes};

use crate::compaction::CompactError;
use bytes::Bytes;
use xet_audit::{RawFile, RawXorb};
use xet_base::{List, MerkleHash, OutOfMemory};

/// Files whose hashes differ, by ascending hash.
pub(crate) fn sorted_files(files: Vec<RawFile>) -> Result<List<RawFile>, OutOfMemory>
    requires { AllPairs (λ a b. IsFalse (hash_eq a.hash b.hash)) files.items }
    ensures { IfOk result (AreFiles files.items) }
{
    let mut files = files;
    files.sort_by_key(|file| file.hash)?;
    Ok(List::from_vec(files))
}

/// Xorbs by ascending hash, those that are equal once.
///
/// `Clash` exactly where two with one hash have different chunks: of several such hashes the least.
pub(crate) fn merged_xorbs(xorbs: Vec<RawXorb>) -> Result<List<RawXorb>, CompactError>
    ensures merged { IfOk result (AreXorbs xorbs.items) }
    ensures cause { IfErr result (ClashCause xorbs.items) }
{
    let mut xorbs = xorbs;
    xorbs.sort_by_key(|xorb| xorb.hash)?;
    if let Some(hash) = first_clash(xorbs.as_slice()) {
        return Err(CompactError::Clash(hash));
    }
    xorbs.dedup_by_key(|xorb| xorb.hash);
    Ok(List::from_vec(xorbs))
}

// The hash of the first two neighbours that have one hash and different chunks.
fn first_clash(xorbs: &[RawXorb]) -> Option<MerkleHash>
    ensures { MatchOption result (NoneClashes xorbs.now) (ClashesAt xorbs.now) }
{
    for i in 1..xorbs.len() {
        let xorb = &xorbs[i];
        if clashes(&xorbs[i - 1], xorb) {
            return Some(xorb.hash);
        }
    }
    None
}

// Whether two xorbs have one hash and different chunks.
fn clashes(a: &RawXorb, b: &RawXorb) -> bool
    ensures { MatchBool result ((a.now.hash ≡ b.now.hash) × (a.now.chunks ≡ b.now.chunks → ⊥))
        (a.now.hash ≡ b.now.hash → a.now.chunks ≡ b.now.chunks) }
{
    a.hash.is_same(&b.hash) && !have_same(a.chunks.as_slice(), b.chunks.as_slice())
}

// Whether the chunks are equal.
fn have_same(a: &[Bytes], b: &[Bytes]) -> bool
    ensures { IsTrue result ↔ (a.now ≡ b.now) }
{
    a == b
}
