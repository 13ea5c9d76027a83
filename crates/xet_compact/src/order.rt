//! Whether xorbs and files stand by ascending hash.
ghost use Rattle.std.specs.Prelude.{◌≡◌, MatchBool, map};
ghost use Rattle.std.specs.List.Sorted.{IsStrictlySortedBy};
ghost use Rattle.std.specs.declared.cmp.Ordering.TheVariants.{Less};
ghost use Rattle.xet_audit.specs.Findings.{hash_cmp};
ghost use Rattle.xet_audit.specs.Raws.{store_of_raw};
ghost use Rattle.xet_compact.specs.Documents.{IsInOrder};

use std::cmp::Ordering;
use xet_audit::{RawFile, RawStore, RawXorb};
use xet_base::MerkleHash;

/// Whether the xorbs of a store, and its files, stand by ascending hash, each hash once.
pub(crate) fn is_in_order(raw: &RawStore) -> bool
    ensures { MatchBool result (IsInOrder (store_of_raw raw.now)) (Unit {0}) }
{
    xorbs_ascend(raw.xorbs.as_slice()) && files_ascend(raw.files.as_slice())
}

// Whether xorbs stand so.
fn xorbs_ascend(xorbs: &[RawXorb]) -> bool
    ensures { MatchBool result (IsStrictlySortedBy hash_cmp (map (λ x. x.hash) xorbs.now)) (Unit {0}) }
{
    for i in 1..xorbs.len() {
        if !is_below(&xorbs[i - 1].hash, &xorbs[i].hash) {
            return false;
        }
    }
    true
}

// Whether files stand so.
fn files_ascend(files: &[RawFile]) -> bool
    ensures { MatchBool result (IsStrictlySortedBy hash_cmp (map (λ f. f.hash) files.now)) (Unit {0}) }
{
    for i in 1..files.len() {
        if !is_below(&files[i - 1].hash, &files[i].hash) {
            return false;
        }
    }
    true
}

// Whether a hash stands before another.
fn is_below(a: &MerkleHash, b: &MerkleHash) -> bool
    ensures { MatchBool result (hash_cmp a.now b.now ≡ Less) (Unit {0}) }
{
    match a.cmp(b) {
        Ordering::Less => true,
        _ => false,
    }
}
