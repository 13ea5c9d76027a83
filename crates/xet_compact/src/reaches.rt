//! Which chunks of a store the terms of its files hold.
ghost use Rattle.std.specs.Prelude.{◌≡◌, [], AllPairs, IfOk, IsFalse, map};
ghost use Rattle.xet_base.specs.Hashes.{hash_eq};
ghost use Rattle.xet_base.specs.Store.{IsValid};
ghost use Rattle.xet_audit.specs.Raws.{store_of_raw};
ghost use Rattle.xet_compact.specs.steps.Reaches.{AreReached};

use std::alloc::Global;
use xet_audit::{RawStore, RawXorb};
use xet_base::{KeyIndex, MerkleHash, OutOfMemory};
use xet_held::{Reach, extend_all};

/// The number of each xorb, by its hash.
pub(crate) fn index_of(
    alloc: Global,
    xorbs: &[RawXorb],
) -> Result<KeyIndex<MerkleHash>, OutOfMemory>
    requires { AllPairs (λ a b. IsFalse (hash_eq a.hash b.hash)) xorbs.now }
    ensures { IfOk result (λ index. index ≡ map (λ x. x.hash) xorbs.now) }
{
    let mut index = KeyIndex::new(alloc);
    for xorb in xorbs {
        index.add(xorb.hash)?;
    }
    Ok(index)
}

/// How far the terms of all files reach, for each xorb.
pub(crate) fn reaches_of(
    alloc: Global,
    raw: &RawStore,
    index: &KeyIndex<MerkleHash>,
) -> Result<Vec<Reach>, OutOfMemory>
    requires valid { IsValid (store_of_raw raw.now) }
    requires indexed { index.now ≡ map (λ x. x.hash) raw.now.xorbs }
    ensures { IfOk result (λ rs. AreReached raw.now.xorbs (store_of_raw raw.now).files rs.items) }
{
    let mut reaches = empty_reaches(alloc, raw.xorbs.as_slice())?;
    for file in raw.files.as_slice() {
        extend_all(index, file.terms.as_slice(), &mut reaches);
    }
    Ok(reaches)
}

// How far no term reaches, for each xorb.
fn empty_reaches(alloc: Global, xorbs: &[RawXorb]) -> Result<Vec<Reach>, OutOfMemory>
    ensures { IfOk result (λ rs. AreReached xorbs.now [] rs.items) }
{
    let mut reaches = Vec::with_capacity(alloc, xorbs.len())?;
    for xorb in xorbs {
        reaches.push(Reach::of_none(alloc, xorb.chunks.len())?)?;
    }
    Ok(reaches)
}
