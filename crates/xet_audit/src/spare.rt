//! Xorbs that no file names.
ghost use Rattle.std.specs.Prelude.{◌≡◌, ◌++◌, ◌∷◌, [], IfOk, List as Items, OnOk, cond, filter, length};
ghost use Rattle.std.specs.Prelude.{map, not};
ghost use Rattle.std.specs.List.{flat_map, list_any};
ghost use Rattle.xet_base.specs.Hashes.{hash_eq};
ghost use Rattle.xet_base.specs.declared.merklehash.MerkleHash.{MerkleHash};
ghost use Rattle.xet_audit.specs.Findings.{AreSpare};
ghost use Rattle.xet_audit.specs.Raws.{store_of_raw};
ghost use Rattle.xet_audit.specs.steps.Indexed.{IsIndexed};
ghost use Rattle.xet_audit.specs.steps.Tables.{IsMarked};

use crate::xorb_table::XorbTable;
use std::alloc::Global;
use xet_base::{List, MerkleHash, OutOfMemory};

/// The hashes of the xorbs that no file names, ascending, each once. The marks say which are named.
pub(crate) fn spare_xorbs(
    alloc: Global,
    table: &XorbTable<'_>,
    named: &[bool],
) -> Result<List<MerkleHash>, OutOfMemory>
    requires indexed { IsIndexed table.now }
    requires marked { IsMarked table.now.firsts.hashes
        (flat_map (λ f. map (λ t. t.xorb) f.terms) (store_of_raw table.now.raw.now).files) named.now }
    ensures { IfOk result (AreSpare (store_of_raw table.now.raw.now)) }
{
    let mut spare = unmarked(alloc, table.firsts.hashes.keys(), named)?;
    spare.sort_unstable();
    spare.dedup();
    Ok(List::from_vec(spare))
}

// The hashes that aren't marked.
fn unmarked(
    alloc: Global,
    hashes: &[MerkleHash],
    marks: &[bool],
) -> Result<Vec<MerkleHash>, OutOfMemory>
    requires { length marks.now ≡ length hashes.now }
    ensures { IfOk result (λ left. (seen : Items MerkleHash) → IsMarked hashes.now seen marks.now
        → left.items ≡ filter (λ k. not (list_any (λ y. hash_eq y k) seen)) hashes.now) }
{
    let mut left = Vec::new(alloc);
    for (n, hash) in hashes.iter().enumerate() {
        add_unless(&mut left, marks[n], *hash)?;
    }
    Ok(left)
}

// Adds a hash that isn't marked.
fn add_unless(left: &mut Vec<MerkleHash>, marked: bool, hash: MerkleHash) -> Result<(), OutOfMemory>
    ensures { OnOk result (left.new.items ≡ left.old.items ++ cond marked [] (hash ∷ [])) }
{
    if !marked {
        left.push(hash)?;
    }
    Ok(())
}
