//! Audits.
ghost use Rattle.std.specs.Prelude.{◌≡◌, ◌++◌, [], IfOk, OnOk, cond, map};
ghost use Rattle.xet_audit.specs.Findings.{AreSpare, findings, misnamed};
ghost use Rattle.xet_audit.specs.Raws.{store_of_raw};
ghost use Rattle.xet_audit.specs.steps.Indexed.{IsIndexed};
ghost use Rattle.xet_audit.specs.steps.Parts.{chunk_faults, term_faults, xorb_faults};
ghost use Rattle.xet_findings.specs.Places.{places_of};

use crate::first_places::{find_later_files, find_later_xorbs};
use crate::hash_faults::find_misnamed;
use crate::raw_store::{RawStore, RawXorb};
use crate::spare::spare_xorbs;
use crate::term_walk::{TermWalk, walk_files};
use crate::xorb_faults::{find_empty_chunks, find_large_xorbs};
use crate::xorb_table::XorbTable;
use std::alloc::Global;
use xet_base::{List, MerkleHash, OutOfMemory};
use xet_findings::{AuditReport, Finding, all_places};

/// What is wrong with a store, and which of its xorbs no file names. With `hashes` the hashes of xorbs and files are
/// computed too. Want of memory is the only error.
///
/// It takes time linear in chunks and terms, but for look-ups and one sort; with `hashes` besides in the bytes of all
/// chunks, and in the chunks of all files, each as often as terms have it.
pub fn audit(alloc: Global, raw: &RawStore, hashes: bool) -> Result<AuditReport, OutOfMemory>
    ensures findings { IfOk result (λ r. r.findings ≡ findings (store_of_raw raw.now) hashes) }
    ensures spare { IfOk result (λ r. AreSpare (store_of_raw raw.now) r.spare) }
{
    let mut found = Vec::new(alloc);
    let spare = find(alloc, raw, hashes, &mut found)?;
    Ok(AuditReport {
        findings: List::from_vec(found),
        spare,
    })
}

// Adds all findings, and answers the hashes of the spare xorbs.
fn find(
    alloc: Global,
    raw: &RawStore,
    hashes: bool,
    found: &mut Vec<Finding>,
) -> Result<List<MerkleHash>, OutOfMemory>
    ensures findings { OnOk result (found.new.items
        ≡ found.old.items ++ findings (store_of_raw raw.now) hashes) }
    ensures spare { IfOk result (AreSpare (store_of_raw raw.now)) }
{
    let table = find_in_xorbs(alloc, raw, found)?;
    find_later_files(alloc, raw, found)?;
    let spare = find_in_terms(alloc, &table, found)?;
    find_in_hashes(alloc, &table, hashes, found)?;
    Ok(spare)
}

// Adds the findings of kinds 8 and 9, where they are asked for.
fn find_in_hashes(
    alloc: Global,
    table: &XorbTable<'_>,
    hashes: bool,
    found: &mut Vec<Finding>,
) -> Result<(), OutOfMemory>
    requires { IsIndexed table.now }
    ensures { OnOk result (found.new.items ≡ found.old.items
        ++ cond hashes (misnamed (store_of_raw table.now.raw.now)) []) }
{
    if hashes {
        return find_misnamed(alloc, table, found);
    }
    Ok(())
}

// The table of the xorbs. Adds the findings of kinds 1 to 3.
fn find_in_xorbs<'a>(
    alloc: Global,
    raw: &'a RawStore,
    found: &mut Vec<Finding>,
) -> Result<XorbTable<'a>, OutOfMemory>
    ensures table { IfOk result IsIndexed }
    ensures raw { IfOk result (λ t. t.raw.now ≡ raw.now) }
    ensures found { OnOk result (found.new.items ≡ found.old.items ++ xorb_faults (store_of_raw raw.now)) }
{
    let firsts = find_later_xorbs(alloc, raw, found)?;
    let places = find_in_chunks(alloc, raw.xorbs.as_slice(), found)?;
    Ok(XorbTable {
        raw,
        firsts,
        places,
    })
}

// The places of the chunks of each xorb. Adds the findings of kinds 2 and 3.
fn find_in_chunks(
    alloc: Global,
    xorbs: &[RawXorb],
    found: &mut Vec<Finding>,
) -> Result<List<List<u128>>, OutOfMemory>
    ensures places { IfOk result (λ all. all ≡ map (λ x. places_of x.chunks) xorbs.now) }
    ensures found { OnOk result (found.new.items ≡ found.old.items ++ chunk_faults xorbs.now) }
{
    find_empty_chunks(xorbs, found)?;
    find_large_xorbs(xorbs, found)?;
    all_places(alloc, xorbs)
}

// The hashes of the spare xorbs. Adds the findings of kinds 5 to 7.
fn find_in_terms(
    alloc: Global,
    table: &XorbTable<'_>,
    found: &mut Vec<Finding>,
) -> Result<List<MerkleHash>, OutOfMemory>
    requires { IsIndexed table.now }
    ensures spare { IfOk result (AreSpare (store_of_raw table.now.raw.now)) }
    ensures found { OnOk result (found.new.items ≡ found.old.items
        ++ term_faults (store_of_raw table.now.raw.now)) }
{
    let walk = walk_files(alloc, table)?;
    add_walked(&walk, found)?;
    spare_xorbs(alloc, table, walk.named.as_slice())
}

// Adds the findings of a walk, by kind.
fn add_walked(walk: &TermWalk, found: &mut Vec<Finding>) -> Result<(), OutOfMemory>
    ensures { OnOk result (found.new.items ≡ found.old.items
        ++ (walk.now.unnamed.items ++ walk.now.outside.items ++ walk.now.long.items)) }
{
    found.extend_from_slice(walk.unnamed.as_slice())?;
    found.extend_from_slice(walk.outside.as_slice())?;
    found.extend_from_slice(walk.long.as_slice())?;
    Ok(())
}
