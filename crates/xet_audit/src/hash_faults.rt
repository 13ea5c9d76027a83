//! Findings of kinds 8 and 9: hashes that aren't those of the chunks.
ghost use Rattle.std.specs.Prelude.{◌≡◌, ◌++◌, ◌≤◌, ℕ, List as Items, MatchOption, OnOk, cond, false, length};
ghost use Rattle.std.specs.Prelude.{map, not, slice_range, true};
ghost use Rattle.std.specs.List.{flat_map, list_all};
ghost use Rattle.xet_base.specs.Store.{chunks_of_term};
ghost use Rattle.xet_store.specs.Refusals.{is_term_in, stored_term};
ghost use Rattle.xet_audit.specs.Findings.{are_short, each_at, is_file_hash, is_misnamed, is_xorb_hash, misnamed};
ghost use Rattle.xet_audit.specs.Raws.{file_of_raw, store_of_raw};
ghost use Rattle.xet_audit.specs.steps.Indexed.{IsIndexed};
ghost use Rattle.xet_audit.specs.steps.Records.{Fed, record_of};

use crate::raw_store::{RawFile, RawXorb};
use crate::records::{Records, all_records, feed};
use crate::term_state::TermState;
use crate::xorb_table::XorbTable;
use sha2::{Digest, Sha256};
use std::alloc::Global;
use xet_base::{ChunkInfo, FileDataSequenceEntry, MerkleHash, OutOfMemory};
use xet_findings::{Finding, add_if};

/// Adds a finding of kind 8 for each xorb, and then one of kind 9 for each file, whose hash isn't that of its chunks.
pub(crate) fn find_misnamed(
    alloc: Global,
    table: &XorbTable<'_>,
    found: &mut Vec<Finding>,
) -> Result<(), OutOfMemory>
    requires { IsIndexed table.now }
    ensures { OnOk result (found.new.items ≡ found.old.items ++ misnamed (store_of_raw table.now.raw.now)) }
{
    let records = all_records(alloc, table.raw.xorbs.as_slice())?;
    find_by_records(table, records.as_slice(), found)
}

// Adds these findings, where the xorbs' chunks have these records.
fn find_by_records(
    table: &XorbTable<'_>,
    records: &[Records],
    found: &mut Vec<Finding>,
) -> Result<(), OutOfMemory>
    requires indexed { IsIndexed table.now }
    requires known { records.now ≡ map (λ x. map record_of x.chunks) table.now.raw.now.xorbs }
    ensures { OnOk result (found.new.items ≡ found.old.items ++ misnamed (store_of_raw table.now.raw.now)) }
{
    find_misnamed_xorbs(table.raw.xorbs.as_slice(), records, found)?;
    find_misnamed_files(table, records, found)
}

// Adds a finding of kind 8 for each xorb whose hash isn't that of its chunks, which have these records.
fn find_misnamed_xorbs(
    xorbs: &[RawXorb],
    records: &[Records],
    found: &mut Vec<Finding>,
) -> Result<(), OutOfMemory>
    requires { records.now ≡ map (λ x. map record_of x.chunks) xorbs.now }
    ensures { OnOk result (found.new.items ≡ found.old.items
        ++ each_at 8 (λ i x. not (is_xorb_hash x.hash x.chunks)) xorbs.now) }
{
    for (a, xorb) in xorbs.iter().enumerate() {
        let misnamed = Finding {
            kind: 8,
            a: a as u64,
            b: 0,
        };
        add_if(
            found,
            !has_xorb_hash(&xorb.hash, records[a].as_slice()),
            misnamed,
        )?;
    }
    Ok(())
}

// Whether a hash is that of a xorb whose chunks have these records.
fn has_xorb_hash(hash: &MerkleHash, records: &[Option<ChunkInfo>]) -> bool
    ensures { (cs : Items (Items ℕ)) → records.now ≡ map record_of cs → result ≡ is_xorb_hash hash.now cs }
{
    let mut hasher = Sha256::new();
    hasher.update([1u8].as_slice());
    feed(&mut hasher, records) && hash.is_same(&MerkleHash(hasher.finalize()))
}

// Adds a finding of kind 9 for each file whose terms name chunks, of which its hash isn't the hash. The xorbs' chunks
// have these records.
fn find_misnamed_files(
    table: &XorbTable<'_>,
    records: &[Records],
    found: &mut Vec<Finding>,
) -> Result<(), OutOfMemory>
    requires indexed { IsIndexed table.now }
    requires known { records.now ≡ map (λ x. map record_of x.chunks) table.now.raw.now.xorbs }
    ensures { let s = store_of_raw table.now.raw.now in OnOk result (found.new.items
        ≡ found.old.items ++ each_at 9 (λ i f. is_misnamed s f) s.files) }
{
    for (a, file) in table.raw.files.as_slice().iter().enumerate() {
        let misnamed = Finding {
            kind: 9,
            a: a as u64,
            b: 0,
        };
        add_if(found, is_misnamed(table, records, file), misnamed)?;
    }
    Ok(())
}

// Whether a file's terms name chunks, of which its hash isn't the hash.
fn is_misnamed(table: &XorbTable<'_>, records: &[Records], file: &RawFile) -> bool
    requires indexed { IsIndexed table.now }
    requires known { records.now ≡ map (λ x. map record_of x.chunks) table.now.raw.now.xorbs }
    ensures { result ≡ is_misnamed (store_of_raw table.now.raw.now) (file_of_raw file.now) }
{
    let terms = file.terms.as_slice();
    resolves(table, terms) && !has_file_hash(table, records, &file.hash, terms)
}

// Whether all terms name chunks.
fn resolves(table: &XorbTable<'_>, terms: &[FileDataSequenceEntry]) -> bool
    requires { IsIndexed table.now }
    ensures { result ≡ list_all (is_term_in (store_of_raw table.now.raw.now)) (map stored_term terms.now) }
{
    let mut near = 0usize;
    for term in terms {
        let number = table.number_near(&term.xorb, near);
        let TermState::Inside(_) = table.state(term, number) else {
            return false;
        };
        near = number.unwrap_or(near);
    }
    true
}

// Whether a hash is that of a file of these terms, which all name chunks. The xorbs' chunks have these records.
fn has_file_hash(
    table: &XorbTable<'_>,
    records: &[Records],
    hash: &MerkleHash,
    terms: &[FileDataSequenceEntry],
) -> bool
    requires indexed { IsIndexed table.now }
    requires known { records.now ≡ map (λ x. map record_of x.chunks) table.now.raw.now.xorbs }
    requires inside { list_all (is_term_in (store_of_raw table.now.raw.now)) (map stored_term terms.now) ≡ true }
    ensures { let s = store_of_raw table.now.raw.now in result
        ≡ is_file_hash hash.now (flat_map (chunks_of_term s) (map stored_term terms.now)) }
{
    let mut hasher = Sha256::new();
    hasher.update([2u8].as_slice());
    feed_terms(&mut hasher, table, records, terms) && hash.is_same(&MerkleHash(hasher.finalize()))
}

// Feeds the records of the chunks of these terms, which all name some, to a hash, up to the first chunk that has none.
// Whether all have one.
fn feed_terms(
    hasher: &mut Sha256,
    table: &XorbTable<'_>,
    records: &[Records],
    terms: &[FileDataSequenceEntry],
) -> bool
    requires indexed { IsIndexed table.now }
    requires known { records.now ≡ map (λ x. map record_of x.chunks) table.now.raw.now.xorbs }
    requires inside { list_all (is_term_in (store_of_raw table.now.raw.now)) (map stored_term terms.now) ≡ true }
    ensures { let cs = flat_map (chunks_of_term (store_of_raw table.now.raw.now)) (map stored_term terms.now) in
        cond result (Fed hasher.old hasher.new cs) (are_short cs ≡ false) }
{
    let mut near = 0usize;
    for term in terms {
        let Some(number) = feed_term(hasher, table, records, term, near) else {
            return false;
        };
        near = number;
    }
    true
}

// Feeds the records of the chunks of a term, which names some, to a hash. The number of its xorb's hash, where all
// chunks have a record. A number is looked at first.
fn feed_term(
    hasher: &mut Sha256,
    table: &XorbTable<'_>,
    records: &[Records],
    term: &FileDataSequenceEntry,
    near: usize,
) -> Option<usize>
    requires indexed { IsIndexed table.now }
    requires known { records.now ≡ map (λ x. map record_of x.chunks) table.now.raw.now.xorbs }
    requires inside { is_term_in (store_of_raw table.now.raw.now) (stored_term term.now) ≡ true }
    ensures { let cs = chunks_of_term (store_of_raw table.now.raw.now) (stored_term term.now) in
        MatchOption result (are_short cs ≡ false) (λ _. Fed hasher.old hasher.new cs) }
{
    let Some(number) = table.number_near(&term.xorb, near) else {
        return None;
    };
    let own = records[table.firsts.places[number]].as_slice();
    if feed(hasher, part(own, term.from, term.to)) {
        Some(number)
    } else {
        None
    }
}

// The records from number `from` to before number `to`.
fn part(records: &[Option<ChunkInfo>], from: u32, to: u32) -> &[Option<ChunkInfo>]
    requires order { from ≤ to }
    requires inside { to ≤ length records.now }
    ensures { result.now ≡ slice_range records.now from to }
{
    &records[from as usize..to as usize]
}
