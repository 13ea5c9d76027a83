//! Reads a store from a JSON document.
ghost use Rattle.std.specs.Prelude.{◌≡◌, ◌≢◌, [], All, IfErr, IfOk, IfSome, MatchOption, cond, length, map};
ghost use Rattle.std.specs.Prelude.{option_and_then, option_map};
ghost use Rattle.serde_json.specs.Data.{item, no_items};
ghost use Rattle.serde_json.specs.Find.{as_array};
ghost use Rattle.serde_json.specs.View.{items_view, members_view, view};
ghost use Rattle.serde_json.specs.Written.{has_float};
ghost use Rattle.xet_base.specs.Store.{IsValid};
ghost use Rattle.xet_store.specs.Refusals.{stored_term};
ghost use Rattle.xet_document.specs.steps.AddedMembers.{AddsBoth, AddsFiles, AddsXorbs, IsStoreOf};
ghost use Rattle.xet_document.specs.steps.ChunkEnds.{AddsChunk};
ghost use Rattle.xet_document.specs.Document.{IsDocumentOf, IsNoDocument, chunk_of, chunk_of_text, chunks_of_items};
ghost use Rattle.xet_document.specs.Document.{number_of_data, term_of_items, terms_of_items, xorb_of_member};

use crate::hex_digits::{LastHash, decode_digits, hash_of};
use bytes::Bytes;
use serde_json::{Map, Value};
use std::alloc::Global;
use xet_base::{FileDataSequenceEntry, List, MerkleHash, OutOfMemory};
use xet_store::{JoinedXorb, MemStore, StoreRefused};

/// Whether a number that is kept as a float stands anywhere in the value.
pub fn holds_float(value: &Value) -> bool
    ensures { result ≡ has_float (view value.now) }
{
    match value {
        Value::Number(number) => number.is_f64(),
        Value::Array(items) => {
            for item in items {
                if holds_float(item) {
                    return true;
                }
            }
            false
        }
        Value::Object(members) => {
            for (_key, member) in members {
                if holds_float(member) {
                    return true;
                }
            }
            false
        }
        _ => false,
    }
}

// Adds the bytes that a text spells, or answers false where it isn't a nonempty even number of hexadecimal digits.
pub(crate) fn add_digits(text: &str, bytes: &mut Vec<u8>) -> Result<bool, OutOfMemory>
    ensures { IfOk result (λ added. AddsChunk (chunk_of_text text.now) added bytes.old.items bytes.new.items) }
{
    if text.is_empty() || text.len() % 2 != 0 {
        return Ok(false);
    }
    let start = bytes.len();
    let Some(end) = start.checked_add(text.len() / 2) else {
        return Err(OutOfMemory);
    };
    bytes.resize(end, 0)?;
    Ok(decode_digits(text.as_bytes(), &mut bytes[start..]))
}

// Adds the bytes of a chunk, or answers false where it isn't one.
fn add_chunk(value: &Value, bytes: &mut Vec<u8>) -> Result<bool, OutOfMemory>
    ensures { IfOk result (λ added. AddsChunk (chunk_of (view value.now)) added bytes.old.items bytes.new.items) }
{
    match value.as_str() {
        Some(text) => add_digits(text, bytes),
        None => Ok(false),
    }
}

// The xorb with this hash of these chunks, which share one buffer, or none where one isn't a nonempty even number of
// digits.
fn joined_xorb(
    alloc: Global,
    hash: MerkleHash,
    items: &[Value],
) -> Result<Option<JoinedXorb>, OutOfMemory>
    ensures { IfOk result (λ o. o ≡ option_map (λ cs. record { hash = hash; chunks = cs })
        (chunks_of_items (items_view items.now))) }
{
    let mut joined = Vec::new(alloc);
    let mut ends = Vec::with_capacity(alloc, items.len())?;
    for item in items {
        if !add_chunk(item, &mut joined)? {
            return Ok(None);
        }
        ends.push(joined.len())?;
    }
    Ok(Some(JoinedXorb::new(hash, Bytes::from_vec(joined)?, ends)))
}

// The xorb of a member, or none where the key or the value hasn't the form.
fn xorb_of(alloc: Global, key: &str, value: &Value) -> Result<Option<JoinedXorb>, OutOfMemory>
    ensures { IfOk result (λ o. o ≡ xorb_of_member key.now (view value.now)) }
{
    let Some(hash) = hash_of(key) else {
        return Ok(None);
    };
    let Some(items) = value.as_array() else {
        return Ok(None);
    };
    joined_xorb(alloc, hash, items.as_slice())
}

// A whole number below 2^32.
fn number(value: &Value) -> Option<u32>
    ensures { result ≡ number_of_data (view value.now) }
{
    let number = value.as_u64()?;
    u32::try_from(number).ok()
}

// A term: a xorb's hash, and the numbers of its first chunk and of the one after its last. Its count of bytes is 0.
fn term_of<'a>(value: &'a Value, last: &mut LastHash<'a>) -> Option<FileDataSequenceEntry>
    ensures term { option_map stored_term result ≡ option_and_then term_of_items (as_array (view value.now)) }
    ensures uncounted { IfSome result (λ t. t.bytes ≡ 0) }
{
    match value.as_array()?.as_slice() {
        [xorb, from, to] => term_by(xorb, from, to, last),
        _ => None,
    }
}

// The term of three values.
fn term_by<'a>(
    xorb: &'a Value,
    from: &Value,
    to: &Value,
    last: &mut LastHash<'a>,
) -> Option<FileDataSequenceEntry>
    ensures term { option_map stored_term result
        ≡ term_of_items (item (view xorb.now) (item (view from.now) (item (view to.now) no_items))) }
    ensures uncounted { IfSome result (λ t. t.bytes ≡ 0) }
{
    Some(FileDataSequenceEntry {
        xorb: last.hash_of(xorb.as_str()?)?,
        from: number(from)?,
        to: number(to)?,
        bytes: 0,
    })
}

/// The terms of a file, or none where one hasn't the form. Their counts of bytes are 0. Want of memory is the only
/// error.
pub fn terms_of(
    alloc: Global,
    value: &Value,
) -> Result<Option<List<FileDataSequenceEntry>>, OutOfMemory>
    ensures terms { IfOk result (λ o. option_map (map stored_term) o
        ≡ option_and_then terms_of_items (as_array (view value.now))) }
    ensures uncounted { IfOk result (λ o. MatchOption o (Unit {0}) (All (λ t. t.bytes ≡ 0))) }
{
    let Some(items) = value.as_array() else {
        return Ok(None);
    };
    let mut terms = List::with_capacity(alloc, items.as_slice().len())?;
    let mut last = LastHash::of_text("");
    for item in items {
        let Some(term) = term_of(item, &mut last) else {
            return Ok(None);
        };
        terms.push(term)?;
    }
    Ok(Some(terms))
}

// Whether the store took what was added to it.
pub(crate) fn was_added(answer: Result<(), StoreRefused>) -> Result<bool, OutOfMemory>
    ensures added { IfOk result (λ added. cond added (answer ≡ Ok tt)
        ((refused : StoreRefused) × (answer ≡ Err refused) × (refused ≢ StoreRefused.OutOfMemory))) }
    ensures memory { IfErr result (λ _. answer ≡ Err StoreRefused.OutOfMemory) }
{
    match answer {
        Ok(()) => Ok(true),
        Err(StoreRefused::OutOfMemory) => Err(OutOfMemory),
        Err(_) => Ok(false),
    }
}

// Adds the listed xorbs, or answers false where one hasn't the form or is refused.
fn add_xorbs(
    alloc: Global,
    members: &Map<String, Value>,
    store: &mut MemStore,
) -> Result<bool, OutOfMemory>
    requires { IsValid store.old }
    ensures { IfOk result (λ added. AddsXorbs store.old (members_view members.now.entries) added store.new) }
{
    for (key, value) in members {
        let Some(xorb) = xorb_of(alloc, key.as_str(), value)? else {
            return Ok(false);
        };
        if !was_added(store.add_joined(alloc, xorb))? {
            return Ok(false);
        }
    }
    Ok(true)
}

// Adds the listed files, or answers false where one hasn't the form or is refused.
fn add_files(
    alloc: Global,
    members: &Map<String, Value>,
    store: &mut MemStore,
) -> Result<bool, OutOfMemory>
    requires { IsValid store.old }
    ensures { IfOk result (λ added. AddsFiles store.old (members_view members.now.entries) added store.new) }
{
    for (key, value) in members {
        let Ok(hash) = MerkleHash::from_hex(key.as_str()) else {
            return Ok(false);
        };
        let Some(terms) = terms_of(alloc, value)? else {
            return Ok(false);
        };
        if !was_added(store.add_file(alloc, hash, terms))? {
            return Ok(false);
        }
    }
    Ok(true)
}

// Adds the listed xorbs, and then the listed files, or answers false where one hasn't the form or is refused.
fn add_listed(
    alloc: Global,
    xorbs: &Map<String, Value>,
    files: &Map<String, Value>,
    store: &mut MemStore,
) -> Result<bool, OutOfMemory>
    requires { IsValid store.old }
    ensures { IfOk result (λ added. AddsBoth store.old (members_view xorbs.now.entries)
        (members_view files.now.entries) added store.new) }
{
    if !add_xorbs(alloc, xorbs, store)? {
        return Ok(false);
    }
    add_files(alloc, files, store)
}

// The store of the listed xorbs and files, or none where one hasn't the form or is refused.
fn listed_store(
    alloc: Global,
    xorbs: &Map<String, Value>,
    files: &Map<String, Value>,
) -> Result<Option<MemStore>, OutOfMemory>
    ensures { IfOk result (IsStoreOf (members_view xorbs.now.entries) (members_view files.now.entries)) }
{
    let mut store = MemStore::new(alloc);
    if add_listed(alloc, xorbs, files, &mut store)? {
        Ok(Some(store))
    } else {
        Ok(None)
    }
}

/// The store that a JSON value lists as `{"xorbs":{HASH:[HEXCHUNK,..]},"files":{HASH:[[HASH,from,to],..]}}`.
///
/// None exactly where the value hasn't this form (other keys are passed over), two keys of xorbs or two of files spell
/// one hash, a number that is kept as a float stands anywhere in the value, or the store isn't valid. Want of memory is
/// the only error.
pub fn store_of(alloc: Global, value: &Value) -> Result<Option<MemStore>, OutOfMemory>
    ensures { IfOk result (λ o. MatchOption o (IsNoDocument (view value.now)) (IsDocumentOf (view value.now))) }
{
    if holds_float(value) {
        return Ok(None);
    }
    let Some(xorbs) = value.get("xorbs").and_then(Value::as_object) else {
        return Ok(None);
    };
    let Some(files) = value.get("files").and_then(Value::as_object) else {
        return Ok(None);
    };
    listed_store(alloc, xorbs, files)
}
