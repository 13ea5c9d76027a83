//! The raw store of a JSON value.
ghost use Rattle.std.specs.Prelude.{◌≡◌, [], IfOk, MatchOption, map, option_map};
ghost use Rattle.std.specs.Result.{result_ok};
ghost use Rattle.hex.specs.Hex.{decode_of};
ghost use Rattle.serde_json.specs.View.{items_view, members_view, view};
ghost use Rattle.xet_document.specs.Document.{file_of_member, files_of_members};
ghost use Rattle.xet_audit.specs.Raws.{IsUncounted, Lists, ListsNone, chunk_of, chunks_of_items, file_of_raw};
ghost use Rattle.xet_audit.specs.Raws.{store_of_raw, xorb_of_member, xorbs_of_members};
ghost use Rattle.xet_audit.specs.steps.Listed.{AreUncounted, HasNoBytes, all_or_none, store_of_members};

use crate::raw_store::{RawFile, RawStore, RawXorb};
use bytes::{Bytes, BytesMut};
use serde_json::{Map, Value};
use std::alloc::Global;
use xet_base::{List, OutOfMemory, Xorb};
use xet_document::{decode_digits, hash_of, holds_float, terms_of};

/// The raw store that a JSON value lists as `{"xorbs":{HASH:[HEXCHUNK,..]},"files":{HASH:[[HASH,from,to],..]}}`, in
/// the order of the value's keys. Two keys may spell one hash, a chunk's text may be empty, and the store need not be
/// valid.
///
/// None exactly where the value hasn't this form (other keys are passed over), or a number that is kept as a float
/// stands anywhere in it. Want of memory is the only error.
pub fn raw_of(alloc: Global, value: &Value) -> Result<Option<RawStore>, OutOfMemory>
    ensures listed { IfOk result (λ o. MatchOption o (ListsNone (view value.now))
        (λ raw. Lists (view value.now) (store_of_raw raw))) }
    ensures uncounted { IfOk result (λ o. MatchOption o (Unit {0}) IsUncounted) }
{
    if holds_float(value) {
        return Ok(None);
    }
    let Some(xorbs) = value.get("xorbs").and_then(Value::as_object) else {
        return Ok(None);
    };
    let Some(files) = value.get("files").and_then(Value::as_object) else {
        return Ok(None);
    };
    raw_listed(alloc, xorbs, files)
}

// The raw store of the listed xorbs and files, or none where one hasn't the form.
fn raw_listed(
    alloc: Global,
    xorbs: &Map<String, Value>,
    files: &Map<String, Value>,
) -> Result<Option<RawStore>, OutOfMemory>
    ensures listed { IfOk result (λ o. option_map store_of_raw o
        ≡ store_of_members (members_view xorbs.now.entries) (members_view files.now.entries)) }
    ensures uncounted { IfOk result (λ o. MatchOption o (Unit {0}) IsUncounted) }
{
    let Some(xorbs) = raw_xorbs(alloc, xorbs)? else {
        return Ok(None);
    };
    match raw_files(alloc, files)? {
        Some(files) => Ok(Some(RawStore { xorbs, files })),
        None => Ok(None),
    }
}

// The listed xorbs, or none where one hasn't the form.
fn raw_xorbs(
    alloc: Global,
    members: &Map<String, Value>,
) -> Result<Option<List<RawXorb>>, OutOfMemory>
    ensures { IfOk result (λ o. o ≡ xorbs_of_members (members_view members.now.entries)) }
{
    let mut xorbs = List::new(alloc);
    for (key, value) in members {
        let Some(xorb) = raw_xorb(alloc, key.as_str(), value)? else {
            return Ok(None);
        };
        xorbs.push(xorb)?;
    }
    Ok(Some(xorbs))
}

// The xorb of a member, or none where the key or the value hasn't the form.
fn raw_xorb(alloc: Global, key: &str, value: &Value) -> Result<Option<RawXorb>, OutOfMemory>
    ensures { IfOk result (λ o. o ≡ xorb_of_member key.now (view value.now)) }
{
    let Some(hash) = hash_of(key) else {
        return Ok(None);
    };
    let Some(items) = value.as_array() else {
        return Ok(None);
    };
    match raw_chunks(alloc, items.as_slice())? {
        Some(chunks) => Ok(Some(Xorb { hash, chunks })),
        None => Ok(None),
    }
}

// The chunks of a xorb, which share memory, or none where one isn't an even number of digits.
fn raw_chunks(alloc: Global, items: &[Value]) -> Result<Option<List<Bytes>>, OutOfMemory>
    ensures { IfOk result (λ o. o ≡ chunks_of_items (items_view items.now)) }
{
    let mut chunks = List::with_capacity(alloc, items.len())?;
    let mut room = BytesMut::with_capacity(alloc, room_of(items))?;
    if fill_chunks(items, &mut room, &mut chunks)? {
        Ok(Some(chunks))
    } else {
        Ok(None)
    }
}

// At least how many bytes the chunks have, where each is one.
fn room_of(items: &[Value]) -> usize {
    let mut room = 0usize;
    for item in items {
        room = room.saturating_add(item.as_str().unwrap_or("").len() / 2);
    }
    room
}

// Adds the chunks of a xorb to an empty list, or answers false where one isn't an even number of digits. Their bytes
// are cut from the room.
fn fill_chunks(
    items: &[Value],
    room: &mut BytesMut,
    chunks: &mut List<Bytes>,
) -> Result<bool, OutOfMemory>
    requires empty { room.old.items ≡ [] }
    requires none { chunks.old ≡ [] }
    ensures { IfOk result (λ all. all_or_none all chunks.new ≡ chunks_of_items (items_view items.now)) }
{
    for item in items {
        let Some(chunk) = raw_chunk(item, room)? else {
            return Ok(false);
        };
        chunks.push(chunk)?;
    }
    Ok(true)
}

// The bytes of a chunk, or none where it isn't an even number of digits. They are cut from empty room.
fn raw_chunk(value: &Value, room: &mut BytesMut) -> Result<Option<Bytes>, OutOfMemory>
    requires { room.old.items ≡ [] }
    ensures chunk { IfOk result (λ o. o ≡ chunk_of (view value.now)) }
    ensures empty { IfOk result (λ o. MatchOption o (Unit {0}) (λ _. room.new.items ≡ [])) }
{
    match value.as_str() {
        Some(text) => decoded(text, room),
        None => Ok(None),
    }
}

// The bytes that an even number of digits spells, or none where the text is any other. They are cut from empty room.
fn decoded(text: &str, room: &mut BytesMut) -> Result<Option<Bytes>, OutOfMemory>
    requires { room.old.items ≡ [] }
    ensures chunk { IfOk result (λ o. o ≡ result_ok (decode_of text.now)) }
    ensures empty { IfOk result (λ o. MatchOption o (Unit {0}) (λ _. room.new.items ≡ [])) }
{
    if text.len() % 2 != 0 {
        return Ok(None);
    }
    let count = text.len() / 2;
    room.resize(count, 0)?;
    if !decode_digits(text.as_bytes(), room.as_mut_slice()) {
        return Ok(None);
    }
    Ok(Some(room.freeze_to(count)?))
}

// The listed files, or none where one hasn't the form.
fn raw_files(
    alloc: Global,
    members: &Map<String, Value>,
) -> Result<Option<List<RawFile>>, OutOfMemory>
    ensures listed { IfOk result (λ o. option_map (map file_of_raw) o
        ≡ files_of_members (members_view members.now.entries)) }
    ensures uncounted { IfOk result (λ o. MatchOption o (Unit {0}) AreUncounted) }
{
    let mut files = List::new(alloc);
    for (key, value) in members {
        let Some(file) = raw_file(alloc, key.as_str(), value)? else {
            return Ok(None);
        };
        files.push(file)?;
    }
    Ok(Some(files))
}

// The file of a member, or none where the key or the value hasn't the form.
fn raw_file(alloc: Global, key: &str, value: &Value) -> Result<Option<RawFile>, OutOfMemory>
    ensures listed { IfOk result (λ o. option_map file_of_raw o ≡ file_of_member key.now (view value.now)) }
    ensures uncounted { IfOk result (λ o. MatchOption o (Unit {0}) HasNoBytes) }
{
    let Some(hash) = hash_of(key) else {
        return Ok(None);
    };
    match terms_of(alloc, value)? {
        Some(terms) => Ok(Some(RawFile { hash, terms })),
        None => Ok(None),
    }
}
