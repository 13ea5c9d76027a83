//! Raw stores as JSON documents.
ghost use Rattle.std.specs.Prelude.{◌≡◌, ◌<◌, All, IfOk, OnOk, Some, map, string_bytes};
ghost use Rattle.hex.specs.Hex.{encode_lower};
ghost use Rattle.serde_json.specs.Data.{array, object, put};
ghost use Rattle.serde_json.specs.Read.{read};
ghost use Rattle.serde_json.specs.View.{members_view, view};
ghost use Rattle.xet_store.specs.Refusals.{stored_term};
ghost use Rattle.xet_audit.specs.Raws.{HasRaw, file_of_raw, store_of_raw};
ghost use Rattle.xet_compact.specs.Documents.{IsHash, IsInOrder, IsListable, IsListableFile, IsListableTerm};
ghost use Rattle.xet_compact.specs.Documents.{IsListableXorb, chunk_items, digits, document_data, document_text};
ghost use Rattle.xet_compact.specs.Documents.{file_members, term_data, term_items, xorb_members};

use crate::order::is_in_order;
use crate::writing::text_in_order;
use bytes::Bytes;
use serde_json::{Map, Value};
use std::alloc::Global;
use xet_audit::{RawFile, RawStore, RawXorb};
use xet_base::{FileDataSequenceEntry, MerkleHash, OutOfMemory, Text};

/// The document of a raw store, `{"files":{HASH:[[HASH,from,to],..]},"xorbs":{HASH:[HEXCHUNK,..]}}`: compact JSON with
/// ascending keys, hashes and chunks in lower-case digits. Of two xorbs with one hash the first is in it, and of two
/// files. That of a store whose xorbs and files stand by ascending hash, each hash once, reads back as this store. Want
/// of memory is the only error.
///
/// Of a store in that order it takes memory for the text alone; of any other the JSON value is made first, which takes
/// some three times that.
pub fn document(alloc: Global, raw: &RawStore) -> Result<Text, OutOfMemory>
    ensures text { IfOk result (λ text. text ≡ document_text (store_of_raw raw.now)) }
    ensures reads { IfOk result (λ text. read text ≡ Some (document_data (store_of_raw raw.now))) }
    ensures lists { OnOk result (IsInOrder (store_of_raw raw.now)
        → HasRaw (document_text (store_of_raw raw.now)) (store_of_raw raw.now)) }
{
    let text = document_string(alloc, raw)?;
    Ok(Text::from_string(text))
}

// The text of the document. That it was made tells that the store has hashes, bytes and numbers of chunks.
fn document_string(alloc: Global, raw: &RawStore) -> Result<String, OutOfMemory>
    ensures text { IfOk result (λ text. string_bytes text ≡ document_text (store_of_raw raw.now)) }
    ensures reads { IfOk result (λ text. read (string_bytes text) ≡ Some (document_data (store_of_raw raw.now))) }
    ensures told { OnOk result (IsListable (store_of_raw raw.now)) }
{
    if is_in_order(raw) {
        return text_in_order(alloc, raw);
    }
    value_text(alloc, raw)
}

// The text of its value.
fn value_text(alloc: Global, raw: &RawStore) -> Result<String, OutOfMemory>
    ensures text { IfOk result (λ text. string_bytes text ≡ document_text (store_of_raw raw.now)) }
    ensures reads { IfOk result (λ text. read (string_bytes text) ≡ Some (document_data (store_of_raw raw.now))) }
    ensures told { OnOk result (IsListable (store_of_raw raw.now)) }
{
    let value = document_value(alloc, raw)?;
    Ok(value.to_string(alloc)?)
}

// The value of the document. That it was made tells that the store has hashes, bytes and numbers of chunks.
fn document_value(alloc: Global, raw: &RawStore) -> Result<Value, OutOfMemory>
    ensures value { IfOk result (λ v. view v ≡ document_data (store_of_raw raw.now)) }
    ensures told { OnOk result (IsListable (store_of_raw raw.now)) }
{
    let xorbs = xorbs_value(alloc, raw.xorbs.as_slice())?;
    let files = files_value(alloc, raw.files.as_slice())?;
    let mut members = Map::new(alloc);
    serde_json::put(&mut members, alloc, "xorbs", xorbs)?;
    serde_json::put(&mut members, alloc, "files", files)?;
    Ok(Value::Object(members))
}

// The xorbs, from the last to the first, so that of two with one hash the first stays.
fn xorbs_value(alloc: Global, xorbs: &[RawXorb]) -> Result<Value, OutOfMemory>
    ensures value { IfOk result (λ v. view v ≡ object (xorb_members xorbs.now)) }
    ensures told { OnOk result (All IsListableXorb xorbs.now) }
{
    let mut members = Map::new(alloc);
    for i in (0..xorbs.len()).rev() {
        let xorb = &xorbs[i];
        let chunks = chunks_value(alloc, xorb.chunks.as_slice())?;
        put_hash(alloc, xorb.hash, chunks, &mut members)?;
    }
    Ok(Value::Object(members))
}

// The files, from the last to the first, so that of two with one hash the first stays.
fn files_value(alloc: Global, files: &[RawFile]) -> Result<Value, OutOfMemory>
    ensures value { IfOk result (λ v. view v ≡ object (file_members (map file_of_raw files.now))) }
    ensures told { OnOk result (All IsListableFile (map file_of_raw files.now)) }
{
    let mut members = Map::new(alloc);
    for i in (0..files.len()).rev() {
        let file = &files[i];
        let terms = terms_value(alloc, file.terms.as_slice())?;
        put_hash(alloc, file.hash, terms, &mut members)?;
    }
    Ok(Value::Object(members))
}

// Puts a value under a hash, in place of one that is there.
fn put_hash(
    alloc: Global,
    hash: MerkleHash,
    value: Value,
    members: &mut Map<String, Value>,
) -> Result<(), OutOfMemory>
    ensures put { OnOk result (members_view members.new.entries
        ≡ put (encode_lower hash.0) (view value) (members_view members.old.entries)) }
    ensures told { IsHash hash }
{
    let key = digits_of(alloc, hash.0.as_slice())?;
    drop(members.insert(key, value)?);
    Ok(())
}

// The chunks of a xorb.
fn chunks_value(alloc: Global, chunks: &[Bytes]) -> Result<Value, OutOfMemory>
    ensures value { IfOk result (λ v. view v ≡ array (chunk_items chunks.now)) }
    ensures told { OnOk result (All (λ c. All (λ b. b < 256) c) chunks.now) }
{
    let mut items = Vec::with_capacity(alloc, chunks.len())?;
    for chunk in chunks {
        items.push(digits_value(alloc, chunk.as_slice())?)?;
    }
    Ok(Value::Array(items))
}

// Bytes in digits.
fn digits_value(alloc: Global, bytes: &[u8]) -> Result<Value, OutOfMemory>
    ensures value { IfOk result (λ v. view v ≡ digits bytes.now) }
    ensures told { All (λ b. b < 256) bytes.now }
{
    Ok(Value::String(digits_of(alloc, bytes)?))
}

/// The digits of bytes.
pub(crate) fn digits_of(alloc: Global, bytes: &[u8]) -> Result<String, OutOfMemory>
    ensures text { IfOk result (λ text. string_bytes text ≡ encode_lower bytes.now) }
    ensures told { All (λ b. b < 256) bytes.now }
{
    Ok(hex::encode(alloc, bytes)?)
}

// The terms of a file.
fn terms_value(alloc: Global, terms: &[FileDataSequenceEntry]) -> Result<Value, OutOfMemory>
    ensures value { IfOk result (λ v. view v ≡ array (term_items (map stored_term terms.now))) }
    ensures told { OnOk result (All (λ t. IsListableTerm (stored_term t)) terms.now) }
{
    let mut items = Vec::with_capacity(alloc, terms.len())?;
    for term in terms {
        items.push(term_value(alloc, *term)?)?;
    }
    Ok(Value::Array(items))
}

// A term: the hash of its xorb, and the numbers of its first chunk and of the one after its last.
fn term_value(alloc: Global, term: FileDataSequenceEntry) -> Result<Value, OutOfMemory>
    ensures value { IfOk result (λ v. view v ≡ term_data (stored_term term)) }
    ensures told { IsListableTerm (stored_term term) }
{
    let xorb = digits_value(alloc, term.xorb.0.as_slice())?;
    let parts = vec![in alloc; xorb, Value::from(term.from), Value::from(term.to)]?;
    Ok(Value::Array(parts))
}
