//! The files of a document, read in one pass.
ghost use Rattle.std.specs.Prelude.{◌≡◌, ◌∷◌, ◌<◌, ◌≤◌, All, Some, IfErr, IfOk, IfSome, List as Items, OnOk, ℕ, length};
ghost use Rattle.std.specs.Prelude.{map, option_and_then};
ghost use Rattle.json.specs.Token.{number};
ghost use Rattle.serde_json.specs.Data.{Data, Items as DataItems, Members, unsigned};
ghost use Rattle.serde_json.specs.Find.{as_array};
ghost use Rattle.serde_json.specs.Read.{number_of as written_number};
ghost use Rattle.xet_store.specs.Refusals.{stored_term};
ghost use Rattle.xet_document.specs.Document.{term_of_items, terms_of_items};
ghost use Rattle.xet_document.specs.steps.Reads.{Lists, ListsFile, ReadsItems, ReadsMembers, ReadsValue};

use crate::hex_digits::{LastHash, hash_of};
use crate::text_key::TextKey;
use crate::unread::Unread;
use json::{Reader, Token};
use std::alloc::Global;
use std::collections::BTreeMap;
use xet_base::{FileDataSequenceEntry, List, MerkleHash};

/// A file that a document lists.
#[derive(Drop)]
pub struct ListedFile {
    /// The hash.
    pub hash: MerkleHash,
    /// The terms, whose counts of bytes are 0.
    pub terms: List<FileDataSequenceEntry>,
}

/// The files of an object that was opened, by the texts of their hashes.
pub(crate) fn read_files<'a>(
    alloc: Global,
    reader: &mut Reader<'a>,
) -> Result<BTreeMap<TextKey<'a>, ListedFile>, Unread>
    ensures listed { IfOk result (λ found. (ms : Members) × ReadsMembers 125 reader.old ms reader.new
        × Lists (λ key. key.text.now) ListsFile ms found.entries) }
    ensures shorter { OnOk result (length reader.new < length reader.old) }
{
    let mut found = BTreeMap::new(alloc);
    'members: while let Some(text) = reader.next_key()? {
        let file = read_file(alloc, reader, text)?;
        drop(found.insert(TextKey::of(text), file)?);
    }
    Ok(found)
}

// The file with the hash that this text spells.
fn read_file(alloc: Global, reader: &mut Reader<'_>, text: &str) -> Result<ListedFile, Unread>
    ensures value { IfOk result (λ file. (d : Data) × ReadsValue 125 reader.old d reader.new
        × ListsFile text.now d file) }
    ensures long { OnOk result (8 ≤ length text.now) }
    ensures shorter { OnOk result (length reader.new < length reader.old) }
{
    let Some(hash) = hash_of(text) else {
        return Err(Unread::NotPlain);
    };
    let Some(Token::BeginArray) = reader.next() else {
        return Err(Unread::NotPlain);
    };
    let terms = read_terms(alloc, reader)?;
    Ok(ListedFile { hash, terms })
}

// The terms of an array that was opened.
fn read_terms(alloc: Global, reader: &mut Reader<'_>) -> Result<List<FileDataSequenceEntry>, Unread>
    ensures terms { IfOk result (λ terms. (ds : DataItems) × ReadsItems 124 reader.old ds reader.new
        × (terms_of_items ds ≡ Some (map stored_term terms))) }
    ensures uncounted { IfOk result (All (λ t. t.bytes ≡ 0)) }
    ensures shorter { OnOk result (length reader.new < length reader.old) }
{
    let mut terms = List::new(alloc);
    let mut last = LastHash::of_text("");
    'terms: while !reader.take_end_array() {
        terms.push(read_term(reader, &mut last)?)?;
    }
    Ok(terms)
}

// A term: a xorb's hash, and the numbers of its first chunk and of the one after its last.
fn read_term<'a>(
    reader: &mut Reader<'a>,
    last: &mut LastHash<'a>,
) -> Result<FileDataSequenceEntry, Unread>
    ensures term { IfOk result (λ term. (d : Data) × ReadsValue 124 reader.old d reader.new
        × (option_and_then term_of_items (as_array d) ≡ Some (stored_term term))) }
    ensures uncounted { IfOk result (λ term. term.bytes ≡ 0) }
    ensures shorter { OnOk result (length reader.new < length reader.old) }
    ensures refused { IfErr result (λ e. e ≡ Unread.NotPlain) }
{
    let Some(Token::BeginArray) = reader.next() else {
        return Err(Unread::NotPlain);
    };
    let Some(Token::String(text)) = reader.next() else {
        return Err(Unread::NotPlain);
    };
    let Some(xorb) = last.hash_of(text) else {
        return Err(Unread::NotPlain);
    };
    let from = read_number(reader)?;
    let to = read_number(reader)?;
    if !reader.take_end_array() {
        return Err(Unread::NotPlain);
    }
    Ok(FileDataSequenceEntry {
        xorb,
        from,
        to,
        bytes: 0,
    })
}

// A whole number below 2^32.
fn read_number(reader: &mut Reader<'_>) -> Result<u32, Unread>
    ensures number { IfOk result (λ n. (digits : Items ℕ) × (reader.old ≡ number digits ∷ reader.new)
        × (written_number digits ≡ Some (unsigned n))) }
    ensures refused { IfErr result (λ e. e ≡ Unread.NotPlain) }
{
    let Some(Token::Number(text)) = reader.next() else {
        return Err(Unread::NotPlain);
    };
    match number_of(text) {
        Some(number) => Ok(number),
        None => Err(Unread::NotPlain),
    }
}

// The number that digits write.
fn number_of(text: &str) -> Option<u32>
    ensures { IfSome result (λ n. written_number text.now ≡ Some (unsigned n)) }
{
    if !text.as_bytes().first()?.is_ascii_digit() {
        return None;
    }
    text.parse().ok()
}
