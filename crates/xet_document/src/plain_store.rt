//! The store of a document whose xorbs and files have their form, read in one pass.
ghost use Rattle.std.specs.Prelude.{◌≡◌, ◌⊎◌, ◌∷◌, ◌<◌, All, IfErr, IfOk, MatchOption, None, OnOk, Some, codes, false};
ghost use Rattle.std.specs.Prelude.{length, true};
ghost use Rattle.json.specs.Token.{begin_object};
ghost use Rattle.serde_json.specs.Data.{Members};
ghost use Rattle.xet_base.specs.Store.{IsValid};
ghost use Rattle.xet_document.specs.Document.{HasStore, LacksPart, NoStore};
ghost use Rattle.xet_document.specs.steps.AddedMembers.{TakesFiles, TakesXorbs, no_store};
ghost use Rattle.xet_document.specs.steps.Placed.{IsPlaced};
ghost use Rattle.xet_document.specs.steps.Reads.{Finds, IsFound, IsRead, ReadsMembers, Takes, stored_files};
ghost use Rattle.xet_document.specs.steps.Reads.{stored_xorbs};

use crate::ignored::pass_value;
use crate::joined_chunks::{JoinedChunks, xorb_at};
use crate::plain_files::{ListedFile, read_files};
use crate::plain_xorbs::{ListedXorbs, read_xorbs};
use crate::text_key::TextKey;
use crate::unread::Unread;
use crate::value_store::was_added;
use bytes::Bytes;
use json::{Reader, Scratch, Token};
use std::alloc::Global;
use std::collections::BTreeMap;
use xet_base::OutOfMemory;
use xet_store::MemStore;

// How deep the value of a document's key may nest.
const DEPTH: usize = 126;

// What a document lists, by the texts of the hashes.
#[derive(Drop)]
pub(crate) struct Listed<'a> {
    pub(crate) xorbs: ListedXorbs<'a>,
    pub(crate) files: BTreeMap<TextKey<'a>, ListedFile>,
}

// What the last key of each kind lists, of the keys so far.
#[derive(Drop)]
pub(crate) struct Found<'a> {
    xorbs: Option<ListedXorbs<'a>>,
    files: Option<BTreeMap<TextKey<'a>, ListedFile>>,
}

impl<'a> Found<'a> {
    // Both, where there are both.
    fn listed(self) -> Option<Listed<'a>>
        ensures { MatchOption result ((self.entry.xorbs ≡ None) ⊎ (self.entry.files ≡ None))
            (λ listed. self.entry ≡ record { xorbs = Some listed.xorbs; files = Some listed.files }) }
    {
        Some(Listed {
            xorbs: self.xorbs?,
            files: self.files?,
        })
    }
}

/// The store of a document whose xorbs and files have their form, and in which no float stands, read in one pass. None
/// where xorbs or files are missing, or the store isn't valid.
pub(crate) fn plain_store(alloc: Global, text: &[u8]) -> Result<Option<MemStore>, Unread>
    ensures { IfOk result (λ o. MatchOption o (NoStore text.now) (HasStore text.now)) }
{
    let Ok(text) = simdutf8::compat::from_utf8(text) else {
        return Err(Unread::NotPlain);
    };
    let mut scratch = Scratch::new(alloc);
    let Some(listed) = read_listed(alloc, text, &mut scratch)? else {
        return Ok(None);
    };
    Ok(listed_store(alloc, listed)?)
}

/// What a text lists, or none where xorbs or files are missing.
pub(crate) fn read_listed<'a>(
    alloc: Global,
    text: &'a str,
    scratch: &'a mut Scratch,
) -> Result<Option<Listed<'a>>, Unread>
    ensures { IfOk result (λ o. MatchOption o (LacksPart text.now) (IsRead text.now)) }
{
    let mut reader = Reader::new(text, scratch)?;
    open_object(&mut reader)?;
    let found = read_members(alloc, &mut reader, text.len() / 2)?;
    let None = reader.next() else {
        return Err(Unread::NotPlain);
    };
    Ok(found.listed())
}

// What the members of a document list, which was opened.
fn read_members<'a>(
    alloc: Global,
    reader: &mut Reader<'a>,
    room: usize,
) -> Result<Found<'a>, Unread>
    ensures { IfOk result (λ found. (ms : Members) × ReadsMembers 126 reader.old ms reader.new
        × IsFound ms found) }
{
    let mut found = Found {
        xorbs: None,
        files: None,
    };
    'members: while let Some(key) = reader.next_key()? {
        read_member(alloc, reader, key, room, &mut found)?;
    }
    Ok(found)
}

// Reads the value of a document's key. Of equal keys the last counts.
fn read_member<'a>(
    alloc: Global,
    reader: &mut Reader<'a>,
    key: &str,
    room: usize,
    found: &mut Found<'a>,
) -> Result<(), Unread>
    ensures value { OnOk result (Finds key.now reader.old reader.new found.old found.new) }
    ensures shorter { OnOk result (length reader.new < length reader.old) }
{
    match key {
        "xorbs" => find_xorbs(alloc, reader, room, found),
        "files" => find_files(alloc, reader, found),
        _ => pass_value(reader, DEPTH),
    }
}

// Reads the xorbs, an object. The first has room for so many bytes of chunks from the start.
fn find_xorbs<'a>(
    alloc: Global,
    reader: &mut Reader<'a>,
    room: usize,
    found: &mut Found<'a>,
) -> Result<(), Unread>
    ensures value { OnOk result (Finds (codes "xorbs") reader.old reader.new found.old found.new) }
    ensures shorter { OnOk result (length reader.new < length reader.old) }
{
    open_object(reader)?;
    let room = if found.xorbs.is_none() { room } else { 0 };
    found.xorbs = Some(read_xorbs(alloc, reader, room)?);
    Ok(())
}

// Reads the files, an object.
fn find_files<'a>(
    alloc: Global,
    reader: &mut Reader<'a>,
    found: &mut Found<'a>,
) -> Result<(), Unread>
    ensures value { OnOk result (Finds (codes "files") reader.old reader.new found.old found.new) }
    ensures shorter { OnOk result (length reader.new < length reader.old) }
{
    open_object(reader)?;
    found.files = Some(read_files(alloc, reader)?);
    Ok(())
}

// Passes the brace that opens an object.
fn open_object(reader: &mut Reader<'_>) -> Result<(), Unread>
    ensures opened { OnOk result (reader.old ≡ begin_object ∷ reader.new) }
    ensures refused { IfErr result (λ e. e ≡ Unread.NotPlain) }
{
    let Some(Token::BeginObject) = reader.next() else {
        return Err(Unread::NotPlain);
    };
    Ok(())
}

// Adds the listed xorbs, or answers false where one is refused.
fn add_xorbs(
    alloc: Global,
    xorbs: ListedXorbs<'_>,
    store: &mut MemStore,
) -> Result<bool, OutOfMemory>
    requires valid { IsValid store.old }
    requires placed { All (λ e. IsPlaced xorbs.joined.bytes.items xorbs.joined.ends.items e.1) xorbs.places.entries }
    ensures { IfOk result (λ added. TakesXorbs store.old (stored_xorbs xorbs.entry) added store.new) }
{
    let ListedXorbs { joined, places } = xorbs;
    let JoinedChunks { bytes, ends } = joined;
    let bytes = Bytes::from_vec(bytes)?;
    for (_, place) in places {
        let xorb = xorb_at(alloc, &bytes, ends.as_slice(), place)?;
        if !was_added(store.add_joined(alloc, xorb))? {
            return Ok(false);
        }
    }
    Ok(true)
}

// Adds the listed files, or answers false where one is refused.
fn add_files(
    alloc: Global,
    files: BTreeMap<TextKey<'_>, ListedFile>,
    store: &mut MemStore,
) -> Result<bool, OutOfMemory>
    requires { IsValid store.old }
    ensures { IfOk result (λ added. TakesFiles store.old (stored_files files.entry) added store.new) }
{
    for (_, file) in files {
        if !was_added(store.add_file(alloc, file.hash, file.terms))? {
            return Ok(false);
        }
    }
    Ok(true)
}

// Adds what is listed, or answers false where a xorb or a file is refused.
fn add_listed(alloc: Global, listed: Listed<'_>, store: &mut MemStore) -> Result<bool, OutOfMemory>
    requires valid { IsValid store.old }
    requires placed { All (λ e. IsPlaced listed.xorbs.joined.bytes.items listed.xorbs.joined.ends.items e.1)
        listed.xorbs.places.entries }
    ensures { IfOk result (λ added. Takes store.old listed.entry added store.new) }
{
    if !add_xorbs(alloc, listed.xorbs, store)? {
        return Ok(false);
    }
    add_files(alloc, listed.files, store)
}

// The store of what is listed, or none where it isn't valid.
fn listed_store(alloc: Global, listed: Listed<'_>) -> Result<Option<MemStore>, OutOfMemory>
    requires { All (λ e. IsPlaced listed.xorbs.joined.bytes.items listed.xorbs.joined.ends.items e.1)
        listed.xorbs.places.entries }
    ensures { IfOk result (λ o. MatchOption o (Takes no_store listed.entry false no_store)
        (Takes no_store listed.entry true)) }
{
    let mut store = MemStore::new(alloc);
    if add_listed(alloc, listed, &mut store)? {
        Ok(Some(store))
    } else {
        Ok(None)
    }
}
