//! The xorbs of a document, read in one pass.
ghost use Rattle.std.specs.Prelude.{◌≡◌, ◌<◌, ◌≤◌, Some, IfOk, List, OnOk, length, option_and_then, ℕ};
ghost use Rattle.serde_json.specs.Data.{Data, Items, Members};
ghost use Rattle.serde_json.specs.Find.{as_array};
ghost use Rattle.xet_base.specs.HashText.{hash_of_text};
ghost use Rattle.xet_document.specs.Document.{chunks_of_items};
ghost use Rattle.xet_document.specs.steps.Placed.{AddsChunks, IsPlaced, placed_xorb};
ghost use Rattle.xet_document.specs.steps.Reads.{Lists, ListsXorb, ReadsItems, ReadsMembers, ReadsValue};

use crate::hex_digits::hash_of;
use crate::joined_chunks::{JoinedChunks, XorbPlace};
use crate::text_key::TextKey;
use crate::unread::Unread;
use crate::value_store::add_digits;
use json::{Reader, Token};
use std::alloc::Global;
use std::collections::BTreeMap;
use xet_base::MerkleHash;

/// The xorbs that a document lists.
#[derive(Drop)]
pub(crate) struct ListedXorbs<'a> {
    /// The chunks of all xorbs.
    pub(crate) joined: JoinedChunks,
    /// Where the chunks of each xorb stand, by the text of its hash.
    pub(crate) places: BTreeMap<TextKey<'a>, XorbPlace>,
}

/// The xorbs of an object that was opened. There is room for so many bytes of chunks from the start.
pub(crate) fn read_xorbs<'a>(
    alloc: Global,
    reader: &mut Reader<'a>,
    room: usize,
) -> Result<ListedXorbs<'a>, Unread>
    ensures listed { IfOk result (λ listed. (ms : Members) × ReadsMembers 125 reader.old ms reader.new
        × Lists (λ key. key.text.now) (ListsXorb listed.joined) ms listed.places.entries) }
    ensures shorter { OnOk result (length reader.new < length reader.old) }
{
    let mut joined = JoinedChunks {
        bytes: Vec::with_capacity(alloc, room)?,
        ends: Vec::new(alloc),
    };
    let mut places = BTreeMap::new(alloc);
    'members: while let Some(text) = reader.next_key()? {
        let place = read_xorb(text, reader, &mut joined)?;
        drop(places.insert(TextKey::of(text), place)?);
    }
    Ok(ListedXorbs { joined, places })
}

// The place of the xorb with the hash that this text spells, of the chunks in an array.
fn read_xorb(
    text: &str,
    reader: &mut Reader<'_>,
    joined: &mut JoinedChunks,
) -> Result<XorbPlace, Unread>
    ensures value { IfOk result (λ p. (d : Data) × ReadsValue 125 reader.old d reader.new
        × (option_and_then chunks_of_items (as_array d)
        ≡ Some (placed_xorb joined.new.bytes.items joined.new.ends.items p).chunks)) }
    ensures hash { IfOk result (λ p. hash_of_text text.now ≡ Some p.hash) }
    ensures long { OnOk result (8 ≤ length text.now) }
    ensures placed { IfOk result (IsPlaced joined.new.bytes.items joined.new.ends.items) }
    ensures adds { IfOk result (λ p. AddsChunks joined.old joined.new
        (placed_xorb joined.new.bytes.items joined.new.ends.items p).chunks) }
    ensures shorter { OnOk result (length reader.new < length reader.old) }
{
    let Some(hash) = hash_of(text) else {
        return Err(Unread::NotPlain);
    };
    let Some(Token::BeginArray) = reader.next() else {
        return Err(Unread::NotPlain);
    };
    let start = joined.bytes.len();
    let first = joined.ends.len();
    read_chunks(reader, joined)?;
    Ok(XorbPlace {
        hash,
        start,
        end: joined.bytes.len(),
        first,
        last: joined.ends.len(),
    })
}

// Adds the chunks of an array that was opened.
fn read_chunks(reader: &mut Reader<'_>, joined: &mut JoinedChunks) -> Result<(), Unread>
    ensures items { OnOk result ((ds : Items) × (chunks : List (List ℕ)) × ReadsItems 124 reader.old ds reader.new
        × (chunks_of_items ds ≡ Some chunks) × AddsChunks joined.old joined.new chunks) }
    ensures shorter { OnOk result (length reader.new < length reader.old) }
{
    let start = joined.bytes.len();
    'chunks: while !reader.take_end_array() {
        let Some(Token::String(text)) = reader.next() else {
            return Err(Unread::NotPlain);
        };
        if !add_digits(text, &mut joined.bytes)? {
            return Err(Unread::NotPlain);
        }
        joined.ends.push(joined.bytes.len() - start)?;
    }
    Ok(())
}
