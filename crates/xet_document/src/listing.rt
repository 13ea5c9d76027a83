//! What a document lists, as lists.
ghost use Rattle.std.specs.Prelude.{◌≡◌, All, IfOk, MatchOption, false, length, map};
ghost use Rattle.xet_store.specs.Parts.{AreEnds, parts};
ghost use Rattle.xet_document.specs.Document.{HasListing, LacksPart};
ghost use Rattle.xet_document.specs.Listings.{listing_store};
ghost use Rattle.xet_document.specs.steps.Placed.{IsPlaced, placed_xorb};
ghost use Rattle.xet_document.specs.steps.Reads.{stored_xorbs};

use crate::joined_chunks::{JoinedChunks, XorbPlace};
use crate::plain_files::ListedFile;
use crate::plain_store::{Listed, read_listed};
use crate::plain_xorbs::ListedXorbs;
use crate::text_key::TextKey;
use crate::unread::Unread;
use bytes::Bytes;
use json::Scratch;
use std::alloc::Global;
use std::collections::BTreeMap;
use xet_base::{List, OutOfMemory, Xorb};

/// The xorbs and files that a document lists, in the order of its keys. They need not make a valid store.
#[derive(Drop)]
pub struct Listing {
    /// The xorbs, whose chunks share memory.
    pub xorbs: List<Xorb>,
    /// The files.
    pub files: List<ListedFile>,
}

/// What a text lists, read in one pass, where it is a document whose xorbs and files have their form and in which no
/// float stands. None where xorbs or files are missing.
///
/// `NotPlain` where the text is any other, `OutOfMemory` where memory was refused.
pub fn listing_of_text(alloc: Global, text: &[u8]) -> Result<Option<Listing>, Unread>
    ensures listed { IfOk result (λ o. MatchOption o (LacksPart text.now)
        (λ l. HasListing text.now (listing_store l))) }
    ensures uncounted { IfOk result (λ o. MatchOption o (Unit {0})
        (λ l. All (λ f. All (λ t. t.bytes ≡ 0) f.terms) l.files)) }
{
    let Ok(text) = simdutf8::compat::from_utf8(text) else {
        return Err(Unread::NotPlain);
    };
    let mut scratch = Scratch::new(alloc);
    let Some(listed) = read_listed(alloc, text, &mut scratch)? else {
        return Ok(None);
    };
    Ok(Some(listing_of(alloc, listed)?))
}

// What was listed, as lists.
fn listing_of(alloc: Global, listed: Listed<'_>) -> Result<Listing, OutOfMemory>
    requires { All (λ e. IsPlaced listed.xorbs.joined.bytes.items listed.xorbs.joined.ends.items e.1)
        listed.xorbs.places.entries }
    ensures xorbs { IfOk result (λ l. l.xorbs ≡ stored_xorbs listed.entry.xorbs) }
    ensures files { IfOk result (λ l. l.files ≡ map (λ e. e.1) listed.entry.files.entries) }
{
    let xorbs = cut_xorbs(alloc, listed.xorbs)?;
    let files = files_of(alloc, listed.files)?;
    Ok(Listing { xorbs, files })
}

// The listed files, in the order of their keys.
fn files_of(
    alloc: Global,
    files: BTreeMap<TextKey<'_>, ListedFile>,
) -> Result<List<ListedFile>, OutOfMemory>
    ensures { IfOk result (λ made. made ≡ map (λ e. e.1) files.entry.entries) }
{
    let mut made = List::new(alloc);
    for (_, file) in files {
        made.push(file)?;
    }
    Ok(made)
}

// The listed xorbs, in the order of their keys.
fn cut_xorbs(alloc: Global, xorbs: ListedXorbs<'_>) -> Result<List<Xorb>, OutOfMemory>
    requires { All (λ e. IsPlaced xorbs.joined.bytes.items xorbs.joined.ends.items e.1) xorbs.places.entries }
    ensures { IfOk result (λ made. made ≡ stored_xorbs xorbs.entry) }
{
    let ListedXorbs { joined, places } = xorbs;
    let JoinedChunks { bytes, ends } = joined;
    let bytes = Bytes::from_vec(bytes)?;
    let mut made = List::new(alloc);
    for (_, place) in places {
        made.push(cut_xorb(alloc, &bytes, ends.as_slice(), place)?)?;
    }
    Ok(made)
}

// The xorb at a place. Its chunks share their bytes with all others.
fn cut_xorb(
    alloc: Global,
    bytes: &Bytes,
    ends: &[usize],
    place: XorbPlace,
) -> Result<Xorb, OutOfMemory>
    requires { IsPlaced bytes.now ends.now place }
    ensures { IfOk result (λ xorb. xorb ≡ placed_xorb bytes.now ends.now place) }
{
    let own = bytes.slice(place.start..place.end)?;
    let chunks = cut_chunks(alloc, &own, &ends[place.first..place.last])?;
    Ok(Xorb {
        hash: place.hash,
        chunks,
    })
}

// The chunks that end at these places.
fn cut_chunks(alloc: Global, bytes: &Bytes, ends: &[usize]) -> Result<List<Bytes>, OutOfMemory>
    requires { AreEnds 0 ends.now (length bytes.now) }
    ensures { IfOk result (λ chunks. chunks ≡ parts bytes.now 0 ends.now) }
{
    let mut chunks = List::with_capacity(alloc, ends.len())?;
    let mut start = 0usize;
    for end in ends {
        chunks.push(bytes.slice(start..*end)?)?;
        start = *end;
    }
    Ok(chunks)
}
