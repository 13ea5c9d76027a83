//! The raw store of a text.
ghost use Rattle.std.specs.Prelude.{◌≡◌, All, IfOk, MatchOption, map};
ghost use Rattle.xet_document.specs.Listings.{listing_store, stored_file};
ghost use Rattle.xet_audit.specs.Raws.{HasRaw, IsUncounted, NoRaw, file_of_raw, store_of_raw};
ghost use Rattle.xet_audit.specs.steps.Listed.{AreUncounted};

use crate::raw_store::{RawFile, RawStore};
use crate::raw_value::raw_of;
use std::alloc::Global;
use xet_base::{List, OutOfMemory};
use xet_document::{ListedFile, Listing, Unread, listing_of_text, value_of};

/// The raw store that a text lists, a JSON document: `raw_of` of the text's value. The text's memory is given back.
///
/// A text is read in one pass where each xorb and each file in it has its form, no chunk is empty, and each number is
/// whole and of 64 bits. Any other text that is JSON is read by the tree of its values, which takes longer and more
/// memory.
///
/// None exactly where the text is no JSON, or its value lists no raw store. Want of memory is the only error.
pub fn raw_of_text(alloc: Global, text: Vec<u8>) -> Result<Option<RawStore>, OutOfMemory>
    ensures listed { IfOk result (λ o. MatchOption o (NoRaw text.items)
        (λ raw. HasRaw text.items (store_of_raw raw))) }
    ensures uncounted { IfOk result (λ o. MatchOption o (Unit {0}) IsUncounted) }
{
    match listing_of_text(alloc, text.as_slice()) {
        Ok(Some(listing)) => raw_of_listing(alloc, listing),
        Ok(None) => Ok(None),
        Err(Unread::OutOfMemory) => Err(OutOfMemory),
        Err(Unread::NotPlain) => tree_raw(alloc, text),
    }
}

// The raw store of a text, by the tree of its values.
fn tree_raw(alloc: Global, text: Vec<u8>) -> Result<Option<RawStore>, OutOfMemory>
    ensures listed { IfOk result (λ o. MatchOption o (NoRaw text.items)
        (λ raw. HasRaw text.items (store_of_raw raw))) }
    ensures uncounted { IfOk result (λ o. MatchOption o (Unit {0}) IsUncounted) }
{
    match value_of(alloc, text)? {
        Some(value) => raw_of(alloc, &value),
        None => Ok(None),
    }
}

// What was listed, as a raw store. There is always one.
fn raw_of_listing(alloc: Global, listing: Listing) -> Result<Option<RawStore>, OutOfMemory>
    requires { All (λ f. All (λ t. t.bytes ≡ 0) f.terms) listing.files }
    ensures listed { IfOk result (λ o. MatchOption o ⊥ (λ raw. store_of_raw raw ≡ listing_store listing)) }
    ensures uncounted { IfOk result (λ o. MatchOption o (Unit {0}) IsUncounted) }
{
    let files = raw_files(alloc, listing.files.into_inner())?;
    Ok(Some(RawStore {
        xorbs: listing.xorbs,
        files,
    }))
}

// The listed files.
fn raw_files(alloc: Global, files: Vec<ListedFile>) -> Result<List<RawFile>, OutOfMemory>
    requires { All (λ f. All (λ t. t.bytes ≡ 0) f.terms) files.items }
    ensures listed { IfOk result (λ made. map file_of_raw made ≡ map stored_file files.items) }
    ensures uncounted { IfOk result AreUncounted }
{
    let mut made = List::with_capacity(alloc, files.len())?;
    for file in files {
        made.push(RawFile {
            hash: file.hash,
            terms: file.terms,
        })?;
    }
    Ok(made)
}
