//! The store of a text.
ghost use Rattle.std.specs.Prelude.{◌≡◌, IfOk, MatchOption, None, false};
ghost use Rattle.serde_json.specs.Read.{read};
ghost use Rattle.serde_json.specs.View.{view};
ghost use Rattle.xet_document.specs.Document.{HasStore, NoData, NoStore, Reads};

use crate::plain_store::plain_store;
use crate::unread::Unread;
use crate::value_store::store_of;
use json::{Reader, Scratch};
use serde_json::Value;
use std::alloc::Global;
use xet_base::OutOfMemory;
use xet_store::MemStore;

// How deep a text may nest.
const DEPTH: usize = 127;

// Whether a text has the brackets, keys and commas of one JSON value. No value is made, so a text that is cut short
// takes no memory for those before the cut.
fn is_well_formed(alloc: Global, text: &str) -> Result<bool, OutOfMemory>
    ensures { IfOk result (λ formed. formed ≡ false → read text.now ≡ None) }
{
    let mut scratch = Scratch::new(alloc);
    let mut reader = Reader::new(text, &mut scratch)?;
    match reader.skip_value(DEPTH) {
        Ok(()) => Ok(reader.next().is_none()),
        Err(_) => Ok(false),
    }
}

/// The value of a text, or none where it is no JSON. The text's memory is given back. Want of memory is the only
/// error.
pub fn value_of(alloc: Global, text: Vec<u8>) -> Result<Option<Value>, OutOfMemory>
    ensures { IfOk result (λ o. MatchOption o (NoData text.items) (λ v. Reads text.items (view v))) }
{
    let Ok(json) = simdutf8::compat::from_utf8(text.as_slice()) else {
        return Ok(None);
    };
    if !is_well_formed(alloc, json)? {
        return Ok(None);
    }
    match Value::from_str(alloc, json) {
        Ok(value) => Ok(Some(value)),
        Err(error) => {
            if error.is_memory() {
                return Err(OutOfMemory);
            }
            Ok(None)
        }
    }
}

// The store of a text, by the tree of its values.
fn tree_store(alloc: Global, text: Vec<u8>) -> Result<Option<MemStore>, OutOfMemory>
    ensures { IfOk result (λ o. MatchOption o (NoStore text.items) (HasStore text.items)) }
{
    match value_of(alloc, text)? {
        Some(value) => store_of(alloc, &value),
        None => Ok(None),
    }
}

/// The store that a text lists as `{"xorbs":{HASH:[HEXCHUNK,..]},"files":{HASH:[[HASH,from,to],..]}}`, a JSON document.
///
/// A text is read in one pass where each xorb and each file in it has its form, also one that a later equal key
/// replaces, and each number is whole and of 64 bits. Values of other keys are passed over then, and take no memory.
/// Any other text that is JSON is read by the tree of its values, which takes longer and more memory.
///
/// None exactly where the text is no JSON or hasn't this form (other keys are passed over, and of equal keys the last
/// counts), two different keys of xorbs or two of files spell one hash, a number that is kept as a float stands
/// anywhere in its value, or the store isn't valid. Want of memory is the only error.
pub fn store_of_text(alloc: Global, text: Vec<u8>) -> Result<Option<MemStore>, OutOfMemory>
    ensures { IfOk result (λ o. MatchOption o (NoStore text.items) (HasStore text.items)) }
{
    match plain_store(alloc, text.as_slice()) {
        Ok(store) => Ok(store),
        Err(Unread::OutOfMemory) => Err(OutOfMemory),
        Err(Unread::NotPlain) => tree_store(alloc, text),
    }
}
