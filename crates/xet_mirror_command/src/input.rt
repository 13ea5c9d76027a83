//! The input: two stores that agree, and a list of files.
ghost use Rattle.std.specs.Prelude.{◌≡◌, IfOk, MatchOption, codes, option_and_then};
ghost use Rattle.serde_json.specs.Find.{as_array, as_str, get};
ghost use Rattle.serde_json.specs.View.{items_view, view};
ghost use Rattle.xet_base.specs.HashText.{hash_of_text};
ghost use Rattle.xet_shelves.specs.After.{Agree};
ghost use Rattle.xet_mirror_command.specs.MirrorInput.{HasMirror, IsMirrorOf, IsNoMirror, NoMirror, hashes_of_data};
ghost use Rattle.xet_mirror_command.specs.MirrorInput.{hashes_of_items};
ghost use Rattle.xet_mirror_command.specs.steps.Documents.{AreStoresOf, AreAgreeing, HasDocument, LacksDocument};
ghost use Rattle.xet_mirror_command.specs.steps.Documents.{LacksStores, LacksAgreeing};

use serde_json::Value;
use std::alloc::Global;
use xet_agree::stores_agree;
use xet_base::{List, MerkleHash, OutOfMemory};
use xet_document::{hash_of, store_of, value_of};
use xet_store::MemStore;

/// A store that files are copied from, and one that they are copied to.
#[derive(Drop)]
pub(crate) struct Stores {
    pub(crate) source: MemStore,
    pub(crate) target: MemStore,
}

/// Two stores that agree, and the hashes of the files that are to be copied.
#[derive(Drop)]
pub(crate) struct MirrorInput {
    pub(crate) stores: Stores,
    pub(crate) files: List<MerkleHash>,
}

/// What a text asks to be copied, or none where it hasn't the form or the stores don't agree. Want of memory is the
/// only error.
pub(crate) fn input_of_text(
    alloc: Global,
    text: Vec<u8>,
) -> Result<Option<MirrorInput>, OutOfMemory>
    ensures { IfOk result (λ o. MatchOption o (NoMirror text.items)
        (λ i. HasMirror text.items i.stores.source i.stores.target i.files)) }
{
    match value_of(alloc, text)? {
        Some(value) => input_of(alloc, &value),
        None => Ok(None),
    }
}

// What a value asks to be copied, or none where it hasn't the form or the stores don't agree.
fn input_of(alloc: Global, value: &Value) -> Result<Option<MirrorInput>, OutOfMemory>
    ensures { IfOk result (λ o. MatchOption o (IsNoMirror (view value.now))
        (λ i. IsMirrorOf (view value.now) i.stores.source i.stores.target i.files)) }
{
    let Some(files) = files_of(alloc, value)? else {
        return Ok(None);
    };
    match agreeing_stores(alloc, value)? {
        Some(stores) => Ok(Some(MirrorInput { stores, files })),
        None => Ok(None),
    }
}

// The two stores of a value, or none where it hasn't two or they don't agree.
fn agreeing_stores(alloc: Global, value: &Value) -> Result<Option<Stores>, OutOfMemory>
    ensures { IfOk result (λ o. MatchOption o (LacksAgreeing (view value.now))
        (AreAgreeing (view value.now))) }
{
    match stores_of(alloc, value)? {
        Some(stores) => agreeing(stores),
        None => Ok(None),
    }
}

// Two stores, or none where they don't agree.
fn agreeing(stores: Stores) -> Result<Option<Stores>, OutOfMemory>
    ensures { IfOk result (λ o. MatchOption o (Agree stores.source stores.target → ⊥)
        (λ same. (same ≡ stores) × Agree stores.source stores.target)) }
{
    if stores_agree(&stores.source, &stores.target)? {
        Ok(Some(stores))
    } else {
        Ok(None)
    }
}

// The two stores of a value, or none where it hasn't two.
fn stores_of(alloc: Global, value: &Value) -> Result<Option<Stores>, OutOfMemory>
    ensures { IfOk result (λ o. MatchOption o (LacksStores (view value.now)) (AreStoresOf (view value.now))) }
{
    let Some(source) = store_at(alloc, value, "source")? else {
        return Ok(None);
    };
    match store_at(alloc, value, "target")? {
        Some(target) => Ok(Some(Stores { source, target })),
        None => Ok(None),
    }
}

// The store whose document a value has under a key, or none where it has none there.
fn store_at(alloc: Global, value: &Value, key: &str) -> Result<Option<MemStore>, OutOfMemory>
    ensures { IfOk result (λ o. MatchOption o (LacksDocument key.now (view value.now))
        (HasDocument key.now (view value.now))) }
{
    match value.get(key) {
        Some(part) => store_of(alloc, part),
        None => Ok(None),
    }
}

// The hashes that a value lists under `files`, or none where it lists none or one hasn't the form.
fn files_of(alloc: Global, value: &Value) -> Result<Option<List<MerkleHash>>, OutOfMemory>
    ensures { IfOk result (λ o. o ≡ option_and_then hashes_of_data (get (codes "files") (view value.now))) }
{
    match value.get("files").and_then(Value::as_array) {
        Some(items) => hashes_of(alloc, items.as_slice()),
        None => Ok(None),
    }
}

// The hashes of a list, or none where one hasn't the form.
fn hashes_of(alloc: Global, items: &[Value]) -> Result<Option<List<MerkleHash>>, OutOfMemory>
    ensures { IfOk result (λ o. o ≡ hashes_of_items (items_view items.now)) }
{
    let mut hashes = List::with_capacity(alloc, items.len())?;
    for item in items {
        let Some(hash) = hash_in(item) else {
            return Ok(None);
        };
        hashes.push(hash)?;
    }
    Ok(Some(hashes))
}

// The hash that a value spells, or none where it is no text of 64 digits.
fn hash_in(value: &Value) -> Option<MerkleHash>
    ensures { result ≡ option_and_then hash_of_text (as_str (view value.now)) }
{
    hash_of(value.as_str()?)
}
