//! Whether two stores agree.
ghost use Rattle.std.specs.Prelude.{◌↔◌, ◌-◌, ◌<◌, ◌^◌, ◌≡◌, [], All, IfOk, IsTrue, length, slice_index_or};
ghost use Rattle.xet_base.specs.Store.{IsTermIn};
ghost use Rattle.xet_shelves.specs.After.{Agree};
ghost use Rattle.xet_agree.specs.steps.Alike.{FilesAgree, HasBytes, HasChunks, XorbsAgree, bytes_in};

use crate::terms::{are_same, byte_count};
use crate::walks::have_same_bytes;
use xet_base::{OutOfMemory, StoredTerm};
use xet_store::{KeptFile, MemStore, StoredXorb};

/// Whether two stores agree: a xorb that both have has equal chunks in both, and a file that both have equal bytes.
/// Want of memory is the only error.
///
/// It takes time linear in the chunks and bytes of the xorbs that both have and in the terms of the files that both
/// have, but for look-ups. Where the terms of such a file differ it is linear in the file's bytes besides, which no
/// document bounds: each chunk counts as often as terms have it.
pub fn stores_agree(s: &MemStore, t: &MemStore) -> Result<bool, OutOfMemory>
    ensures { IfOk result (λ agree. IsTrue agree ↔ Agree s.now t.now) }
{
    s.recall_valid();
    if xorbs_agree(s, t)? {
        files_agree(s, t)
    } else {
        Ok(false)
    }
}

// Whether each xorb of a store that the other has has equal chunks there.
fn xorbs_agree(s: &MemStore, t: &MemStore) -> Result<bool, OutOfMemory>
    ensures { IfOk result (λ agree. IsTrue agree ↔ XorbsAgree s.now t.now) }
{
    for xorb in s.xorbs() {
        if !has_chunks(t, xorb)? {
            return Ok(false);
        }
    }
    Ok(true)
}

// Whether a store has no xorb of this one's hash, or one of equal chunks.
fn has_chunks(t: &MemStore, xorb: &StoredXorb) -> Result<bool, OutOfMemory>
    ensures { IfOk result (λ has. IsTrue has ↔ HasChunks t.now xorb.now) }
{
    match t.xorb(&xorb.hash()) {
        Some(other) => have_same_chunks(xorb, other),
        None => Ok(true),
    }
}

// Whether two xorbs have equal chunks.
fn have_same_chunks(a: &StoredXorb, b: &StoredXorb) -> Result<bool, OutOfMemory>
    ensures { IfOk result (λ same. IsTrue same ↔ (a.now.chunks ≡ b.now.chunks)) }
{
    let count = a.chunk_count();
    if count != b.chunk_count() {
        return Ok(false);
    }
    for chunk in 0..count {
        if !have_same_chunk(a, b, chunk)? {
            return Ok(false);
        }
    }
    Ok(true)
}

// Whether two xorbs have an equal chunk of this number, which both have.
fn have_same_chunk(a: &StoredXorb, b: &StoredXorb, number: u32) -> Result<bool, OutOfMemory>
    requires first { number < length a.now.chunks }
    requires second { number < length b.now.chunks }
    requires short { number < 2 ^ 32 - 1 }
    ensures { IfOk result (λ same. IsTrue same
        ↔ (slice_index_or a.now.chunks number [] ≡ slice_index_or b.now.chunks number [])) }
{
    let own = a.bytes_of(number, number + 1)?;
    let other = b.bytes_of(number, number + 1)?;
    Ok(own.as_slice() == other.as_slice())
}

// Whether each file of a store that the other has has equal bytes there. The xorbs agree.
fn files_agree(s: &MemStore, t: &MemStore) -> Result<bool, OutOfMemory>
    requires { XorbsAgree s.now t.now }
    ensures { IfOk result (λ agree. IsTrue agree ↔ FilesAgree s.now t.now) }
{
    s.recall_valid();
    for file in s.files() {
        if !has_bytes(s, file, t)? {
            return Ok(false);
        }
    }
    Ok(true)
}

// Whether a store has no file of this one's hash, or one of equal bytes. The file is one of a store that is lent first,
// and whose xorbs agree with the other's.
fn has_bytes(s: &MemStore, file: &KeptFile, t: &MemStore) -> Result<bool, OutOfMemory>
    requires stored { All (IsTermIn s.now) file.now.terms }
    requires short { length (bytes_in s.now file.now.terms) < 2 ^ 64 }
    requires xorbs { XorbsAgree s.now t.now }
    ensures { IfOk result (λ has. IsTrue has ↔ HasBytes s.now t.now file.now) }
{
    match t.file(&file.hash()) {
        Some(other) => have_equal_bytes(s, file.terms(), t, other.terms()),
        None => Ok(true),
    }
}

// Whether terms of two stores have equal bytes, of which each have fewer than 2^64. The stores' xorbs agree.
fn have_equal_bytes(
    s: &MemStore,
    a: &[StoredTerm],
    t: &MemStore,
    b: &[StoredTerm],
) -> Result<bool, OutOfMemory>
    requires first { All (IsTermIn s.now) a.now }
    requires second { All (IsTermIn t.now) b.now }
    requires first_short { length (bytes_in s.now a.now) < 2 ^ 64 }
    requires second_short { length (bytes_in t.now b.now) < 2 ^ 64 }
    requires xorbs { XorbsAgree s.now t.now }
    ensures { IfOk result (λ same. IsTrue same ↔ (bytes_in s.now a.now ≡ bytes_in t.now b.now)) }
{
    if are_same(a, b) {
        return Ok(true);
    }
    if byte_count(s, a)? != byte_count(t, b)? {
        return Ok(false);
    }
    have_same_bytes(s, a, t, b)
}
