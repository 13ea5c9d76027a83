//! Terms of files, and how many bytes they have.
ghost use Rattle.std.specs.Prelude.{◌-◌, ◌≡◌, ◌^◌, All, IfOk, length, min};
ghost use Rattle.std.specs.Bool.{OnTrue};
ghost use Rattle.std.specs.List.{concat};
ghost use Rattle.xet_base.specs.Store.{IsTermIn, chunks_of_term};
ghost use Rattle.xet_agree.specs.steps.Alike.{bytes_in};

use bytes::Bytes;
use xet_base::{OutOfMemory, StoredTerm};
use xet_store::MemStore;

/// Whether two terms are of the same xorb and chunks.
pub(crate) fn is_same(a: &StoredTerm, b: &StoredTerm) -> bool
    ensures { OnTrue result (a.now ≡ b.now) }
{
    a.xorb.is_same(&b.xorb) && a.from == b.from && a.to == b.to
}

/// Whether terms are the same, one by one.
pub(crate) fn are_same(a: &[StoredTerm], b: &[StoredTerm]) -> bool
    ensures { OnTrue result (a.now ≡ b.now) }
{
    if a.len() != b.len() {
        return false;
    }
    for number in 0..a.len() {
        if !is_same(&a[number], &b[number]) {
            return false;
        }
    }
    true
}

/// The bytes of a term, which share its xorb's memory.
pub(crate) fn bytes_of(store: &MemStore, term: &StoredTerm) -> Result<Bytes, OutOfMemory>
    requires { IsTermIn store.now term.now }
    ensures { IfOk result (λ bytes. bytes ≡ concat (chunks_of_term store.now term.now)) }
{
    match store.xorb(&term.xorb) {
        Some(xorb) => xorb.bytes_of(term.from, term.to),
        None => unreachable!(),
    }
}

/// How many bytes some terms have, but at most `u64::MAX`.
pub(crate) fn byte_count(store: &MemStore, terms: &[StoredTerm]) -> Result<u64, OutOfMemory>
    requires { All (IsTermIn store.now) terms.now }
    ensures { IfOk result (λ count. count ≡ min (length (bytes_in store.now terms.now)) (2 ^ 64 - 1)) }
{
    let mut count = 0u64;
    for term in terms {
        let bytes = bytes_of(store, term)?;
        count = count.saturating_add(bytes.len() as u64);
    }
    Ok(count)
}
