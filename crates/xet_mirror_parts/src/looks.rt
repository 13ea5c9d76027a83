//! Looks at the xorbs that a file names, and sends those that the target lacks.
ghost use Rattle.std.specs.Prelude.{◌≡◌, IfOk, IfSome, false};
ghost use Rattle.xet_mirror_parts.specs.Copying.{LookCall, TermsCall};
ghost use Rattle.xet_mirror_parts.specs.Looked.{is_inside, is_looked};
ghost use Rattle.xet_mirror_parts.specs.steps.Kept.{KeepCall, lost};
ghost use Rattle.xet_shelves.specs.Shelves.{IsXorbOf, ShelfCall};
ghost use Rattle.xet_store.specs.Refusals.{is_term_in, stored_term};

use crate::copied::Copied;
use crate::report::MirrorError;
use std::alloc::Global;
use xet_base::{FileDataSequenceEntry, MerkleHash, Xorb};
use xet_outside::ClientError;
use xet_shelves::{Shelf, Target};

/// Looks at the xorbs that terms name, in order: each that wasn't looked at before is asked of the shelf, and put where
/// the target lacks it and the term is inside it. The number of the first term, counted from 0, that isn't from below
/// to inside a xorb of the shelf's, though the shelf or the target has the xorb; then no more were looked at.
///
/// - `XorbMissing` where neither has the xorb.
/// - `HashDiffers` where `verify` is set and a xorb that the target lacks has another hash than that of its chunks.
/// - `ClientError` where a call of the shelf or of the target failed; `OutOfMemory` where an allocation was refused.
pub fn look_at_terms<H: Shelf, T: Target>(
    alloc: Global,
    shelf: &mut H,
    target: &mut T,
    copied: &mut Copied,
    terms: &[FileDataSequenceEntry],
    verify: bool,
) -> Result<Option<u64>, MirrorError>
    ensures { TermsCall verify terms.now (H.told shelf.old) (H.told shelf.new) (T.told target.old)
        (T.told target.new) copied.old copied.new result }
{
    for (entry, term) in terms.iter().enumerate() {
        if !look_at_term(alloc, shelf, target, copied, term, verify)? {
            return Ok(Some(entry as u64));
        }
    }
    Ok(None)
}

// Looks at the xorb that a term names: whether the term is from below to inside a xorb of the shelf's.
fn look_at_term<H: Shelf, T: Target>(
    alloc: Global,
    shelf: &mut H,
    target: &mut T,
    copied: &mut Copied,
    term: &FileDataSequenceEntry,
    verify: bool,
) -> Result<bool, MirrorError>
    ensures { LookCall verify term.now.xorb (λ s. is_term_in s (stored_term term.now)) (H.told shelf.old)
        (H.told shelf.new) (T.told target.old) (T.told target.new) copied.old copied.new result }
{
    if copied.has(&term.xorb) {
        return Ok(copied.has_term(term));
    }
    look_at_new(alloc, shelf, target, copied, term, verify)
}

// The same, where the xorb wasn't looked at before. One that the term isn't inside is neither put nor noted.
fn look_at_new<H: Shelf, T: Target>(
    alloc: Global,
    shelf: &mut H,
    target: &mut T,
    copied: &mut Copied,
    term: &FileDataSequenceEntry,
    verify: bool,
) -> Result<bool, MirrorError>
    requires { is_looked copied.old.xorbs term.now.xorb ≡ false }
    ensures { LookCall verify term.now.xorb (λ s. is_term_in s (stored_term term.now)) (H.told shelf.old)
        (H.told shelf.new) (T.told target.old) (T.told target.new) copied.old copied.new result }
{
    let held = target.has_xorb(&term.xorb)?;
    let Some(found) = asked_xorb(alloc, shelf, &term.xorb)? else {
        return not_found(&term.xorb, held);
    };
    if !is_inside(term, &found) {
        return Ok(false);
    }
    keep(alloc, target, copied, &found, held, verify)?;
    Ok(true)
}

// Whether the term is from below to inside the xorb.
fn is_inside(term: &FileDataSequenceEntry, xorb: &Xorb) -> bool
    ensures { result ≡ is_inside term.now xorb.now }
{
    term.from < term.to && term.to as usize <= xorb.chunks.len()
}

// The answer where the shelf hasn't a xorb.
fn not_found(xorb: &MerkleHash, held: bool) -> Result<bool, MirrorError>
    ensures { result ≡ lost xorb.now held }
{
    if held {
        Ok(false)
    } else {
        Err(MirrorError::XorbMissing { xorb: *xorb })
    }
}

// The shelf's xorb with this hash. One with another hash counts as none.
fn asked_xorb<H: Shelf>(
    alloc: Global,
    shelf: &mut H,
    xorb: &MerkleHash,
) -> Result<Option<Xorb>, ClientError>
    ensures call { ShelfCall (H.told shelf.old) (H.told shelf.new) (IsXorbOf xorb.now) result }
    ensures own { IfOk result (λ found. IfSome found (λ x. x.hash ≡ xorb.now)) }
{
    let Some(found) = shelf.xorb(alloc, xorb)? else {
        return Ok(None);
    };
    if !found.hash.is_same(xorb) {
        return Ok(None);
    }
    Ok(Some(found))
}

// Notes a xorb, and puts it where the target lacks it.
fn keep<T: Target>(
    alloc: Global,
    target: &mut T,
    copied: &mut Copied,
    xorb: &Xorb,
    held: bool,
    verify: bool,
) -> Result<(), MirrorError>
    requires { is_looked copied.old.xorbs xorb.now.hash ≡ false }
    ensures { KeepCall verify xorb.now held (T.told target.old) (T.told target.new) copied.old copied.new result }
{
    copied.note(alloc, xorb, held, verify)?;
    if !held {
        target.put_xorb(alloc, xorb)?;
    }
    Ok(())
}
