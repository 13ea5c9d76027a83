//! The two parts of an input: its first line, and what stands behind that.
ghost use Rattle.std.specs.Prelude.{◌≡◌, ◌≤◌, ◌==◌, IfOk, OnOk, drop, length, take};
ghost use Rattle.std.specs.List.{position_or_len};
ghost use Rattle.xet_serve_command.specs.Serve.{document_of, session_of};

use std::alloc::Global;
use std::mem::replace;
use xet_base::OutOfMemory;

// The place of the first line end, or how many bytes there are.
fn first_end(text: &[u8]) -> usize
    ensures place { result ≡ position_or_len (λ b. b == 10) text.now }
    ensures within { result ≤ length text.now }
{
    let mut place = 0;
    while place < text.len() && text[place] != b'\n' {
        place += 1;
    }
    place
}

// Moves the bytes from a place on to the front, and drops those before.
fn drop_front(text: &mut Vec<u8>, place: usize)
    requires { place ≤ length text.old.items }
    ensures { text.new.items ≡ drop place text.old.items }
{
    let end = text.len();
    text.as_mut_slice().copy_within(place..end, 0);
    text.truncate(end - place);
}

// Takes off what stands from a place on, and leaves the first so many bytes, which are copied.
fn take_by_front(
    alloc: Global,
    text: &mut Vec<u8>,
    end: usize,
    place: usize,
) -> Result<Vec<u8>, OutOfMemory>
    requires front { end ≤ place }
    requires within { place ≤ length text.old.items }
    ensures front { OnOk result (text.new.items ≡ take end text.old.items) }
    ensures rest { IfOk result (λ rest. rest.items ≡ drop place text.old.items) }
{
    let front = Vec::from_slice(alloc, &text[..end])?;
    drop_front(text, place);
    Ok(replace(text, front))
}

// The same, and the rest is copied.
fn take_by_rest(text: &mut Vec<u8>, end: usize, place: usize) -> Result<Vec<u8>, OutOfMemory>
    requires front { end ≤ place }
    requires within { place ≤ length text.old.items }
    ensures front { OnOk result (text.new.items ≡ take end text.old.items) }
    ensures rest { IfOk result (λ rest. rest.items ≡ drop place text.old.items) }
{
    let rest = text.split_off(place)?;
    text.truncate(end);
    Ok(rest)
}

/// Takes off what stands behind the first line end. What stands before it stays. The shorter of both is copied.
pub(crate) fn take_session(alloc: Global, text: &mut Vec<u8>) -> Result<Vec<u8>, OutOfMemory>
    ensures document { OnOk result (text.new.items ≡ document_of text.old.items) }
    ensures session { IfOk result (λ session. session.items ≡ session_of text.old.items) }
{
    let end = first_end(text.as_slice());
    let behind = end.saturating_add(1).min(text.len());
    if end < text.len() - behind {
        return take_by_front(alloc, text, end, behind);
    }
    take_by_rest(text, end, behind)
}
