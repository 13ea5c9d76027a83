//! Values of keys that a document's form doesn't know, which are passed by their tokens.
ghost use Rattle.std.specs.Prelude.{◌≡◌, ◌<◌, ◌==◌, ◌≤◌, ◌^◌, IfErr, IsTrue, OnOk, false, length, slice_index};
ghost use Rattle.serde_json.specs.Data.{Data, Items, Members};
ghost use Rattle.serde_json.specs.Written.{has_float, items_have_float, members_have_float};
ghost use Rattle.xet_document.specs.steps.Reads.{IsWhole, ReadsItems, ReadsMembers, ReadsValue};

use crate::unread::Unread;
use fast_float::Numeral;
use json::{Reader, Token};

/// Passes a value whose arrays and objects nest no deeper than this, and whose numbers are whole and of 64 bits.
#[cycle(pass)]
pub(crate) fn pass_value(reader: &mut Reader<'_>, depth: usize) -> Result<(), Unread>
    ensures value { OnOk result ((d : Data) × ReadsValue depth reader.old d reader.new × (has_float d ≡ false)) }
    ensures shorter { OnOk result (length reader.new < length reader.old) }
    ensures refused { IfErr result (λ e. e ≡ Unread.NotPlain) }
{
    let Some(token) = reader.next() else {
        return Err(Unread::NotPlain);
    };
    match token {
        Token::String(_) => Ok(()),
        Token::Bool(_) => Ok(()),
        Token::Null => Ok(()),
        Token::Number(text) => if is_whole(text) {
            Ok(())
        } else {
            Err(Unread::NotPlain)
        },
        Token::BeginArray => if depth == 0 {
            Err(Unread::NotPlain)
        } else {
            pass_items(reader, depth - 1)
        },
        Token::BeginObject => if depth == 0 {
            Err(Unread::NotPlain)
        } else {
            pass_members(reader, depth - 1)
        },
        Token::EndObject | Token::EndArray | Token::Key(_) | Token::Bad => Err(Unread::NotPlain),
    }
}

// Passes the items of an array that was opened.
#[cycle(pass)]
fn pass_items(reader: &mut Reader<'_>, depth: usize) -> Result<(), Unread>
    ensures items { OnOk result ((ds : Items) × ReadsItems depth reader.old ds reader.new
        × (items_have_float ds ≡ false)) }
    ensures shorter { OnOk result (length reader.new < length reader.old) }
    ensures refused { IfErr result (λ e. e ≡ Unread.NotPlain) }
{
    'items: while !reader.take_end_array() {
        pass_value(reader, depth)?;
    }
    Ok(())
}

// Passes the members of an object that was opened.
#[cycle(pass)]
fn pass_members(reader: &mut Reader<'_>, depth: usize) -> Result<(), Unread>
    ensures members { OnOk result ((ms : Members) × ReadsMembers depth reader.old ms reader.new
        × (members_have_float ms ≡ false)) }
    ensures shorter { OnOk result (length reader.new < length reader.old) }
    ensures refused { IfErr result (λ e. e ≡ Unread.NotPlain) }
{
    'members: while let Some(_) = reader.next_key()? {
        pass_value(reader, depth)?;
    }
    Ok(())
}

// Whether a number is whole and of 64 bits, so that it isn't kept as a float.
fn is_whole(text: &str) -> bool
    ensures { IsTrue result → IsWhole text.now }
{
    let bytes = text.as_bytes();
    if has_minus(bytes) {
        match Numeral::scan(&bytes[1..]).to_u64() {
            Some(size) => fits_below_zero(size),
            None => false,
        }
    } else {
        Numeral::scan(bytes).to_u64().is_some()
    }
}

// Whether a minus stands first.
fn has_minus(bytes: &[u8]) -> bool
    ensures value { result ≡ (slice_index bytes.now 0 == 45) }
    ensures some { IsTrue result → 0 < length bytes.now }
{
    !bytes.is_empty() && bytes[0] == b'-'
}

// Whether a number of this size is one of 64 bits below zero, with a minus before it. None is zero.
fn fits_below_zero(size: u64) -> bool
    ensures { IsTrue result → (0 < size) × (size ≤ 2 ^ 63) }
{
    0 < size && size <= 1 << 63
}
