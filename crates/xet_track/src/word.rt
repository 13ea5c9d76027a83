//! The calls that words spell.
ghost use Rattle.std.specs.Prelude.{◌≡◌, ◌<◌, ◌^◌};
ghost use Rattle.std.specs.Str.{bytes_eq};
ghost use Rattle.xet_track.specs.Numbers.{hash_of_number, name_of_text, number_of_text};

use xet_base::MerkleHash;

/// Whether a word is this text.
pub(crate) fn spells(word: &[u8], text: &str) -> bool
    ensures { result ≡ bytes_eq word.now text.now }
{
    word == text.as_bytes()
}

/// 1 to 20 decimal digits of at most `u64::MAX`.
pub(crate) fn number(text: &[u8]) -> Option<u64>
    ensures { result ≡ number_of_text text.now }
{
    if text.is_empty() || text.len() > 20 {
        return None;
    }
    let mut found = 0u64;
    for byte in text {
        if *byte < b'0' || *byte > b'9' {
            return None;
        }
        found = found.checked_mul(10)?.checked_add((*byte - b'0') as u64)?;
    }
    Some(found)
}

/// The hash of a name: 28 zero bytes, and its 4 bytes from the highest on.
fn hash(number: u64) -> MerkleHash
    requires { number < 2 ^ 32 }
    ensures { result ≡ hash_of_number number }
{
    let mut bytes = [0u8; 32];
    bytes[28] = (number / 16_777_216) as u8;
    bytes[29] = (number / 65_536 % 256) as u8;
    bytes[30] = (number / 256 % 256) as u8;
    bytes[31] = (number % 256) as u8;
    MerkleHash(bytes)
}

/// A number below 2^32, which stands in the last 4 bytes of a hash.
pub(crate) fn name(text: &[u8]) -> Option<MerkleHash>
    ensures { result ≡ name_of_text text.now }
{
    let number = number(text)?;
    if number >= 4_294_967_296 {
        return None;
    }
    Some(hash(number))
}
