//! Bytes and hashes that hexadecimal digits spell.
//!
//! The crate `hex` gives the meaning. Its decoding branches on each digit, which takes most of the time of a large
//! document; the pass here looks each digit up in a table, and has no branch.
ghost use Rattle.std.specs.Prelude.{◌≡◌, ◌*◌, MatchOption, false, length, true, unwrap_or};
ghost use Rattle.std.specs.Result.{result_ok};
ghost use Rattle.hex.specs.Hex.{decode_of, hex_digit_value};
ghost use Rattle.xet_base.specs.HashText.{hash_of_text};

use xet_base::MerkleHash;

// The value of each byte as a digit of either case, and 255 where it is none.
const VALUES: [u8; 256] = [
    255, 255, 255, 255, 255, 255, 255, 255, 255, 255, 255, 255, 255, 255, 255, 255, 255, 255, 255,
    255, 255, 255, 255, 255, 255, 255, 255, 255, 255, 255, 255, 255, 255, 255, 255, 255, 255, 255,
    255, 255, 255, 255, 255, 255, 255, 255, 255, 255, 0, 1, 2, 3, 4, 5, 6, 7, 8, 9, 255, 255, 255,
    255, 255, 255, 255, 10, 11, 12, 13, 14, 15, 255, 255, 255, 255, 255, 255, 255, 255, 255, 255,
    255, 255, 255, 255, 255, 255, 255, 255, 255, 255, 255, 255, 255, 255, 255, 255, 10, 11, 12, 13,
    14, 15, 255, 255, 255, 255, 255, 255, 255, 255, 255, 255, 255, 255, 255, 255, 255, 255, 255,
    255, 255, 255, 255, 255, 255, 255, 255, 255, 255, 255, 255, 255, 255, 255, 255, 255, 255, 255,
    255, 255, 255, 255, 255, 255, 255, 255, 255, 255, 255, 255, 255, 255, 255, 255, 255, 255, 255,
    255, 255, 255, 255, 255, 255, 255, 255, 255, 255, 255, 255, 255, 255, 255, 255, 255, 255, 255,
    255, 255, 255, 255, 255, 255, 255, 255, 255, 255, 255, 255, 255, 255, 255, 255, 255, 255, 255,
    255, 255, 255, 255, 255, 255, 255, 255, 255, 255, 255, 255, 255, 255, 255, 255, 255, 255, 255,
    255, 255, 255, 255, 255, 255, 255, 255, 255, 255, 255, 255, 255, 255, 255, 255, 255, 255, 255,
    255, 255, 255, 255, 255, 255, 255, 255, 255, 255, 255, 255, 255, 255, 255, 255, 255, 255, 255,
    255, 255, 255,
];

// The value of a hexadecimal digit of either case, and 255 of another byte.
fn value(digit: u8) -> u8
    ensures { result ≡ unwrap_or (hex_digit_value digit) 255 }
{
    VALUES[digit as usize]
}

/// Writes the bytes that the digits spell, two digits of either case for each byte, and answers whether all are digits.
pub fn decode_digits(text: &[u8], bytes: &mut [u8]) -> bool
    requires { length text.now ≡ 2 * length bytes.old }
    ensures { MatchOption (result_ok (decode_of text.now)) (result ≡ false)
        (λ found. (result ≡ true) × (bytes.new ≡ found)) }
{
    let mut all = true;
    'bytes: for i in 0..bytes.len() {
        let high = value(text[2 * i]);
        let low = value(text[2 * i + 1]);
        all = all & (high < 16) & (low < 16);
        bytes[i] = high.wrapping_mul(16).wrapping_add(low);
    }
    all
}

/// The hash that a text spells, or none where it isn't 64 digits.
pub fn hash_of(text: &str) -> Option<MerkleHash>
    ensures { result ≡ hash_of_text text.now }
{
    if text.len() != 64 {
        return None;
    }
    let mut bytes = [0; 32];
    if decode_digits(text.as_bytes(), bytes.as_mut_slice()) {
        Some(MerkleHash(bytes))
    } else {
        None
    }
}

/// The text of a hash that was read last, and what it spells: terms of one xorb follow each other in most files, and
/// texts compare by words.
#[derive(Drop)]
pub struct LastHash<'a> {
    text: &'a str,
    hash: Option<MerkleHash>,
    ghost spelt: { hash ≡ hash_of_text text.now },
}

impl<'a> LastHash<'a> {
    /// This text was read last.
    pub fn of_text(text: &'a str) -> LastHash<'a>
        ensures { result.hash ≡ hash_of_text text.now }
    {
        LastHash {
            text,
            hash: hash_of(text),
        }
    }

    /// The hash that a text spells, or none where it isn't 64 digits. It was read last from then on.
    pub fn hash_of(&mut self, text: &'a str) -> Option<MerkleHash>
        ensures { result ≡ hash_of_text text.now }
    {
        if text == self.text {
            return self.hash;
        }
        *self = LastHash::of_text(text);
        self.hash
    }
}
