//! Numbers of ranges.
ghost use Rattle.std.specs.Prelude.{◌≡◌, true};
ghost use Rattle.std.specs.Char.{is_ascii_digit};
ghost use Rattle.std.specs.List.{list_all};
ghost use Rattle.xet_serve_lines.specs.Requests.{has_leading_zero, number_of_text};
ghost use Rattle.xet_serve_lines.specs.steps.Buffers.{digits_number};

use std::str;

// Whether each byte is a decimal digit.
fn is_digits(text: &[u8]) -> bool
    ensures { result ≡ list_all is_ascii_digit text.now }
{
    text.iter().all(|byte| byte.is_ascii_digit())
}

// Whether a zero stands before other digits.
fn has_leading_zero(text: &[u8]) -> bool
    ensures { result ≡ has_leading_zero text.now }
{
    text.len() > 1 && text[0] == b'0'
}

// The number of digits, where it is at most `u64::MAX`.
fn read_digits(text: &[u8]) -> Option<u64>
    requires { list_all is_ascii_digit text.now ≡ true }
    ensures { result ≡ digits_number text.now }
{
    match str::from_utf8(text) {
        Ok(digits) => digits.parse().ok(),
        Err(_) => unreachable!(),
    }
}

/// The number that decimal digits spell, without a leading zero and of at most `u64::MAX`.
pub(crate) fn read_number(text: &[u8]) -> Option<u64>
    ensures { result ≡ number_of_text text.now }
{
    if has_leading_zero(text) || !is_digits(text) {
        return None;
    }
    read_digits(text)
}
