//! Numbers among the words.
ghost use Rattle.std.specs.Prelude.{◌≡◌};
ghost use Rattle.std.specs.Char.{is_ascii_digit};
ghost use Rattle.std.specs.List.{list_all};
ghost use Rattle.xet_room.specs.Numbers.{number_of_text};

// Whether each byte is a decimal digit.
fn is_digits(text: &str) -> bool
    ensures { result ≡ list_all is_ascii_digit text.now }
{
    text.as_bytes().iter().all(|byte| byte.is_ascii_digit())
}

/// 1 to 20 decimal digits of at most `u64::MAX`.
pub fn number(text: &str) -> Option<u64>
    ensures { result ≡ number_of_text text.now }
{
    if text.len() > 20 || !is_digits(text) {
        return None;
    }
    text.parse().ok()
}
