//! The words that say how long the file is.
ghost use Rattle.std.specs.Prelude.{◌≡◌, ◌≤◌, IfSome, map, string_bytes};
ghost use Rattle.xet_roundtrip_command.specs.Roundtrip.{size_of};

use xet_room::number;

/// How many bytes the words after `roundtrip` ask for: one number of at most 1,000,000, or none where they don't read.
pub fn read_size(words: &[String]) -> Option<u32>
    ensures size { result ≡ size_of (map string_bytes words.now) }
    ensures most { IfSome result (λ size. size ≤ 1000000) }
{
    match words {
        [word] => match number(word.as_str()) {
            Some(size) if size <= 1_000_000 => Some(size as u32),
            _ => None,
        },
        _ => None,
    }
}
