//! The words that say what to test.
ghost use Rattle.std.specs.Prelude.{◌≡◌, map, string_bytes};
ghost use Rattle.xet_mirror_command.specs.Mirror.{verify_of, word_of};

// Whether a word asks for hashes to be tested.
fn read_word(word: &str) -> Option<bool>
    ensures { result ≡ word_of word.now }
{
    match word {
        "verify" => Some(true),
        _ => None,
    }
}

/// Whether the words after `mirror` ask for hashes to be tested: `verify` alone, or none at all. None where they don't
/// read.
pub fn read_verify(words: &[String]) -> Option<bool>
    ensures { result ≡ verify_of (map string_bytes words.now) }
{
    match words {
        [] => Some(false),
        [word] => read_word(word.as_str()),
        _ => None,
    }
}
