//! The words that say what to look at.
ghost use Rattle.std.specs.Prelude.{◌≡◌, map, string_bytes};
ghost use Rattle.xet_audit_command.specs.Audit.{hashes_of, word_of};

// Whether a word asks for hashes.
fn read_word(word: &str) -> Option<bool>
    ensures { result ≡ word_of word.now }
{
    match word {
        "hashes" => Some(true),
        _ => None,
    }
}

/// Whether the words after `audit` ask for hashes too: `hashes` alone, or none at all. None where they don't read.
pub fn read_hashes(words: &[String]) -> Option<bool>
    ensures { result ≡ hashes_of (map string_bytes words.now) }
{
    match words {
        [] => Some(false),
        [word] => read_word(word.as_str()),
        _ => None,
    }
}
