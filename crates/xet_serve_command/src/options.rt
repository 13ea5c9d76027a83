//! The words after `serve`.
ghost use Rattle.std.specs.Prelude.{◌≡◌, map, string_bytes};
ghost use Rattle.xet_serve_command.specs.Serve.{serve_options};

use xet_get_command::{Options, read_options};

/// The options that the words after `serve` say: those of `get` but `perfile` and `limit`, in any order and each at
/// most once; none where a word is no such option.
pub fn read_serve(words: &[String]) -> Option<Options>
    ensures { result ≡ serve_options (map string_bytes words.now) }
{
    let options = read_options(words)?;
    if options.per_file.is_some() || options.limit.is_some() {
        return None;
    }
    Some(options)
}
