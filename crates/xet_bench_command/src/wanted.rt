//! What `bench` is to run, and the words that say it.
ghost use Rattle.std.specs.Prelude.{◌≡◌, map, string_bytes};
ghost use Rattle.xet_bench_command.specs.Bench.{bench_of, run_of, terms_of_text};

use xet_bench::Bench;
use xet_get_command::{Options, read_options};
use xet_room::number;

/// How large the file is that `bench` runs, and how it is to be fetched.
#[derive(Clone, Copy, PartialEq, Eq)]
pub struct BenchWanted {
    /// How many terms the file has.
    pub terms: u32,
    /// The options.
    pub options: Options,
}

impl BenchWanted {
    /// The run that is wanted.
    pub fn run(&self) -> Bench
        ensures { result ≡ run_of self.now }
    {
        Bench {
            terms: self.terms,
            lanes: self.options.lane_count() as usize,
            config: self.options.config(),
            cache: self.options.cache,
        }
    }
}

// A number of terms.
fn read_terms(text: &str) -> Option<u32>
    ensures { result ≡ terms_of_text text.now }
{
    let number = number(text)?;
    if 1 <= number && number <= 100_000 {
        Some(number as u32)
    } else {
        None
    }
}

/// What the words after `bench` ask for, a number of terms from 1 to 100,000 and options of `get`, or none where they
/// don't read.
pub fn read_bench(words: &[String]) -> Option<BenchWanted>
    ensures { result ≡ bench_of (map string_bytes words.now) }
{
    match words {
        [terms, options @ ..] => {
            let terms = read_terms(terms.as_str())?;
            let options = read_options(options)?;
            Some(BenchWanted { terms, options })
        }
        _ => None,
    }
}
