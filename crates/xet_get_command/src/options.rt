//! The options of `get` and `bench`, and the words that say them.
ghost use Rattle.std.specs.Prelude.{◌≡◌, cond, None, Some, map, string_bytes};
ghost use Rattle.xet_get_command.specs.GetOptions.{budget_of, config_of, lanes_of, no_options, option_of_flag};
ghost use Rattle.xet_get_command.specs.GetOptions.{option_of_name, option_of_word, options_of, unless_given};
ghost use Rattle.xet_get_command.specs.GetOptions.{with_option, with_word};

use xet_room::number;
use xet_run::BudgetSettings;
use xet_terms::ReconstructionConfig;

/// An option of `get` and `bench`. Sizes are in bytes.
#[derive(Clone, Copy, PartialEq, Eq)]
pub enum GetOption {
    /// `multi`: each fetch entry is one block of all its ranges.
    Multi,
    /// `vectored`: several pieces are passed to one write.
    Vectored,
    /// `cache`: blocks are kept in a cache of the run's own, and looked for there.
    Cache,
    /// `lanes=N`: so many connections.
    Lanes(u64),
    /// `least=N`: the least size of a query.
    Least(u64),
    /// `greatest=N`: the greatest size of a query.
    Greatest(u64),
    /// `budget=N`: how much may be admitted and not yet written.
    Budget(u64),
    /// `perfile=N`: how much more for a running download.
    PerFile(u64),
    /// `limit=N`: how much at most.
    Limit(u64),
}

/// The options of `get` and `bench` as the words say them, each at most once. Sizes are in bytes.
#[derive(Clone, Copy, PartialEq, Eq)]
pub struct Options {
    /// How many connections, at most 64.
    pub lanes: Option<u64>,
    /// The least size of a query.
    pub least: Option<u64>,
    /// The greatest size of a query.
    pub greatest: Option<u64>,
    /// How much may be admitted and not yet written.
    pub budget: Option<u64>,
    /// How much more for a running download.
    pub per_file: Option<u64>,
    /// How much may be admitted and not yet written at most.
    pub limit: Option<u64>,
    /// Whether each fetch entry is one block of all its ranges.
    pub multirange: bool,
    /// Whether several pieces are passed to one write.
    pub vectored: bool,
    /// Whether the run has a cache.
    pub cache: bool,
}

// These options, unless the number was given before.
fn once(given: Option<u64>, next: Options) -> Option<Options>
    ensures { result ≡ unless_given given next }
{
    match given {
        None => Some(next),
        Some(_) => None,
    }
}

// These options, unless the flag was given before.
fn once_flag(given: bool, next: Options) -> Option<Options>
    ensures { result ≡ cond given None (Some next) }
{
    if given { None } else { Some(next) }
}

impl Options {
    // The options where no word says one.
    fn none() -> Options
        ensures { result ≡ no_options }
    {
        Options {
            lanes: None,
            least: None,
            greatest: None,
            budget: None,
            per_file: None,
            limit: None,
            multirange: false,
            vectored: false,
            cache: false,
        }
    }

    // The options with one more, unless it was given before.
    fn with(self, option: GetOption) -> Option<Options>
        ensures { result ≡ with_option self option }
    {
        let mut next = self;
        match option {
            GetOption::Multi => {
                next.multirange = true;
                once_flag(self.multirange, next)
            }
            GetOption::Vectored => {
                next.vectored = true;
                once_flag(self.vectored, next)
            }
            GetOption::Cache => {
                next.cache = true;
                once_flag(self.cache, next)
            }
            GetOption::Lanes(count) => {
                next.lanes = Some(count);
                once(self.lanes, next)
            }
            GetOption::Least(size) => {
                next.least = Some(size);
                once(self.least, next)
            }
            GetOption::Greatest(size) => {
                next.greatest = Some(size);
                once(self.greatest, next)
            }
            GetOption::Budget(size) => {
                next.budget = Some(size);
                once(self.budget, next)
            }
            GetOption::PerFile(size) => {
                next.per_file = Some(size);
                once(self.per_file, next)
            }
            GetOption::Limit(size) => {
                next.limit = Some(size);
                once(self.limit, next)
            }
        }
    }

    // The options with that of one more word.
    fn with_word(self, word: &str) -> Option<Options>
        ensures { result ≡ with_word self word.now }
    {
        let option = read_option(word)?;
        self.with(option)
    }

    /// How many connections there are.
    pub fn lane_count(&self) -> u64
        ensures { result ≡ lanes_of self.now }
    {
        self.lanes.unwrap_or(1)
    }

    /// The settings of the run.
    pub fn config(&self) -> ReconstructionConfig
        ensures { result ≡ config_of self.now }
    {
        ReconstructionConfig {
            min_reconstruction_fetch_size: self.least.unwrap_or(1_048_576),
            max_reconstruction_fetch_size: self.greatest.unwrap_or(67_108_864),
            min_prefetch_buffer: 2_097_152,
            download_buffer_size: self.budget.unwrap_or(67_108_864),
            use_vectored_write: self.vectored,
            enable_multirange_fetching: self.multirange,
            tries: 3,
        }
    }

    /// The settings of the book that the run asks for its limit: without options that of the budget for good.
    pub fn budget_settings(&self) -> BudgetSettings
        ensures { result ≡ budget_of self.now }
    {
        BudgetSettings {
            base: self.budget.unwrap_or(67_108_864),
            per_file: self.per_file.unwrap_or(0),
            limit: self.limit.unwrap_or(u64::MAX),
        }
    }
}

// The option of this name that has this number.
fn read_number_of(name: &str, number: u64) -> Option<GetOption>
    ensures { result ≡ option_of_name name.now number }
{
    match name {
        "lanes" => (number <= 64).then_some(GetOption::Lanes(number)),
        "least" => Some(GetOption::Least(number)),
        "greatest" => Some(GetOption::Greatest(number)),
        "budget" => Some(GetOption::Budget(number)),
        "perfile" => Some(GetOption::PerFile(number)),
        "limit" => Some(GetOption::Limit(number)),
        _ => None,
    }
}

// The option that has no number.
fn read_flag(word: &str) -> Option<GetOption>
    ensures { result ≡ option_of_flag word.now }
{
    match word {
        "multi" => Some(GetOption::Multi),
        "vectored" => Some(GetOption::Vectored),
        "cache" => Some(GetOption::Cache),
        _ => None,
    }
}

// The option that a word spells.
fn read_option(word: &str) -> Option<GetOption>
    ensures { result ≡ option_of_word word.now }
{
    let Some((name, text)) = word.split_once('=') else {
        return read_flag(word);
    };
    let number = number(text)?;
    read_number_of(name, number)
}

/// The options that words say, in any order and each at most once; none where a word is no option.
pub fn read_options(words: &[String]) -> Option<Options>
    ensures { result ≡ options_of (map string_bytes words.now) }
{
    let mut options = Options::none();
    for word in words {
        match options.with_word(word.as_str()) {
            Some(next) => options = next,
            None => return None,
        }
    }
    Some(options)
}
