//! The settings of a reconstruction.
ghost use Rattle.std.specs.Prelude.{◌≡◌};
ghost use Rattle.xet_terms.specs.Settings.{failing_setting_of, failing_size_of, first_config};

use xet_error::Setting;
use xet_fetch::FetchSettings;

/// The settings of a reconstruction. Sizes are in bytes.
///
/// In the Rust crates: the fields of `xet_config` that `file_reconstruction` reads.
#[derive(Clone, Copy, PartialEq, Eq)]
pub struct ReconstructionConfig {
    /// The least size of a query, but for one that the end of the range cuts.
    pub min_reconstruction_fetch_size: u64,
    /// The greatest size of a query. A query is shorter than this and the least size together.
    pub max_reconstruction_fetch_size: u64,
    /// How many bytes of the file are planned ahead at least.
    pub min_prefetch_buffer: u64,
    /// How many bytes may be admitted and not yet written.
    pub download_buffer_size: u64,
    /// Whether several pieces are passed to one write.
    pub use_vectored_write: bool,
    /// Whether all ranges of a fetch entry are one block.
    pub enable_multirange_fetching: bool,
    /// How often a block is asked for at most.
    pub tries: u32,
}

impl ReconstructionConfig {
    /// The settings of a run that is given none.
    pub fn new() -> ReconstructionConfig
        ensures { result ≡ first_config }
    {
        ReconstructionConfig {
            min_reconstruction_fetch_size: 1_048_576,
            max_reconstruction_fetch_size: 67_108_864,
            min_prefetch_buffer: 2_097_152,
            download_buffer_size: 67_108_864,
            use_vectored_write: false,
            enable_multirange_fetching: false,
            tries: 3,
        }
    }

    /// The setting that fails first in a run that is lent so many connections; none where all can be met.
    pub fn failing_setting(&self, connections: usize) -> Option<Setting>
        ensures { result ≡ failing_setting_of connections self.now }
    {
        if connections == 0 {
            return Some(Setting::NoConnection);
        }
        if self.tries == 0 {
            return Some(Setting::NoTries);
        }
        self.failing_size()
    }

    /// What of the settings a block's fetch reads.
    pub fn fetch_settings(&self) -> FetchSettings
        ensures { result ≡ record { multirange = self.now.enable_multirange_fetching; tries = self.now.tries } }
    {
        FetchSettings {
            multirange: self.enable_multirange_fetching,
            tries: self.tries,
        }
    }

    /// The fetch size that fails first; none where both can be met.
    pub fn failing_size(&self) -> Option<Setting>
        ensures { result ≡ failing_size_of self.now }
    {
        if self.min_reconstruction_fetch_size == 0 {
            return Some(Setting::LeastZero);
        }
        if self.max_reconstruction_fetch_size < self.min_reconstruction_fetch_size {
            return Some(Setting::GreatestBelowLeast);
        }
        None
    }
}
