//! From where on the data of a file does not join what waits.
ghost use Rattle.std.specs.Prelude.{◌≡◌, ◌↔◌, IsTrue};
ghost use Rattle.xet_upload_parts.specs.Storable.{IsStorable};
ghost use Rattle.xet_upload_parts.specs.Thresholds.{FitTogether, thresholds_of};

use xet_pointer::TranslatorConfig;
use xet_upload::DataAggregator;

/// How much the data of a file and what waits may have together, and stay one.
///
/// It has no source in the Rust crates: these are two of the settings of an upload.
#[derive(Clone, Copy, PartialEq, Eq)]
pub struct CutThresholds {
    /// How many bytes.
    pub bytes: u64,
    /// How many chunks.
    pub chunks: u64,
}

impl CutThresholds {
    /// Those of the settings.
    pub fn of(config: &TranslatorConfig) -> CutThresholds
        ensures { result ≡ thresholds_of config.now }
    {
        CutThresholds {
            bytes: config.xorb_cut_threshold_bytes,
            chunks: config.xorb_cut_threshold_chunks,
        }
    }

    /// Whether both together pass neither of the two, and keep the limits of a xorb.
    pub fn fit(&self, waiting: &DataAggregator, file_data: &DataAggregator) -> bool
        ensures fit { IsTrue result ↔ FitTogether self.now waiting.now file_data.now }
        ensures storable { IsStorable file_data.now.chunks }
    {
        if waiting.num_chunks() + file_data.num_chunks() > self.chunks {
            return false;
        }
        if waiting.num_bytes() + file_data.num_bytes() > self.bytes {
            return false;
        }
        waiting.fits_with(file_data)
    }
}
