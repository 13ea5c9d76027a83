//! The settings of an upload session.
ghost use Rattle.std.specs.Prelude.{◌≡◌, true};

use crate::session_context::SessionContext;

/// The settings of an upload session.
///
/// In the Rust crate xet-data: `processing::configurations::TranslatorConfig`.
#[derive(Debug, Drop)]
pub struct TranslatorConfig {
    /// Where the data goes.
    pub session: SessionContext,
    /// Kept, and read by nothing here.
    pub force_disable_progress_aggregation: bool,
    /// From how many waiting bytes on a xorb is cut.
    pub xorb_cut_threshold_bytes: u64,
    /// From how many waiting chunks on a xorb is cut.
    pub xorb_cut_threshold_chunks: u64,
    /// Kept, and read by nothing here.
    pub ingestion_block_size: u64,
    /// Whether a chunk that no store of the session knows is asked of the uploader.
    pub global_dedup_query_enabled: bool,
    /// After how many seconds the records of put xorbs are written to the staging store.
    pub session_xorb_metadata_flush_interval: u64,
    /// At how many such records they are written.
    pub session_xorb_metadata_flush_max_count: u64,
    /// How many bytes a shard has at most.
    pub shard_max_target_size: u64,
}

impl TranslatorConfig {
    /// The same settings, but that progress is not aggregated. It takes no memory.
    ///
    /// In the Rust crate: `TranslatorConfig::disable_progress_aggregation`.
    pub fn disable_progress_aggregation(self) -> TranslatorConfig
        ensures { result ≡ record self { force_disable_progress_aggregation = true } }
    {
        TranslatorConfig {
            force_disable_progress_aggregation: true,
            ..self
        }
    }
}
