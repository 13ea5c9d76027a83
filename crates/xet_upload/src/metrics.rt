//! Counts of an upload.
ghost use Rattle.std.specs.Prelude.{◌≡◌};
ghost use Rattle.xet_upload.specs.Metrics.{both, no_counts};

/// What was uploaded and what was found. All counts but those of chunks are in bytes; each stops at `u64::MAX`.
///
/// In the Rust crates: `deduplication::DeduplicationMetrics`.
#[derive(Clone, Copy, PartialEq, Eq)]
pub struct DeduplicationMetrics {
    /// The bytes of all chunks.
    pub total_bytes: u64,
    /// The bytes of the chunks that were found.
    pub deduped_bytes: u64,
    /// The bytes of the others.
    pub new_bytes: u64,
    /// How many chunks there were.
    pub total_chunks: u64,
    /// How many chunks were found.
    pub deduped_chunks: u64,
    /// How many were not.
    pub new_chunks: u64,
    /// The bytes of the xorbs that were put.
    pub xorb_bytes_uploaded: u64,
    /// The bytes that the put records count for.
    pub shard_bytes_uploaded: u64,
    /// The sum of both.
    pub total_bytes_uploaded: u64,
}

impl DeduplicationMetrics {
    /// No counts.
    pub fn new() -> DeduplicationMetrics
        ensures { result ≡ no_counts }
    {
        DeduplicationMetrics {
            total_bytes: 0,
            deduped_bytes: 0,
            new_bytes: 0,
            total_chunks: 0,
            deduped_chunks: 0,
            new_chunks: 0,
            xorb_bytes_uploaded: 0,
            shard_bytes_uploaded: 0,
            total_bytes_uploaded: 0,
        }
    }

    /// Adds each count of the other to its own; a sum stops at `u64::MAX`.
    ///
    /// In the Rust crates: `deduplication::DeduplicationMetrics::merge_in`.
    pub fn merge_in(&mut self, other: &DeduplicationMetrics)
        ensures { self.new ≡ both self.old other.now }
    {
        self.total_bytes = self.total_bytes.saturating_add(other.total_bytes);
        self.deduped_bytes = self.deduped_bytes.saturating_add(other.deduped_bytes);
        self.new_bytes = self.new_bytes.saturating_add(other.new_bytes);
        self.total_chunks = self.total_chunks.saturating_add(other.total_chunks);
        self.deduped_chunks = self.deduped_chunks.saturating_add(other.deduped_chunks);
        self.new_chunks = self.new_chunks.saturating_add(other.new_chunks);
        self.xorb_bytes_uploaded = self
            .xorb_bytes_uploaded
            .saturating_add(other.xorb_bytes_uploaded);
        self.shard_bytes_uploaded = self
            .shard_bytes_uploaded
            .saturating_add(other.shard_bytes_uploaded);
        self.total_bytes_uploaded = self
            .total_bytes_uploaded
            .saturating_add(other.total_bytes_uploaded);
    }
}
