//! The URLs of a plan's blocks.
ghost use Rattle.std.specs.Prelude.{◌≡◌, ◌≤◌, Some, MatchOption, slice_get, length};

use xet_base::{FileRange, HttpRange, List, MerkleHash, SharedText, ShortList, UniqueId};

/// Where a block is fetched.
///
/// In the Rust crate: the pair of a URL and its byte ranges in
/// `file_reconstruction::reconstruction_terms::retrieval_urls::TermBlockRetrievalURLs`.
#[derive(Drop)]
pub struct RetrievalUrl {
    /// The URL of the plan's entry that offers the block.
    pub url: SharedText,
    /// The half-open byte ranges that it serves, one for each chunk range of the block: places in the xorb's joined
    /// chunks.
    pub ranges: ShortList<HttpRange>,
}

/// The URL of each block of a plan, in the order of the blocks, and the acquisition that they came with.
///
/// In the Rust crate: `file_reconstruction::reconstruction_terms::retrieval_urls::TermBlockRetrievalURLs`.
#[derive(Drop)]
pub struct TermBlockRetrievalURLs {
    /// The file of the plan.
    pub file_hash: MerkleHash,
    /// The bytes of the file that the plan covers, half open.
    pub byte_range: FileRange,
    /// The plan and the refresh that gave the URLs.
    pub(crate) acquisition_id: UniqueId,
    /// The URL of each block.
    pub(crate) retrieval_urls: List<RetrievalUrl>,
}

impl TermBlockRetrievalURLs {
    /// The table of these URLs, one for each block of the plan in their order. It takes no memory.
    ///
    /// In the Rust crate: `file_reconstruction::reconstruction_terms::retrieval_urls::TermBlockRetrievalURLs::new`.
    pub fn new(
        file_hash: MerkleHash,
        byte_range: FileRange,
        acquisition_id: UniqueId,
        retrieval_urls: List<RetrievalUrl>,
    ) -> TermBlockRetrievalURLs
        ensures { result ≡ record {
          file_hash = file_hash;
          byte_range = byte_range;
          acquisition_id = acquisition_id;
          retrieval_urls = retrieval_urls;
        } }
    {
        TermBlockRetrievalURLs {
            file_hash,
            byte_range,
            acquisition_id,
            retrieval_urls,
        }
    }

    /// The plan and the refresh that gave the URLs.
    pub fn acquisition_id(&self) -> UniqueId
        ensures { result ≡ self.now.acquisition_id }
    {
        self.acquisition_id
    }

    /// The URLs alone.
    pub fn into_retrieval_urls(self) -> List<RetrievalUrl>
        ensures { result ≡ self.retrieval_urls }
    {
        self.retrieval_urls
    }

    /// The URL of a block by its number, from 0, and the acquisition that it came with; none exactly where the number
    /// is out of range.
    ///
    /// In the Rust crate:
    /// `file_reconstruction::reconstruction_terms::retrieval_urls::TermBlockRetrievalURLs::get_retrieval_url`, which
    /// panics out of range.
    pub fn get_retrieval_url(&self, xorb_block_index: usize) -> Option<(UniqueId, &RetrievalUrl)>
        ensures { MatchOption result (length self.now.retrieval_urls ≤ xorb_block_index)
            (λ found. (found.0 ≡ self.now.acquisition_id)
            × (slice_get self.now.retrieval_urls xorb_block_index ≡ Some found.1.now)) }
    {
        match self.retrieval_urls.as_slice().get(xorb_block_index) {
            Some(url) => Some((self.acquisition_id, url)),
            None => None,
        }
    }
}
