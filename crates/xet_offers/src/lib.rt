//! What a plan's entries offer, the blocks that are fetched of it, and the tests of both.
#![tactic(auto)]

pub mod reconstruction_terms;

pub use reconstruction_terms::chunk_offsets::ChunkOffsets;
pub use reconstruction_terms::listed_offers::Offer;
pub use reconstruction_terms::plan_checks::{check_entries, check_places, check_xorbs};
pub use reconstruction_terms::plan_offers::PlanOffers;
pub use reconstruction_terms::retrieval_urls::{RetrievalUrl, TermBlockRetrievalURLs};
pub use reconstruction_terms::xorb_block::{XorbBlock, XorbBlockData, XorbReference};
