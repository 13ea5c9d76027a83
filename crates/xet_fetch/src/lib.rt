//! What stands around a fetch: providers of URLs, cached blocks, and the data of a block by cache, tries and refreshes.
#![tactic(auto)]

pub mod block_fetch;
pub mod cached_block;
pub mod fetch_settings;
pub mod laws;
pub mod transfer_report;
pub mod url_provider;

pub use block_fetch::retrieve_data;
pub use cached_block::{check_cached, entry, look_up, offer, offer_data};
pub use fetch_settings::FetchSettings;
pub use transfer_report::report_transfer;
pub use url_provider::{URLProvider, XorbURLProvider};
pub use xet_requests::{Fetched, refresh_retrieval_urls};
