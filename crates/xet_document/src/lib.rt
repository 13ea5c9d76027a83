//! Stores as JSON documents list them.
//!
//! The Rust crates have no such documents: the program `xet_tool` reads its stores from them.
#![tactic(auto)]

mod hex_digits;
mod ignored;
mod joined_chunks;
mod listing;
mod plain_files;
mod plain_store;
mod plain_xorbs;
mod text_key;
mod text_store;
mod unread;
mod value_store;

pub use hex_digits::{decode_digits, hash_of};
pub use listing::{Listing, listing_of_text};
pub use plain_files::ListedFile;
pub use text_store::{store_of_text, value_of};
pub use unread::Unread;
pub use value_store::{holds_float, store_of, terms_of};
