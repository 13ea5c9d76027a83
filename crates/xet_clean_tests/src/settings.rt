//! What a session is made with: words of a row, as `cut=4 put=1 dry`.
//!
//! | word | what it says |
//! |---|---|
//! | `cut` | above how many bytes what waits is cut |
//! | `shard` | how many bytes the records of one shard count for at most |
//! | `stage` | how many records of xorbs go to staging together |
//! | `first` | the id of the first item |
//! | `put` | which put fails, counted from 0 |
//! | `call` | which call of the session's own records fails, counted from 0 |
//! | `staged`, `cached`, `resumed` | which call of the staging store, the cache or the resumed records fails |
//! | `dry` | it is a dry run |
//! | `asks` | the uploader may be asked for records |
//! | `old` | there are resumed records, which have the xorb of `Hello` |
//! | `known` | the cache has the record of this xorb |
//!
//! Where a word is missing nothing fails, and nothing is cut before the session's end.
use std::alloc::Global;
use xet_base::OutOfMemory;
use xet_pointer::{SessionContext, TranslatorConfig};

/// A number, or none where the text is none.
pub fn number(text: &str) -> Option<u64> {
    text.parse::<u64>().ok()
}

/// The name of a word, and what it has, `1` where it stands alone.
fn said(word: &str) -> (&str, &str) {
    word.split_once('=').unwrap_or((word, "1"))
}

/// The number that a word of this name has, 1 where it stands alone, or none where there is no such word.
pub fn setting(words: &str, name: &str) -> Option<u64> {
    for word in words.split(' ') {
        let (key, value) = said(word);
        if key == name {
            return number(value);
        }
    }
    None
}

/// Whether there is a word of this name.
pub fn has(words: &str, name: &str) -> bool {
    setting(words, name).is_some()
}

/// The settings as the session gets them.
pub fn config(alloc: Global, words: &str) -> Result<TranslatorConfig, OutOfMemory> {
    let cut = setting(words, "cut").unwrap_or(67_108_864);
    let shard = setting(words, "shard").unwrap_or(1_048_576);
    let stage = setting(words, "stage").unwrap_or(1000);
    let asks = has(words, "asks");
    let session = SessionContext::for_memory(alloc)?;
    Ok(TranslatorConfig {
        session,
        force_disable_progress_aggregation: false,
        xorb_cut_threshold_bytes: cut,
        xorb_cut_threshold_chunks: 8192,
        ingestion_block_size: 1000,
        global_dedup_query_enabled: asks,
        session_xorb_metadata_flush_interval: 60,
        session_xorb_metadata_flush_max_count: stage,
        shard_max_target_size: shard,
    })
}
