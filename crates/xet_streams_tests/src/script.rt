//! Scripts of connections and caches, read from texts. A word that says no number is 0, and what memory is refused for
//! is left out.
use crate::told::cut;
use bytes::Bytes;
use std::alloc::Global;
use xet_base::{ChunkRange, HttpRange, List, MerkleHash, OutOfMemory, SharedText};
use xet_outside::{
    BlockBytes, FetchEntry, FetchRange, Offsets, Plan, PlanAnswer, PlanTerm, PlanXorb,
};

/// The hash each byte of which is this number.
pub(crate) fn hash(number: u8) -> MerkleHash {
    MerkleHash([number; 32])
}

/// The number of a word.
pub(crate) fn number(word: &str) -> u64 {
    word.parse::<u64>().unwrap_or(0)
}

/// The numbers of a text.
pub(crate) fn numbers(alloc: Global, text: &str) -> Vec<u32> {
    let mut made = Vec::new(alloc);
    for word in text.split_whitespace() {
        let _ = made.push(u32::try_from(number(word)).unwrap_or(u32::MAX));
    }
    made
}

/// Terms by four numbers each: the xorb, the length and the chunks.
fn plan_terms(alloc: Global, numbers: &[u32]) -> List<PlanTerm> {
    let mut made = List::new(alloc);
    for term in numbers.chunks(4) {
        if let [xorb, length, start, end] = term {
            let _ = made.push(PlanTerm {
                xorb: hash((*xorb % 256) as u8),
                unpacked_length: *length,
                range: ChunkRange::new(*start, *end),
            });
        }
    }
    made
}

/// An entry's ranges by two numbers each, the chunks, which have ten bytes each.
fn fetch_ranges(alloc: Global, numbers: &[u32]) -> List<FetchRange> {
    let mut made = List::new(alloc);
    for range in numbers.chunks(2) {
        if let [start, end] = range {
            let _ = made.push(FetchRange {
                chunks: ChunkRange::new(*start, *end),
                bytes: HttpRange::new(10 * u64::from(*start), 10 * u64::from(*end)),
            });
        }
    }
    made
}

/// This text as a URL.
fn url(alloc: Global, text: &str) -> Result<SharedText, OutOfMemory> {
    SharedText::from_string(alloc, String::from_str(alloc, text)?)
}

/// Adds one entry: its URL, an equals sign and its ranges, or the ranges alone, which are its URL too.
fn add_entry(alloc: Global, made: &mut List<FetchEntry>, text: &str) {
    let (name, ranges) = text.split_once('=').unwrap_or((text, text));
    if let Ok(url) = url(alloc, name.trim()) {
        let ranges = fetch_ranges(alloc, numbers(alloc, ranges).as_slice());
        let _ = made.push(FetchEntry { url, ranges });
    }
}

/// Entries with commas between them.
fn fetch_entries(alloc: Global, text: &str) -> List<FetchEntry> {
    let mut made = List::new(alloc);
    for entry in text.split(',') {
        add_entry(alloc, &mut made, entry);
    }
    made
}

/// A xorb: its number, a colon, and its entries with commas between them.
fn plan_xorb(alloc: Global, text: &str) -> PlanXorb {
    let (xorb, entries) = cut(text, ":");
    PlanXorb {
        xorb: hash((number(xorb.trim()) % 256) as u8),
        fetch: fetch_entries(alloc, entries),
    }
}

/// Xorbs with semicolons between them, none where the text is empty.
fn plan_xorbs(alloc: Global, text: &str) -> List<PlanXorb> {
    let mut made = List::new(alloc);
    for xorb in text.split_terminator(';') {
        let _ = made.push(plan_xorb(alloc, xorb));
    }
    made
}

/// A plan by its offset, its terms and its xorbs, with semicolons between them.
fn plan(alloc: Global, text: &str) -> Plan {
    let (offset, rest) = cut(text, ";");
    let (terms, xorbs) = cut(rest, ";");
    Plan {
        offset_into_first_range: number(offset.trim()),
        terms: plan_terms(alloc, numbers(alloc, terms).as_slice()),
        xorbs: plan_xorbs(alloc, xorbs),
    }
}

/// What a connection answers to a query by this text.
pub(crate) fn answered(alloc: Global, text: &str) -> PlanAnswer {
    PlanAnswer::Found(plan(alloc, text))
}

/// A block of these offsets and bytes.
fn block_of(alloc: Global, offsets: &str, bytes: &str) -> Result<BlockBytes, OutOfMemory> {
    let bytes = Bytes::copy_from_slice(alloc, bytes.trim().as_bytes())?;
    match Offsets::from_vec(alloc, numbers(alloc, offsets)) {
        Ok(offsets) => Ok(BlockBytes { offsets, bytes }),
        Err(error) => Err(error),
    }
}

/// A block by its offsets and, after a bar, its bytes.
pub(crate) fn block(alloc: Global, text: &str) -> Option<BlockBytes> {
    match text.split_once('|') {
        Some((offsets, bytes)) => block_of(alloc, offsets, bytes).ok(),
        None => None,
    }
}
