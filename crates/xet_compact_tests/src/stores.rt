//! Stores that are compacted and written as documents, and what errors print.
use std::alloc::Global;
use xet_audit::{RawStore, raw_of_text};
use xet_base::{MerkleHash, OutOfMemory, Text};
use xet_compact::{CompactError, compact, document};

/// A file of the first chunks of two xorbs, which are the same.
const PAIR: &str = "{\"xorbs\":\
    {\"aaaaaaaaaaaaaaaaaaaaaaaaaaaaaaaaaaaaaaaaaaaaaaaaaaaaaaaaaaaaaaaa\":[\"61\",\"62\"],\
    \"bbbbbbbbbbbbbbbbbbbbbbbbbbbbbbbbbbbbbbbbbbbbbbbbbbbbbbbbbbbbbbbb\":[\"61\",\"63\"]},\"files\":\
    {\"1111111111111111111111111111111111111111111111111111111111111111\":\
    [[\"aaaaaaaaaaaaaaaaaaaaaaaaaaaaaaaaaaaaaaaaaaaaaaaaaaaaaaaaaaaaaaaa\",0,1],\
    [\"bbbbbbbbbbbbbbbbbbbbbbbbbbbbbbbbbbbbbbbbbbbbbbbbbbbbbbbbbbbbbbbb\",0,1]]}}";

/// The file over the one xorb that is left.
const MERGED: &str = "{\"files\":\
    {\"1111111111111111111111111111111111111111111111111111111111111111\":\
    [[\"1370fd6982299a6713e287d4a002419dab0a5eb14b3a04a05142f3071a968e95\",0,1],\
    [\"1370fd6982299a6713e287d4a002419dab0a5eb14b3a04a05142f3071a968e95\",0,1]]},\"xorbs\":\
    {\"1370fd6982299a6713e287d4a002419dab0a5eb14b3a04a05142f3071a968e95\":[\"61\"]}}";

/// Two clashes, the greater hash's first: two xorbs that lose a chunk get the hash of `a` and of a zero byte, under
/// which other xorbs stand.
const CLASHES: &str = "{\"xorbs\":\
    {\"1370fd6982299a6713e287d4a002419dab0a5eb14b3a04a05142f3071a968e95\":[\"00\"],\
    \"2222222222222222222222222222222222222222222222222222222222222222\":[\"48656c6c6f\",\"00\"],\
    \"76374a899e7b264402cc6e607df685c0f5cff2ff746d304d6dedb7e25afbd1b1\":[\"00\"],\
    \"8888888888888888888888888888888888888888888888888888888888888888\":[\"61\",\"62\"]},\"files\":\
    {\"1111111111111111111111111111111111111111111111111111111111111111\":\
    [[\"2222222222222222222222222222222222222222222222222222222222222222\",0,1],\
    [\"8888888888888888888888888888888888888888888888888888888888888888\",0,1],\
    [\"1370fd6982299a6713e287d4a002419dab0a5eb14b3a04a05142f3071a968e95\",0,1],\
    [\"76374a899e7b264402cc6e607df685c0f5cff2ff746d304d6dedb7e25afbd1b1\",0,1]]}}";

/// A term without chunks.
const EMPTY_TERM: &str = "{\"xorbs\":\
    {\"aaaaaaaaaaaaaaaaaaaaaaaaaaaaaaaaaaaaaaaaaaaaaaaaaaaaaaaaaaaaaaaa\":[\"61\"]},\"files\":\
    {\"1111111111111111111111111111111111111111111111111111111111111111\":\
    [[\"aaaaaaaaaaaaaaaaaaaaaaaaaaaaaaaaaaaaaaaaaaaaaaaaaaaaaaaaaaaaaaaa\",1,1]]}}";

/// One hash in two spellings, of which the one in capitals comes first.
const DOUBLED: &str = "{\"files\":{},\"xorbs\":\
    {\"AAAAAAAAAAAAAAAAAAAAAAAAAAAAAAAAAAAAAAAAAAAAAAAAAAAAAAAAAAAAAAAA\":[\"61\",\"\"],\
    \"aaaaaaaaaaaaaaaaaaaaaaaaaaaaaaaaaaaaaaaaaaaaaaaaaaaaaaaaaaaaaaaa\":[\"62\"]}}";

/// The first of the two xorbs.
const FIRST: &str = "{\"files\":{},\"xorbs\":\
    {\"aaaaaaaaaaaaaaaaaaaaaaaaaaaaaaaaaaaaaaaaaaaaaaaaaaaaaaaaaaaaaaaa\":[\"61\",\"\"]}}";

/// The document of a store that is compacted.
fn compacted(alloc: Global, raw: &RawStore) -> Result<Text, CompactError> {
    let compacted = compact(alloc, raw)?;
    Ok(document(alloc, &compacted.store)?)
}

/// The document of the store that a text lists, after it is compacted.
fn compacted_text(alloc: Global, text: &str) -> Result<Text, CompactError> {
    let text = Vec::from_slice(alloc, text.as_bytes())?;
    match raw_of_text(alloc, text)? {
        Some(raw) => compacted(alloc, &raw),
        None => Err(CompactError::NotValid),
    }
}

/// Tells the error for which a store was not compacted, and its hash.
fn tell_error(alloc: Global, error: CompactError, told: &mut String) {
    let _ = write!(told, "{error}");
    if let CompactError::Clash(hash) = error
        && let Ok(digits) = hash.hex(alloc)
    {
        let digits = digits.as_str();
        let _ = write!(told, " {digits}");
    }
}

/// Tells the document of the store that a text lists, after it is compacted, or why there is none.
fn tell_compacted(alloc: Global, text: &str, told: &mut String) {
    match compacted_text(alloc, text) {
        Ok(text) => {
            let text = text.as_str();
            let _ = write!(told, "{text}");
        }
        Err(error) => tell_error(alloc, error, told),
    }
}

/// The document of the store that a text lists, as it was read.
fn document_of(alloc: Global, text: &str) -> Result<Option<Text>, OutOfMemory> {
    let text = Vec::from_slice(alloc, text.as_bytes())?;
    match raw_of_text(alloc, text)? {
        Some(raw) => Ok(Some(document(alloc, &raw)?)),
        None => Ok(None),
    }
}

#[test]
fn stores_are_compacted(rt: HostRuntime) {
    // of two hashes with a clash the lesser one is told
    let least = "Clash 1370fd6982299a6713e287d4a002419dab0a5eb14b3a04a05142f3071a968e95";
    for (text, wanted) in [
        (PAIR, MERGED),
        (MERGED, MERGED),
        (CLASHES, least),
        (EMPTY_TERM, "NotValid"),
    ] {
        let mut told = String::new(rt.alloc());
        tell_compacted(rt.alloc(), text, &mut told);
        assert!(rt; told.as_str() == wanted, "{text}: {told}");
    }
}

#[test]
fn a_document_has_the_first_of_two_with_one_hash(rt: HostRuntime) {
    let Ok(Some(text)) = document_of(rt.alloc(), DOUBLED) else {
        panic!(rt; "refused");
    };
    let told = text.as_str();
    assert!(rt; told == FIRST, "{told}");
}

#[test]
fn errors_print_their_names(rt: HostRuntime) {
    let clash = CompactError::Clash(MerkleHash([6; 32]));
    let mut told = String::new(rt.alloc());
    for error in &[CompactError::OutOfMemory, CompactError::NotValid, clash] {
        let _ = writeln!(told, "{error}");
    }
    assert!(rt; told.as_str() == "OutOfMemory\nNotValid\nClash\n", "{told}");
}
