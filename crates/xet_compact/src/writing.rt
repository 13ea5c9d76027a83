//! Documents of stores in order, written token by token.
ghost use Rattle.std.specs.Prelude.{◌≡◌, ◌<◌, ◌∷◌, [], All, IfOk, OnOk, Some, codes, map, string_bytes};
ghost use Rattle.std.specs.List.{flat_map};
ghost use Rattle.hex.specs.Hex.{encode_lower};
ghost use Rattle.json.specs.Token.{begin_object, key, string};
ghost use Rattle.serde_json.specs.Read.{read};
ghost use Rattle.xet_store.specs.Refusals.{stored_term};
ghost use Rattle.xet_audit.specs.Raws.{file_of_raw, store_of_raw};
ghost use Rattle.xet_compact.specs.Documents.{IsHash, IsInOrder, IsListable, IsListableFile, IsListableTerm};
ghost use Rattle.xet_compact.specs.Documents.{IsListableXorb, document_data, document_text};
ghost use Rattle.xet_compact.specs.steps.Writes.{Adds, chunk_tokens, file_tokens, store_tokens, term_tokens};
ghost use Rattle.xet_compact.specs.steps.Writes.{within_tokens, xorb_tokens};

use crate::documents::digits_of;
use bytes::Bytes;
use json::Writer;
use std::alloc::Global;
use xet_audit::{RawFile, RawStore, RawXorb};
use xet_base::{FileDataSequenceEntry, MerkleHash, OutOfMemory};

/// The document of a store in order. It takes memory for the text alone.
pub(crate) fn text_in_order(alloc: Global, raw: &RawStore) -> Result<String, OutOfMemory>
    requires { IsInOrder (store_of_raw raw.now) }
    ensures text { IfOk result (λ text. string_bytes text ≡ document_text (store_of_raw raw.now)) }
    ensures reads { IfOk result (λ text. read (string_bytes text) ≡ Some (document_data (store_of_raw raw.now))) }
    ensures told { OnOk result (IsListable (store_of_raw raw.now)) }
{
    let mut out = Writer::new(Vec::new(alloc));
    write_store(alloc, raw, &mut out)?;
    Ok(String::from_utf8(out.into_inner()).unwrap())
}

// Writes a store.
fn write_store(alloc: Global, raw: &RawStore, out: &mut Writer) -> Result<(), OutOfMemory>
    ensures written { OnOk result (Adds out.old out.new (store_tokens (store_of_raw raw.now))) }
    ensures told { OnOk result (IsListable (store_of_raw raw.now)) }
{
    out.begin_object()?;
    write_all_files(alloc, raw.files.as_slice(), out)?;
    write_all_xorbs(alloc, raw.xorbs.as_slice(), out)?;
    out.end_object()?;
    Ok(())
}

// Begins an object of this name.
fn begin(name: &str, out: &mut Writer) -> Result<(), OutOfMemory>
    ensures { OnOk result (Adds out.old out.new (key name.now ∷ begin_object ∷ [])) }
{
    out.key(name)?;
    out.begin_object()?;
    Ok(())
}

// Writes the object of the files.
fn write_all_files(alloc: Global, files: &[RawFile], out: &mut Writer) -> Result<(), OutOfMemory>
    ensures written { OnOk result (Adds out.old out.new
        (within_tokens (codes "files") (flat_map file_tokens (map file_of_raw files.now)))) }
    ensures told { OnOk result (All IsListableFile (map file_of_raw files.now)) }
{
    begin("files", out)?;
    write_files(alloc, files, out)?;
    out.end_object()?;
    Ok(())
}

// Writes the object of the xorbs.
fn write_all_xorbs(alloc: Global, xorbs: &[RawXorb], out: &mut Writer) -> Result<(), OutOfMemory>
    ensures written { OnOk result (Adds out.old out.new
        (within_tokens (codes "xorbs") (flat_map xorb_tokens xorbs.now))) }
    ensures told { OnOk result (All IsListableXorb xorbs.now) }
{
    begin("xorbs", out)?;
    write_xorbs(alloc, xorbs, out)?;
    out.end_object()?;
    Ok(())
}

// Writes files.
fn write_files(alloc: Global, files: &[RawFile], out: &mut Writer) -> Result<(), OutOfMemory>
    ensures written { OnOk result (Adds out.old out.new (flat_map file_tokens (map file_of_raw files.now))) }
    ensures told { OnOk result (All IsListableFile (map file_of_raw files.now)) }
{
    for file in files {
        write_file(alloc, file, out)?;
    }
    Ok(())
}

// Writes a file: its hash and its terms.
fn write_file(alloc: Global, file: &RawFile, out: &mut Writer) -> Result<(), OutOfMemory>
    ensures written { OnOk result (Adds out.old out.new (file_tokens (file_of_raw file.now))) }
    ensures told { OnOk result (IsListableFile (file_of_raw file.now)) }
{
    write_key(alloc, file.hash, out)?;
    out.begin_array()?;
    write_terms(alloc, file.terms.as_slice(), out)?;
    out.end_array()?;
    Ok(())
}

// Writes terms.
fn write_terms(
    alloc: Global,
    terms: &[FileDataSequenceEntry],
    out: &mut Writer,
) -> Result<(), OutOfMemory>
    ensures written { OnOk result (Adds out.old out.new (flat_map term_tokens (map stored_term terms.now))) }
    ensures told { OnOk result (All (λ t. IsListableTerm (stored_term t)) terms.now) }
{
    for term in terms {
        write_term(alloc, *term, out)?;
    }
    Ok(())
}

// Writes a term: the hash of its xorb, and the numbers of its first chunk and of the one after its last.
fn write_term(
    alloc: Global,
    term: FileDataSequenceEntry,
    out: &mut Writer,
) -> Result<(), OutOfMemory>
    ensures written { OnOk result (Adds out.old out.new (term_tokens (stored_term term))) }
    ensures told { OnOk result (IsListableTerm (stored_term term)) }
{
    out.begin_array()?;
    write_bytes(alloc, term.xorb.0.as_slice(), out)?;
    out.u64(u64::from(term.from))?;
    out.u64(u64::from(term.to))?;
    out.end_array()?;
    Ok(())
}

// Writes xorbs.
fn write_xorbs(alloc: Global, xorbs: &[RawXorb], out: &mut Writer) -> Result<(), OutOfMemory>
    ensures written { OnOk result (Adds out.old out.new (flat_map xorb_tokens xorbs.now)) }
    ensures told { OnOk result (All IsListableXorb xorbs.now) }
{
    for xorb in xorbs {
        write_xorb(alloc, xorb, out)?;
    }
    Ok(())
}

// Writes a xorb: its hash and its chunks.
fn write_xorb(alloc: Global, xorb: &RawXorb, out: &mut Writer) -> Result<(), OutOfMemory>
    ensures written { OnOk result (Adds out.old out.new (xorb_tokens xorb.now)) }
    ensures told { OnOk result (IsListableXorb xorb.now) }
{
    write_key(alloc, xorb.hash, out)?;
    out.begin_array()?;
    write_chunks(alloc, xorb.chunks.as_slice(), out)?;
    out.end_array()?;
    Ok(())
}

// Writes the chunks of a xorb.
fn write_chunks(alloc: Global, chunks: &[Bytes], out: &mut Writer) -> Result<(), OutOfMemory>
    ensures written { OnOk result (Adds out.old out.new (flat_map chunk_tokens chunks.now)) }
    ensures told { OnOk result (All (λ c. All (λ b. b < 256) c) chunks.now) }
{
    for chunk in chunks {
        write_bytes(alloc, chunk.as_slice(), out)?;
    }
    Ok(())
}

// Writes a hash as the name of what follows.
fn write_key(alloc: Global, hash: MerkleHash, out: &mut Writer) -> Result<(), OutOfMemory>
    ensures written { OnOk result (Adds out.old out.new (key (encode_lower hash.0) ∷ [])) }
    ensures told { IsHash hash }
{
    let digits = digits_of(alloc, hash.0.as_slice())?;
    out.key(digits.as_str())?;
    Ok(())
}

// Writes bytes in digits.
fn write_bytes(alloc: Global, bytes: &[u8], out: &mut Writer) -> Result<(), OutOfMemory>
    ensures written { OnOk result (Adds out.old out.new (string (encode_lower bytes.now) ∷ [])) }
    ensures told { All (λ b. b < 256) bytes.now }
{
    let digits = digits_of(alloc, bytes)?;
    out.string(digits.as_str())?;
    Ok(())
}
