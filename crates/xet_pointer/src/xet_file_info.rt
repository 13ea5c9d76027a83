//! What a pointer file says of a file.
ghost use Rattle.std.specs.Prelude.{◌≡◌, ◌↔◌, Err, IfOk, IsOk, None, Some, length, option_map, string_bytes};
ghost use Rattle.std.specs.List.{AllPass};
ghost use Rattle.std.specs.Result.{result_ok};
ghost use Rattle.hex.specs.Hex.{is_hex_digit};
ghost use Rattle.xet_base.specs.HashText.{hash_of_text};
ghost use Rattle.xet_pointer.specs.Pointers.{pointer_of, pointer_text};

use crate::pointer_error::PointerError;
use crate::read_fields::{hash_in, refusal, sha256_in, size_in};
use crate::written_fields::{push_quoted, push_sha256, push_size};
use serde::{Deserialize, Serialize};
use serde_json::Value;
use std::alloc::Global;
use xet_base::{DataHashHexParseError, MerkleHash, OutOfMemory, Text};

/// What a pointer file says of a file: the text of its hash, and, where they are known, how many bytes it has and the
/// text of its SHA-256. The texts are as they were given: `merkle_hash` is the test of the first.
///
/// serde writes it as an object with the keys `hash`, `file_size` and `sha256`, and leaves out what is not known.
///
/// In the Rust crate xet-data: `processing::XetFileInfo`.
#[derive(PartialEq, Eq, Debug, Drop, Serialize, Deserialize)]
pub struct XetFileInfo {
    /// The text of the file's hash.
    #[serde(with = "crate::text_field")]
    pub hash: Text,
    /// The number of the file's bytes.
    #[serde(default, skip_serializing_if = "Option::is_none")]
    pub file_size: Option<u64>,
    /// The text of the SHA-256 of the file's bytes.
    #[serde(default, skip_serializing_if = "Option::is_none", with = "crate::optional_text_field")]
    pub sha256: Option<Text>,
}

impl XetFileInfo {
    /// A file with this hash and size.
    pub fn new(hash: String, file_size: u64) -> XetFileInfo
        ensures { result ≡ record { hash = string_bytes hash; file_size = Some file_size; sha256 = None } }
    {
        XetFileInfo {
            hash: Text::from_string(hash),
            file_size: Some(file_size),
            sha256: None,
        }
    }

    /// A file with this hash, size and SHA-256.
    pub fn new_with_sha256(hash: String, file_size: u64, sha256: String) -> XetFileInfo
        ensures { result ≡ record {
          hash = string_bytes hash;
          file_size = Some file_size;
          sha256 = Some (string_bytes sha256);
        } }
    {
        XetFileInfo {
            hash: Text::from_string(hash),
            file_size: Some(file_size),
            sha256: Some(Text::from_string(sha256)),
        }
    }

    /// A file with this hash, of which nothing else is known.
    pub fn new_hash_only(hash: String) -> XetFileInfo
        ensures { result ≡ record { hash = string_bytes hash; file_size = None; sha256 = None } }
    {
        XetFileInfo {
            hash: Text::from_string(hash),
            file_size: None,
            sha256: None,
        }
    }

    /// The text of the file's hash.
    pub fn hash(&self) -> &str
        ensures { result.now ≡ self.now.hash }
    {
        self.hash.as_str()
    }

    /// How many bytes the file has, where it is known.
    pub fn file_size(&self) -> Option<u64>
        ensures { result ≡ self.now.file_size }
    {
        self.file_size
    }

    /// The text of the SHA-256 of the file's bytes, where it is known.
    pub fn sha256(&self) -> Option<&str>
        ensures { option_map (λ text. text.now) result ≡ self.now.sha256 }
    {
        match &self.sha256 {
            Some(sha256) => Some(sha256.as_str()),
            None => None,
        }
    }

    /// The file's hash.
    ///
    /// `DataHashHexParseError` exactly where its text is not 64 hexadecimal digits.
    pub fn merkle_hash(&self) -> Result<MerkleHash, DataHashHexParseError>
        ensures value { result_ok result ≡ hash_of_text self.now.hash }
        ensures accepted { IsOk result ↔ ((length self.now.hash ≡ 64) × AllPass is_hex_digit self.now.hash) }
    {
        MerkleHash::from_hex(self.hash.as_str())
    }

    /// An equal record, with memory of its own.
    ///
    /// `OutOfMemory` where that memory was refused.
    pub fn clone(&self) -> Result<XetFileInfo, OutOfMemory>
        ensures { IfOk result (λ copy. copy ≡ self.now) }
    {
        let hash = self.hash.clone()?;
        let sha256 = match &self.sha256 {
            Some(sha256) => Some(sha256.clone()?),
            None => None,
        };
        Ok(XetFileInfo {
            hash,
            file_size: self.file_size,
            sha256,
        })
    }

    /// The text of a pointer file: `{"hash":"..","file_size":n,"sha256":".."}` with no space, the fields in this order
    /// and those that are not known left out. `from_pointer_file` reads it as this record.
    ///
    /// `OutOfMemory` where memory was refused.
    pub fn as_pointer_file(&self, alloc: Global) -> Result<Text, OutOfMemory>
        ensures text { IfOk result (λ text. text ≡ pointer_text self.now) }
        ensures reads_back { IfOk result (λ text. pointer_of text ≡ Some self.now) }
    {
        let mut text = String::from_str(alloc, "{\"hash\":")?;
        push_quoted(alloc, &mut text, &self.hash)?;
        push_size(alloc, &mut text, self.file_size)?;
        push_sha256(alloc, &mut text, &self.sha256)?;
        text.push_str("}")?;
        Ok(Text::from_string(text))
    }

    /// The record of a pointer file's text.
    ///
    /// `NotPointer` exactly where the text is not a JSON object with a text as `hash`, a `file_size` that is absent,
    /// null or a whole number below 2^64, and a `sha256` that is absent, null or a text. Other keys are passed over,
    /// and of equal keys the last one counts. `OutOfMemory` where memory was refused.
    ///
    /// The Rust crate has no such call: there serde alone reads pointers.
    pub fn from_pointer_file(alloc: Global, text: &str) -> Result<XetFileInfo, PointerError>
        ensures record_of_text { IfOk result (λ info. pointer_of text.now ≡ Some info) }
        ensures not_pointer { result ≡ Err PointerError.NotPointer → pointer_of text.now ≡ None }
    {
        let value = match Value::from_str(alloc, text) {
            Ok(value) => value,
            Err(error) => return Err(refusal(&error)),
        };
        let hash = hash_in(alloc, &value)?;
        let file_size = size_in(&value)?;
        let sha256 = sha256_in(alloc, &value)?;
        Ok(XetFileInfo {
            hash,
            file_size,
            sha256,
        })
    }
}
