//! The fields of a pointer file's text.
ghost use Rattle.std.specs.Prelude.{◌≡◌, ◌++◌, ◌<◌, ◌^◌, IfSome, OnOk, string_bytes};
ghost use Rattle.serde_json.specs.Data.{string};
ghost use Rattle.serde_json.specs.Written.{compact_text};
ghost use Rattle.xet_pointer.specs.steps.WrittenFields.{sha256_text, size_text};

use serde_json::Value;
use std::alloc::Global;
use xet_base::{OutOfMemory, Text};

// Adds a text as JSON writes it.
pub(crate) fn push_quoted(alloc: Global, text: &mut String, added: &Text) -> Result<(), OutOfMemory>
    ensures { OnOk result (string_bytes text.new ≡ string_bytes text.old ++ compact_text (string added.now)) }
{
    let written = Value::try_from_str(alloc, added.as_str())?.to_string(alloc)?;
    text.push_str(written.as_str())?;
    Ok(())
}

// Adds the field of a size, where there is one.
pub(crate) fn push_size(
    alloc: Global,
    text: &mut String,
    size: Option<u64>,
) -> Result<(), OutOfMemory>
    ensures added { OnOk result (string_bytes text.new ≡ string_bytes text.old ++ size_text size) }
    ensures small { IfSome size (λ n. n < 2 ^ 64) }
{
    if let Some(size) = size {
        let written = Value::from(size).to_string(alloc)?;
        text.push_str(",\"file_size\":")?;
        text.push_str(written.as_str())?;
    }
    Ok(())
}

// Adds the field of a SHA-256, where there is one.
pub(crate) fn push_sha256(
    alloc: Global,
    text: &mut String,
    sha256: &Option<Text>,
) -> Result<(), OutOfMemory>
    ensures { OnOk result (string_bytes text.new ≡ string_bytes text.old ++ sha256_text sha256.now) }
{
    if let Some(sha256) = sha256 {
        text.push_str(",\"sha256\":")?;
        push_quoted(alloc, text, sha256)?;
    }
    Ok(())
}
