//! The fields of a pointer record in a JSON value.
ghost use Rattle.std.specs.Prelude.{◌≡◌, ◌⊎◌, Err, IfOk, None, Some};
ghost use Rattle.std.specs.Result.{result_ok};
ghost use Rattle.serde_json.specs.Errors.{IsMemory};
ghost use Rattle.serde_json.specs.View.{view};
ghost use Rattle.xet_pointer.specs.Pointers.{hash_of, sha256_of, size_of};

use crate::pointer_error::PointerError;
use serde_json::{Error, Value};
use std::alloc::Global;
use xet_base::Text;

// Why a text was not read as JSON.
pub(crate) fn refusal(error: &Error) -> PointerError
    ensures { (result ≡ PointerError.OutOfMemory)
        ⊎ ((result ≡ PointerError.NotPointer) × ¬ IsMemory error.now) }
{
    if error.is_memory() {
        PointerError::OutOfMemory
    } else {
        PointerError::NotPointer
    }
}

// The text at `hash`.
pub(crate) fn hash_in(alloc: Global, value: &Value) -> Result<Text, PointerError>
    ensures found { IfOk result (λ hash. hash_of (view value.now) ≡ Some hash) }
    ensures not_pointer { result ≡ Err PointerError.NotPointer → hash_of (view value.now) ≡ None }
{
    match value.get("hash").and_then(Value::as_str) {
        Some(hash) => Ok(Text::from_string(String::from_str(alloc, hash)?)),
        None => Err(PointerError::NotPointer),
    }
}

// The size at `file_size`, which may be absent or null.
pub(crate) fn size_in(value: &Value) -> Result<Option<u64>, PointerError>
    ensures { result_ok result ≡ size_of (view value.now) }
{
    match value.get("file_size") {
        None | Some(Value::Null) => Ok(None),
        Some(size) => match size.as_u64() {
            Some(size) => Ok(Some(size)),
            None => Err(PointerError::NotPointer),
        },
    }
}

// The text at `sha256`, which may be absent or null.
pub(crate) fn sha256_in(alloc: Global, value: &Value) -> Result<Option<Text>, PointerError>
    ensures found { IfOk result (λ sha256. sha256_of (view value.now) ≡ Some sha256) }
    ensures not_pointer { result ≡ Err PointerError.NotPointer → sha256_of (view value.now) ≡ None }
{
    match value.get("sha256") {
        None | Some(Value::Null) => Ok(None),
        Some(sha256) => match sha256.as_str() {
            Some(sha256) => Ok(Some(Text::from_string(String::from_str(alloc, sha256)?))),
            None => Err(PointerError::NotPointer),
        },
    }
}
