//! Laws of the calls.
//!
//! Each is a function whose `ensures` is the law. It does nothing but what the law speaks of, and nothing calls it.
ghost use Rattle.std.specs.Prelude.{◌≡◌, ◌≢◌, ◌↔◌, Err, IfOk, IsTrue, None, Some, codes};
ghost use Rattle.xet_pointer.specs.Pointers.{pointer_of, pointer_text};
ghost use Rattle.xet_pointer.specs.Worked.{a_alone, of_a};

use crate::pointer_error::PointerError;
use crate::xet_file_info::XetFileInfo;
use std::alloc::Global;

/// The text of a pointer record is read as that record, and is never refused.
pub fn pointer_is_read_back(alloc: Global, info: &XetFileInfo) -> Result<XetFileInfo, PointerError>
    ensures same { IfOk result (λ back. back ≡ info.now) }
    ensures never_refused { result ≢ Err PointerError.NotPointer }
{
    let text = info.as_pointer_file(alloc)?;
    XetFileInfo::from_pointer_file(alloc, text.as_str())
}

/// Records are equal exactly where all their fields are.
pub fn info_equality(one: &XetFileInfo, other: &XetFileInfo) -> bool
    ensures { IsTrue result ↔ (one.now ≡ other.now) }
{
    one == other
}

/// The texts of some records: all fields, no SHA-256, no size, the hash alone.
pub fn worked_texts()
    ensures whole { pointer_text (of_a (Some 13) (Some (codes "b")))
        ≡ codes "{\"hash\":\"a\",\"file_size\":13,\"sha256\":\"b\"}" }
    ensures no_sha256 { pointer_text (of_a (Some 0) None) ≡ codes "{\"hash\":\"a\",\"file_size\":0}" }
    ensures no_size { pointer_text (of_a None (Some (codes "b"))) ≡ codes "{\"hash\":\"a\",\"sha256\":\"b\"}" }
    ensures alone { pointer_text a_alone ≡ codes "{\"hash\":\"a\"}" }
{}

/// The records of some texts: blanks and nulls, of equal keys the last, a float under another key, and no record of a
/// float, a negative size, a size of 2^64, a hash that is a number or null, and no object.
pub fn worked_records()
    ensures nulls { pointer_of (codes "{ \"sha256\" : null, \"file_size\":null, \"hash\" : \"a\" }") ≡ Some a_alone }
    ensures last { pointer_of (codes "{\"hash\":5,\"hash\":\"a\"}") ≡ Some a_alone }
    ensures other_key { pointer_of (codes "{\"other\":1.5,\"hash\":\"a\"}") ≡ Some a_alone }
    ensures float { pointer_of (codes "{\"hash\":\"a\",\"file_size\":1.0}") ≡ None }
    ensures negative { pointer_of (codes "{\"hash\":\"a\",\"file_size\":-1}") ≡ None }
    ensures large { pointer_of (codes "{\"hash\":\"a\",\"file_size\":18446744073709551616}") ≡ None }
    ensures number { pointer_of (codes "{\"hash\":5}") ≡ None }
    ensures null_hash { pointer_of (codes "{\"hash\":null}") ≡ None }
    ensures no_object { pointer_of (codes "[\"a\"]") ≡ None }
{}
