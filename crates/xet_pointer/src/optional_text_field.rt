//! A text or none, as serde writes and reads it: as a string or nothing.
ghost use Rattle.std.specs.Prelude.{IfOk, MatchOption, OnOk};
ghost use Rattle.serde.specs.Event.{Logs, nothing, text};
ghost use Rattle.serde.specs.Steps.{Begins, Gives};

use crate::text_field;
use serde::{Deserializer, Format, Serializer};
use std::alloc::Global;
use xet_base::Text;

/// Writes the text as a string, and none as nothing.
pub fn serialize<S: Serializer>(value: &Option<Text>, out: &mut S) -> Result<(), S::Error>
    ensures { OnOk result (MatchOption value.now (Logs (S.written out.old) (S.written out.new) nothing)
        (λ some. Logs (S.written out.old) (S.written out.new) (text some))) }
{
    match value {
        Some(value) => text_field::serialize(value, out),
        None => out.unit(),
    }
}

/// Reads a string as a text, and nothing as none.
pub fn deserialize<F: Format>(
    alloc: Global,
    from: &mut Deserializer<'_, '_, F>,
) -> Result<Option<Text>, F::Error>
    ensures { IfOk result (λ value. MatchOption value (Gives F.gives from.old nothing from.new)
        (λ some. Begins F.gives F.stays from.old (text some) from.new)) }
{
    if from.take_none()? {
        return Ok(None);
    }
    Ok(Some(text_field::deserialize(alloc, from)?))
}
