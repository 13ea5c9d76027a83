//! A text, as serde writes and reads it: as a string.
ghost use Rattle.std.specs.Prelude.{IfOk, OnOk};
ghost use Rattle.serde.specs.Event.{Logs, text};
ghost use Rattle.serde.specs.Steps.{Gives};

use serde::{DeserializeOwned, Deserializer, Format, Serialize, Serializer};
use std::alloc::Global;
use xet_base::Text;

/// Writes the text as a string.
pub fn serialize<S: Serializer>(value: &Text, out: &mut S) -> Result<(), S::Error>
    ensures { OnOk result (Logs (S.written out.old) (S.written out.new) (text value.now)) }
{
    value.as_str().serialize(out)
}

/// Reads a string as a text.
pub fn deserialize<F: Format>(
    alloc: Global,
    from: &mut Deserializer<'_, '_, F>,
) -> Result<Text, F::Error>
    ensures { IfOk result (λ value. Gives F.gives from.old (text value) from.new) }
{
    let string = String::deserialize_owned(alloc, from)?;
    Ok(Text::from_string(string))
}
