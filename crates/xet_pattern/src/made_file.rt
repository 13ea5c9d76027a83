//! The made file: its bytes, and what is printed of it.
ghost use Rattle.std.specs.Prelude.{◌≡◌, IfOk, string_bytes};
ghost use Rattle.xet_pattern.specs.Patterns.{counted_lines, pattern};

use std::alloc::Global;
use xet_base::{OutOfMemory, Text};

/// So many bytes, of which byte p is p mod 251.
///
/// `OutOfMemory` where an allocation was refused.
///
/// It has no source in the Rust crates.
#[tactic(auto, using(crate::proofs::Patterns::pattern_more))]
pub fn pattern(alloc: Global, size: u32) -> Result<Vec<u8>, OutOfMemory>
    ensures { IfOk result (λ bytes. bytes.items ≡ pattern size) }
{
    let mut bytes = Vec::with_capacity(alloc, size as usize)?;
    for place in 0..size {
        bytes.push((place % 251) as u8)?;
    }
    Ok(bytes)
}

/// The line of a pointer record, and one of `ok` and so many bytes, each with its end.
///
/// `OutOfMemory` where an allocation was refused.
///
/// It has no source in the Rust crates.
pub fn counted_lines(alloc: Global, pointer: &Text, size: u32) -> Result<String, OutOfMemory>
    ensures { IfOk result (λ text. string_bytes text ≡ counted_lines pointer.now size) }
{
    let pointer = pointer.as_str();
    Ok(format!(in alloc; "{pointer}\nok {size}\n")?)
}
