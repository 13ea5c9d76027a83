//! What is printed of bytes.
ghost use Rattle.std.specs.Prelude.{◌≡◌, IfOk, string_bytes, sum};
ghost use Rattle.xet_bench.specs.Bench.{summary_of};

use sha2::{Digest, Sha256};
use std::alloc::Global;
use xet_base::OutOfMemory;

// The sum of bytes.
fn total(bytes: &[u8]) -> u128
    ensures { result ≡ sum bytes.now }
{
    bytes.iter().map(|byte| u128::from(*byte)).sum()
}

/// How many terms there are, how many bytes, their sum, and their SHA-256 as lower-case digits: a name and a value in
/// each of four lines.
///
/// `OutOfMemory` where an allocation was refused.
pub fn summary(alloc: Global, terms: u32, bytes: &[u8]) -> Result<String, OutOfMemory>
    ensures { IfOk result (λ text. string_bytes text ≡ summary_of terms bytes.now) }
{
    let count = bytes.len();
    let sum = total(bytes);
    let digest = hex::encode(alloc, Sha256::digest(bytes).as_slice())?;
    Ok(format!(in alloc; "terms {terms}\nbytes {count}\nsum {sum}\nsha256 {digest}\n")?)
}
