//! The pointer record of a file that was cleaned.
ghost use Rattle.std.specs.Prelude.{◌≡◌, ℕ, List, IfOk, option_map};
ghost use Rattle.hex.specs.Hex.{encode_lower};
ghost use Rattle.sha2.specs.Hashers.{Holds256};
ghost use Rattle.xet_upload.specs.declared.sha256_policy.Sha256Policy.TheVariants.{Compute};
ghost use Rattle.xet_clean_parts.specs.Pointers.{pointer_to, recorded_sha256};

use sha2::{Digest, Sha256};
use std::alloc::Global;
use xet_base::{MerkleHash, OutOfMemory, Text};
use xet_pointer::XetFileInfo;
use xet_upload::Sha256Policy;

/// The SHA-256 that is recorded of a file whose bytes the hasher holds, where it is computed.
pub fn recorded_sha256(policy: Sha256Policy, hasher: Sha256) -> Option<MerkleHash>
    ensures { (bytes : List ℕ) → (policy ≡ Compute → Holds256 hasher bytes) → result ≡ recorded_sha256 policy bytes }
{
    match policy {
        Sha256Policy::Compute => Some(MerkleHash(hasher.finalize())),
        Sha256Policy::Provided(hash) => Some(hash),
        Sha256Policy::Skip => None,
    }
}

// The text of a hash, where there is one.
fn text_of(alloc: Global, hash: Option<MerkleHash>) -> Result<Option<Text>, OutOfMemory>
    ensures { IfOk result (λ text. text ≡ option_map (λ h. encode_lower h.0) hash) }
{
    match hash {
        None => Ok(None),
        Some(hash) => Ok(Some(hash.hex(alloc)?)),
    }
}

/// The pointer record of a file with this hash, of so many bytes. `OutOfMemory` where an allocation was refused.
pub fn pointer_to(
    alloc: Global,
    hash: &MerkleHash,
    size: u64,
    sha256: Option<MerkleHash>,
) -> Result<XetFileInfo, OutOfMemory>
    ensures { IfOk result (λ info. info ≡ pointer_to hash.now size sha256) }
{
    let text = hash.hex(alloc)?;
    let digest = text_of(alloc, sha256)?;
    Ok(XetFileInfo {
        hash: text,
        file_size: Some(size),
        sha256: digest,
    })
}
