//! Xorbs whose chunks stand joined.
ghost use Rattle.std.specs.Prelude.{◌≡◌, ◌==◌, length};
ghost use Rattle.std.specs.List.{concat, list_any};
ghost use Rattle.xet_store.specs.Parts.{AreEnds, parts};

use bytes::Bytes;
use std::marker::Model;
use xet_base::MerkleHash;

/// A xorb whose chunks stand joined in one buffer, as they were read. A store may refuse it. Contracts see it as the
/// xorb.
#[derive(Drop)]
pub struct JoinedXorb {
    hash: MerkleHash,
    // the joined chunks
    bytes: Bytes,
    // the place of each chunk's end in the joined chunks
    ends: Vec<usize>,
}

impl Model for JoinedXorb {
    ghost use Rattle.xet_base.specs.declared.mdb_shard.Xorb.{Xorb as XorbValue};

    ghost Value = { XorbValue };

    ghost use Rattle.std.specs.Prelude.{length};
    ghost use Rattle.xet_store.specs.Parts.{AreEnds, parts};

    ghost view = { λ s. record { hash = s.hash; chunks = parts s.bytes 0 s.ends.items } };

    ghost invariant = { λ s. AreEnds 0 s.ends.items (length s.bytes) };
}

impl JoinedXorb {
    /// The xorb with this hash, whose chunks stand in these bytes, the first from 0 on, each from the end of the one
    /// before it to before its own end. The ends are in order, and the last one is the number of the bytes. It takes no
    /// memory.
    pub fn new(hash: MerkleHash, bytes: Bytes, ends: Vec<usize>) -> JoinedXorb
        requires { AreEnds 0 ends.items (length bytes) }
        ensures { result ≡ record { hash = hash; chunks = parts bytes 0 ends.items } }
    {
        JoinedXorb { hash, bytes, ends }
    }

    /// The hash.
    pub(crate) fn hash(&self) -> MerkleHash
        ensures { result ≡ self.now.hash }
    {
        self.hash
    }

    /// Whether some chunk has no bytes.
    pub(crate) fn has_empty(&self) -> bool
        ensures { result ≡ list_any (λ c. length c == 0) self.now.chunks }
    {
        has_empty_part(&self.bytes, self.ends.as_slice())
    }

    /// How many chunks it has.
    pub(crate) fn chunk_count(&self) -> usize
        ensures { result ≡ length self.now.chunks }
    {
        self.ends.len()
    }

    /// How many bytes the chunks have.
    pub(crate) fn byte_count(&self) -> usize
        ensures { result ≡ length (concat self.now.chunks) }
    {
        self.bytes.len()
    }

    /// The hash, the joined chunks, and the place of each chunk's end.
    pub(crate) fn into_parts(self) -> (MerkleHash, Bytes, Vec<usize>)
        ensures ends { AreEnds 0 result.2.items (length result.1) }
        ensures xorb { self ≡ record { hash = result.0; chunks = parts result.1 0 result.2.items } }
    {
        let JoinedXorb { hash, bytes, ends } = self;
        (hash, bytes, ends)
    }
}

// Whether a part of some bytes is empty, given where each ends.
fn has_empty_part(bytes: &Bytes, ends: &[usize]) -> bool
    requires { AreEnds 0 ends.now (length bytes.now) }
    ensures { result ≡ list_any (λ c. length c == 0) (parts bytes.now 0 ends.now) }
{
    let mut start = 0;
    for end in ends {
        if *end == start {
            return true;
        }
        start = *end;
    }
    false
}
