//! The hashes of some known values, which another program's SHA-256 worked out.
use std::process::Abort;
use xet_base::{ChunkInfo, MerkleHash};

/// Asserts that these digits are those of a hash.
fn is_hash(rt: &impl Abort, hash: MerkleHash, digits: &str) {
    assert!(rt; MerkleHash::from_hex(digits) == Ok(hash), "{digits}");
}

const OF_NOTHING: &str = "6e340b9cffb37a989ca544e6bb780a2c78901d3fb33738768511a30617afa01d";

const OF_HELLO: &str = "90b626dbb1e994c962942db2b3b16d97c63f679912a176bb96f4e308c213005b";

const OF_A_XORB: &str = "11dd83f296f7df109ab0f47554edc565353823d86aa577c04fde3f5f5c9e33db";

const OF_A_FILE: &str = "dad570048368b961aafd5bb493977645affb816b94dcaec12394b55dab1b3afb";

#[test]
fn hashes_are_those_of_sha_256(rt: HostRuntime) {
    let chunks = [
        ChunkInfo {
            hash: MerkleHash([7; 32]),
            length: 5,
        },
        ChunkInfo {
            hash: MerkleHash([9; 32]),
            length: 0x01020304,
        },
    ];
    is_hash(&rt, MerkleHash::chunk_hash(b""), OF_NOTHING);
    is_hash(&rt, MerkleHash::chunk_hash(b"Hello"), OF_HELLO);
    is_hash(&rt, MerkleHash::xorb_hash(&chunks), OF_A_XORB);
    is_hash(&rt, MerkleHash::file_hash(&chunks), OF_A_FILE);
}
