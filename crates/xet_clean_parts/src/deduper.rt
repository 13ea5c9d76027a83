//! What a chunk of a file becomes in a session: a place in a known xorb, or one more chunk that waits.
ghost use Rattle.std.specs.Prelude.{◌≡◌, ◌++◌, ◌∷◌, ◌<◌, ◌≤◌, ℕ, [], IfErr, List, OnOk, length};
ghost use Rattle.xet_base.specs.Digests.{info_of};
ghost use Rattle.xet_upload.specs.Waitings.{IsWithin, no_waiting};
ghost use Rattle.xet_upload_session.specs.Telling.{KeepsGroup, told_by};
ghost use Rattle.xet_clean_parts.specs.Cleanings.{ChunkFails, Cleans, FoundChunk, Leaves, TrackFails};
ghost use Rattle.xet_clean_parts.specs.FileCalls.{IsLate, IsPartOf, TellsOf};
ghost use Rattle.xet_clean_parts.specs.Made.{PutsSo};
ghost use Rattle.xet_clean_parts.specs.SessionCalls.{Calls};
ghost use Rattle.xet_waiting.specs.Limits.{most_chunk_bytes};

use bytes::Bytes;
use std::alloc::Global;
use std::sync::Wait;
use xet_base::{ChunkInfo, FileDataSequenceEntry, MerkleHash};
use xet_progress::FileXorbDependency;
use xet_shards::ShardStore;
use xet_upload::{DataError, FileParts};
use xet_upload_session::FileUploadSession;
use xet_uploader::Uploader;

// The chunks of a file that wait become a xorb, since the next doesn't fit beside them. The session has it then, unless
// none wait. The tracker is told that the file has them in it.
fn cut_own<U: Uploader, R: ShardStore, W: Wait>(
    session: &mut FileUploadSession<U, R>,
    rt: &W,
    alloc: Global,
    file_id: u64,
    parts: &mut FileParts,
    now: u64,
) -> Result<(), DataError>
    ensures leaves { Leaves (told_by session.old) (told_by session.new) }
    ensures cleans { OnOk result (Cleans (told_by session.old) (told_by session.new) parts.old parts.new []) }
    ensures emptied { OnOk result (parts.new.own ≡ no_waiting) }
    ensures puts { (next : List ℕ) → (IsWithin (parts.old.own.chunks ++ next ∷ []) → ⊥)
        → PutsSo (told_by session.old) (told_by session.new) parts.old.own.chunks (next ∷ []) (next ∷ []) result }
    ensures why { IfErr result (ChunkFails (told_by session.old) (told_by session.new)) }
    ensures tells { TellsOf (IsPartOf file_id) (IsLate session.old.finalized) session.old.files.tracker
        session.new.files.tracker result }
    ensures calls { Calls now (told_by session.old) (told_by session.new) }
    ensures group { KeepsGroup session.old session.new }
{
    let count = parts.num_chunks();
    if count == 0 {
        return Ok(());
    }
    let raw = parts.cut(alloc)?;
    let dependencies = [FileXorbDependency {
        file_id,
        xorb_hash: raw.hash(),
        n_bytes: raw.num_bytes(),
        is_external: false,
    }];
    session.register_new_xorb(rt, alloc, raw, dependencies.as_slice(), now)?;
    Ok(())
}

// Room for one more chunk that waits, after a cut where the chunks that wait are full.
fn make_room<U: Uploader, R: ShardStore, W: Wait>(
    session: &mut FileUploadSession<U, R>,
    rt: &W,
    alloc: Global,
    file_id: u64,
    parts: &mut FileParts,
    chunk: &[u8],
    now: u64,
) -> Result<(), DataError>
    requires { length chunk.now ≤ most_chunk_bytes }
    ensures leaves { Leaves (told_by session.old) (told_by session.new) }
    ensures cleans { OnOk result (Cleans (told_by session.old) (told_by session.new) parts.old parts.new []) }
    ensures room { OnOk result (IsWithin (parts.new.own.chunks ++ chunk.now ∷ [])) }
    ensures puts { PutsSo (told_by session.old) (told_by session.new) parts.old.own.chunks
        (chunk.now ∷ []) (parts.new.own.chunks ++ chunk.now ∷ []) result }
    ensures why { IfErr result (ChunkFails (told_by session.old) (told_by session.new)) }
    ensures tells { TellsOf (IsPartOf file_id) (IsLate session.old.finalized) session.old.files.tracker
        session.new.files.tracker result }
    ensures calls { Calls now (told_by session.old) (told_by session.new) }
    ensures group { KeepsGroup session.old session.new }
{
    if parts.has_room(chunk) {
        return Ok(());
    }
    cut_own(session, rt, alloc, file_id, parts, now)
}

// Adds a chunk to those of a file that wait, after a cut where they are full.
fn add_new<U: Uploader, R: ShardStore, W: Wait>(
    session: &mut FileUploadSession<U, R>,
    rt: &W,
    alloc: Global,
    file_id: u64,
    parts: &mut FileParts,
    chunk: Bytes,
    info: ChunkInfo,
    now: u64,
) -> Result<(), DataError>
    requires info { info ≡ info_of chunk }
    requires some { 0 < length chunk }
    requires short { length chunk ≤ most_chunk_bytes }
    ensures leaves { Leaves (told_by session.old) (told_by session.new) }
    ensures cleans { OnOk result
        (Cleans (told_by session.old) (told_by session.new) parts.old parts.new (chunk ∷ [])) }
    ensures puts { PutsSo (told_by session.old) (told_by session.new) parts.old.own.chunks
        (chunk ∷ []) parts.new.own.chunks result }
    ensures why { IfErr result (ChunkFails (told_by session.old) (told_by session.new)) }
    ensures tells { TellsOf (IsPartOf file_id) (IsLate session.old.finalized) session.old.files.tracker
        session.new.files.tracker result }
    ensures calls { Calls now (told_by session.old) (told_by session.new) }
    ensures group { KeepsGroup session.old session.new }
{
    make_room(session, rt, alloc, file_id, parts, chunk.as_slice(), now)?;
    Ok(parts.add_own(chunk, info)?)
}

/// The hash and the length of a chunk, which has at most as many bytes as a chunk may.
///
/// In the Rust crates: `deduplication::Chunk::new`.
pub fn chunk_info(chunk: &[u8]) -> ChunkInfo
    requires { length chunk.now ≤ most_chunk_bytes }
    ensures { result ≡ info_of chunk.now }
{
    ChunkInfo {
        hash: MerkleHash::chunk_hash(chunk),
        length: chunk.len() as u32,
    }
}

// Tells the tracker that a file has so many bytes in a known xorb. `is_external` where the session did not add its
// record.
fn tell_found<U: Uploader, R: ShardStore, W: Wait>(
    session: &mut FileUploadSession<U, R>,
    rt: &W,
    alloc: Global,
    file_id: u64,
    xorb_hash: MerkleHash,
    length: u32,
    is_external: bool,
) -> Result<(), DataError>
    ensures same { told_by session.new ≡ told_by session.old }
    ensures why { IfErr result TrackFails }
    ensures tells { TellsOf (IsPartOf file_id) (IsLate session.old.finalized) session.old.files.tracker
        session.new.files.tracker result }
    ensures group { KeepsGroup session.old session.new }
{
    let dependencies = [FileXorbDependency {
        file_id,
        xorb_hash,
        n_bytes: u64::from(length),
        is_external,
    }];
    session.register_xorb_dependencies(rt, alloc, dependencies.as_slice())
}

// A place where a known xorb has this chunk of a file. The xorb is on the session's list then, and the tracker is told
// of it.
fn find_chunk<U: Uploader, R: ShardStore, W: Wait>(
    session: &mut FileUploadSession<U, R>,
    rt: &W,
    alloc: Global,
    file_id: u64,
    info: ChunkInfo,
) -> Result<Option<FileDataSequenceEntry>, DataError>
    ensures leaves { Leaves (told_by session.old) (told_by session.new) }
    ensures found { FoundChunk (told_by session.old) (told_by session.new) info.hash result }
    ensures why { IfErr result (ChunkFails (told_by session.old) (told_by session.new)) }
    ensures tells { TellsOf (IsPartOf file_id) (IsLate session.old.finalized) session.old.files.tracker
        session.new.files.tracker result }
    ensures calls { (now : ℕ) → Calls now (told_by session.old) (told_by session.new) }
    ensures group { KeepsGroup session.old session.new }
{
    let hashes = [info.hash];
    match session.chunk_hash_dedup_query(alloc, hashes.as_slice())? {
        None => Ok(None),
        Some(found) => {
            let xorb = found.1.xorb;
            tell_found(session, rt, alloc, file_id, xorb, info.length, found.2)?;
            Ok(Some(found.1))
        }
    }
}

/// Adds a chunk to the parts of a file: by its place in a known xorb, or to the chunks that wait, which become a xorb
/// before where they are full. It tells whether the chunk was found. `info` is the chunk's, `now` a moment in seconds.
///
/// After an error nothing is known of the parts. The errors are those of the session's search and of its put, and
/// refusals of its tracker.
///
/// In the Rust crates: `deduplication::FileDeduper::process_chunks`.
pub fn add_chunk<U: Uploader, R: ShardStore, W: Wait>(
    session: &mut FileUploadSession<U, R>,
    rt: &W,
    alloc: Global,
    file_id: u64,
    parts: &mut FileParts,
    chunk: Bytes,
    info: ChunkInfo,
    now: u64,
) -> Result<bool, DataError>
    requires some { 0 < length chunk }
    requires short { length chunk ≤ most_chunk_bytes }
    requires hashed { info ≡ info_of chunk }
    ensures leaves { Leaves (told_by session.old) (told_by session.new) }
    ensures cleans { OnOk result
        (Cleans (told_by session.old) (told_by session.new) parts.old parts.new (chunk ∷ [])) }
    ensures puts { PutsSo (told_by session.old) (told_by session.new) parts.old.own.chunks
        (chunk ∷ []) parts.new.own.chunks result }
    ensures why { IfErr result (ChunkFails (told_by session.old) (told_by session.new)) }
    ensures tells { TellsOf (IsPartOf file_id) (IsLate session.old.finalized) session.old.files.tracker
        session.new.files.tracker result }
    ensures calls { Calls now (told_by session.old) (told_by session.new) }
    ensures group { KeepsGroup session.old session.new }
{
    match find_chunk(session, rt, alloc, file_id, info)? {
        Some(entry) => {
            parts.add_found(entry.xorb, entry.from, entry.to, info)?;
            Ok(true)
        }
        None => {
            add_new(session, rt, alloc, file_id, parts, chunk, info, now)?;
            Ok(false)
        }
    }
}
