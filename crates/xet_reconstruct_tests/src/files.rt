//! What a file holds after a run into it.
use crate::played::tell_answer;
use crate::told::comes_to;
use std::alloc::Global;
use std::sync::Wait;
use std::thread::Threads;
use xet_base::FileRange;
use xet_blocks::Steady;
use xet_connections::MemClient;
use xet_error::Result;
use xet_outside::{NeverCancel, NoCache};
use xet_reconstruct::FileReconstructor;
use xet_sinks::MemFile;
use xet_store::MemStore;
use xet_store::worked::{FILE_OF_ALL, worked_store};

/// What a run of the bytes 3 to 9 into this file answers.
fn written<R: Threads + Wait + Sync>(
    rt: &R,
    alloc: Global,
    store: &MemStore,
    file: &mut MemFile,
    write_offset: Option<u64>,
    truncate_file: bool,
) -> Result<u64> {
    FileReconstructor::new(FILE_OF_ALL, Steady { size: 0 })
        .with_byte_range(FileRange::new(3, 9))
        .reconstruct_to_file(
            rt,
            alloc,
            &mut [MemClient::new(alloc, store)],
            &mut NoCache,
            &mut NeverCancel,
            file,
            write_offset,
            truncate_file,
        )
}

/// What such a run into a file that held `zzzz` answers, and what the file holds then.
fn held<R: Threads + Wait + Sync>(
    rt: &R,
    alloc: Global,
    write_offset: Option<u64>,
    truncate_file: bool,
) -> String {
    let mut text = String::new(alloc);
    let store = worked_store(alloc).unwrap_or(MemStore::new(alloc));
    let content = b"zzzz".to_vec(alloc).unwrap_or(Vec::new(alloc));
    let mut file = MemFile::new(alloc, content);
    let answer = written(rt, alloc, &store, &mut file, write_offset, truncate_file);
    tell_answer(&mut text, answer, file.content());
    text
}

#[test]
fn bytes_stand_at_their_place(rt: HostRuntime) {
    for (write_offset, truncate_file, content) in [
        (None, false, "6 'zzzlo, wo'"),
        (Some(0), true, "6 'lo, wo'"),
        (Some(6), false, "6 'zzzz\0\0lo, wo'"),
    ] {
        let told = held(&rt, rt.alloc(), write_offset, truncate_file);
        comes_to(&rt, "bytes 3 to 9", told, content);
    }
}
