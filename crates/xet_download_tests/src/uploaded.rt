//! A file that is uploaded, and comes back by its pointer record.
use crate::rows::session;
use std::alloc::Global;
use std::ops::Bound::Unbounded;
use std::sync::Wait;
use std::thread::Threads;
use xet_sinks::{VecSink, VecSource};
use xet_upload_laws::{Sent, send};

/// Downloads what was sent by its pointer record.
fn download<R: Threads + Wait + Sync>(rt: &R, alloc: Global, sent: &Sent, writer: &mut VecSink) {
    if let Ok(mut session) = session(alloc, &sent.store, 1) {
        let all = (Unbounded, Unbounded);
        let _ = session.download_to_writer(rt, alloc, &sent.info, all, writer);
    }
}

/// Uploads bytes in chunks of five into a new store, and downloads them.
fn upload<R: Threads + Wait + Sync>(rt: &R, alloc: Global, bytes: Vec<u8>, writer: &mut VecSink) {
    let size = bytes.len() as u64;
    if let Ok(sent) = send(rt, alloc, VecSource::new(bytes), size, 5) {
        download(rt, alloc, &sent, writer);
    }
}

#[test]
fn an_uploaded_file_comes_back_by_its_pointer(rt: HostRuntime) {
    let alloc = rt.alloc();
    let mut writer = VecSink::new(alloc);
    if let Ok(bytes) = Vec::from_slice(alloc, b"Hello, world!") {
        upload(&rt, alloc, bytes, &mut writer);
    }
    assert!(rt;
        writer.taken() == b"Hello, world!" as &[u8],
        "it doesn't come back"
    );
}
