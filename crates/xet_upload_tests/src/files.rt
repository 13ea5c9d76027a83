//! Bytes at a place of a file of std.
use std::fs::{self, File};
use std::io;
use xet_outside::{PlaceSink, Sink, SinkError};
use xet_sinks::FileSink;

/// Writes at a place.
fn write_at(file: &mut FileSink, place: u64, bytes: &[u8]) -> Result<(), SinkError> {
    file.seek(place)?;
    file.write(bytes)?;
    Ok(())
}

/// Writes at three places.
fn write_at_places(file: &mut FileSink) -> Result<(), SinkError> {
    file.write(b"zzzz")?;
    write_at(file, 3, b"lo")?;
    write_at(file, 7, b"!")?;
    file.flush()
}

/// Writes to an emptied file.
fn write_anew(file: &mut FileSink) -> Result<(), SinkError> {
    file.empty()?;
    file.write(b"wo")?;
    file.flush()
}

/// Whether a file of std holds these bytes.
fn holds(rt: &HostRuntime, path: &str, bytes: &[u8]) -> bool {
    match fs::read(rt, path) {
        Ok(held) => held.as_slice() == bytes,
        Err(_) => false,
    }
}

#[test]
fn a_file_takes_bytes_at_its_place(rt: HostRuntime) -> io::Result<()> {
    let path = "file_sink_test.bytes";
    let mut sink = FileSink::new(File::create(&rt, path)?);
    assert!(rt; write_at_places(&mut sink) == Ok(()));
    assert!(rt; holds(&rt, path, b"zzzlo\0\0!"));
    assert!(rt; write_anew(&mut sink) == Ok(()));
    assert!(rt; holds(&rt, path, b"wo"));
    fs::remove_file(&rt, path)
}
