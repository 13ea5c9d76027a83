//! Streams of a session.
ghost use Rattle.std.specs.Borrow.{Lends, sem};
ghost use Rattle.std.specs.Prelude.{◌≡◌, IfErr, IfOk, OnErr, OnOk};
ghost use Rattle.xet_stream_rules.specs.Streams.{new_stream};
ghost use Rattle.xet_stream_rules.specs.Unordered.{new_unordered};
ghost use Rattle.xet_download.specs.Bounds.{range_of};
ghost use Rattle.xet_download.specs.Streams.{StreamCall, forward_of, with_flag, without_flag};
ghost use Rattle.xet_download.specs.Telling.{told_by};
ghost use Rattle.xet_download.specs.contracts.session.Connections.{the_row as connections_row};
ghost use Rattle.xet_download.specs.contracts.session.FileDownloadSession.{the_row};
ghost use Rattle.xet_upload.specs.declared.data_error.DataError.TheVariants as data_error;

use crate::job::{end, start};
use crate::session::{Connections, FileDownloadSession};
use std::alloc::Global;
use std::ops::Bound;
use std::sync::Wait;
use xet_base::{FileRange, Invalid, OutOfMemory, UniqueID};
use xet_blocks::Steady;
use xet_download_rules::range_bounds_to_file_range;
use xet_outside::{ChunkCache, Client};
use xet_pointer::XetFileInfo;
use xet_streams::{DownloadStream, FlagSignal};
use xet_unordered_streams::UnorderedDownloadStream;
use xet_upload::DataError;

impl<C: Client + Drop, K: ChunkCache + Drop> FileDownloadSession<C, K> {
    /// A stream of a range of a file, or without one of the whole file, piece by piece in order, and the id of its
    /// item, whose name is `stream`. Nothing is asked before its first pull, to which `parts` lends connections and
    /// cache; they may be others. From now on, until its id is unregistered, the session's book counts it as a running
    /// download, and `abort_active_streams` ends it.
    ///
    /// It is refused, in this order, with `Finalized`, `ReversedRange`, `HashStringParsingFailure` and `IdsUsedUp`, as
    /// `download_to_writer`. `OutOfMemory` where an allocation was refused.
    ///
    /// In the Rust crate xet-data: `FileDownloadSession::download_stream`.
    pub fn download_stream<W: Wait>(
        &mut self,
        rt: &W,
        alloc: Global,
        file_info: &XetFileInfo,
        source_range: Option<FileRange>,
    ) -> Result<(UniqueID, DownloadStream<Steady>), DataError>
        ensures { StreamCall new_stream (told_by C.told K.told self.old) (told_by C.told K.told self.new)
            file_info.now (forward_of source_range) result }
    {
        self.ordered(rt, alloc, file_info, forward(source_range))
    }

    /// The same of the range that two bounds spell.
    ///
    /// In the Rust crate xet-data: `FileDownloadSession::download_stream_range`.
    pub fn download_stream_range<W: Wait>(
        &mut self,
        rt: &W,
        alloc: Global,
        file_info: &XetFileInfo,
        range: (Bound<u64>, Bound<u64>),
    ) -> Result<(UniqueID, DownloadStream<Steady>), DataError>
        ensures { StreamCall new_stream (told_by C.told K.told self.old) (told_by C.told K.told self.new)
            file_info.now (range_of range) result }
    {
        self.ordered(rt, alloc, file_info, range_bounds_to_file_range(range))
    }

    /// The same as `download_stream`, but that pieces come in any order, each with its place in the range. Its item has
    /// the name `unordered_stream`.
    ///
    /// In the Rust crate xet-data: `FileDownloadSession::download_unordered_stream`.
    pub fn download_unordered_stream<W: Wait>(
        &mut self,
        rt: &W,
        alloc: Global,
        file_info: &XetFileInfo,
        source_range: Option<FileRange>,
    ) -> Result<(UniqueID, UnorderedDownloadStream<Steady>), DataError>
        ensures { StreamCall new_unordered (told_by C.told K.told self.old) (told_by C.told K.told self.new)
            file_info.now (forward_of source_range) result }
    {
        let range = forward(source_range);
        let (id, job) = self.open(rt, alloc, file_info, range, "unordered_stream")?;
        let stream = job.unordered_stream(alloc)?;
        let flag = stream.abort_flag();
        self.registered(rt, id, flag, stream)
    }

    // An ordered stream of this range.
    fn ordered<W: Wait>(
        &mut self,
        rt: &W,
        alloc: Global,
        info: &XetFileInfo,
        range: Result<Option<FileRange>, DataError>,
    ) -> Result<(UniqueID, DownloadStream<Steady>), DataError>
        ensures { StreamCall new_stream (told_by C.told K.told self.old) (told_by C.told K.told self.new)
            info.now range result }
    {
        let (id, job) = self.open(rt, alloc, info, range, "stream")?;
        let stream = job.stream(alloc)?;
        let flag = stream.abort_flag();
        self.registered(rt, id, flag, stream)
    }

    // A stream with its id, under which its flag is registered.
    fn registered<W: Wait, T: Drop>(
        &mut self,
        rt: &W,
        id: UniqueID,
        flag: Result<FlagSignal, OutOfMemory>,
        stream: T,
    ) -> Result<(UniqueID, T), DataError>
        ensures ok { IfOk result (λ r. (r ≡ (id, stream))
            × (told_by C.told K.told self.new ≡ with_flag (told_by C.told K.told self.old) id)) }
        ensures memory { IfErr result (λ e. e ≡ data_error.OutOfMemory) }
        ensures err { OnErr result (told_by C.told K.told self.new ≡ told_by C.told K.told self.old) }
    {
        match self.register(rt, id, flag) {
            Ok(()) => Ok((id, stream)),
            Err(_) => Err(DataError::OutOfMemory),
        }
    }

    // Registers the flag of a stream, which counts as a running download from now on.
    fn register<W: Wait>(
        &mut self,
        rt: &W,
        id: UniqueID,
        flag: Result<FlagSignal, OutOfMemory>,
    ) -> Result<(), OutOfMemory>
        ensures ok { OnOk result
            (told_by C.told K.told self.new ≡ with_flag (told_by C.told K.told self.old) id) }
        ensures err { OnErr result (told_by C.told K.told self.new ≡ told_by C.told K.told self.old) }
    {
        self.streams.add(id, flag?)?;
        start(rt, &self.book);
        Ok(())
    }

    /// Forgets the abort flag of the stream with this id, which no longer counts as a running download in the session's
    /// book. Where there is none it does nothing.
    ///
    /// In the Rust crate xet-data: `FileDownloadSession::unregister_stream_abort_callback`.
    pub fn unregister_stream_abort_callback<W: Wait>(&mut self, rt: &W, id: UniqueID)
        ensures { told_by C.told K.told self.new ≡ without_flag (told_by C.told K.told self.old) id }
    {
        if self.streams.remove(id) {
            end(rt, &self.book);
        }
    }

    /// Raises the abort flag of each stream that was not unregistered: once a pull saw that, it and all later ones
    /// answer none. What a flag holds is known to no proof, so no clause says so. It takes no memory.
    ///
    /// In the Rust crate xet-data: `FileDownloadSession::abort_active_streams`.
    pub fn abort_active_streams(&self) {
        self.streams.raise();
    }

    /// The session's connections and its cache, for the pulls of its streams.
    ///
    /// It has no source in the Rust crate, whose streams hold their client.
    pub fn parts(&mut self) -> &mut Connections<C, K>
        ensures value { result.now ≡ self.old.connections }
        ensures* lends { sem 𝓛 (Lends (the_row C.row K.row) (connections_row C.row K.row) self.entry result
            (λ w. record self.old { connections = w })) }
    {
        &mut self.connections
    }
}

// A range that isn't reversed.
fn forward(range: Option<FileRange>) -> Result<Option<FileRange>, DataError>
    ensures { result ≡ forward_of range }
{
    match range {
        Some(range) if range.start > range.end => {
            Err(DataError::InvalidOperation(Invalid::ReversedRange {
                start: range.start,
                end: range.end,
            }))
        }
        _ => Ok(range),
    }
}
