//! Files that are uploaded from their sources, one after another.
ghost use Rattle.std.specs.Prelude.{◌≡◌, ◌+◌, ◌++◌, ◌∷◌, ◌<◌, [], None, OnOk, Some, length, map};
ghost use Rattle.xet_progress_state.specs.Counts.{sizes};
ghost use Rattle.xet_upload_session.specs.Sessions.{HasListed};
ghost use Rattle.xet_upload_session.specs.Telling.{KeepsGroup, told_by};
ghost use Rattle.xet_clean_parts.specs.FileCalls.{IsLate, IsUploadCall, IsXorbCall, TellsOf};
ghost use Rattle.xet_clean_parts.specs.SessionCalls.{Calls, CallsOf, UploadsOnce};
ghost use Rattle.xet_clean.specs.Showing.{cleaner_of};
ghost use Rattle.xet_upload_files.specs.UploadTelling.{file_told};
ghost use Rattle.xet_upload_files.specs.Uploads.{IsFileError, IsUploadError, UploadsFiles, fixed_sizes};
ghost use Rattle.xet_upload_files.specs.steps.Uploading.{Pours, UploadsAlone};

use std::alloc::Global;
use std::sync::Wait;
use xet_base::{Invalid, List, Text};
use xet_clean::{SingleFileCleaner, start_clean};
use xet_outside::Source;
use xet_pointer::XetFileInfo;
use xet_shards::ShardStore;
use xet_upload::{Cutter, DataError, Sha256Policy};
use xet_upload_session::FileUploadSession;
use xet_uploader::Uploader;

/// A file to upload.
///
/// In place of the path that the Rust crate xet-data opens.
#[derive(Drop)]
pub struct UploadFile<I, T> {
    /// The name by which its progress is reported.
    pub name: Text,
    /// Where its bytes come from.
    pub source: I,
    /// How many of these bytes the file has.
    pub length: u64,
    /// Which SHA-256 is recorded of it.
    pub sha256: Sha256Policy,
    /// Says where its chunks end.
    pub cutter: T,
}

// Feeds so many bytes of a source to a new cleaner, a buffer full at most at a time.
fn pour<I: Source, T: Cutter, U: Uploader, R: ShardStore, W: Wait>(
    session: &mut FileUploadSession<U, R>,
    rt: &W,
    alloc: Global,
    source: &mut I,
    total: u64,
    cleaner: &mut SingleFileCleaner<T>,
    buffer: &mut [u8],
    now: u64,
) -> Result<(), DataError>
    requires size { cleaner.old.size ≡ Some total }
    requires fed { cleaner.old.fed ≡ 0 }
    requires unfailed { cleaner.old.failed ≡ None }
    requires room { 0 < length buffer.old }
    ensures call { Pours (told_by session.old) (told_by session.new) (I.told source.old) (I.told source.new)
        (cleaner_of T.told cleaner.old) (cleaner_of T.told cleaner.new) total result }
    ensures tells { TellsOf IsXorbCall (IsLate session.old.finalized) session.old.files.tracker
        session.new.files.tracker result }
    ensures calls { Calls now (told_by session.old) (told_by session.new) }
    ensures group { KeepsGroup session.old session.new }
{
    let mut left = total;
    'pieces: while left > 0 {
        let room = left.min(buffer.len() as u64) as usize;
        let count = source.read(&mut buffer[..room])?;
        if count == 0 {
            return Err(DataError::SourceEnded {
                expected: total,
                actual: total - left,
            });
        }
        cleaner.add_data(session, rt, alloc, &buffer[..count], now)?;
        left -= count as u64;
    }
    Ok(())
}

// Uploads one file.
fn upload_file<I: Source, T: Cutter, U: Uploader, R: ShardStore, W: Wait>(
    session: &mut FileUploadSession<U, R>,
    rt: &W,
    alloc: Global,
    file: &mut UploadFile<I, T>,
    now: u64,
) -> Result<XetFileInfo, DataError>
    ensures call { UploadsAlone now (told_by session.old) (told_by session.new) (file_told I.told T.told file.old)
        (I.told file.new.source) result }
    ensures same { file_told I.told T.told file.new ≡ record (file_told I.told T.told file.old) {
      source = I.told file.new.source;
      tell = T.told file.new.cutter;
    } }
    ensures tells { HasListed (told_by session.old)
        → TellsOf IsUploadCall (IsFileError (told_by session.old) (told_by session.new) session.old.ids)
        session.old.files.tracker session.new.files.tracker result }
    ensures calls { CallsOf (UploadsOnce now) (told_by session.old) (told_by session.new) }
    ensures group { session.new.progress ≡ session.old.progress }
    ensures ids { OnOk result (session.new.ids ≡ session.old.ids + 1) }
    ensures begun { OnOk result (sizes session.new.files.tracker
        ≡ sizes session.old.files.tracker ++ Some file.old.length ∷ []) }
{
    let name = Some(file.name.as_str());
    let length = file.length;
    let cutter = &mut file.cutter;
    let (_id, mut cleaner) = start_clean(
        session,
        rt,
        alloc,
        name,
        Some(length),
        file.sha256,
        cutter,
    )?;
    let mut buffer = [0u8; 65_536];
    pour(
        session,
        rt,
        alloc,
        &mut file.source,
        length,
        &mut cleaner,
        &mut buffer,
        now,
    )?;
    let (info, _counts) = cleaner.finish(session, rt, alloc, now)?;
    Ok(info)
}

/// Uploads files, one after another, in their order: of each source as many bytes are read as its file has. It answers
/// their pointer records, in the same order. `now` is a moment in seconds.
///
/// `Finalized` exactly where the session is finalized; then nothing is read. `SourceEnded` exactly where a source ended
/// before the length of its file, with that length and how many bytes came. `IOError` only where a source or a store of
/// records failed, `ClientError` where a put failed and is kept. Each other `InvalidOperation` is `IdsUsedUp`, where no
/// id is left for a file, `UnknownXorb`, only where a failed put is kept, or a refusal of the session's tracker. After
/// an error the files before that one are uploaded, and those behind it are as they were.
///
/// In the Rust crate xet-data: `FileUploadSession::upload_files`, which opens paths and uploads several at once.
pub fn upload_files<I: Source, T: Cutter, U: Uploader, R: ShardStore, W: Wait>(
    session: &mut FileUploadSession<U, R>,
    rt: &W,
    alloc: Global,
    files: &mut [UploadFile<I, T>],
    now: u64,
) -> Result<List<XetFileInfo>, DataError>
    ensures call { UploadsFiles now (told_by session.old) (told_by session.new)
        (map (file_told I.told T.told) files.old) (map (file_told I.told T.told) files.new) result }
    ensures tells { TellsOf IsUploadCall
        (IsUploadError (told_by session.old) (told_by session.new) session.old.ids (length files.old))
        session.old.files.tracker session.new.files.tracker result }
    ensures calls { CallsOf (UploadsOnce now) (told_by session.old) (told_by session.new) }
    ensures group { session.new.progress ≡ session.old.progress }
    ensures ids { OnOk result (session.new.ids ≡ session.old.ids + length files.old) }
    ensures begun { OnOk result (sizes session.new.files.tracker
        ≡ sizes session.old.files.tracker ++ fixed_sizes (map (file_told I.told T.told) files.old)) }
{
    if session.is_finalized() {
        return Err(DataError::InvalidOperation(Invalid::Finalized));
    }
    let Ok(mut infos) = Vec::with_capacity(alloc, files.len()) else {
        return Err(DataError::OutOfMemory);
    };
    for file in files.iter_mut() {
        infos.push_reserved(upload_file(session, rt, alloc, file, now)?);
    }
    Ok(List::from_vec(infos))
}
