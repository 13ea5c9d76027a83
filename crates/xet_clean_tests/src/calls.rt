//! The calls of a session.
use crate::answers::{decided, done, refuse, say, say_each};
use crate::sessions::Session;
use crate::settings::number;
use crate::xorbs::{part, raw};
use std::alloc::Global;
use std::sync::Wait;
use xet_base::{List, MDBFileInfo, UniqueID};
use xet_progress::{GroupProgress, GroupProgressReport};
use xet_upload::{DataError, DeduplicationMetrics};

/// `begin 10`, `begin -`: a file of a fixed size, or of one that grows. It writes the item's id and the file's number.
fn begin<W: Wait>(rt: &W, alloc: Global, session: &mut Session, out: &mut String, size: &str) {
    match session.start_file(rt, alloc, "file", number(size)) {
        Ok((id, file_id)) => say_each(out, &[id.0, file_id]),
        Err(error) => refuse(out, error),
    }
}

/// `hold 1`: an item of this id in the session's group.
fn hold<W: Wait>(rt: &W, alloc: Global, session: &Session, out: &mut String, id: &str) {
    let id = UniqueID(number(id).unwrap_or(0));
    if GroupProgress::new_item(session.progress(), rt, alloc, id, "held").is_ok() {
        say(out, 0);
    }
}

/// `grow 1 4`: the file with this number grows.
fn grow<W: Wait>(rt: &W, session: &mut Session, out: &mut String, words: &str) {
    let (file, bytes) = words.split_once(' ').unwrap_or((words, ""));
    let (file, bytes) = (number(file).unwrap_or(0), number(bytes).unwrap_or(0));
    done(out, session.grow_file(rt, file, bytes));
}

/// `give 5 Hello`: the xorb of a text, of which the first file has so many bytes, or no file any. 0 where it is new, 9
/// where it was put before.
fn give<W: Wait>(rt: &W, alloc: Global, session: &mut Session, out: &mut String, words: &str) {
    let (bytes, text) = words.split_once(' ').unwrap_or((words, ""));
    let mut parts = Vec::new(alloc);
    if bytes != "0" {
        let _ = parts.push(part(text, 0, number(bytes).unwrap_or(0), false));
    }
    if let Ok(raw) = raw(alloc, text) {
        let put = session.register_new_xorb(rt, alloc, raw, parts.as_slice(), 0);
        decided(out, put, 0, 9);
    }
}

/// Writes how many chunks were new and found, the bytes of xorbs and of records, and of the items and of the transfers
/// the bytes that are completed and all.
fn say_end(
    out: &mut String,
    answer: Result<(DeduplicationMetrics, GroupProgressReport), DataError>,
) {
    match answer {
        Ok((counts, report)) => say_each(
            out,
            &[
                counts.new_chunks,
                counts.deduped_chunks,
                counts.xorb_bytes_uploaded,
                counts.shard_bytes_uploaded,
                report.total_bytes_completed,
                report.total_bytes,
                report.total_transfer_bytes_completed,
                report.total_transfer_bytes,
            ],
        ),
        Err(error) => refuse(out, error),
    }
}

/// Writes the bytes of xorbs, of records and of both, and how many files there are.
fn say_list(
    out: &mut String,
    answer: Result<(DeduplicationMetrics, List<MDBFileInfo>), DataError>,
) {
    match answer {
        Ok((counts, files)) => say_each(
            out,
            &[
                counts.xorb_bytes_uploaded,
                counts.shard_bytes_uploaded,
                counts.total_bytes_uploaded,
                files.len() as u64,
            ],
        ),
        Err(error) => refuse(out, error),
    }
}

/// `item 1`: the completed and all bytes of an item.
fn item<W: Wait>(rt: &W, session: &Session, out: &mut String, id: &str) {
    let id = UniqueID(number(id).unwrap_or(0));
    if let Ok(Some(report)) = session.item_report(rt, id) {
        say_each(out, &[report.bytes_completed, report.total_bytes]);
    }
}

/// `final 1`: 1 where the size of an item is final, and else 0.
fn is_final<W: Wait>(rt: &W, alloc: Global, session: &Session, out: &mut String, id: &str) {
    let id = UniqueID(number(id).unwrap_or(0));
    if let Ok(updater) = GroupProgress::updater(session.progress(), id)
        && let Ok(item) = updater.item(rt, alloc)
    {
        say(out, u64::from(item.size_finalized()));
    }
}

/// `group`: how many items there are, and the group's completed and all bytes, sent and to be sent.
fn group<W: Wait>(rt: &W, alloc: Global, session: &Session, out: &mut String) {
    if let Ok(reports) = session.item_reports(rt, alloc) {
        say(out, reports.len() as u64);
    }
    let bytes = session.report(rt);
    let sent = session.progress().report(rt);
    say_each(
        out,
        &[
            bytes.total_bytes_completed,
            bytes.total_bytes,
            sent.total_transfer_bytes_completed,
            sent.total_transfer_bytes,
        ],
    );
}

/// Makes a call, and writes what it answers: `cut` cuts what waits, `end` ends the session, and `list` with its files.
pub fn called<W: Wait>(
    rt: &W,
    alloc: Global,
    session: &mut Session,
    out: &mut String,
    word: &str,
    rest: &str,
) {
    match word {
        "begin" => begin(rt, alloc, session, out, rest),
        "hold" => hold(rt, alloc, session, out, rest),
        "grow" => grow(rt, session, out, rest),
        "give" => give(rt, alloc, session, out, rest),
        "cut" => done(out, session.checkpoint(rt, alloc, 0)),
        "end" => say_end(out, session.finalize_with_report(rt, alloc, 0)),
        "list" => say_list(out, session.finalize_with_file_info(rt, alloc, 0)),
        "item" => item(rt, session, out, rest),
        "final" => is_final(rt, alloc, session, out, rest),
        "group" => group(rt, alloc, session, out),
        _ => {}
    }
}
