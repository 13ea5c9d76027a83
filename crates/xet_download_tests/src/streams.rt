//! Streams of a session.
use crate::calls::Session;
use crate::words::{bounds, cut, info, put, range};
use std::alloc::Global;
use std::sync::Wait;
use xet_base::UniqueID;
use xet_blocks::Steady;
use xet_streams::DownloadStream;
use xet_unordered_streams::UnorderedDownloadStream;
use xet_upload::DataError;

/// The streams that a session made.
#[derive(Drop)]
pub(crate) struct Streams {
    pub(crate) ordered: Vec<DownloadStream<Steady>>,
    pub(crate) unordered: Vec<UnorderedDownloadStream<Steady>>,
}

/// Keeps a new stream, and adds its id; or adds why there is none.
fn keep<S: Drop>(streams: &mut Vec<S>, text: &mut String, made: Result<(UniqueID, S), DataError>) {
    match made {
        Ok((id, stream)) => {
            let _ = streams.push(stream);
            let _ = write!(text, "{}", id.0);
        }
        Err(error) => {
            let _ = write!(text, "{error:?}");
        }
    }
}

/// Makes a stream by one of the three calls.
pub(crate) fn open<R: Wait>(
    rt: &R,
    alloc: Global,
    session: &mut Session<'_>,
    streams: &mut Streams,
    text: &mut String,
    letter: u8,
    words: &str,
) {
    let (hash, rest) = cut(words);
    let (size, rest) = cut(rest);
    let info = info(alloc, hash, size);
    match letter {
        b's' => {
            let made = session.download_stream(rt, alloc, &info, range(rest));
            keep(&mut streams.ordered, text, made);
        }
        b'p' => {
            let made = session.download_stream_range(rt, alloc, &info, bounds(rest));
            keep(&mut streams.ordered, text, made);
        }
        _ => {
            let made = session.download_unordered_stream(rt, alloc, &info, range(rest));
            keep(&mut streams.unordered, text, made);
        }
    }
}

/// Adds the next piece of the stream of this number.
pub(crate) fn pull<R: Wait>(
    rt: &R,
    alloc: Global,
    session: &mut Session<'_>,
    streams: &mut [DownloadStream<Steady>],
    number: usize,
    text: &mut String,
) {
    let Some(stream) = streams.get_mut(number) else {
        return;
    };
    let lent = session.parts();
    let clients = lent.clients.as_mut_slice();
    match stream.blocking_next(rt, alloc, clients, &mut lent.chunk_cache) {
        Ok(Some(piece)) => put(text, str::from_utf8(&piece).unwrap_or("?")),
        Ok(None) => put(text, "none"),
        Err(_) => put(text, "error"),
    }
}

/// Adds the place of the next piece of the unordered stream of this number, and the piece.
pub(crate) fn pull_unordered<R: Wait>(
    rt: &R,
    alloc: Global,
    session: &mut Session<'_>,
    streams: &mut [UnorderedDownloadStream<Steady>],
    number: usize,
    text: &mut String,
) {
    let Some(stream) = streams.get_mut(number) else {
        return;
    };
    let lent = session.parts();
    let clients = lent.clients.as_mut_slice();
    match stream.blocking_next(rt, alloc, clients, &mut lent.chunk_cache) {
        Ok(Some((place, piece))) => {
            let _ = write!(text, "{place} ");
            put(text, str::from_utf8(&piece).unwrap_or("?"));
        }
        Ok(None) => put(text, "none"),
        Err(_) => put(text, "error"),
    }
}
