//! Files that a session cleans.
ghost use Rattle.std.specs.Prelude.{None};

use crate::answers::{done, point, refuse, say};
use crate::sessions::Session;
use crate::settings::number;
use std::alloc::Global;
use std::sync::Wait;
use xet_base::MerkleHash;
use xet_clean::{SingleFileCleaner, start_clean};
use xet_pointer::XetFileInfo;
use xet_upload::{Cutter, DataError, DeduplicationMetrics, Sha256Policy};

/// Cuts chunks of which each has so many bytes more than the one before it.
#[derive(Drop)]
struct GrowingCutter {
    size: usize,
    more: usize,
}

impl Cutter for GrowingCutter {
    ghost told = { λ _ _ _. None };

    fn cut(&mut self, pending: &[u8], _last: bool) -> Option<usize> {
        let size = self.size;
        if pending.len() < size {
            return None;
        }
        self.size = size.saturating_add(self.more);
        Some(size)
    }
}

/// A file that is cut so.
type Cleaner = SingleFileCleaner<GrowingCutter>;

/// The policy that a word says: `sha` computes SHA-256, `given` has one, and others have none.
pub fn policy(word: &str) -> Sha256Policy {
    match word {
        "sha" => Sha256Policy::Compute,
        "given" => Sha256Policy::Provided(MerkleHash([0xab; 32])),
        _ => Sha256Policy::Skip,
    }
}

/// Feeds pieces, and writes what each of them answers; `*` stands for 8,192 bytes.
fn feed_each<W: Wait>(
    rt: &W,
    alloc: Global,
    session: &mut Session,
    cleaner: &mut Cleaner,
    out: &mut String,
    pieces: &str,
) {
    let many = [7u8; 8192];
    for piece in pieces.split('/') {
        let bytes = match piece {
            "*" => many.as_slice(),
            _ => piece.as_bytes(),
        };
        done(out, cleaner.add_data(session, rt, alloc, bytes, 0));
    }
}

/// Writes the pointer, or 0 where only answers are told.
fn say_end(
    out: &mut String,
    answer: Result<(XetFileInfo, DeduplicationMetrics), DataError>,
    is_fed: bool,
) {
    match answer {
        Ok(_) if is_fed => say(out, 0),
        Ok((info, _counts)) => point(out, &info),
        Err(error) => refuse(out, error),
    }
}

/// Feeds a file in pieces, and ends it.
fn clean<W: Wait>(
    rt: &W,
    alloc: Global,
    session: &mut Session,
    out: &mut String,
    mut cleaner: Cleaner,
    pieces: &str,
    is_fed: bool,
) {
    feed_each(rt, alloc, session, &mut cleaner, out, pieces);
    say_end(out, cleaner.finish(session, rt, alloc, 0), is_fed);
}

/// `5`, `1+1`: cuts by so many bytes, or by a byte more each time.
fn cutter_of(words: &str) -> GrowingCutter {
    let (size, more) = words.split_once('+').unwrap_or((words, "0"));
    GrowingCutter {
        size: number(size).unwrap_or(1) as usize,
        more: number(more).unwrap_or(0) as usize,
    }
}

/// `13 5 Hello/, world!`: cleans a file of this size, unknown at `-`, that is cut so and fed in these pieces. It
/// writes what each piece answers, and then, but for `feed`, the pointer.
pub fn cleaned<W: Wait>(
    rt: &W,
    alloc: Global,
    session: &mut Session,
    out: &mut String,
    word: &str,
    rest: &str,
) {
    let (size, rest) = rest.split_once(' ').unwrap_or((rest, ""));
    let (chunk, pieces) = rest.split_once(' ').unwrap_or((rest, ""));
    let (size, sha256) = (number(size), policy(word));
    let cutter = cutter_of(chunk);
    match start_clean(session, rt, alloc, Some("test"), size, sha256, cutter) {
        Ok((_id, cleaner)) => clean(rt, alloc, session, out, cleaner, pieces, word == "feed"),
        Err(error) => refuse(out, error),
    }
}
