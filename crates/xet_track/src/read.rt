//! The calls that lines spell.
ghost use Rattle.std.specs.Prelude.{◌≡◌, option_map};
ghost use Rattle.xet_track.specs.Script.{dependency_call, file_call, four_words, grow_call, one_word, step_of_line};
ghost use Rattle.xet_track.specs.Script.{three_words, two_words};
ghost use Rattle.xet_track.specs.steps.Spelling.{call_of, xorb_step_of};

use crate::line::cut;
use crate::word::{name, number, spells};
use xet_base::MerkleHash;
use xet_progress_state::{FileXorbDependency, TrackerStep};

/// A call that a line spells. A line has at most one dependency, which takes no list.
#[derive(Drop)]
pub(crate) enum Spelled {
    Step(TrackerStep),
    Dependency(FileXorbDependency),
}

/// The call that a line of one word spells.
fn read_one(word: &[u8]) -> Option<TrackerStep>
    ensures { result ≡ one_word word.now }
{
    if spells(word, "status") {
        return Some(TrackerStep::Status);
    }
    if spells(word, "complete") {
        return Some(TrackerStep::IsComplete);
    }
    None
}

/// The call that registers a file, whose size may be left open.
fn read_file(a: &[u8]) -> Option<TrackerStep>
    ensures { result ≡ file_call a.now }
{
    if spells(a, "?") {
        return Some(TrackerStep::RegisterNewFile { n_bytes: None });
    }
    let size = number(a)?;
    Some(TrackerStep::RegisterNewFile {
        n_bytes: Some(size),
    })
}

/// The call that a line of two words spells.
fn read_two(word: &[u8], a: &[u8]) -> Option<TrackerStep>
    ensures { result ≡ two_words word.now a.now }
{
    if spells(word, "file") {
        return read_file(a);
    }
    if spells(word, "done") {
        let xorb_hash = name(a)?;
        return Some(TrackerStep::RegisterXorbUploadCompletion { xorb_hash });
    }
    None
}

/// The call that grows a file.
fn read_growth(a: &[u8], b: &[u8]) -> Option<TrackerStep>
    ensures { result ≡ grow_call a.now b.now }
{
    let file_id = number(a)?;
    let size_increment = number(b)?;
    Some(TrackerStep::IncrementFileSize {
        file_id,
        size_increment,
    })
}

/// The call that this word spells, of a xorb and a number of its bytes.
fn xorb_step(word: &[u8], xorb_hash: MerkleHash, bytes: u64) -> Option<TrackerStep>
    ensures { result ≡ xorb_step_of word.now xorb_hash bytes }
{
    if spells(word, "xorb") {
        return Some(TrackerStep::RegisterNewXorb {
            xorb_hash,
            xorb_size: bytes,
        });
    }
    if spells(word, "progress") {
        return Some(TrackerStep::RegisterXorbUploadProgress {
            xorb_hash,
            new_byte_progress: bytes,
        });
    }
    if spells(word, "background") {
        return Some(TrackerStep::RegisterXorbUploadProgressBackground {
            xorb_hash,
            new_byte_progress: bytes,
        });
    }
    None
}

/// The call that a line of three words spells.
fn read_three(word: &[u8], a: &[u8], b: &[u8]) -> Option<TrackerStep>
    ensures { result ≡ three_words word.now a.now b.now }
{
    if spells(word, "grow") {
        return read_growth(a, b);
    }
    xorb_step(word, name(a)?, number(b)?)
}

/// The call that registers one dependency.
fn read_dependency(is_external: bool, a: &[u8], b: &[u8], c: &[u8]) -> Option<Spelled>
    ensures { option_map call_of result ≡ dependency_call is_external a.now b.now c.now }
{
    let file_id = number(a)?;
    let xorb_hash = name(b)?;
    let n_bytes = number(c)?;
    Some(Spelled::Dependency(FileXorbDependency {
        file_id,
        xorb_hash,
        n_bytes,
        is_external,
    }))
}

/// The call that a line of four words spells.
fn read_four(word: &[u8], a: &[u8], b: &[u8], c: &[u8]) -> Option<Spelled>
    ensures { option_map call_of result ≡ four_words word.now a.now b.now c.now }
{
    if spells(word, "dep") {
        return read_dependency(false, a, b, c);
    }
    if spells(word, "ext") {
        return read_dependency(true, a, b, c);
    }
    None
}

/// A call by itself.
fn alone(step: Option<TrackerStep>) -> Option<Spelled>
    ensures { option_map call_of result ≡ step }
{
    match step {
        Some(step) => Some(Spelled::Step(step)),
        None => None,
    }
}

/// The call that a line spells.
pub(crate) fn read_line(line: &[u8]) -> Option<Spelled>
    ensures { option_map call_of result ≡ step_of_line line.now }
{
    let (word, rest) = cut(line, b' ');
    let Some(rest) = rest else {
        return alone(read_one(word));
    };
    let (a, rest) = cut(rest, b' ');
    let Some(rest) = rest else {
        return alone(read_two(word, a));
    };
    let (b, rest) = cut(rest, b' ');
    let Some(rest) = rest else {
        return alone(read_three(word, a, b));
    };
    let (c, rest) = cut(rest, b' ');
    if let Some(_more) = rest {
        return None;
    }
    read_four(word, a, b, c)
}
