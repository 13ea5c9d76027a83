//! Parts of the bytes that were read.
ghost use Rattle.std.specs.Prelude.{◌≡◌, ◌+◌, ◌-◌, ◌<◌, ◌≤◌, ◌==◌, IfSome, length, option_map, slice_range};
ghost use Rattle.std.specs.List.{position_or_len};
ghost use Rattle.std.specs.Prelude.{take};
ghost use Rattle.xet_serve_lines.specs.Requests.{cut_at};
ghost use Rattle.xet_serve_lines.specs.steps.Buffers.{FrontOf, ReadBehind};

use crate::line_reader::LineFault;
use xet_outside::Source;

/// How many bytes a line has at most, without its line end.
const MOST: usize = 1_024;

/// What stands at the front of some bytes.
#[derive(Clone, Copy, PartialEq, Eq, Drop)]
pub(crate) enum Front {
    /// A line of so many bytes and its line end.
    Line(usize),
    /// More than 1,024 bytes of a line.
    TooLong,
    /// Less than a line.
    Short,
}

/// What stands before the first such byte and behind it, where there is one.
pub(crate) fn cut<'a>(text: &'a [u8], sep: u8) -> Option<(&'a [u8], &'a [u8])>
    ensures parts { option_map (λ x. (x.0.now, x.1.now)) result ≡ cut_at sep text.now }
    ensures shorter { IfSome result (λ x. length x.1.now < length text.now) }
{
    let place = first_place(text, sep);
    if place == text.len() {
        return None;
    }
    Some((&text[..place], &text[place + 1..]))
}

// The place of the first such byte, or how many bytes there are.
fn first_place(text: &[u8], sep: u8) -> usize
    ensures { result ≡ position_or_len (λ b. b == sep) text.now }
{
    let mut place = 0;
    while place < text.len() && text[place] != sep {
        place += 1;
    }
    place
}

/// What stands at the front of some bytes.
pub(crate) fn front_of(bytes: &[u8]) -> Front
    ensures { FrontOf bytes.now result }
{
    let length = first_place(bytes, b'\n');
    if MOST < length {
        return Front::TooLong;
    }
    if length == bytes.len() {
        return Front::Short;
    }
    Front::Line(length)
}

/// Moves the bytes from `start` to before `end` to the front, and answers how many they are.
pub(crate) fn move_to_front(buffer: &mut [u8], start: usize, end: usize) -> usize
    requires { (start ≤ end) × (end ≤ length buffer.old) }
    ensures bytes { take result buffer.new ≡ slice_range buffer.old start end }
    ensures count { result ≡ end - start }
    ensures size { length buffer.new ≡ length buffer.old }
{
    buffer.copy_within(start..end, 0);
    end - start
}

/// How many bytes are asked for: no more than there is room for and the limit leaves, and one where it leaves none.
pub(crate) fn room_for(room: usize, left: usize) -> usize
    requires { 0 < room }
    ensures some { 0 < result }
    ensures within { result ≤ room }
{
    room.min(left.max(1))
}

/// Reads bytes behind the first `end`, at most so many.
pub(crate) fn read_behind<I: Source>(
    buffer: &mut [u8],
    end: usize,
    most: usize,
    input: &mut I,
) -> Result<usize, LineFault>
    requires some { 0 < most }
    requires room { end + most ≤ length buffer.old }
    ensures call { ReadBehind (I.told input.old) (I.told input.new) buffer.old buffer.new end most result }
    ensures size { length buffer.new ≡ length buffer.old }
{
    match input.read(&mut buffer[end..end + most]) {
        Ok(count) => Ok(count),
        Err(_) => Err(LineFault::ReadFault),
    }
}
