//! Lines of a source.
ghost use Rattle.std.specs.Prelude.{◌≡◌, ◌≤◌, [], IfOk};
ghost use Rattle.xet_serve_lines.specs.Lines.{session_limit};
ghost use Rattle.xet_serve_lines.specs.Reading.{CutCall, FillCall, HasNoLine, TookRest};
ghost use Rattle.xet_serve_lines.specs.steps.Buffers.{buffer_size};

use crate::cutting::{Front, front_of, move_to_front, read_behind, room_for};
use std::alloc::Global;
use std::marker::Model;
use thiserror::Error;
use xet_base::OutOfMemory;
use xet_outside::Source;

/// How many bytes of a source are read at most.
const LIMIT: usize = 67_108_864;

/// How many bytes a reader holds at most.
const BUFFER: usize = 16_384;

/// Why no more bytes were read. It is exhaustive, and prints the variant's name.
///
/// The Rust crates have no such error.
#[derive(Clone, Copy, PartialEq, Eq, Debug, Drop, Error)]
pub enum LineFault {
    /// A read failed, and the source's count of faults rose.
    #[error("ReadFault")]
    ReadFault,
    /// More than 67,108,864 bytes were read.
    #[error("InputLimit")]
    InputLimit,
}

/// What stands at the front of the bytes that a reader holds.
#[derive(Clone, Copy, PartialEq, Eq, Debug, Drop)]
pub enum Cut {
    /// A line with its line end, which was taken off.
    Line,
    /// More than 1,024 bytes of a line.
    TooLong,
    /// Less than a line: more has to be read.
    Short,
}

/// Reads lines of a source into a buffer of 16,384 bytes. Contracts see the line that was taken off last, the bytes
/// that were read behind it, and how many bytes were read in all.
///
/// The Rust crates have no such type.
#[derive(Drop)]
pub struct LineReader {
    buffer: Vec<u8>,
    // the line that was taken off last
    line_start: usize,
    line_end: usize,
    // the bytes behind it
    start: usize,
    end: usize,
    // how many bytes were read
    read: usize,
}

impl Model for LineReader {
    ghost use Rattle.std.specs.Prelude.{◌≤◌, ◌≡◌, length, slice_range};
    ghost use Rattle.xet_serve_lines.specs.Reading.{Held};
    ghost use Rattle.xet_serve_lines.specs.steps.Buffers.{buffer_size};

    ghost Value = { Held };

    ghost view = { λ r. record {
      line = slice_range r.buffer.items r.line_start r.line_end;
      pending = slice_range r.buffer.items r.start r.end;
      read = r.read;
    } };

    ghost invariant = { λ r. (length r.buffer.items ≡ buffer_size) × (r.line_start ≤ r.line_end)
        × (r.line_end ≤ buffer_size) × (r.start ≤ r.end) × (r.end ≤ buffer_size) };
}

impl LineReader {
    /// A reader that has read nothing.
    ///
    /// `OutOfMemory` where the memory of its buffer was refused.
    pub fn new(alloc: Global) -> Result<LineReader, OutOfMemory>
        ensures { IfOk result (λ r. r ≡ record { line = []; pending = []; read = 0 }) }
    {
        let buffer = vec![in alloc; 0u8; BUFFER]?;
        Ok(LineReader {
            buffer,
            line_start: 0,
            line_end: 0,
            start: 0,
            end: 0,
            read: 0,
        })
    }

    /// The line that was taken off last, without its line end. It is gone after the next bytes were read.
    pub fn line(&self) -> &[u8]
        ensures { result.now ≡ self.now.line }
    {
        &self.buffer[self.line_start..self.line_end]
    }

    /// Takes off the next line, where its line end was read.
    pub fn cut(&mut self) -> Cut
        ensures { CutCall self.old self.new result }
    {
        match front_of(&self.buffer[self.start..self.end]) {
            Front::TooLong => Cut::TooLong,
            Front::Short => Cut::Short,
            Front::Line(length) => {
                self.line_start = self.start;
                self.line_end = self.start + length;
                self.start = self.line_end + 1;
                Cut::Line
            }
        }
    }

    /// Takes off all bytes that were read, as a line without a line end.
    pub fn take_rest(&mut self)
        ensures { TookRest self.old self.new }
    {
        self.line_start = self.start;
        self.line_end = self.end;
        self.start = self.end;
    }

    /// Reads more bytes, by one read, and answers how many: none at the source's end. It asks for no more than the
    /// limit leaves, and for one byte at the limit.
    ///
    /// - `ReadFault` where the source's count of faults rose. Nothing was read.
    /// - `InputLimit` where more than 67,108,864 bytes were read.
    pub fn fill<I: Source>(&mut self, input: &mut I) -> Result<usize, LineFault>
        requires waiting { HasNoLine self.old.pending }
        requires within { self.old.read ≤ session_limit }
        ensures { FillCall (I.told input.old) (I.told input.new) self.old self.new result }
    {
        self.end = move_to_front(self.buffer.as_mut_slice(), self.start, self.end);
        self.start = 0;
        self.line_start = 0;
        self.line_end = 0;
        let most = room_for(BUFFER - self.end, LIMIT - self.read);
        let count = read_behind(self.buffer.as_mut_slice(), self.end, most, input)?;
        self.end += count;
        self.read += count;
        if LIMIT < self.read {
            return Err(LineFault::InputLimit);
        }
        Ok(count)
    }
}
