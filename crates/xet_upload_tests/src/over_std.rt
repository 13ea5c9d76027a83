//! A sink and a source over std's writers and readers that are interrupted, break, or take and give little.
use crate::rows::{comes_to, cut, put};
use crate::sinks::play;
use std::alloc::Global;
use std::io::{self, ErrorKind, Read, Write};
use xet_outside::Source;
use xet_sinks::{ReadSource, WriteSink};

/// Does at each call what the next letter of its script says: is interrupted at an `i`, takes or gives at most so many
/// bytes at a digit, and breaks at any other one and after the script.
#[derive(Drop)]
struct Shaky<'a> {
    script: &'a [u8],
    calls: usize,
}

impl<'a> Shaky<'a> {
    fn step(&mut self) -> io::Result<usize> {
        let step = self.script.get(self.calls).copied().unwrap_or(b'.');
        self.calls = self.calls.saturating_add(1);
        match step {
            b'i' => Err(ErrorKind::Interrupted.into()),
            b'0'..=b'9' => Ok((step - b'0') as usize),
            _ => Err(ErrorKind::BrokenPipe.into()),
        }
    }
}

impl<'a> Write for Shaky<'a> {
    fn write(&mut self, piece: &[u8]) -> io::Result<usize> {
        Ok(self.step()?.min(piece.len()))
    }

    fn flush(&mut self) -> io::Result<()> {
        self.step()?;
        Ok(())
    }
}

impl<'a> Read for Shaky<'a> {
    fn read(&mut self, into: &mut [u8]) -> io::Result<usize> {
        let count = self.step()?.min(into.len());
        into[..count].fill(b'x');
        Ok(count)
    }
}

/// Of a sink and a source over a writer and a reader: the script of these, and the calls of the sink, or one read into
/// two bytes; what these answer, and the calls below.
const CALLS: &str = "2 | - abc => 0 2 by 1
iiiiiiiiiiiiiiii9 | abc => 3 by 17
iiiiiiiiiiiiiiiii9 | abc => Failed by 17
b9 | abc => Failed by 1
0 | abc => Failed by 1
i | abc => Failed by 2
0 | flush => 0 by 1
iiiiiiiiiiiiiiii0 | flush => 0 by 17
iiiiiiiiiiiiiiiii0 | flush => Failed by 17
b0 | flush => Failed by 1
i | flush => Failed by 2
1 | read => Ok(1) by 1
iiiiiiiiiiiiiiii1 | read => Ok(1) by 17
iiiiiiiiiiiiiiiii1 | read => Err(SourceFault) by 17
b1 | read => Err(SourceFault) by 1
i | read => Err(SourceFault) by 2";

/// Adds what one read answers.
fn read(told: &mut String, below: &mut Shaky<'_>) {
    let mut into = [b'.'; 2];
    let answer = ReadSource::new(below).read(&mut into);
    let _ = write!(told, "{answer:?} ");
}

fn played(alloc: Global, script: &str, calls: &str) -> String {
    let mut told = String::new(alloc);
    let mut below = Shaky {
        script: script.as_bytes(),
        calls: 0,
    };
    if calls == "read" {
        read(&mut told, &mut below);
    } else {
        play(&mut told, calls, &mut WriteSink::new(&mut below));
    }
    put(&mut told, "by ");
    put(&mut told, below.calls);
    told
}

#[test]
fn an_interrupted_call_is_made_again(rt: HostRuntime) {
    for line in CALLS.lines() {
        let (row, wanted) = cut(line, " => ");
        let (script, calls) = cut(row, " | ");
        comes_to(&rt, row, played(rt.alloc(), script, calls), wanted);
    }
}
