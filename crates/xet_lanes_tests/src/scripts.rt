//! Scripts of calls of the writer in order, and what they come to.
use crate::calls::{give, make, show, show_error};
use crate::rows::{number, put};
use std::alloc::Global;
use xet_base::FileRange;
use xet_outside::Sink;
use xet_writers::SequentialWriter;

/// Five terms one after another, each with an admission and an empty one among them.
const TEXTS: &str = "0-5=Hello;5-5=;5-6=-;6-11=World;11-12=!";

/// The last digit of a number.
fn digit_of(number: u64) -> &'static [u8] {
    match number % 10 {
        0 => b"0",
        1 => b"1",
        2 => b"2",
        3 => b"3",
        4 => b"4",
        5 => b"5",
        6 => b"6",
        7 => b"7",
        8 => b"8",
        _ => b"9",
    }
}

/// Takes so many terms of one digit, each with an admission, and with an empty term behind it where they are pairs.
fn take_digits<S: Sink>(
    alloc: Global,
    writer: &mut SequentialWriter<S>,
    count: u64,
    are_pairs: bool,
) -> xet_error::Result<u64> {
    for number in 0..count {
        let end = number + 1;
        give(
            alloc,
            writer,
            FileRange::new(number, end),
            true,
            digit_of(number),
        )?;
        if are_pairs {
            give(alloc, writer, FileRange::new(end, end), false, b"")?;
        }
    }
    Ok(0)
}

/// Takes the five terms, and shows which are refused.
fn take_texts<S: Sink>(alloc: Global, writer: &mut SequentialWriter<S>, told: &mut String) {
    for word in TEXTS.split(';') {
        if let Err(error) = make(alloc, writer, word) {
            show_error(told, error);
        }
    }
}

/// Shows the length of each admission that came back.
fn show_released<S>(writer: &mut SequentialWriter<S>, told: &mut String) {
    for _ in 0..200 {
        if let Some(admission) = writer.take_released() {
            put(told, admission.length);
        }
    }
}

/// Makes the call of a word, and shows its answer: `write` is `write_ready`, and `back` the admissions that came back;
/// `texts` takes the five terms, `*30` thirty digits, and `~30` these with empty terms between them.
fn turn<S: Sink>(
    alloc: Global,
    writer: &mut SequentialWriter<S>,
    word: &'static str,
    told: &mut String,
) {
    if word == "write" {
        return show(told, writer.write_ready(alloc));
    }
    if word == "back" {
        return show_released(writer, told);
    }
    if word == "texts" {
        return take_texts(alloc, writer, told);
    }
    if let Some(count) = word.strip_prefix('*') {
        return show(told, take_digits(alloc, writer, number(count), false));
    }
    if let Some(count) = word.strip_prefix('~') {
        return show(told, take_digits(alloc, writer, number(count), true));
    }
    show(told, make(alloc, writer, word));
}

/// Plays the calls by a writer over this sink, and shows their answers.
pub(crate) fn played<S: Sink>(
    alloc: Global,
    sink: &mut S,
    use_vectorized: bool,
    script: &'static str,
    told: &mut String,
) {
    let mut writer = SequentialWriter::new(alloc, sink, use_vectorized);
    for word in script.split(';') {
        turn(alloc, &mut writer, word, told);
        put(told, ';');
    }
    let _sink = writer.into_inner();
}
