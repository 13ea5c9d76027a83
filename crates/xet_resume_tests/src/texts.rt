//! Which texts are records.
use crate::caller::kept_or_new;
use crate::told::{comes_to, put};
use std::alloc::Global;
use xet_base::MerkleHash;
use xet_resume::GapRecord;

/// Texts by the digit of which the hash has 64, and by what stands behind the hash and a space, with a stroke for each
/// line end. Each is read again as it stands, or begun anew.
const ROWS: &str = "\
a 0/: kept
a 13/: kept
a 13/0 13/: kept
a 13/0 1/2 3/12 13/: kept
a 18446744073709551615/0 18446744073709551615/: kept
a 13/5 9/9 10/: new
a 13/5 9/7 10/: new
a 13/5 5/: new
a 13/5 14/: new
a 13/05 9/: new
a +13/: new
a 18446744073709551616/: new
a 13/5 9: new
a 13//: new
a : new
g 13/: new
A 13/: new";

/// What is marked where nothing was kept.
const NEW: MerkleHash = MerkleHash([0xcc; 32]);

/// Adds a letter, a line end for a stroke.
fn put_letter(text: &mut String, letter: char) {
    if letter == '/' {
        put(text, '\n');
    } else {
        put(text, letter);
    }
}

/// The text of a row.
fn text_of(alloc: Global, row: &str) -> String {
    let mut text = String::new(alloc);
    let (digit, rest) = row.split_once(' ').unwrap_or((row, ""));
    put(&mut text, "xet-gaps 1\n");
    for _ in 0..64 {
        put(&mut text, digit);
    }
    put(&mut text, ' ');
    for letter in rest.chars() {
        put_letter(&mut text, letter);
    }
    text
}

/// `kept` where a record has this text, `new` where it has another file.
fn compared(alloc: Global, gaps: &GapRecord, text: &str) -> &'static str {
    if gaps.file() == NEW {
        return "new";
    }
    match gaps.to_text(alloc) {
        Ok(again) if again.as_str() == text => "kept",
        Ok(_) => "another text",
        Err(_) => "no memory",
    }
}

/// What a text comes to.
fn begun(alloc: Global, text: &str) -> &'static str {
    match kept_or_new(alloc, text, NEW, 13) {
        Ok(gaps) => compared(alloc, &gaps, text),
        Err(_) => "no memory",
    }
}

#[test]
fn a_record_is_kept_or_begun(rt: HostRuntime) {
    for line in ROWS.lines() {
        if let Some((row, wanted)) = line.split_once(": ") {
            let text = text_of(rt.alloc(), row);
            comes_to(&rt, row, begun(rt.alloc(), text.as_str()), wanted);
        }
    }
}
