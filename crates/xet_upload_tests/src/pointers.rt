//! Pointer records and their texts. The texts were written and read by Python's json.
use crate::rows::{comes_to, cut, put};
use serde_json::{from_str, to_string};
use std::alloc::Global;
use xet_pointer::{SessionContext, XetFileInfo};

/// Texts as the record's own reader and serde take them, and the texts that are then written. Serde refuses a key that
/// comes twice, and takes a list.
const RECORDS: &str = r#"own {"hash":"a\"\n\u0001é"} => {"hash":"a\"\n\u0001é"}
own {"hash":"b","other":[1.5,{"hash":5}],"hash":""} => {"hash":""}
own {"hash":"","file_size":18446744073709551615} => {"hash":"","file_size":18446744073709551615}
own  => NotPointer
own {"hash":"a","file_size":1e2} => NotPointer
serde {"hash":"a"} => {"hash":"a"}
serde {"hash":"a\"\n\u0001é","file_size":0} => {"hash":"a\"\n\u0001é","file_size":0}
serde {"hash":"","sha256":"b\\"} => {"hash":"","sha256":"b\\"}
serde {"hash":"c","file_size":18446744073709551615} => {"hash":"c","file_size":18446744073709551615}
serde  { "sha256" : null , "hash" : "\u0061" , "file_size" : null }  => {"hash":"a"}
serde {"hash":"a","other":[1.5,{"hash":5}]} => {"hash":"a"}
serde {"Hash":5,"hash":"a"} => {"hash":"a"}
serde ["a"] => {"hash":"a"}
serde  => refused
serde {} => refused
serde {"hash":5} => refused
serde {"hash":null} => refused
serde {"hash":"a","file_size":1.0} => refused
serde {"hash":"a","file_size":-1} => refused
serde {"hash":"a","file_size":18446744073709551616} => refused
serde {"hash":"a","sha256":[]} => refused
serde {"hash":"b","hash":"a"} => refused"#;

/// A text of over 200 bytes.
const LONG: &str = "{\"hash\":\"206a003e2f6f2c5f4fe299cc26922c5f0f336f732b0095ba9e983f57f4767428\
    206a003e2f6f2c5f4fe299cc26922c5f0f336f732b0095ba9e983f57f4767428\",\
    \"file_size\":17,\
    \"sha256\":\"633547741153b3af36073c27e5e93ce94b8c1b5287b8436539692002465aaf3b\"}";

/// Adds the text of an equal record.
fn tell(told: &mut String, alloc: Global, info: &XetFileInfo) {
    if let Ok(copy) = info.clone()
        && let Ok(text) = copy.as_pointer_file(alloc)
    {
        put(told, text.as_str());
    }
}

fn read(told: &mut String, alloc: Global, text: &str) {
    match XetFileInfo::from_pointer_file(alloc, text) {
        Ok(info) => tell(told, alloc, &info),
        Err(error) => put(told, error),
    }
}

fn tell_by_serde(told: &mut String, alloc: Global, info: &XetFileInfo) {
    if let Ok(text) = to_string(alloc, info) {
        put(told, text.as_str());
    }
}

fn read_by_serde(told: &mut String, alloc: Global, text: &str) {
    match from_str::<XetFileInfo>(alloc, text) {
        Ok(info) => tell_by_serde(told, alloc, &info),
        Err(_) => put(told, "refused"),
    }
}

/// What a text comes to by the reader of this name.
fn read_by(alloc: Global, reader: &str, text: &str) -> String {
    let mut told = String::new(alloc);
    match reader {
        "own" => read(&mut told, alloc, text),
        _ => read_by_serde(&mut told, alloc, text),
    }
    told
}

#[test]
fn texts_of_records(rt: HostRuntime) {
    for line in RECORDS.lines() {
        let (row, wanted) = cut(line, " => ");
        let (reader, text) = cut(row, " ");
        comes_to(&rt, row, read_by(rt.alloc(), reader, text), wanted);
    }
    comes_to(&rt, "long", read_by(rt.alloc(), "own", LONG), LONG);
}

#[test]
fn a_folder_has_settings(rt: HostRuntime) {
    let context = SessionContext::for_local_path(rt.alloc(), "/srv/case one", "local://");
    assert!(rt; context.is_ok());
}
