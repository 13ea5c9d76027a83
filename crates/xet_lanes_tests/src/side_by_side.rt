//! What a gate is told and when, and that a lane that fails stops the others.
use crate::meeting::Meeting;
use crate::one_byte::OneByte;
use crate::rounds::one_round;
use crate::rows::{comes_to, put};
use crate::trace::Trace;
use std::alloc::Global;
use std::sync::Wait;
use std::thread::Threads;
use xet_sinks::ScriptSink;
use xet_writers::SequentialWriter;

/// A writer over a sink that takes all at once.
fn writer(alloc: Global) -> SequentialWriter<ScriptSink> {
    SequentialWriter::new(alloc, ScriptSink::new(alloc, Vec::new(alloc)), false)
}

/// One lane whose gate and connection leave a trace.
fn traced<R: Threads + Wait + Sync>(rt: &R, alloc: Global, trace: &Trace) -> String {
    let mut told = String::new(alloc);
    let mut clients = [OneByte::new(false, Some(trace))];
    let mut writer = writer(alloc);
    let _ = one_round(rt, alloc, trace, 2, 4, &mut clients, &mut writer);
    put(&mut told, trace.digits());
    told
}

#[test]
fn each_fetch_is_between_the_calls_of_its_gate(rt: HostRuntime) {
    let told = traced(&rt, rt.alloc(), &Trace::new());
    comes_to(&rt, "one lane", told, "9506708");
}

/// Adds how often the lane that fails asked, and whether the other one began and was stopped long before its last.
fn tell_calls(told: &mut String, clients: &[OneByte<'_>; 2]) {
    put(told, ' ');
    put(told, clients[0].calls);
    if 0 < clients[1].calls && clients[1].calls < 999 {
        put(told, " stopped");
    }
}

/// Two lanes, each of which begins one of the first two fetches, and one of which fails.
fn one_fails<R: Threads + Wait + Sync>(rt: &R, alloc: Global, meeting: &Meeting) -> String {
    let mut told = String::new(alloc);
    let mut clients = [OneByte::new(true, None), OneByte::new(false, None)];
    let mut writer = writer(alloc);
    if let Ok(joined) = one_round(rt, alloc, meeting, 0, 1_000, &mut clients, &mut writer)
        && let Some(error) = joined.first_error()
    {
        put(&mut told, error);
    }
    tell_calls(&mut told, &clients);
    told
}

#[test]
fn a_lane_that_fails_stops_the_others(rt: HostRuntime) {
    let told = one_fails(&rt, rt.alloc(), &Meeting::new());
    comes_to(&rt, "one that fails", told, "ClientError 1 stopped");
}
