//! Histories as texts.
use crate::told::{put, tell_error};
use xet_base::FileRange;
use xet_run::Event;

/// ` P1:0..13`: a plan by its number and its query.
fn tell_plan(text: &mut String, plan: u64, query: FileRange) {
    put(text, " P");
    put(text, plan);
    put(text, ':');
    put(text, query.start);
    put(text, "..");
    put(text, query.end);
}

/// ` C1.0`: what happened to a block of a plan.
fn tell_block(text: &mut String, letter: &str, plan: u64, block: usize) {
    put(text, letter);
    put(text, plan);
    put(text, '.');
    put(text, block);
}

/// ` F0:1.0`: the same on a lane.
fn tell_lane(text: &mut String, letter: &str, lane: u32, plan: u64, block: usize) {
    put(text, letter);
    put(text, lane);
    tell_block(text, ":", plan, block);
}

/// A letter and a number, behind a space.
fn tell_number(text: &mut String, letter: &str, number: u64) {
    put(text, letter);
    put(text, number);
}

fn tell_event(text: &mut String, event: &Event) {
    match event {
        Event::Planned { plan, query, .. } => tell_plan(text, *plan, *query),
        Event::Admit { limit } => tell_number(text, " A", *limit),
        Event::Fetched { lane, plan, block } => tell_lane(text, " F", *lane, *plan, *block),
        Event::Cached { plan, block } => tell_block(text, " C", *plan, *block),
        Event::Expired { lane, plan, block } => tell_lane(text, " X", *lane, *plan, *block),
        Event::Refreshed { plan } => tell_number(text, " R", *plan),
        Event::Wrote { taken } => tell_number(text, " W", *taken),
        Event::Fail { error } => tell_error(text, *error),
        Event::Cancel => put(text, " cancel"),
    }
}

/// Adds a bar and the events.
pub(crate) fn tell_history(text: &mut String, events: &[Event]) {
    put(text, " |");
    for event in events {
        tell_event(text, event);
    }
}
