//! Managers: their queries, the plans that they hand out, what a policy is shown, and what is reported.
ghost use Rattle.std.specs.Prelude.{◌≡◌, ◌<◌, IfOk, Some, slice_get};

use crate::calls::calls_come_to;
use crate::connection::Connection;
use crate::row::Row;
use crate::told::{put, put_behind, put_range, tell_error};
use std::alloc::Global;
use std::sync::Wait;
use xet_progress::ItemProgressUpdater;
use xet_terms::{
    FetchPolicy, PrefetchView, ReconstructionConfig, ReconstructionTermManager, Result,
    retrieve_file_term_block,
};

/// Of a manager that plans nothing ahead by its settings, and is asked for the next terms so many times as `calls`
/// says: the plans that are handed out, `none` or the error; how many plans the connection was asked for, the bytes and
/// the bytes to be transferred that are reported, and how many plans and bytes wait at each look of the policy. Where
/// two queries are `taken`, the first alone is answered before.
const RUNS: &str = "\
file b; to 16; least 4; greatest 8; calls 4: 0..4 4..12 12..16 none 3 16 21; 0 0, 2 12, 1 4, 0 0,
file b; to 16; least 4; greatest 8; calls 4; lanes p; plan 0;17 3 0 1;17:0 1: 0..3 none none none 1 3 10; 0 0,
file b; to 16; least 4; greatest 8; calls 4; lanes .e: 0..4 none none none 2 4 5; 0 0,
file b; to 16; least 4; greatest 8; calls 4; lanes e: none none none none 1 0 0; 0 0,
file b; to 16; least 4; greatest 8; calls 2; lanes .f: ClientError ClientError 2 4 5; 0 0,
file b; to 16; least 4; greatest 8; calls 4; lanes ..e: 0..4 4..12 none none 3 12 16; 0 0,
file b; to 12; least 8; greatest 1000; calls 4: 0..12 none none none 1 12 11; 0 0, 0 0, 0 0, 0 0,
file b; to 20; least 8; greatest 1000; calls 4: 0..8 8..20 none none 2 20 23; 0 0, 1 12, 0 0, 0 0,
to 0; least 4; greatest 1000; calls 4; lanes f: none none none none 0 0 0; 0 0, 0 0, 0 0, 0 0,
to 24; least 0; greatest 0; calls 4; lanes f: ConfigurationError(LeastZero) 0 0 0;
to 24; least 5; greatest 4; calls 4; lanes f: ConfigurationError(GreatestBelowLeast) 0 0 0;
to 16; least 4; greatest 8; calls 2; lanes fe: ClientError ClientError 1 0 0; 0 0,
to 16; least 4; greatest 8; calls 2; lanes pe; plan no memory: OutOfMemory OutOfMemory 1 0 0; 0 0,
to 16; least 4; greatest 8; calls 2; lanes ne: FileNotFound FileNotFound 1 0 0; 0 0,
to 16; least 4; greatest 8; calls 2; lanes p; plan 7;17 6 0 1;17:0 1: Offset { offset: 7, length: 6 } \
Offset { offset: 7, length: 6 } 1 0 0; 0 0,
to 16; least 4; greatest 8; calls 2; lanes p; plan 0;17 4 0 2;17:0 1: NoRange { term: 0 } NoRange { term: 0 } \
1 0 0; 0 0,
to 16; least 4; greatest 8; calls 2; lanes p; plan 0;2 4 0 1;17:0 1: NoXorb { term: 0 } NoXorb { term: 0 } 1 0 0; 0 0,
to 16; least 4; greatest 8; calls 2; lanes p; plan 0;17 4 0 1 17 3 1 2 17 1 2 3;17:0 3: \
Trim { excess: 4, length: 1 } Trim { excess: 4, length: 1 } 1 0 0; 0 0,
file b; to 16; least 4; greatest 8; taken; calls 4; lanes ..e: 0..4 4..12 none none 3 12 16; 1 4, 1 8, 0 0,
file b; to 16; least 4; greatest 8; taken; calls 2; lanes p.; plan 0;17 3 0 1;17:0 1: \
PastKnownEnd { known: 3, start: 4 } PastKnownEnd { known: 3, start: 4 } 2 3 10;
file b; to 16; least 4; greatest 8; taken; calls 4; lanes pe; plan 0;17 3 0 1;17:0 1: 0..3 none none none 2 3 10;";

/// A policy that notes what it is shown, and answers 0.
#[derive(Drop)]
struct Watching<'a> {
    views: &'a mut String,
}

impl<'a> FetchPolicy for Watching<'a> {
    fn prefetch_buffer_size(&mut self, view: PrefetchView) -> u64 {
        put_behind(self.views, ' ', view.waiting_plans as u64);
        put_behind(self.views, ' ', view.waiting_bytes);
        put(self.views, ',');
        0
    }
}

/// A manager of a row, which asked nothing.
fn manager<'a>(
    alloc: Global,
    row: Row<'_>,
    views: &'a mut String,
    item: ItemProgressUpdater,
) -> Result<ReconstructionTermManager<Watching<'a>>>
    ensures { IfOk result (λ m. m.asked ≡ m.answered) }
{
    let config = ReconstructionConfig {
        min_prefetch_buffer: 0,
        ..row.config()
    };
    let policy = Watching { views };
    ReconstructionTermManager::new(alloc, &config, row.file(), row.range(), policy, Some(item))
}

/// Takes two queries, and the answer to the first.
fn take_two<R: Wait, P: FetchPolicy>(
    alloc: Global,
    rt: &R,
    row: Row<'_>,
    manager: &mut ReconstructionTermManager<P>,
    client: &mut Connection<'_>,
)
    requires { manager.old.asked ≡ manager.old.answered }
{
    if let Some(first) = manager.due()
        && manager.due().is_some()
        && let Ok(answer) = retrieve_file_term_block(
            alloc,
            client,
            row.file(),
            first.query,
            false,
            first.id,
        )
    {
        let _ = manager.accept(rt, first, answer);
    }
}

/// `0..4 `: the next terms; `none ` or the error.
fn tell_next<R: Wait, P: FetchPolicy>(
    text: &mut String,
    alloc: Global,
    rt: &R,
    manager: &mut ReconstructionTermManager<P>,
    client: &mut Connection<'_>,
) {
    match manager.next_file_terms(alloc, rt, client) {
        Ok(Some(plan)) => put_range(text, plan.byte_range.start, plan.byte_range.end),
        Ok(None) => put(text, "none"),
        Err(error) => tell_error(text, error),
    }
    put(text, ' ');
}

/// What comes of the calls.
fn tell_calls<R: Wait, P: FetchPolicy>(
    text: &mut String,
    alloc: Global,
    rt: &R,
    row: Row<'_>,
    manager: &mut ReconstructionTermManager<P>,
    client: &mut Connection<'_>,
)
    requires { manager.old.asked ≡ manager.old.answered }
{
    if row.has("taken") {
        take_two(alloc, rt, row, manager, client);
    }
    for _ in 0..row.number("calls", 0) {
        tell_next(text, alloc, rt, manager, client);
    }
}

/// What comes of the calls of a manager, if there is one.
fn tell_run<R: Wait>(
    text: &mut String,
    views: &mut String,
    alloc: Global,
    rt: &R,
    row: Row<'_>,
    client: &mut Connection<'_>,
    item: ItemProgressUpdater,
) {
    match manager(alloc, row, views, item) {
        Ok(mut manager) => tell_calls(text, alloc, rt, row, &mut manager, client),
        Err(error) => {
            tell_error(text, error);
            put(text, ' ');
        }
    }
}

/// The same, with how many plans the connection was asked for, what is reported, and what the policy was shown.
pub(crate) fn tell_manager<R: Wait>(
    text: &mut String,
    alloc: Global,
    rt: &R,
    row: Row<'_>,
    client: &mut Connection<'_>,
    item: &ItemProgressUpdater,
) {
    let mut views = String::new(alloc);
    if let Ok(shared) = item.share() {
        tell_run(text, &mut views, alloc, rt, row, client, shared);
    }
    let report = item.group().report(rt);
    put(text, client.plans);
    put_behind(text, ' ', report.total_bytes);
    put_behind(text, ' ', report.total_transfer_bytes);
    put(text, ';');
    put(text, views.as_str());
}

#[test]
fn runs_of_a_manager(rt: HostRuntime) {
    calls_come_to(&rt, rt.alloc(), RUNS);
}
