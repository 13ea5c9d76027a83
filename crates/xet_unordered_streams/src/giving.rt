//! Items of due terms.
ghost use Rattle.std.specs.Prelude.{◌≡◌};
ghost use Rattle.xet_events.specs.declared.event.Event.TheVariants.{Fail};
ghost use Rattle.xet_stream_rules.specs.Streams.{IsOpen, MayGoOn};
ghost use Rattle.xet_ties.specs.PartCalls.{stop_event};
ghost use Rattle.xet_unordered_streams.specs.Items.{AfterStep, GivesNow};
ghost use Rattle.xet_unordered_streams.specs.Placing.{is_early};
ghost use Rattle.xet_unordered_streams.specs.steps.Giving.{AddsPlace, AnyDue, AnyView, DueFor, FailsSo, HintView};
ghost use Rattle.xet_unordered_streams.specs.steps.Giving.{KeepsOn};
ghost use Rattle.xet_unordered_streams.specs.steps.Giving.{KnownCall, KnownDue, PlaceFor};

use crate::due_terms::{Due, first_due, hinted_due};
use crate::early_terms::EarlyTerms;
use crate::unordered_download_stream::UnorderedDownloadStream;
use bytes::Bytes;
use std::alloc::Global;
use std::sync::Wait;
use xet_blocks::FetchPolicy;
use xet_error::{FileReconstructionError, Result};
use xet_ready_terms::ReadyTerms;
use xet_run::EventLog;
use xet_stream_rules::Step;
use xet_streams::Stepper;

/// The bytes of a due term that the hints know of.
pub(crate) fn known_due<P: FetchPolicy, E: EventLog>(
    alloc: Global,
    stepper: &Stepper<P, E>,
    early: &EarlyTerms,
    terms: &mut ReadyTerms,
) -> Result<Option<Due>>
    ensures { HintView stepper.now (is_early early.now) result }
{
    let from = stepper.range_start();
    match stepper.leader() {
        Some(leader) => hinted_due(alloc, leader, early, from, terms),
        None => Ok(None),
    }
}

/// The bytes of a due term. It takes linear time in the admitted terms where the hints know of none.
fn any_due<P: FetchPolicy, E: EventLog>(
    alloc: Global,
    stepper: &Stepper<P, E>,
    early: &EarlyTerms,
    terms: &mut ReadyTerms,
) -> Result<Option<Due>>
    requires { IsOpen stepper.now }
    ensures { AnyView stepper.now (is_early early.now) result }
{
    match known_due(alloc, stepper, early, terms) {
        Ok(Some(due)) => Ok(Some(due)),
        Ok(None) => seek_due(alloc, stepper, early),
        Err(error) => Err(error),
    }
}

/// The bytes of the first due term.
fn seek_due<P: FetchPolicy, E: EventLog>(
    alloc: Global,
    stepper: &Stepper<P, E>,
    early: &EarlyTerms,
) -> Result<Option<Due>>
    requires { IsOpen stepper.now }
    ensures { AnyView stepper.now (is_early early.now) result }
{
    stepper.check_open();
    let from = stepper.range_start();
    match stepper.leader() {
        Some(leader) => first_due(alloc, leader, early, from),
        None => Ok(None),
    }
}

impl<P: FetchPolicy + Drop> UnorderedDownloadStream<P> {
    /// Gives a due term, where there is one that the hints know of.
    pub(crate) fn give_known<R: Wait>(
        &mut self,
        rt: &R,
        alloc: Global,
    ) -> Option<Result<Step<Option<(u64, Bytes)>>>>
        requires { IsOpen self.old.stream }
        ensures known { KnownCall self.old self.new result }
        ensures stands { KeepsOn self.old self.new }
    {
        match self.find_known(alloc) {
            Ok(Some(due)) => Some(self.give(rt, due)),
            Ok(None) => None,
            Err(error) => Some(Err(self.fail(error))),
        }
    }

    /// A due term that the hints know of.
    fn find_known(&mut self, alloc: Global) -> Result<Option<Due>>
        requires { IsOpen self.old.stream }
        ensures same { self.new ≡ self.old }
        ensures known { KnownDue self.old result }
    {
        known_due(alloc, &self.stepper, &self.early, &mut self.terms)
    }

    /// A due term.
    fn find_any(&mut self, alloc: Global) -> Result<Option<Due>>
        requires { IsOpen self.old.stream }
        ensures same { self.new ≡ self.old }
        ensures any { AnyDue self.old result }
    {
        any_due(alloc, &self.stepper, &self.early, &mut self.terms)
    }

    /// An item of a due term at a step's end, else that none is there yet of a stream that may go on.
    pub(crate) fn after_step<R: Wait>(
        &mut self,
        rt: &R,
        alloc: Global,
    ) -> Result<Step<Option<(u64, Bytes)>>>
        requires { MayGoOn self.old.stream }
        ensures after { AfterStep self.old self.new result }
        ensures stands { KeepsOn self.old self.new }
    {
        match self.find_any(alloc) {
            Ok(Some(due)) => self.give(rt, due),
            Ok(None) => Ok(Step::Pending),
            Err(error) => Err(self.fail(error)),
        }
    }

    /// Gives a due term, at its place, and reports it as written. `OutOfMemory` where memory for its place was refused.
    fn give<R: Wait>(&mut self, rt: &R, due: Due) -> Result<Step<Option<(u64, Bytes)>>>
        requires still { IsOpen self.old.stream }
        requires due { DueFor self.old due }
        ensures gives { GivesNow self.old self.new result }
        ensures stands { KeepsOn self.old self.new }
    {
        if !self.add_place(due.number, due.place) {
            return Err(self.fail(FileReconstructionError::OutOfMemory));
        }
        self.report(rt, due.bytes.len() as u64);
        Ok(Step::Ready(Some((due.place, due.bytes))))
    }

    /// Adds a due term and its place. Whether there was memory for them; else nothing changes.
    fn add_place(&mut self, number: u64, place: u64) -> bool
        requires still { IsOpen self.old.stream }
        requires place { PlaceFor self.old number place }
        ensures { AddsPlace self.old self.new place result }
    {
        if self.delivered.reserve(1).is_err() {
            return false;
        }
        if !self.early.add(number) {
            return false;
        }
        self.delivered.push_reserved(place);
        true
    }

    /// Ends the stream by an error, which is recorded and told: it, or `OutOfMemory` where memory was refused.
    fn fail(&mut self, error: FileReconstructionError) -> FileReconstructionError
        requires still { IsOpen self.old.stream }
        requires plain { stop_event error ≡ Fail error }
        ensures told { FailsSo self.old self.new error result }
        ensures stands { KeepsOn self.old self.new }
    {
        let told = self.stepper.fail(error);
        self.stepper.check_history();
        told
    }

    /// Reports so many bytes as written; a refused report changes nothing.
    fn report<R: Wait>(&self, rt: &R, length: u64) {
        if let Some(progress) = self.stepper.progress() {
            let _ = progress.report_bytes_written(rt, length);
        }
    }
}
