//! The lines of a report.
ghost use Rattle.std.specs.Prelude.{◌≡◌, ◌++◌, IfOk, string_bytes};
ghost use Rattle.std.specs.List.{flat_map};
ghost use Rattle.xet_outside.specs.Written.{WroteAll};
ghost use Rattle.xet_audit_command.specs.Audit.{finding_line, report_text, spare_line};

use std::alloc::Global;
use xet_audit::{AuditReport, Finding};
use xet_base::{MerkleHash, OutOfMemory};
use xet_store::{Sink, SinkError, write_plainly};

// The line of a finding.
fn line_of_finding(alloc: Global, finding: &Finding) -> Result<String, OutOfMemory>
    ensures { IfOk result (λ text. string_bytes text ≡ finding_line finding.now) }
{
    let Finding { kind, a, b } = *finding;
    Ok(format!(in alloc; "finding {kind} {a} {b}\n")?)
}

// The line of a spare xorb.
fn line_of_spare(alloc: Global, hash: &MerkleHash) -> Result<String, OutOfMemory>
    ensures { IfOk result (λ text. string_bytes text ≡ spare_line hash.now) }
{
    let digits = hex::encode(alloc, hash.0.as_slice())?;
    Ok(format!(in alloc; "spare {digits}\n")?)
}

// Writes the line of a finding.
fn write_finding<O: Sink>(alloc: Global, finding: &Finding, out: &mut O) -> Result<(), SinkError>
    ensures { WroteAll (O.told out.old) (O.told out.new) (finding_line finding.now) result }
{
    match line_of_finding(alloc, finding) {
        Ok(line) => write_plainly(out, line.as_bytes()),
        Err(_) => Err(SinkError::OutOfMemory),
    }
}

// Writes the line of a spare xorb.
fn write_spare<O: Sink>(alloc: Global, hash: &MerkleHash, out: &mut O) -> Result<(), SinkError>
    ensures { WroteAll (O.told out.old) (O.told out.new) (spare_line hash.now) result }
{
    match line_of_spare(alloc, hash) {
        Ok(line) => write_plainly(out, line.as_bytes()),
        Err(_) => Err(SinkError::OutOfMemory),
    }
}

// Writes the line of each finding. After an error nothing more is written.
fn write_findings<O: Sink>(
    alloc: Global,
    findings: &[Finding],
    out: &mut O,
) -> Result<(), SinkError>
    ensures { WroteAll (O.told out.old) (O.told out.new) (flat_map finding_line findings.now) result }
{
    for finding in findings {
        match write_finding(alloc, finding, out) {
            Ok(()) => {}
            Err(error) => return Err(error),
        }
    }
    Ok(())
}

// Writes the line of each spare xorb. After an error nothing more is written.
fn write_spares<O: Sink>(alloc: Global, spare: &[MerkleHash], out: &mut O) -> Result<(), SinkError>
    ensures { WroteAll (O.told out.old) (O.told out.new) (flat_map spare_line spare.now) result }
{
    for hash in spare {
        match write_spare(alloc, hash, out) {
            Ok(()) => {}
            Err(error) => return Err(error),
        }
    }
    Ok(())
}

/// Writes the lines of a report: those of all findings, and then those of the spare xorbs. One line at a time is in
/// memory, and after an error nothing more is written.
pub(crate) fn write_report<O: Sink>(
    alloc: Global,
    report: &AuditReport,
    out: &mut O,
) -> Result<(), SinkError>
    ensures { WroteAll (O.told out.old) (O.told out.new) (report_text report.now.findings report.now.spare) result }
{
    match write_findings(alloc, report.findings.as_slice(), out) {
        Ok(()) => write_spares(alloc, report.spare.as_slice(), out),
        Err(error) => Err(error),
    }
}
