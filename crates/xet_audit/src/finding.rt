//! What an audit finds.
pub use xet_findings::{AuditReport, Finding};
