//! Terms before they go out: the queue of a writer in order with the loops that write it into a sink, what every writer
//! does, and the writer that gives terms out in the order of completion.
#![tactic(auto)]

pub mod completed_term;
pub mod data_writer;
pub mod faults;
mod leaving;
mod lending;
pub mod pieces;
pub mod queued_term;
pub mod term_queue;
mod waiting;

pub use completed_term::{CompletedTerm, WantedTerm};
pub use data_writer::DataWriter;
pub use data_writer::unordered_writer::{UnorderedWriter, UnorderedWriterProgress};
pub use pieces::Sent;
pub use queued_term::QueuedTerm;
pub use term_queue::TermQueue;
