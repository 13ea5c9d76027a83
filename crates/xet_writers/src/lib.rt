//! Writers of terms: one writes them in order into a sink, the other gives them out in the order of completion.
#![tactic(auto)]

pub mod data_writer;
pub mod laws;

pub use data_writer::sequential_writer::SequentialWriter;
pub use xet_queue::{
    CompletedTerm, DataWriter, QueuedTerm, UnorderedWriter, UnorderedWriterProgress, WantedTerm,
};
