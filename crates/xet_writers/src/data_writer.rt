//! What every writer of terms does.
pub mod sequential_writer;

pub use xet_queue::data_writer::DataWriter;
