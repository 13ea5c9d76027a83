//! Sinks and sources: over bytes in memory, over writers and readers of std, and a sink of hexadecimal digits.
#![tactic(auto)]

pub mod buffered_sink;
mod hex_digits;
pub mod hex_sink;
pub mod mem_file;
mod pushing;
pub mod read_source;
pub mod script_sink;
pub mod script_source;
mod tries;
pub mod vec_sink;
pub mod vec_source;
pub mod write_sink;

pub use buffered_sink::BufferedSink;
pub use hex_sink::HexSink;
pub use mem_file::MemFile;
pub use read_source::ReadSource;
pub use script_sink::{ScriptSink, SinkStep};
pub use script_source::{ScriptSource, SourceStep};
pub use vec_sink::VecSink;
pub use vec_source::VecSource;
pub use write_sink::{FileSink, WriteSink};
