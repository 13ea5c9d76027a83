//! What every writer of terms does.
ghost use Rattle.std.specs.Prelude.{◌≡◌};
ghost use Rattle.xet_queue.specs.Calls.{FinishCall, SetCall, SetSums, SupplyCall, WriterSums, WriterTold};

use bytes::Bytes;
use std::alloc::Global;
use xet_base::FileRange;
use xet_blocks::DataSource;
use xet_error::Result;
use xet_run::Admission;

pub mod unordered_writer;

/// A writer of terms.
///
/// After bytes of a wrong length, and after an error of a sink, every later call that has a `Result` answers that
/// error. The other faults change nothing. Nor does `OutOfMemory` where an allocation of the writer was refused; where
/// the sink found no memory, it is kept as the sink's other errors are.
///
/// In the Rust crate: `file_reconstruction::data_writer::DataWriter`.
pub trait DataWriter {
    /// The ranges that wait for bytes, the place of the next term where it is tested, and whether the writer takes no
    /// more.
    ghost told: { Self → WriterTold };

    /// The bytes of all terms that it took, and the faults of its sink, if it has one.
    ghost sums: { Self → WriterSums };

    /// Takes the next term, whose bytes stand in the half-open range. The tests are, in this order: the kept error;
    /// `Finished` after the end; `Reversed` where the range's end is below its start; of a writer in order
    /// `NotSequential` where the term starts elsewhere than the one before it ends; and, where the bytes are there,
    /// `Length` where they are not as many as the range has.
    ///
    /// In the Rust crate: `file_reconstruction::data_writer::DataWriter::set_next_term_data_source`.
    fn set_next_term_data_source(
        &mut self,
        alloc: Global,
        byte_range: FileRange,
        admission: Option<Admission>,
        source: DataSource,
    ) -> Result<()>
        ensures told { SetCall (told self.old) (told self.new) byte_range source result }
        ensures sums { SetSums (sums self.old) (sums self.new) byte_range result };

    /// Gives the first wanted term with this start its bytes. The tests are, in this order: the kept error; `Finished`
    /// after the end; `NotWanted` where no wanted term has this start; and `Length` where the bytes are not as many as
    /// its range has. It takes logarithmic time in the wanted terms.
    ///
    /// In the Rust crate the future of the term gives them.
    fn supply(&mut self, alloc: Global, start: u64, bytes: Bytes) -> Result<()>
        ensures told { SupplyCall (told self.old) (told self.new) start bytes result }
        ensures sums { sums self.new ≡ sums self.old };

    /// Ends the writer, and answers the bytes delivered, which are those of all terms that it took, a sum that stops at
    /// `u64::MAX`. The tests are, in this order: the kept error; `Finished` after
    /// the end; and `StillWanted`, with the start of the first term in order that waits for bytes.
    ///
    /// In the Rust crate: `file_reconstruction::data_writer::DataWriter::finish`.
    fn finish(&mut self, alloc: Global) -> Result<u64>
        ensures { FinishCall (told self.old) (told self.new) (sums self.old) (sums self.new) result };
}
