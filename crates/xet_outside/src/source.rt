//! Where input comes from.
ghost use Rattle.xet_outside.specs.Told.{ReadCall, SourceTold};

use std::fmt;

/// A read failed, and the count of faults rose. Nothing was taken.
#[derive(Clone, Copy, PartialEq, Eq, Debug)]
pub struct SourceFault;

impl fmt::Display for SourceFault {
    fn fmt<W: fmt::Write>(&self, f: &mut fmt::Formatter<W>) -> fmt::Result {
        write!(f, "SourceFault")
    }
}

impl std::error::Error for SourceFault {}

/// An input of bytes.
pub trait Source {
    /// The bytes that are left, where they are told, and the count of faults.
    ghost told: { Self → SourceTold };

    /// Takes bytes into the front of the buffer, and answers how many. None for a nonempty buffer means the end of the
    /// input. A fault comes only where the count of faults rose, and an Ok leaves that count.
    fn read(&mut self, into: &mut [u8]) -> Result<usize, SourceFault>
        ensures { ReadCall (told self.old) (told self.new) into.new result };
}
