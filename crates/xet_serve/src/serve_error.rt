//! Why a session ended early.
ghost use Rattle.std.specs.Prelude.{◌≡◌};
ghost use Rattle.xet_serve.specs.steps.Errors.{of_line_fault, of_sink_error};
ghost use Rattle.xet_serve.specs.declared.serve_error.ServeError.TheVariants as serve_error;

use thiserror::Error;
use xet_base::OutOfMemory;
use xet_error::Setting;
use xet_outside::SinkError;
use xet_serve_lines::LineFault;

/// Why a session ended early.
#[derive(Clone, Copy, PartialEq, Eq, Debug, Drop, Error)]
pub enum ServeError {
    /// An allocation was refused.
    #[error("OutOfMemory")]
    OutOfMemory,
    /// A read failed, and the source's count of faults rose.
    #[error("ReadFault")]
    ReadFault,
    /// A write failed, and the sink's count of faults rose.
    #[error("WriteFault")]
    WriteFault,
    /// 1,025 bytes of a line have no line end. `OVER` was written and flushed.
    #[error("LineTooLong")]
    LineTooLong,
    /// More than 67,108,864 bytes were read.
    #[error("InputLimit")]
    InputLimit,
    /// This setting of the runs fails first. Nothing was read.
    #[error("ConfigurationError")]
    ConfigurationError(Setting),
}

/// Want of memory stays want of memory.
impl From<OutOfMemory> for ServeError {
    ghost from_gives = { λ _ e. e ≡ serve_error.OutOfMemory };

    fn from(_: OutOfMemory) -> ServeError {
        ServeError::OutOfMemory
    }
}

/// Want of memory stays want of memory, and a fault is `WriteFault`.
impl From<SinkError> for ServeError {
    ghost from_gives = { λ error e. e ≡ of_sink_error error };

    fn from(error: SinkError) -> ServeError {
        match error {
            SinkError::OutOfMemory => ServeError::OutOfMemory,
            SinkError::Failed => ServeError::WriteFault,
        }
    }
}

/// A fault is `ReadFault`, and the limit stays the limit.
impl From<LineFault> for ServeError {
    ghost from_gives = { λ fault e. e ≡ of_line_fault fault };

    fn from(fault: LineFault) -> ServeError {
        match fault {
            LineFault::ReadFault => ServeError::ReadFault,
            LineFault::InputLimit => ServeError::InputLimit,
        }
    }
}
