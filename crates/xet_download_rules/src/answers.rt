//! What is answered for a run.
ghost use Rattle.std.specs.Prelude.{◌≡◌};
ghost use Rattle.xet_download_rules.specs.Answers.{answer_of, counted};

use xet_error::FileReconstructionError;
use xet_upload::DataError;

// The count of bytes, where it is the expected one.
fn count(expected: Option<u64>, count: u64) -> Result<u64, DataError>
    ensures { result ≡ counted expected count }
{
    match expected {
        Some(expected) if expected != count => Err(DataError::SizeMismatch {
            expected,
            actual: count,
        }),
        _ => Ok(count),
    }
}

/// What is answered for a run, of which so many bytes are expected, or any number: its count of bytes. It takes no
/// memory.
///
/// `SizeMismatch` exactly where the run answered another count than the expected one, with both.
/// `FileReconstructionError` with the error of the run, which for want of memory is `OutOfMemory`.
///
/// In the Rust crate xet-data: the end of `FileDownloadSession::download_file_with_id`.
pub fn answer_of_run(
    expected: Option<u64>,
    run: Result<u64, FileReconstructionError>,
) -> Result<u64, DataError>
    ensures { result ≡ answer_of expected run }
{
    match run {
        Ok(written) => count(expected, written),
        Err(error) => Err(DataError::from(error)),
    }
}
