//! The put of a xorb.
ghost use Rattle.xet_session_end.specs.Puts.{PutsXorb};

use std::alloc::Global;
use xet_base::Xorb;
use xet_outside::ClientError;
use xet_upload::DataError;
use xet_uploader::Uploader;

/// Puts a xorb, and answers how many bytes were sent. A refusal is kept in `failed`: `ClientError` where the uploader
/// failed, `OutOfMemory` where it was refused an allocation. It takes no memory of its own.
///
/// In the Rust crate xet-data: the put in `FileUploadSession::register_new_xorb`.
pub fn put_xorb<U: Uploader>(
    alloc: Global,
    uploader: &mut U,
    failed: &mut Option<ClientError>,
    xorb: &Xorb,
) -> Result<u64, DataError>
    ensures { PutsXorb (U.told uploader.old) (U.told uploader.new) failed.old failed.new xorb.now result }
{
    match uploader.put_xorb(alloc, xorb) {
        Ok(sent) => Ok(sent),
        Err(refused) => {
            *failed = Some(refused);
            Err(DataError::from(refused))
        }
    }
}
