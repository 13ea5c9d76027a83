//! Laws of files that were uploaded and are downloaded, as functions whose contracts state them.
ghost use Rattle.xet_roundtrip.specs.ComeBack.{AcceptedComesBack, ComesBack, UploadedComesBack};

use xet_clean::laws::records_are_accepted;
use xet_download::laws::downloads_are_exact;
use xet_upload_laws::laws::accepted_files_download;

/// A download by a pointer record with a file's hash, whole or in a range, that answers Ok over connections and a cache
/// which tell one valid store, writes the file's bytes in the range and counts them. One into a file, by the session or
/// by a job that it began, leaves all of them in the file and nothing else. So it is:
///
/// - where the store gives these bytes under the hash;
/// - where it has the xorbs and the accepted record of a file of an upload session;
/// - where it is the store after the log of a session that ended with Ok, by any of the three calls, of each file that
///   was finished before, under the premises of the law `accepted_files_download` of `xet_upload_laws`.
pub fn files_come_back()
    ensures given { ComesBack }
    ensures accepted { AcceptedComesBack }
    ensures uploaded { UploadedComesBack }
{
    downloads_are_exact();
    records_are_accepted();
    accepted_files_download();
}
