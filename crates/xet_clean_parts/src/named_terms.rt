//! Whether a session knows the xorbs that the terms of a file name.
ghost use Rattle.std.specs.Prelude.{◌≡◌, ◌∷◌, [], All, Contains, IfSome, None};
ghost use Rattle.xet_upload_session.specs.Sessions.{named_by};
ghost use Rattle.xet_clean_parts.specs.Cleanings.{IsFirstUnlisted};
ghost use Rattle.xet_clean_parts.specs.Cleanings.{AreNamed};

use xet_base::MerkleHash;
use xet_shards::ShardStore;
use xet_upload::{FileParts, TermXorb, WaitingTerm};
use xet_upload_session::FileUploadSession;
use xet_uploader::Uploader;

// The stored xorb that a term names, where it is not on the session's list.
fn unlisted<U: Uploader, R: ShardStore>(
    session: &FileUploadSession<U, R>,
    term: &WaitingTerm,
) -> Option<MerkleHash>
    ensures some { IfSome result (λ h. named_by term.now.xorb ≡ h ∷ []) }
    ensures missing { IfSome result (λ h. Contains session.now.listed.hashes.items h → ⊥) }
    ensures none { result ≡ None → All (Contains session.now.listed.hashes.items) (named_by term.now.xorb) }
{
    match term.xorb {
        TermXorb::Own => None,
        TermXorb::Stored(hash) => {
            if session.lists(&hash) {
                None
            } else {
                Some(hash)
            }
        }
    }
}

// The first stored xorb that some terms name and that is not on the session's list.
fn unlisted_among<U: Uploader, R: ShardStore>(
    session: &FileUploadSession<U, R>,
    terms: &[WaitingTerm],
) -> Option<MerkleHash>
    ensures some { IfSome result (IsFirstUnlisted session.now.listed.hashes.items terms.now) }
    ensures none { result ≡ None → AreNamed session.now.listed.hashes.items terms.now }
{
    for term in terms {
        if let Some(hash) = unlisted(session, term) {
            return Some(hash);
        }
    }
    None
}

/// The first stored xorb that the terms of a file name and that is not on the session's list.
pub fn first_unlisted<U: Uploader, R: ShardStore>(
    session: &FileUploadSession<U, R>,
    parts: &FileParts,
) -> Option<MerkleHash>
    ensures some { IfSome result (IsFirstUnlisted session.now.listed.hashes.items parts.now.terms) }
    ensures none { result ≡ None → AreNamed session.now.listed.hashes.items parts.now.terms }
{
    let (closed, last) = parts.terms().split();
    if let Some(hash) = unlisted_among(session, closed) {
        return Some(hash);
    }
    match last {
        None => None,
        Some(term) => unlisted(session, &term),
    }
}
