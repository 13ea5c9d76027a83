//! Where files are cut into chunks.
ghost use Rattle.std.specs.Prelude.{◌≡◌, ◌<◌, ◌≤◌, ℕ, Bool, List, Option, IfSome, None, Some, false, length};
ghost use Rattle.xet_upload.specs.Cuts.{clamped, fixed_cut};
ghost use Rattle.xet_waiting.specs.Limits.{most_chunk_bytes};

use xet_waiting::CHUNK_BYTES;

/// Says where the next chunk of a file ends.
///
/// In the Rust crates: `deduplication::Chunker`, whose place it takes.
pub trait Cutter {
    /// What it answers for some pending bytes, where it tells that.
    ghost told: { Self → List ℕ → Bool → Option (Option ℕ) };

    /// How many of the pending bytes are the next chunk, or none where it waits for more. `last` tells that no more
    /// bytes come. There are pending bytes. What it tells for other bytes stays as it was.
    fn cut(&mut self, pending: &[u8], last: bool) -> Option<usize>
        requires { 0 < length pending.now }
        ensures answer { IfSome (told self.old pending.now last) (λ answer. result ≡ answer) }
        ensures kept { told self.new ≡ told self.old };
}

impl<T: Cutter> Cutter for &mut T {
    ghost told = { λ c. T.told c.now };

    fn cut(&mut self, pending: &[u8], last: bool) -> Option<usize> {
        (**self).cut(pending, last)
    }
}

/// Cuts chunks of one size; the last may be shorter.
#[derive(Clone, Copy, PartialEq, Eq)]
pub struct FixedCutter {
    /// How many bytes a chunk has.
    pub size: usize,
}

impl Cutter for FixedCutter {
    ghost told = { λ c pending _. Some (fixed_cut c.size (length pending)) };

    /// The size, and none exactly where fewer bytes are pending. The cutter stays as it was.
    fn cut(&mut self, pending: &[u8], _last: bool) -> Option<usize>
        ensures answer { result ≡ fixed_cut self.old.size (length pending.now) }
        ensures kept { self.new ≡ self.old }
    {
        if self.size <= pending.len() {
            Some(self.size)
        } else {
            None
        }
    }
}

/// How many of the pending bytes are the next chunk: at least one, and at most what a chunk may have. None where more
/// bytes are waited for, which comes neither at the end nor where a whole chunk is pending. The cutter is asked once.
pub fn next_cut<T: Cutter>(cutter: &mut T, pending: &[u8], last: bool) -> Option<usize>
    requires { 0 < length pending.now }
    ensures exact { IfSome (T.told cutter.old pending.now last) (λ answer.
        result ≡ clamped answer (length pending.now) last) }
    ensures some { IfSome result (λ n. 0 < n) }
    ensures within { IfSome result (λ n. n ≤ length pending.now) }
    ensures short { IfSome result (λ n. n ≤ most_chunk_bytes) }
    ensures not_last { result ≡ None → last ≡ false }
    ensures few { result ≡ None → length pending.now < most_chunk_bytes }
    ensures kept { T.told cutter.new ≡ T.told cutter.old }
{
    let most = pending.len().min(CHUNK_BYTES);
    match cutter.cut(pending, last) {
        Some(size) => Some(size.max(1).min(most)),
        None => {
            if last || pending.len() >= CHUNK_BYTES {
                Some(most)
            } else {
                None
            }
        }
    }
}
