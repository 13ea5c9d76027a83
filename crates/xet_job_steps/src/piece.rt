//! A piece of a source.
ghost use Rattle.std.specs.Prelude.{◌≡◌, ◌<◌, ◌≤◌, IfErr, IfSome, None, OnErr, OnOk, length, take};
ghost use Rattle.xet_outside.specs.Told.{ReadCall};
ghost use Rattle.xet_job_steps.specs.Pieces.{ReadsPiece};

use xet_outside::{Source, SourceFault};

/// Reads the next piece of a source into a buffer, and says in `ready` how many bytes came. `keeper` is what the pieces
/// are for. It takes no memory.
///
/// A fault of the source leaves nothing of the keeper, and `ready` as it was.
pub fn read_piece<I: Source, K: Drop>(
    source: &mut I,
    keeper: &mut Option<K>,
    buffer: &mut [u8],
    ready: &mut Option<usize>,
) -> Result<(), SourceFault>
    ensures ok { OnOk result (ReadsPiece (I.told source.old) (I.told source.new) buffer.new ready.new) }
    ensures kept { OnOk result (keeper.new ≡ keeper.old) }
    ensures err { IfErr result (λ fault. ReadCall (I.told source.old) (I.told source.new) buffer.new (Err fault)) }
    ensures ended { OnErr result (keeper.new ≡ None) }
    ensures unread { OnErr result (ready.new ≡ ready.old) }
{
    match source.read(buffer) {
        Ok(count) => {
            *ready = Some(count);
            Ok(())
        }
        Err(fault) => {
            *keeper = None;
            Err(fault)
        }
    }
}

/// The piece of so many bytes at the front of a buffer. None where it is empty, which is the end of the source.
pub fn ready_piece(buffer: &[u8], count: usize) -> Option<&[u8]>
    requires { count ≤ length buffer.now }
    ensures piece { IfSome result (λ piece. piece.now ≡ take count buffer.now) }
    ensures some { IfSome result (λ piece. 0 < count) }
    ensures none { result ≡ None → count ≡ 0 }
{
    if count == 0 {
        return None;
    }
    Some(&buffer[..count])
}
