//! Cuts a text at a byte.
ghost use Rattle.std.specs.Prelude.{◌≡◌, ◌+◌, ◌<◌, length, map, option_map, IfSome};
ghost use Rattle.xet_track.specs.Lines.{before, behind};

/// What stands before the first such byte, and what stands after it.
pub(crate) fn cut<'a>(text: &'a [u8], sep: u8) -> (&'a [u8], Option<&'a [u8]>)
    ensures before { result.0.now ≡ before sep text.now }
    ensures behind { option_map (λ r. r.now) result.1 ≡ behind sep text.now }
    ensures shorter { IfSome result.1 (λ r. length r.now < length text.now) }
{
    for at in 0..text.len() {
        if text[at] == sep {
            return (&text[..at], Some(&text[at + 1..]));
        }
    }
    (text, None)
}
