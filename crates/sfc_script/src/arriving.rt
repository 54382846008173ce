//! Lines of text that comes in pieces.

ghost use Rattle.std.specs.Prelude.{◌≡◌, ◌<◌, length, MatchOption, IfSome, Some, None};
ghost use Rattle.sfc_script.specs.Arriving as arriving;

use crate::split::{split_line, without_cr};

/// Of bytes that came so far the first line that has its end, without it, and what stands behind that; None where no line has
/// its end yet. A line ends with LF, or CR LF. It takes no memory.
pub fn ended_line(bytes: &[u8]) -> Option<(&[u8], &[u8])>
    ensures line { MatchOption result (arriving.ended_line bytes.now ≡ None)
        (λ r. arriving.ended_line bytes.now ≡ Some (r.0.now, r.1.now)) }
    ensures shorter { IfSome result (λ r. length r.1.now < length bytes.now) }
{
    let (line, behind) = split_line(bytes);
    match behind.split_first() {
        None => None,
        Some((_, rest)) => Some((without_cr(line), rest)),
    }
}
