//! What the front of a stream is.

ghost use Rattle.std.specs.Prelude.{◌≡◌};
ghost use Rattle.sfc_frames.specs.Heads as heads;
ghost use Rattle.sfc_frames.specs.Views.{as_cut};

use crate::frame_fault::Malformed;
use crate::line::{Field, field_of, is_end, line_of};

/// The most bytes of a line of a head.
const LONGEST_LINE: usize = 1024;

/// The most lines of a head, with the empty one.
const MOST_LINES: usize = 16;

/// What the front of a stream is.
#[derive(Clone, Copy, Debug)]
pub enum Cut<'a> {
    /// A message, and what stands behind its frame.
    Whole(&'a [u8], &'a [u8]),
    /// Less than a frame.
    Short,
    /// No frame begins so.
    Wrong(Malformed),
}

// What stands behind the empty line, before which this length was said.
fn body(said: Option<u64>, bytes: &[u8]) -> Cut<'_>
    ensures { as_cut result ≡ heads.body said bytes.now }
{
    let Some(length) = said else {
        return Cut::Wrong(Malformed::NoLength);
    };
    let length = length as usize;
    if bytes.len() < length {
        return Cut::Short;
    }
    let (message, rest) = bytes.split_at(length);
    Cut::Whole(message, rest)
}

// A head of at most so many lines, before which this length was said.
#[tactic(auto, unfolding(crate::specs::Heads::head))]
fn head(left: usize, said: Option<u64>, bytes: &[u8]) -> Cut<'_>
    ensures { as_cut result ≡ heads.head left said bytes.now }
{
    if left == 0 {
        return Cut::Wrong(Malformed::HeadTooLong);
    }
    let Some((line, rest)) = line_of(bytes) else {
        return if bytes.len() > LONGEST_LINE {
            Cut::Wrong(Malformed::HeadTooLong)
        } else {
            Cut::Short
        };
    };
    if line.len() > LONGEST_LINE {
        return Cut::Wrong(Malformed::HeadTooLong);
    }
    if is_end(line) {
        return body(said, rest);
    }
    match field_of(line) {
        Field::Other => head(left - 1, said, rest),
        Field::Length(length) => head(left - 1, Some(length), rest),
        Field::Wrong(why) => Cut::Wrong(why),
    }
}

/// What bytes are that are the front of a stream. Lines end with LF, before which a CR may stand; names of fields may be in
/// any case, fields other than Content-Length are passed over, and of several lengths the last one counts. A head has at most
/// 16 lines of at most 1,024 bytes, a message at most 16,777,216 bytes. It takes no memory.
#[tactic(auto, unfolding(crate::specs::Heads::first))]
pub fn first(bytes: &[u8]) -> Cut<'_>
    ensures { as_cut result ≡ heads.first bytes.now }
{
    head(MOST_LINES, None, bytes)
}
