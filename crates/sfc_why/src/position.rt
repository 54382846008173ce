//! Lines and columns.

ghost use Rattle.std.specs.Prelude.{◌≡◌, ◌<◌, ◌≤◌, ◌+◌, ◌^◌};
ghost use Rattle.sfc_tokens.specs.Texts as texts;
ghost use Rattle.sfc_why.specs.Positions as positions;

/// A line and a column, each counted from 1. A character is one column wide.
#[derive(Clone, Copy)]
pub struct Position {
    pub line: usize,
    pub column: usize,
}

// The bytes without EF BB BF at their start.
fn without_mark(bytes: &[u8]) -> &[u8]
    ensures { result.now ≡ texts.without_mark bytes.now }
{
    match bytes {
        [0xef, 0xbb, 0xbf, rest @ ..] => rest,
        _ => bytes,
    }
}

// Whether the byte goes on a character (UTF-8).
fn goes_on(byte: u8) -> bool
    ensures { result ≡ positions.goes_on byte }
{
    byte >= 128 && byte < 192
}

// The column behind a byte.
fn next_column(column: usize, byte: u8) -> usize
    requires { column < 2 ^ 63 }
    ensures value { result ≡ positions.next_column column byte }
    ensures most { result ≤ 1 + column }
{
    if byte == b'\n' {
        1
    } else if goes_on(byte) {
        column
    } else {
        column + 1
    }
}

// The line behind these bytes, which are the front of a text.
#[tactic(auto, unfolding(crate::specs::Positions::line_behind))]
fn line_behind(bytes: &[u8]) -> usize
    ensures { result ≡ positions.line_behind 1 bytes.now }
{
    let mut line = 1;
    let mut rest = bytes;
    'all: while let Some((byte, after)) = rest.split_first() {
        if *byte == b'\n' {
            line += 1;
        }
        rest = after;
    }
    line
}

// The column behind these bytes, which are the front of a text.
#[tactic(auto, unfolding(crate::specs::Positions::column_behind))]
fn column_behind(bytes: &[u8]) -> usize
    ensures { result ≡ positions.column_behind 1 bytes.now }
{
    let mut column = 1;
    let mut rest = bytes;
    'all: while let Some((byte, after)) = rest.split_first() {
        column = next_column(column, *byte);
        rest = after;
    }
    column
}

/// The line and the column behind these bytes, which are the front of a text.
pub fn position_behind(front: &[u8]) -> Position
    ensures { result ≡ positions.position_behind front.now }
{
    Position {
        line: line_behind(front),
        column: column_behind(without_mark(front)),
    }
}
