//! Places in texts as the protocol has them: a line and a column, both counted from 0. Columns are UTF-16: a character of four bytes has
//! two, each other one has one.

ghost use Rattle.std.specs.Prelude.{◌≡◌, ◌≤◌, IfOk, IfSome, length};
ghost use Rattle.sfc_lsp.specs.Positions as positions;
ghost use Rattle.sfc_lsp.specs.Positions.{IsPosition};

use sfc_responses::position::Position;
use std::alloc::{AllocError, Global};

// Whether a line ends behind a byte that these stand behind: with LF, CR LF or CR.
fn ends_line(byte: u8, behind: &[u8]) -> bool
    ensures { result ≡ positions.ends_line byte behind.now }
{
    match behind {
        [b'\n', ..] => byte == b'\n',
        _ => byte == b'\n' || byte == b'\r',
    }
}

/// The bytes at which the lines of a text begin. The one error is that memory was refused.
#[tactic(auto, unfolding(crate::specs::Positions::starts_behind))]
pub fn line_starts(alloc: Global, text: &[u8]) -> Result<Vec<usize>, AllocError>
    ensures { IfOk result (λ starts. starts.items ≡ positions.line_starts text.now) }
{
    let mut starts = Vec::new(alloc);
    starts.push(0usize)?;
    let mut place = 0usize;
    let mut rest = text;
    'all: while let Some((byte, behind)) = rest.split_first() {
        place += 1;
        if ends_line(*byte, behind) {
            starts.push(place)?;
        }
        rest = behind;
    }
    Ok(starts)
}

// How many columns begin with a byte (UTF-8).
fn columns_of(byte: u8) -> usize
    ensures value { result ≡ positions.columns_of byte }
    ensures most { result ≤ 2 }
{
    if byte >= 128 && byte < 192 {
        0
    } else if byte >= 240 {
        2
    } else {
        1
    }
}

// Whether the byte is one of a line's end.
fn is_end(byte: u8) -> bool
    ensures { result ≡ positions.is_end byte }
{
    byte == b'\n' || byte == b'\r'
}

// How many bytes of a line stand before a column; before its end, where it has fewer columns.
#[tactic(auto, unfolding(crate::specs::Positions::bytes_before))]
fn bytes_before(line: &[u8], column: usize) -> usize
    ensures value { result ≡ positions.bytes_before 0 column line.now }
    ensures most { result ≤ length line.now }
{
    let mut count = 0usize;
    let mut left = column;
    let mut rest = line;
    'all: while let Some((byte, behind)) = rest.split_first() {
        let columns = columns_of(*byte);
        if is_end(*byte) || left < columns {
            return count;
        }
        count += 1;
        left -= columns;
        rest = behind;
    }
    count
}

/// The byte at a place of a text whose lines begin at these bytes. A column behind the end of a line is its end, and a line behind the
/// last one the end of the text.
pub fn byte_of(text: &[u8], starts: &[usize], position: Position) -> usize
    ensures { result ≡ positions.byte_at text.now starts.now position }
{
    let Some(start) = starts.get(position.line) else {
        return text.len();
    };
    let from = *start;
    if from > text.len() {
        return text.len();
    }
    let (_, line) = text.split_at(from);
    from + bytes_before(line, position.character)
}

/// How many columns these bytes have.
#[tactic(auto, unfolding(crate::specs::Positions::columns))]
pub fn columns(bytes: &[u8]) -> usize
    ensures { result ≡ positions.columns 0 bytes.now }
{
    let mut count = 0usize;
    let mut rest = bytes;
    'all: while let Some((byte, behind)) = rest.split_first() {
        count += columns_of(*byte);
        rest = behind;
    }
    count
}

// The line in which a byte stands, if it is the one that was found; and where it begins.
fn line_at(starts: &[usize], byte: usize) -> Option<(usize, usize)>
    ensures { IfSome result (λ found. positions.IsLineAt starts.now byte found.0 found.1) }
{
    let line = match starts.binary_search(&byte) {
        Ok(line) => line,
        Err(behind) => behind.saturating_sub(1),
    };
    let start = *starts.get(line)?;
    let ends_before = match starts.get(line.saturating_add(1)) {
        Some(next) => byte < *next,
        None => true,
    };
    if start <= byte && ends_before {
        Some((line, start))
    } else {
        None
    }
}

// Where a byte of a text stands, whose lines begin at these bytes; and that this is where a client finds it.
fn place_of(text: &[u8], starts: &[usize], byte: usize) -> Option<Position>
    ensures { IfSome result (IsPosition text.now starts.now byte) }
{
    let (line, start) = line_at(starts, byte)?;
    if byte > text.len() {
        return None;
    }
    let (front, _) = text.split_at(byte);
    let (_, before) = front.split_at(start);
    let character = columns(before);
    let position = Position { line, character };
    if byte_of(text, starts, position) == byte {
        Some(position)
    } else {
        None
    }
}

/// Where a byte of a text stands, whose lines begin at these bytes: its line, and as many columns as stand before it in the line. None
/// where no column begins there, as within a character or between CR and LF.
pub fn position_of(text: &[u8], starts: &[usize], byte: usize) -> Option<Position>
    ensures { IfSome result (IsPosition text.now starts.now byte) }
{
    place_of(text, starts, byte)
}
