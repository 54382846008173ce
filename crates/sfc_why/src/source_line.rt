//! A line of a text with a mark below it. Tabs stay tabs, so that the mark stands below its word however wide they are;
//! of a long line so much is shown as stands round the word.

use crate::sfc_places::span::{Span, character_length};
use sfc_hints::writing::{add_line, add_repeated};
use sfc_page::digits;
use std::alloc::{AllocError, Global};

/// The most characters of a line that are shown.
const WIDTH: usize = 100;

/// The most characters of a word that are shown.
const WORD: usize = 60;

/// How wide the number of a line is at least.
const NUMBER: usize = 5;

// The place behind the last LF before a place; behind the mark at the start of the text where there is none.
fn line_start(text: &[u8], at: usize) -> usize {
    let mut start = match text {
        [0xef, 0xbb, 0xbf, ..] => 3,
        _ => 0,
    };
    for place in 0..at {
        if let Some(b'\n') = text.get(place) {
            start = place.saturating_add(1);
        }
    }
    start
}

// The place of the first LF from a place on, or that of the CR before it; the end of the text where there is none.
fn line_end(text: &[u8], from: usize) -> usize {
    let mut is_behind_return = false;
    for place in from..text.len() {
        match text.get(place) {
            Some(b'\n') if is_behind_return => return place.saturating_sub(1),
            Some(b'\n') => return place,
            Some(byte) => is_behind_return = *byte == b'\r',
            None => {}
        }
    }
    text.len()
}

// How many characters there are.
fn characters(bytes: &[u8]) -> usize {
    let mut count = 0usize;
    let mut behind = 0;
    for place in 0..bytes.len() {
        if place >= behind {
            count = count.saturating_add(1);
            behind = place.saturating_add(length_at(bytes, place));
        }
    }
    count
}

// How many bytes the character at the place has.
fn length_at(bytes: &[u8], place: usize) -> usize {
    match bytes.get(place..) {
        Some(rest) => character_length(rest),
        None => 1,
    }
}

// Whether the character is to be shown as another one: a control character, or a byte that is none.
fn is_hidden(character: &[u8]) -> bool {
    match character {
        [byte] => *byte != b'\t' && (*byte < b' ' || *byte > 126),
        [0xc2, second] => *second < 0xa0,
        _ => false,
    }
}

// Which characters of a line are shown.
#[derive(Clone, Copy)]
struct Window {
    first: usize,
    behind: usize,
}

impl Window {
    // What is shown of a line of so many characters, round the one at this place.
    fn of(count: usize, at: usize) -> Window {
        if count <= WIDTH {
            return Window {
                first: 0,
                behind: count,
            };
        }
        let first = at.saturating_sub(WIDTH / 2);
        Window {
            first,
            behind: first.saturating_add(WIDTH),
        }
    }

    fn has(self, place: usize) -> bool {
        self.first <= place && place < self.behind
    }
}

// A line as it is shown, and the marks below it.
#[derive(Drop)]
struct Shown {
    line: Vec<u8>,
    marks: Vec<u8>,
}

// Adds a character, and what stands below it.
fn add_character(
    shown: &mut Shown,
    character: &[u8],
    place: usize,
    word: Span,
) -> Result<(), AllocError> {
    if is_hidden(character) {
        shown.line.extend_from_slice(b"?")?;
    } else {
        shown.line.extend_from_slice(character)?;
    }
    let below: &[u8] = if place >= word.to {
        b""
    } else if place >= word.from {
        b"^"
    } else if let [b'\t'] = character {
        b"\t"
    } else {
        b" "
    };
    shown.marks.extend_from_slice(below)
}

// Adds what stands where the front of a line is left out.
fn begin_window(shown: &mut Shown, window: Window) -> Result<(), AllocError> {
    if window.first == 0 {
        return Ok(());
    }
    shown.line.extend_from_slice(b"... ")?;
    shown.marks.extend_from_slice(b"    ")
}

// The line as it is shown, with marks below the word, whose places count from the start of the line.
fn show(alloc: Global, line: &[u8], word: Span) -> Result<Shown, AllocError> {
    let mut shown = Shown {
        line: Vec::new(alloc),
        marks: Vec::new(alloc),
    };
    let front = match line.get(..word.from) {
        Some(front) => characters(front),
        None => 0,
    };
    let window = Window::of(characters(line), front);
    begin_window(&mut shown, window)?;
    add_window(&mut shown, line, window, word)?;
    Ok(shown)
}

// Adds the characters that are shown, and the marks below them.
fn add_window(
    shown: &mut Shown,
    line: &[u8],
    window: Window,
    word: Span,
) -> Result<(), AllocError> {
    let mut number = 0usize;
    let mut behind = 0;
    for place in 0..line.len() {
        if place < behind {
            continue;
        }
        behind = place.saturating_add(length_at(line, place));
        if window.has(number) {
            if let Some(character) = line.get(place..behind) {
                add_character(shown, character, place, word)?;
            }
        }
        number = number.saturating_add(1);
    }
    if number > window.behind {
        shown.line.extend_from_slice(b" ...")?;
    }
    if word.from >= line.len() {
        shown.marks.extend_from_slice(b"^")?;
    }
    Ok(())
}

/// Adds the line in which the word stands, with its number, and below it a line with marks under the word. The one error is
/// that memory was refused.
pub fn add_source_line(
    alloc: Global,
    text: &[u8],
    word: Span,
    number: u64,
    told: &mut Vec<u8>,
) -> Result<(), AllocError> {
    let start = line_start(text, word.from);
    let end = line_end(text, word.from.min(text.len()));
    let line: &[u8] = match text.get(start..end) {
        Some(line) => line,
        None => b"",
    };
    let inside = Span {
        from: word.from.saturating_sub(start),
        to: word.to.saturating_sub(start),
    };
    let shown = show(alloc, line, inside)?;
    add_shown(&shown, number, told)
}

// Adds a line with its number, and the line of its marks.
fn add_shown(shown: &Shown, number: u64, told: &mut Vec<u8>) -> Result<(), AllocError> {
    let mut number_text = [0; digits::NUMBER];
    let count = digits::put_number(&mut number_text, 0, number);
    let width = count.max(NUMBER);
    add_repeated(told, b" ", width - count)?;
    told.extend_from_slice(&number_text[..count])?;
    told.extend_from_slice(b" | ")?;
    add_line(told, &shown.line)?;
    add_repeated(told, b" ", width)?;
    told.extend_from_slice(b" | ")?;
    add_line(told, &shown.marks)
}

// Adds a byte by its number.
fn add_escaped(told: &mut Vec<u8>, byte: u8) -> Result<(), AllocError> {
    told.extend_from_slice(b"\\x")?;
    add_digit(told, byte / 16)?;
    add_digit(told, byte % 16)
}

// Adds a digit to the base of 16.
fn add_digit(told: &mut Vec<u8>, digit: u8) -> Result<(), AllocError> {
    let byte = match digit {
        0..=9 => b'0' + digit,
        10..=15 => b'A' + (digit - 10),
        _ => b'?',
    };
    told.extend_from_slice(&[byte])
}

/// A word as it is told: a byte that is no character by its number, and of a long one the front. The one error is that memory was
/// refused.
pub fn told_word(alloc: Global, word: &[u8]) -> Result<Vec<u8>, AllocError> {
    let mut told = Vec::new(alloc);
    let mut number = 0usize;
    let mut behind = 0;
    for place in 0..word.len() {
        if place < behind {
            continue;
        }
        if number >= WORD {
            told.extend_from_slice(b"...")?;
            break;
        }
        behind = place.saturating_add(length_at(word, place));
        if let Some(character) = word.get(place..behind) {
            add_told(&mut told, character)?;
        }
        number = number.saturating_add(1);
    }
    Ok(told)
}

// Adds a character, or a byte that is none.
fn add_told(told: &mut Vec<u8>, character: &[u8]) -> Result<(), AllocError> {
    if !is_hidden(character) {
        return told.extend_from_slice(character);
    }
    for byte in character {
        add_escaped(told, *byte)?;
    }
    Ok(())
}
