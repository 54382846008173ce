//! The words of a line of a script, with their bytes.

use crate::sfc_places::span::Span;
use sfc_script::split::is_blank;
use std::alloc::{AllocError, Global};

/// A line of a script, without its end, and its words.
#[derive(Drop)]
pub struct Words {
    pub line: Span,
    pub words: Vec<Span>,
}

// The place of the first LF from a place on; the end where there is none.
fn line_feed(script: &[u8], from: usize) -> usize {
    for place in from..script.len() {
        if let Some(b'\n') = script.get(place) {
            return place;
        }
    }
    script.len()
}

// The bytes of a line, which is counted from 1, without its end.
fn line_span(script: &[u8], number: usize) -> Span {
    let mut from = 0usize;
    let mut count = 1usize;
    for place in 0..script.len() {
        if count >= number {
            break;
        }
        if let Some(b'\n') = script.get(place) {
            count = count.saturating_add(1);
            from = place.saturating_add(1);
        }
    }
    let end = line_feed(script, from);
    let last = end.saturating_sub(1);
    let is_return = end < script.len() && from < end && script.get(last) == Some(&b'\r');
    Span {
        from,
        to: if is_return { last } else { end },
    }
}

// Whether a blank stands at the place, or the line ends there.
fn is_part(script: &[u8], line: Span, place: usize) -> bool {
    if place >= line.to {
        return true;
    }
    match script.get(place) {
        Some(byte) => is_blank(*byte),
        None => true,
    }
}

// The end of the word that begins at the place.
fn word_end(script: &[u8], line: Span, from: usize) -> usize {
    for place in from..line.to {
        if is_part(script, line, place) {
            return place;
        }
    }
    line.to
}

/// A line of a script, which is counted from 1, with its words. The one error is that memory was refused.
pub fn words_of(alloc: Global, script: &[u8], number: usize) -> Result<Words, AllocError> {
    let line = line_span(script, number);
    let mut words = Vec::new(alloc);
    let mut behind = line.from;
    for place in line.from..line.to {
        if place >= behind && !is_part(script, line, place) {
            behind = word_end(script, line, place);
            words.push(Span {
                from: place,
                to: behind,
            })?;
        }
    }
    Ok(Words { line, words })
}

impl Words {
    /// The bytes of a word, counted from 0; None where the line has fewer.
    pub fn word<'a>(&self, script: &'a [u8], place: usize) -> Option<&'a [u8]> {
        let span = self.words.get(place)?;
        script.get(span.from..span.to)
    }

    /// Where a word stands, counted from 0; the end of the line where it has fewer.
    pub fn span(&self, place: usize) -> Span {
        match self.words.get(place) {
            Some(span) => *span,
            None => Span {
                from: self.line.to,
                to: self.line.to,
            },
        }
    }
}
