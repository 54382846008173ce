//! Lines in which names stand for words.

use sfc_base::run::{Alphabet, has};
use sfc_cases::named::{Named, put_replaced};
use sfc_why::sfc_hints::sfc_places::span::Span;
use std::alloc::{AllocError, Global};

/// The side of bytes that are looked for.
#[derive(Clone, Copy, PartialEq, Eq)]
enum Side {
    Front,
    End,
}

/// A line, and the names that stand for words in it.
#[derive(Clone, Copy)]
pub struct Meant<'a> {
    pub names: &'a [Named],
    pub line: &'a [u8],
}

// How many bytes from a place on are a name, or one byte that is none.
fn run_length(line: &[u8], from: usize) -> usize {
    let mut count = 0usize;
    'run: for place in from..line.len() {
        match line.get(place) {
            Some(byte) if has(Alphabet::Word, *byte) => count = count.saturating_add(1),
            _ => break,
        }
    }
    count.max(1)
}

impl Meant<'_> {
    /// What the line says. The one error is that memory was refused.
    pub fn text(&self, alloc: Global) -> Result<Vec<u8>, AllocError> {
        let mut text = Vec::new(alloc);
        put_replaced(alloc, &mut text, self.names, self.line)?;
        Ok(text)
    }

    // How many bytes these are in what the line says.
    fn length_of(&self, alloc: Global, run: &[u8]) -> Result<usize, AllocError> {
        let mut text = Vec::new(alloc);
        put_replaced(alloc, &mut text, self.names, run)?;
        Ok(text.len())
    }

    // Where a place of what the line says comes from. Within a word for which a name stands that is the name's front or end.
    fn place_of(&self, alloc: Global, wanted: usize, side: Side) -> Result<usize, AllocError> {
        let mut from = 0usize;
        let mut reached = 0usize;
        'runs: for _run in 0..self.line.len() {
            if from >= self.line.len() {
                break;
            }
            let count = run_length(self.line, from);
            let to = from.saturating_add(count).min(self.line.len());
            let length = self.length_of(alloc, self.line.get(from..to).unwrap_or(b""))?;
            let behind = reached.saturating_add(length);
            if wanted < behind || (wanted == behind && side == Side::End) {
                return Ok(within((from, to), (reached, behind), wanted, side));
            }
            from = to;
            reached = behind;
        }
        Ok(self.line.len())
    }

    /// Where bytes of what the line says come from. The one error is that memory was refused.
    pub fn span_of(&self, alloc: Global, span: Span) -> Result<Span, AllocError> {
        let from = self.place_of(alloc, span.from, Side::Front)?;
        let to = self.place_of(alloc, span.to, Side::End)?;
        Ok(Span {
            from,
            to: to.max(from),
        })
    }
}

// Where a place within a run comes from, whose bytes are these in the line and these in what it says.
fn within(
    (from, to): (usize, usize),
    (reached, behind): (usize, usize),
    wanted: usize,
    side: Side,
) -> usize {
    if to.saturating_sub(from) == behind.saturating_sub(reached) {
        return from.saturating_add(wanted.saturating_sub(reached));
    }
    match side {
        Side::Front => from,
        Side::End => to,
    }
}
