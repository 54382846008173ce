//! What is told of something: texts, and pieces of charts, one below the other.

use sfc_page::append::append;
use std::alloc::{AllocError, Global};

/// A piece of what is told.
#[derive(Drop)]
pub enum Piece {
    /// A line of words, without its end.
    Words(Vec<u8>),
    /// Lines of a chart or of a diagram, each with its end.
    Code(Vec<u8>),
}

/// What is told of something.
pub struct Card {
    alloc: Global,
    pieces: Vec<Piece>,
}

// By hand, so that a caller that drops one proves one call.
impl Drop for Card {
    fn drop(self) {
        let Card {
            alloc: _,
            pieces: _,
        } = self;
    }
}

// Puts bytes that other bytes come from, one part behind the other.
fn joined(alloc: Global, parts: &[&[u8]]) -> Result<Vec<u8>, AllocError> {
    let mut text = Vec::new(alloc);
    for part in parts {
        append(&mut text, part)?;
    }
    Ok(text)
}

// Puts a line of words last, whose signs mean nothing as markdown.
fn put_words(out: &mut Vec<u8>, words: &[u8], is_markdown: bool) -> Result<(), AllocError> {
    for byte in words {
        if is_markdown && matches!(*byte, b'*' | b'_' | b'<' | b'`' | b'\\' | b'[' | b'#') {
            out.push(b'\\')?;
        }
        out.push(*byte)?;
    }
    append(out, b"\n")
}

// Puts lines of a chart last.
fn put_code(out: &mut Vec<u8>, code: &[u8], is_markdown: bool) -> Result<(), AllocError> {
    if is_markdown {
        append(out, b"```sfc-chart\n")?;
    }
    append(out, code)?;
    if is_markdown {
        append(out, b"```\n")?;
    }
    Ok(())
}

impl Card {
    /// Nothing is told yet.
    pub fn new(alloc: Global) -> Card {
        Card {
            alloc,
            pieces: Vec::new(alloc),
        }
    }

    /// What allocates.
    pub fn alloc(&self) -> Global {
        self.alloc
    }

    /// Tells a line of words, which is these parts. The one error is that memory was refused.
    pub fn tell(&mut self, parts: &[&[u8]]) -> Result<(), AllocError> {
        let words = joined(self.alloc, parts)?;
        self.tell_words(words)
    }

    /// Tells a line of words, without its end. The one error is that memory was refused.
    pub fn tell_words(&mut self, words: Vec<u8>) -> Result<(), AllocError> {
        self.pieces.push(Piece::Words(words))?;
        Ok(())
    }

    /// Shows lines of a chart or of a diagram, each with its end. The one error is that memory was refused.
    pub fn show(&mut self, code: Vec<u8>) -> Result<(), AllocError> {
        self.pieces.push(Piece::Code(code))?;
        Ok(())
    }

    /// What is told, as markdown or as it is, with an empty line between its pieces. The one error is that memory was refused.
    pub fn text(&self, is_markdown: bool) -> Result<Vec<u8>, AllocError> {
        let mut out = Vec::new(self.alloc);
        for piece in &self.pieces {
            if !out.is_empty() {
                append(&mut out, b"\n")?;
            }
            match piece {
                Piece::Words(words) => put_words(&mut out, words, is_markdown)?,
                Piece::Code(code) => put_code(&mut out, code, is_markdown)?,
            }
        }
        Ok(out)
    }
}
