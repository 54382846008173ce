//! Bytes of a line.

use sfc_base::case::is_same_word;
use sfc_cases::sfc_script::split::{first_word, is_blank};
use sfc_cases::words::divided;
use sfc_why::sfc_hints::sfc_places::span::Span;

/// Bytes of a line, and where they begin in it.
#[derive(Clone, Copy)]
pub struct Piece<'a> {
    pub from: usize,
    pub text: &'a [u8],
}

impl<'a> Piece<'a> {
    /// A whole line.
    pub fn of(line: &'a [u8]) -> Piece<'a> {
        Piece {
            from: 0,
            text: line,
        }
    }

    // Those of these bytes that stand behind so many.
    fn behind(self, count: usize) -> Piece<'a> {
        let (_, text) = self.text.split_at(count.min(self.text.len()));
        Piece {
            from: self.from.saturating_add(count),
            text,
        }
    }

    /// The first word, and what stands behind it; None where there are no words.
    pub fn split(self) -> Option<(Piece<'a>, Piece<'a>)> {
        let (word, behind) = first_word(self.text)?;
        let end = self.text.len().saturating_sub(behind.len());
        let start = end.saturating_sub(word.len());
        let word = Piece {
            from: self.from.saturating_add(start),
            text: word,
        };
        Some((word, self.behind(end)))
    }

    /// What stands before the first word behind a blank that is the keyword, and what stands behind it; None where there is no such word.
    pub fn divide(self, keyword: &[u8]) -> Option<(Piece<'a>, Piece<'a>)> {
        let (front, behind) = divided(self.text, keyword)?;
        let front = Piece {
            from: self.from,
            text: front,
        };
        Some((
            front,
            self.behind(self.text.len().saturating_sub(behind.len())),
        ))
    }

    /// Whether it is the keyword, in any case of its letters.
    pub fn is(self, keyword: &[u8]) -> bool {
        is_same_word(self.text, keyword)
    }

    /// Without blanks in front and at the end.
    pub fn trimmed(self) -> Piece<'a> {
        let first = self.text.iter().position(|byte| !is_blank(*byte));
        self.behind(first.unwrap_or(self.text.len())).without_end()
    }

    // Without blanks at the end.
    fn without_end(self) -> Piece<'a> {
        let last = self.text.iter().rposition(|byte| !is_blank(*byte));
        let count = match last {
            Some(last) => last.saturating_add(1),
            None => 0,
        };
        let (text, _) = self.text.split_at(count.min(self.text.len()));
        Piece {
            from: self.from,
            text,
        }
    }

    /// Where its bytes stand in the line.
    pub fn span(self) -> Span {
        Span {
            from: self.from,
            to: self.from.saturating_add(self.text.len()),
        }
    }

    /// The place behind its last byte that is no blank.
    pub fn end(self) -> Piece<'a> {
        let rest = self.without_end();
        rest.behind(rest.text.len())
    }
}
