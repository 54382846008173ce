//! A text of which pieces are replaced, so that what is behind a fault can be read; each place of it leads back to the text as it was.

use crate::sfc_places::span::Span;
use std::alloc::{AllocError, Global};

/// Bytes of the text as it was, and what stands in their place: these bytes of the pool.
#[derive(Clone, Copy)]
struct Edit {
    from: usize,
    to: usize,
    pool_from: usize,
    pool_to: usize,
}

impl Edit {
    // How many bytes stand in the place of those that were there.
    fn length(self) -> usize {
        self.pool_to.saturating_sub(self.pool_from)
    }
}

/// How many bytes were put before a place, and how many were taken away.
#[derive(Clone, Copy, Default)]
struct Shift {
    added: usize,
    removed: usize,
}

impl Shift {
    // The place in the mended text of one of the text as it was.
    fn of(self, place: usize) -> usize {
        place
            .saturating_add(self.added)
            .saturating_sub(self.removed)
    }

    // The place in the text as it was of one of the mended text.
    fn back(self, place: usize) -> usize {
        place
            .saturating_add(self.removed)
            .saturating_sub(self.added)
    }

    // With one edit more.
    fn behind(self, edit: Edit) -> Shift {
        Shift {
            added: self.added.saturating_add(edit.length()),
            removed: self
                .removed
                .saturating_add(edit.to.saturating_sub(edit.from)),
        }
    }
}

// The bytes of a text from one place up to another one; none where they don't stand in this order.
fn piece(text: &[u8], from: usize, to: usize) -> &[u8] {
    text.get(from..to).unwrap_or(b"")
}

/// A text with its edits, in order and apart.
#[derive(Drop)]
pub struct Mended<'a> {
    text: &'a [u8],
    edits: Vec<Edit>,
    pool: Vec<u8>,
}

impl<'a> Mended<'a> {
    /// The text as it is.
    pub fn new(alloc: Global, text: &'a [u8]) -> Mended<'a> {
        Mended {
            text,
            edits: Vec::new(alloc),
            pool: Vec::new(alloc),
        }
    }

    /// The text as it was.
    pub fn text(&self) -> &'a [u8] {
        self.text
    }

    /// The bytes of the mended text. The one error is that memory was refused.
    pub fn bytes(&self, alloc: Global) -> Result<Vec<u8>, AllocError> {
        let mut bytes = Vec::new(alloc);
        let mut behind = 0usize;
        for edit in &self.edits {
            let kept = piece(self.text, behind, edit.from);
            bytes.extend_from_slice(kept)?;
            let put = piece(&self.pool, edit.pool_from, edit.pool_to);
            bytes.extend_from_slice(put)?;
            behind = edit.to;
        }
        let rest = piece(self.text, behind, self.text.len());
        bytes.extend_from_slice(rest)?;
        Ok(bytes)
    }

    // The place in the text as it was of one of the mended text; of a place among bytes that were put there the first one that they stand
    // for, or the last one.
    fn place_of(&self, place: usize, is_last: bool) -> usize {
        let mut shift = Shift::default();
        for edit in &self.edits {
            let from = shift.of(edit.from);
            if place <= from {
                break;
            }
            if place < from.saturating_add(edit.length()) {
                return if is_last { edit.to } else { edit.from };
            }
            shift = shift.behind(*edit);
        }
        shift.back(place)
    }

    /// The bytes of the text as it was that these of the mended text stand for.
    pub fn original(&self, span: Span) -> Span {
        let from = self.place_of(span.from, false);
        Span {
            from,
            to: self.place_of(span.to, true).max(from),
        }
    }

    /// The bytes of the text as it was in whose place these of the mended text stand, where they are the same; None where others do.
    pub fn untouched(&self, bytes: &[u8], span: Span) -> Option<Span> {
        let original = self.original(span);
        let now = bytes.get(span.from..span.to)?;
        if self.text.get(original.from..original.to)? != now {
            return None;
        }
        Some(original)
    }

    /// Puts other bytes in the place of these of the mended text, also of those that were put there before; where there are none, before
    /// that place. The one error is that memory was refused.
    pub fn replace(&mut self, alloc: Global, span: Span, with: &[u8]) -> Result<(), AllocError> {
        let Span { from, to } = self.original(span);
        let pool_from = self.pool.len();
        self.pool.extend_from_slice(with)?;
        let pool_to = self.pool.len();
        let edit = Edit {
            from,
            to,
            pool_from,
            pool_to,
        };
        self.put(alloc, span, edit)
    }

    // Puts an edit of these bytes of the mended text in its place, and leaves out those that stood there.
    fn put(&mut self, alloc: Global, span: Span, new: Edit) -> Result<(), AllocError> {
        let mut edits = Vec::new(alloc);
        let mut shift = Shift::default();
        let mut is_put = false;
        for edit in &self.edits {
            let from = shift.of(edit.from);
            let to = from.saturating_add(edit.length());
            shift = shift.behind(*edit);
            if from >= span.to && !is_put {
                edits.push(new)?;
                is_put = true;
            }
            if from >= span.to || to <= span.from {
                edits.push(*edit)?;
            }
        }
        if !is_put {
            edits.push(new)?;
        }
        self.edits = edits;
        Ok(())
    }
}
