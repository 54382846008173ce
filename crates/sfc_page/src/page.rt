//! A text that is put together, piece by piece.

ghost use Rattle.std.specs.Prelude.{◌≡◌, [], ℕ, List, IfOk, OnOk};
ghost use Rattle.sfc_page.specs.Lines.{written};

use crate::line::Line;
use std::alloc::{AllocError, Global};
use std::marker::Model;
use std::mem::replace;

/// A text: what its line has passed on, and the line behind it.
pub struct Page {
    pub alloc: Global,
    pub text: Vec<u8>,
    pub line: Line,
}

// By hand, so that a caller that drops one proves one call.
impl Drop for Page {
    fn drop(self) {
        let Page {
            alloc: _,
            text: _,
            line: _,
        } = self;
    }
}

impl Model for Page {
    ghost Value = { List ℕ };

    ghost view = { λ p. written p.text.items p.line };
}

#[tactic(auto, unfolding(crate::specs::Lines::written))]
impl Page {
    /// Nothing, with room for so many bytes. The one error is that memory was refused.
    pub fn with_capacity(alloc: Global, capacity: usize) -> Result<Page, AllocError>
        ensures { IfOk result (λ page. page ≡ []) }
    {
        Ok(Page {
            alloc,
            text: Vec::with_capacity(alloc, capacity)?,
            line: Line::new(),
        })
    }

    /// Whether so many bytes have been passed on by the line.
    #[inline(always)]
    pub fn has(&self, bytes: usize) -> bool {
        self.text.len() >= bytes
    }

    /// Takes the whole text, and nothing stands there any more. The one error is that memory was refused.
    pub fn take(&mut self) -> Result<Vec<u8>, AllocError>
        ensures text { IfOk result (λ text. text.items ≡ self.old) }
        ensures empty { OnOk result (self.new ≡ []) }
    {
        self.line.pass_on(&mut self.text)?;
        Ok(replace(&mut self.text, Vec::new(self.alloc)))
    }

    /// Nothing stands there any more; what is put goes where this text was.
    pub fn begin(&mut self, text: Vec<u8>)
        ensures { self.new ≡ [] }
    {
        let mut room = text;
        room.clear();
        self.text = room;
        self.line = Line::new();
    }
}
