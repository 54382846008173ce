//! A Value Change Dump as it goes on (IEEE 1364-2001, 18.2).

use crate::changes::{Change, Changes};
use crate::picked::Picked;
use crate::piece::{Piece, TEXT, append_code};
use sfc_page::append::append;
use std::alloc::{AllocError, Global};

/// A Value Change Dump, whose text waits to be written: what each signal read when it was shown last, and the changes since.
pub struct Dump {
    // The bits of each signal, by its number.
    last: Vec<u64>,
    // The instant of what is shown now, and that of the last mark.
    instant: i64,
    marked: i64,
    // The signals that are wanted.
    picked: Picked,
    // What stands behind the text.
    piece: Piece,
    // Where changes are kept and not put, these.
    kept: Option<Changes>,
    /// The text that waits, up to where it was finished last.
    pub text: Vec<u8>,
}

// By hand, so that a caller that drops one proves one call.
impl Drop for Dump {
    fn drop(self) {
        let Dump {
            last: _,
            instant: _,
            marked: _,
            picked: _,
            piece: _,
            kept: _,
            text: _,
        } = self;
    }
}

impl Dump {
    /// Nothing of the signals that are wanted, at instant 0. Their changes are put, or kept.
    pub fn new(alloc: Global, picked: Picked, is_kept: bool) -> Dump {
        Dump {
            last: Vec::new(alloc),
            instant: 0,
            marked: 0,
            picked,
            piece: Piece::new(),
            kept: if is_kept {
                Some(Changes::new(alloc))
            } else {
                None
            },
            text: Vec::new(alloc),
        }
    }

    /// The signals that are wanted.
    pub fn picked(&self) -> &Picked {
        &self.picked
    }

    /// The changes that were kept.
    pub fn kept(&self) -> Option<&Changes> {
        self.kept.as_ref()
    }

    /// The instant of what was put last, in microseconds.
    pub fn instant(&self) -> i64 {
        self.instant
    }

    /// What is put from now on is so at this instant, in microseconds.
    pub fn go_on(&mut self, instant: i64) {
        self.instant = instant;
    }

    /// The instant of the last mark.
    pub fn marked(&self) -> i64 {
        self.marked
    }

    /// Puts what the next signal reads first. The one error is that memory was refused.
    pub fn put_first(&mut self, width: u32, bits: u64) -> Result<(), AllocError> {
        let number = self.last.len();
        self.last.push(bits)?;
        if self.picked.has(number) {
            self.tell(number, width, bits)?;
        }
        Ok(())
    }

    // Puts or keeps a change.
    fn tell(&mut self, number: usize, width: u32, bits: u64) -> Result<(), AllocError> {
        match &mut self.kept {
            Some(kept) => {
                self.marked = self.marked.max(self.instant);
                kept.push(Change {
                    signal: number,
                    instant: self.instant,
                    bits,
                    count: 0,
                })
            }
            None => self.put_change(number, width, bits),
        }
    }

    // Puts a change, behind the mark of the instant where that is a later one than before.
    fn put_change(&mut self, number: usize, width: u32, bits: u64) -> Result<(), AllocError> {
        self.make_room()?;
        if self.instant > self.marked {
            self.put_mark();
        }
        self.piece.push_change(number, width, bits);
        Ok(())
    }

    /// Puts the text that the next signal reads first. The one error is that memory was refused.
    pub fn put_first_text(&mut self, text: &[u8]) -> Result<(), AllocError> {
        let number = self.last.len();
        self.last.push(0)?;
        self.put_text(number, text)
    }

    /// Puts the text that a signal reads from now on. The one error is that memory was refused.
    pub fn put_text(&mut self, number: usize, text: &[u8]) -> Result<(), AllocError> {
        if !self.picked.has(number) {
            return Ok(());
        }
        match &mut self.kept {
            Some(kept) => kept.push_text(number, self.instant, text),
            None => self.put_line(number, text),
        }
    }

    // Puts a line with a text.
    fn put_line(&mut self, number: usize, text: &[u8]) -> Result<(), AllocError> {
        self.make_room()?;
        if self.instant > self.marked {
            self.put_mark();
        }
        if text.len() <= TEXT {
            self.piece.push_text(number, text);
            return Ok(());
        }
        self.finish()?;
        append(&mut self.text, b"s")?;
        append(&mut self.text, text)?;
        append(&mut self.text, b" ")?;
        append_code(&mut self.text, number)?;
        append(&mut self.text, b"\n")
    }

    /// Puts what a signal of so many bits reads, where that is something else than before. The one error is that memory was refused.
    pub fn put(&mut self, number: usize, width: u32, bits: u64) -> Result<(), AllocError> {
        match self.last.get(number) {
            Some(last) if *last != bits => self.change(number, width, bits),
            _ => Ok(()),
        }
    }

    /// The same of a signal of one bit.
    pub fn put_bit(&mut self, number: usize, is_set: bool) -> Result<(), AllocError> {
        self.put(number, 1, if is_set { 1 } else { 0 })
    }

    // A signal reads something else from now on.
    fn change(&mut self, number: usize, width: u32, bits: u64) -> Result<(), AllocError> {
        if let Some(last) = self.last.get_mut(number) {
            *last = bits;
        }
        if self.picked.has(number) {
            self.tell(number, width, bits)?;
        }
        Ok(())
    }

    // Puts the mark of the instant. It stands apart from changes, most of which want none.
    #[inline(never)]
    fn put_mark(&mut self) {
        self.piece.push_instant(self.instant);
        self.marked = self.instant;
    }

    // Has room for a mark and a change.
    fn make_room(&mut self) -> Result<(), AllocError> {
        if self.piece.is_long() {
            self.finish()?;
        }
        Ok(())
    }

    /// The text has all that was put. The one error is that memory was refused.
    pub fn finish(&mut self) -> Result<(), AllocError> {
        append(&mut self.text, self.piece.as_slice())?;
        self.piece.clear();
        Ok(())
    }
}
