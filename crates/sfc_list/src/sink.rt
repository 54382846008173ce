//! Writing that stops at the first fault.

ghost use Rattle.std.specs.Prelude.{ℕ, List, []};
ghost use Rattle.std.specs.Fmt.{decimal};
ghost use Rattle.sfc_base.specs.TimeText.{time_text};
ghost use Rattle.sfc_base.specs.Writing.{Writes};
ghost use Rattle.sfc_list.specs.Private.Sinking.{Puts, joined};

use sfc_base::write_fault::{WriteFault, put_all};
use sfc_page::time_text::{put_decimal, put_time};
use std::io::Write;

/// A writer that is given nothing more after its first fault, so that a text is put together without a test after each
/// word.
#[derive(Drop)]
pub struct Sink<'a, W> {
    pub writer: &'a mut W,
    pub is_broken: bool,
}

#[tactic(auto, unfolding(crate::specs::Private::Sinking::Puts))]
impl<'a, W: Write> Sink<'a, W> {
    /// Writes the bytes, unless there was a fault.
    pub fn put(&mut self, bytes: &[u8])
        ensures { Puts W.contents self.old self.new bytes.now }
    {
        if !self.is_broken {
            self.is_broken = put_all(self.writer, bytes).is_err();
        }
    }

    /// Writes nothing more, as after a fault.
    #[tactic(auto, using(crate::proofs::Sunk::written_stopped), unfolding(crate::specs::Private::Sinking::Puts))]
    pub fn stop(&mut self)
        ensures { (text : List ℕ) → Puts W.contents self.old self.new text }
    {
        self.is_broken = true;
    }

    /// Writes the parts one after the other, unless there was a fault.
    #[tactic(auto, using(crate::proofs::Sunk::puts_nothing))]
    pub fn put_parts(&mut self, parts: &[&[u8]])
        ensures { Puts W.contents self.old self.new (joined [] parts.now) }
    {
        for part in parts {
            self.put(part);
        }
    }

    /// Writes the number in decimal digits, unless there was a fault.
    pub fn put_number(&mut self, number: u64)
        ensures { Puts W.contents self.old self.new (decimal number) }
    {
        if !self.is_broken {
            self.is_broken = put_decimal(number, self.writer).is_err();
        }
    }

    /// Writes the TIME text of so many microseconds, unless there was a fault.
    pub fn put_micros(&mut self, micros: i64)
        ensures { Puts W.contents self.old self.new (time_text micros) }
    {
        if !self.is_broken {
            self.is_broken = put_time(micros, self.writer).is_err();
        }
    }
}
