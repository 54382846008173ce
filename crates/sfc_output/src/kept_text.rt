//! Short texts that are put again and again.

ghost use Rattle.std.specs.Prelude.{◌≤◌};

use sfc_page::line::{KEPT, Line};
use sfc_page::pieces::put_text;
use sfc_page::times::TIME;
use std::alloc::AllocError;

/// A text of at most 64 bytes; or nothing, where it is empty.
#[derive(Clone, Copy)]
pub struct KeptText {
    bytes: [u8; KEPT],
    count: usize,
    ghost short: { count ≤ 64 },
}

#[tactic(auto, using(sfc_page::proofs::Lines::written_pieces))]
impl KeptText {
    ghost use Rattle.std.specs.Prelude.{◌≡◌, ◌<◌, ◌++◌, List, ℕ, length, slice_set, OnOk, IsTrue};
    ghost use Rattle.sfc_base.specs.TimeText as text;
    ghost use Rattle.sfc_output.specs.Memories.{IsKept, text_in};
    ghost use Rattle.sfc_page.specs.Lines.{written};

    /// Nothing.
    pub fn none() -> KeptText
        ensures kept { (text : List ℕ) → IsKept text result }
        ensures none { result.count ≡ 0 }
    {
        KeptText {
            bytes: [0; KEPT],
            count: 0,
        }
    }

    /// This text, where it isn't long; else nothing.
    pub fn of(text: &[u8]) -> KeptText
        ensures kept { IsKept text.now result }
        ensures whole { 0 < result.count → result.count ≡ length text.now }
    {
        if text.len() > KEPT {
            return KeptText::none();
        }
        let mut bytes = [0; KEPT];
        let count = put_text(&mut bytes, 0, text);
        KeptText { bytes, count }
    }

    /// Whether a text is kept.
    #[inline(always)]
    pub fn is_kept(&self) -> bool
        ensures { (text : List ℕ) → IsKept text self.now → IsTrue result → text_in self.now ≡ text }
    {
        self.count > 0
    }

    /// How many bytes are kept.
    #[inline(always)]
    pub fn len(&self) -> usize
        ensures { result ≡ self.now.count }
    {
        self.count
    }

    /// Puts the text behind the line, with another byte at this place. The one error is that memory was refused; then a front of it may
    /// stand there.
    #[inline(always)]
    pub fn put_with(
        &self,
        line: &mut Line,
        out: &mut Vec<u8>,
        at: (usize, u8),
    ) -> Result<(), AllocError>
        requires { at.0 < self.now.count }
        ensures { OnOk result (written out.new.items line.new ≡ written out.old.items line.old ++ slice_set (text_in self.now) at.0 at.1) }
    {
        line.reserve(out, KEPT)?;
        line.push_kept_with(&self.bytes, self.count, at);
        Ok(())
    }

    /// Puts the text behind the line. The one error is that memory was refused; then a front of it may stand there.
    #[inline(always)]
    pub fn put(&self, line: &mut Line, out: &mut Vec<u8>) -> Result<(), AllocError>
        ensures { OnOk result (written out.new.items line.new ≡ written out.old.items line.old ++ text_in self.now) }
    {
        line.reserve(out, KEPT)?;
        line.push_kept(&self.bytes, self.count);
        Ok(())
    }

    /// Puts a time behind the line, in microseconds, and the text behind it. The one error is that memory was refused; then a front of
    /// both may stand there.
    #[inline(always)]
    pub fn put_behind_time(
        &self,
        line: &mut Line,
        out: &mut Vec<u8>,
        micros: i64,
    ) -> Result<(), AllocError>
        ensures { OnOk result (written out.new.items line.new ≡ written out.old.items line.old ++ (text.time_text micros ++ text_in self.now)) }
    {
        line.reserve(out, TIME + KEPT)?;
        line.push_time(micros);
        line.push_kept(&self.bytes, self.count);
        Ok(())
    }
}
