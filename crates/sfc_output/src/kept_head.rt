//! The head of the lines of a program instance, put again and again.

ghost use Rattle.std.specs.Prelude.{◌≡◌, ◌<◌, ◌≤◌, ◌+◌, ◌++◌, List, ℕ, OnOk, IsTrue};

use crate::kept_text::KeptText;
use sfc_page::line::Line;
use std::alloc::AllocError;

/// What stands before the steps in the line of a program instance, for ten numbers of scans that follow each other and differ in the
/// last digit; or nothing.
#[derive(Clone, Copy)]
pub struct KeptHead {
    text: KeptText,
    // the first of the ten numbers
    first: u64,
}

// How many bytes the last digit of the number of scans and what stands behind it take.
const BEHIND: usize = 8;

impl KeptHead {
    ghost use Rattle.sfc_output.specs.Memories.{HasScans, IsHead};
    ghost use Rattle.sfc_output.specs.Programs.{scans_text};
    ghost use Rattle.sfc_page.specs.Lines.{written};

    /// Nothing.
    pub fn none() -> KeptHead
        ensures { (name : List ℕ) → IsHead name result }
    {
        KeptHead {
            text: KeptText::none(),
            first: 0,
        }
    }

    /// This text, where it isn't long, which has this number of scans; else nothing.
    pub fn of(text: &[u8], scans: u64) -> KeptHead
        ensures { (name : List ℕ) → text.now ≡ scans_text name scans → IsHead name result }
    {
        KeptHead {
            text: KeptText::of(text),
            first: scans - scans % 10,
        }
    }

    /// Whether this number of scans is one of the ten.
    #[inline(always)]
    pub fn has(&self, scans: u64) -> bool
        ensures { IsTrue result → HasScans self.now scans }
    {
        self.text.len() >= BEHIND && self.first <= scans && scans - self.first < 10
    }

    /// Puts the head with this number of scans behind the line. The one error is that memory was refused; then a front of it may stand
    /// there.
    #[inline(always)]
    pub fn put(&self, line: &mut Line, out: &mut Vec<u8>, scans: u64) -> Result<(), AllocError>
        requires { HasScans self.now scans }
        ensures { (name : List ℕ) → IsHead name self.now →
            OnOk result (written out.new.items line.new ≡ written out.old.items line.old ++ scans_text name scans) }
    {
        let digit = b'0' + (scans - self.first) as u8;
        self.text
            .put_with(line, out, (self.text.len() - BEHIND, digit))
    }
}
