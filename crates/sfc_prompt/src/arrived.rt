//! Lines that have come.

ghost use Rattle.std.specs.Prelude.{◌≡◌, ◌-◌, ◌<◌, ◌≤◌, ◌++◌, ◌||◌, [], ℕ, List, None, IfOk, IfSome, IsFalse, MatchOption, drop, length, nat_lt};
ghost use Rattle.std.specs.Io.KnownBytes.{Consumes, IsAtEnd};
ghost use Rattle.sfc_asking.specs.sfc_script.Arriving.{ended_line};
ghost use Rattle.sfc_asking.specs.sfc_script.Lines.{lines_of};
ghost use Rattle.sfc_prompt.specs.Private.Waiting.{IsFirst, IsOnly, Waits};

use sfc_replay::arriving::ArrivingLines;
use sfc_replay::replay_error::ReplayError;
use std::alloc::Global;
use std::io::Read;

/// The most bytes of a line.
const LONGEST: usize = 1_048_576;

/// What has come of lines and waits. Of a line that is too long no more is held than is needed to tell so.
#[derive(Drop)]
pub struct Arrived {
    /// The bytes that are held.
    pub lines: ArrivingLines,
    /// Whether the front of the first line was passed over.
    pub is_cut: bool,
}

impl Arrived {
    /// Nothing waits.
    pub fn new(alloc: Global) -> Arrived
        ensures { Waits result [] }
    {
        Arrived {
            lines: ArrivingLines::new(alloc),
            is_cut: false,
        }
    }

    // Whether the first line is too long, of which this is held.
    fn is_long(&self, held: &[u8]) -> bool
        ensures { result ≡ self.now.is_cut || nat_lt 1048576 (length held.now) }
    {
        self.is_cut || held.len() > LONGEST
    }

    /// The first line that has its end, without it; whether it is too long, and then maybe a part of it alone stands here; and how many
    /// bytes wait behind it. None where no line has its end yet.
    pub fn first(&self) -> Option<(&[u8], bool, usize)>
        ensures fewer { IfSome result (λ r. r.2 < length self.now.lines) }
        ensures line { (bytes : List ℕ) → Waits self.now bytes →
            MatchOption result (ended_line bytes ≡ None) (λ r. IsFirst self.now bytes r.0.now r.1 r.2) }
    {
        let (line, left) = self.lines.first()?;
        Some((line, self.is_long(line), left))
    }

    /// So many bytes wait, the last ones, with which a line begins.
    pub fn keep(&mut self, left: usize)
        requires { left ≤ length self.old.lines }
        ensures lines { self.new.lines ≡ drop (length self.old.lines - left) self.old.lines }
        ensures whole { IsFalse self.new.is_cut }
    {
        self.lines.keep(left);
        self.is_cut = false;
    }

    /// Takes a piece from the reader: its bytes wait behind the others. It answers how many they are; none at the end of the reader.
    pub fn take<R: Read>(&mut self, reader: &mut R) -> Result<usize, ReplayError>
        ensures few { IfOk result (λ count. count ≤ 1048576) }
        ensures ended { IfOk result (λ count. count ≡ 0 → IsAtEnd (R.remaining reader.new)) }
        ensures taken { IfOk result (λ count. (piece : List ℕ) × (length piece ≡ count)
            × Consumes (R.remaining reader.old) (R.remaining reader.new) piece × ((bytes : List ℕ) → Waits self.old bytes → Waits self.new (bytes ++ piece))) }
    {
        self.lines.take(reader, LONGEST)
    }

    /// Passes over the front of a line that is too long, whatever comes of it.
    pub fn pass_over(&mut self)
        ensures { (bytes : List ℕ) → Waits self.old bytes → ended_line bytes ≡ None → Waits self.new bytes }
    {
        if self.lines.waiting().len() > LONGEST + 1 {
            self.lines.keep(0);
            self.is_cut = true;
        }
    }

    /// The last line, which has no end; whether it is too long, and then maybe a part of it alone stands here. None where nothing waits.
    pub fn last(&self) -> Option<(&[u8], bool)>
        ensures { (bytes : List ℕ) → Waits self.now bytes → ended_line bytes ≡ None →
            MatchOption result (lines_of bytes ≡ []) (λ r. IsOnly bytes r.0.now r.1) }
    {
        let line = self.lines.waiting();
        if line.is_empty() && !self.is_cut {
            return None;
        }
        Some((line, self.is_long(line)))
    }
}
