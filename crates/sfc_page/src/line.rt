//! The end of a text, put together before it goes to a buffer.

ghost use Rattle.std.specs.Prelude.{◌≡◌, ◌+◌, ◌<◌, ◌≤◌, ◌++◌, [], List, ℕ, length, take, drop, slice_set, OnOk, IsTrue};
ghost use Rattle.std.specs.Fmt.{decimal};
ghost use Rattle.sfc_base.specs.TimeText.{time_text};
ghost use Rattle.sfc_page.specs.Lines.{HasRoom, written};

use crate::append::append;
use crate::digits::{NUMBER, put_number};
use crate::pieces::{put_name, put_text};
use crate::times::{TIME, put_time};
use std::alloc::AllocError;
use std::marker::Model;

/// How many bytes a line holds at the most.
pub const ROOM: usize = 1024;

/// How many bytes the texts have at the most that are kept.
pub const KEPT: usize = 64;

/// The last bytes of a text, which are not yet in the buffer. The bytes of each push need room, which `reserve` makes.
#[derive(Drop)]
pub struct Line {
    bytes: [u8; ROOM],
    count: usize,
}

impl Model for Line {
    ghost Value = { List ℕ };

    ghost view = { λ l. take l.count l.bytes };

    ghost invariant = { λ l. l.count ≤ 1024 };
}

impl Line {
    /// Nothing.
    #[inline(always)]
    pub fn new() -> Line
        ensures { result ≡ [] }
    {
        Line {
            bytes: [0; ROOM],
            count: 0,
        }
    }

    /// How many bytes it holds.
    #[inline(always)]
    pub fn len(&self) -> usize
        ensures { result ≡ length self.now }
    {
        self.count
    }

    /// The bytes behind the first so many.
    pub fn behind(&self, count: usize) -> &[u8]
        requires { count ≤ length self.now }
        ensures { result.now ≡ drop count self.now }
    {
        &self.bytes[count..self.count]
    }

    // Whether so many bytes more have room.
    #[inline(always)]
    fn has_room(&self, count: usize) -> bool
        requires { count ≤ ROOM }
        ensures { IsTrue result → HasRoom self.now count }
    {
        self.count <= ROOM - count
    }

    // Whether a text and so many bytes more have room.
    #[inline(always)]
    fn has_room_behind(&self, text: &[u8], count: usize) -> bool
        requires { count ≤ ROOM }
        ensures { IsTrue result → HasRoom self.now (length text.now + count) }
    {
        self.count + text.len() <= ROOM - count
    }

    /// Puts the line at the end of the buffer, and holds nothing then. The one error is that memory was refused; then a front of
    /// it may stand there.
    #[tactic(auto, unfolding(crate::specs::Lines::written))]
    #[inline(always)]
    pub fn pass_on(&mut self, out: &mut Vec<u8>) -> Result<(), AllocError>
        ensures passed { OnOk result (out.new.items ≡ written out.old.items self.old) }
        ensures empty { self.new ≡ [] }
    {
        let count = self.count;
        self.count = 0;
        append(out, &self.bytes[..count])
    }

    /// Makes room for so many bytes: the line is passed on where fewer have room. The one error is that memory was refused; then a
    /// front of it may stand there.
    #[tactic(auto, using(crate::proofs::Lines::written_none))]
    #[inline(always)]
    pub fn reserve(&mut self, out: &mut Vec<u8>, count: usize) -> Result<(), AllocError>
        requires { count ≤ ROOM }
        ensures same { OnOk result (written out.new.items self.new ≡ written out.old.items self.old) }
        ensures room { OnOk result (HasRoom self.new count) }
    {
        if self.has_room(count) {
            return Ok(());
        }
        self.pass_on(out)
    }

    /// Puts bytes behind the line; fast where there are few.
    #[inline(always)]
    pub fn push(&mut self, text: &[u8])
        requires { HasRoom self.old (length text.now) }
        ensures { self.new ≡ self.old ++ text.now }
    {
        self.count = put_name(&mut self.bytes, self.count, text);
    }

    /// Puts the first of these bytes behind the line; fast, since all are put there.
    #[inline(always)]
    pub fn push_kept(&mut self, text: &[u8; KEPT], count: usize)
        requires few { count ≤ KEPT }
        requires room { HasRoom self.old KEPT }
        ensures { self.new ≡ self.old ++ take count text.now }
    {
        let text = *text;
        put_text(&mut self.bytes, self.count, &text);
        self.count += count;
    }

    /// Puts the first of these bytes behind the line, with another one at this place.
    #[inline(always)]
    pub fn push_kept_with(&mut self, text: &[u8; KEPT], count: usize, at: (usize, u8))
        requires few { count ≤ KEPT }
        requires at { at.0 < count }
        requires room { HasRoom self.old KEPT }
        ensures { self.new ≡ self.old ++ slice_set (take count text.now) at.0 at.1 }
    {
        let start = self.count;
        self.push_kept(text, count);
        self.bytes[start + at.0] = at.1;
    }

    /// Puts a number in decimal digits behind the line; fast where it has at most six.
    #[inline(always)]
    pub fn push_number(&mut self, number: u64)
        requires { HasRoom self.old NUMBER }
        ensures text { self.new ≡ self.old ++ decimal number }
        ensures few { length self.new ≤ length self.old + NUMBER }
    {
        self.count = put_number(&mut self.bytes, self.count, number);
    }

    /// Puts the TIME text of so many microseconds behind the line; fast where they are not negative and less than a minute.
    #[inline(always)]
    pub fn push_time(&mut self, micros: i64)
        requires { HasRoom self.old TIME }
        ensures text { self.new ≡ self.old ++ time_text micros }
        ensures few { length self.new ≤ length self.old + TIME }
    {
        self.count = put_time(&mut self.bytes, self.count, micros);
    }

    // Bytes that have no room.
    #[tactic(auto, using(crate::proofs::Lines::written_none))]
    #[cold]
    #[inline(never)]
    fn put_long(&mut self, out: &mut Vec<u8>, text: &[u8]) -> Result<(), AllocError>
        ensures text { OnOk result (written out.new.items self.new ≡ written out.old.items self.old ++ text.now) }
        ensures empty { OnOk result (self.new ≡ []) }
    {
        self.pass_on(out)?;
        append(out, text)
    }

    /// Puts bytes behind the line, and makes room for so many more; where all that has no room, the line and the bytes go to the
    /// buffer. The one error is that memory was refused; then a front of them may stand there.
    #[tactic(auto, using(crate::proofs::Lines::written_more))]
    #[inline(always)]
    pub fn put_and_reserve(
        &mut self,
        out: &mut Vec<u8>,
        text: &[u8],
        count: usize,
    ) -> Result<(), AllocError>
        requires { count ≤ ROOM }
        ensures text { OnOk result (written out.new.items self.new ≡ written out.old.items self.old ++ text.now) }
        ensures room { OnOk result (HasRoom self.new count) }
    {
        if self.has_room_behind(text, count) {
            self.push(text);
            return Ok(());
        }
        self.put_long(out, text)
    }

    /// Puts bytes behind the line; where they have no room, the line and the bytes go to the buffer. The one error is that memory
    /// was refused; then a front of them may stand there.
    #[inline(always)]
    pub fn put(&mut self, out: &mut Vec<u8>, text: &[u8]) -> Result<(), AllocError>
        ensures { OnOk result (written out.new.items self.new ≡ written out.old.items self.old ++ text.now) }
    {
        self.put_and_reserve(out, text, 0)
    }
}
