//! Lines of a session that ask how all stands, on their way to the thread that prints.

ghost use Rattle.std.specs.Prelude.{◌≡◌};
ghost use Rattle.sfc_control.specs.sfc_core.Agreement.{plant_of};
ghost use Rattle.sfc_run.specs.Asks as rules;

use crate::sfc_core::resource::Resource;
use crate::sfc_script::session_line::{SessionLine, read_session_line};
use crate::sfc_script::split::first_word;
use crossbeam_queue::ArrayQueue;
use sfc_base::case::is_same_word;
use std::alloc::{AllocError, Global};
use std::sync::Wait;

/// How many lines may wait.
const ROOM: usize = 64;

/// Lines that ask and wait for their answers. Where 64 wait, or memory is refused, a line is lost.
#[derive(Drop)]
pub struct Asks {
    lines: ArrayQueue<Vec<u8>>,
}

// Whether a word asks how all stands, in any case of its letters.
fn is_question(word: &[u8]) -> bool
    ensures { result ≡ rules.is_question word.now }
{
    is_same_word(word, b"SHOW")
        || is_same_word(word, b"IMAGE")
        || is_same_word(word, b"WHY")
        || is_same_word(word, b"POINTS")
        || is_same_word(word, b"TRACE")
        || is_same_word(word, b"LIST")
        || is_same_word(word, b"EXPLAIN")
        || is_same_word(word, b"HELP")
}

/// Whether a line asks how all stands: by its first word.
pub fn is_asking(line: &[u8]) -> bool
    ensures { result ≡ rules.is_asking line.now }
{
    match first_word(line) {
        Some((word, _)) => is_question(word),
        None => false,
    }
}

/// What a line of the session of a run says: one that asks says nothing to the run, and any other what `read_session_line` says.
#[tactic(auto, unfolding(crate::specs::Asks::run_line))]
pub fn read_run_line(resource: &Resource, line: &[u8]) -> SessionLine
    ensures { result ≡ rules.run_line (plant_of resource.now) line.now }
{
    if is_asking(line) {
        SessionLine::Skipped
    } else {
        read_session_line(resource, line)
    }
}

impl Asks {
    /// None waits. The one error is that memory was refused.
    pub fn new(alloc: Global) -> Result<Asks, AllocError> {
        let lines = ArrayQueue::new(alloc, ROOM)?;
        Ok(Asks { lines })
    }

    /// The line waits then, where it asks, and there is room and memory for it.
    pub fn put<R: Wait>(&self, rt: &R, alloc: Global, line: &[u8]) {
        if !is_asking(line) {
            return;
        }
        if let Ok(line) = line.to_vec(alloc) {
            let _ = self.lines.push(rt, line);
        }
    }

    /// The next line that waits.
    pub fn take<R: Wait>(&self, rt: &R) -> Option<Vec<u8>> {
        self.lines.pop(rt)
    }
}
