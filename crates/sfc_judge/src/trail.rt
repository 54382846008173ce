//! What a case has accepted so far.

use crate::sfc_debug::timed::Timed;
use std::alloc::Global;
use std::mem;

/// The commands that a case has accepted, where they are kept.
pub struct Trail {
    commands: Vec<Timed>,
    is_kept: bool,
    // Whether none was left out, since memory was refused.
    is_whole: bool,
}

// By hand, so that a caller that drops one proves one call.
impl Drop for Trail {
    fn drop(self) {
        let Trail {
            commands: _,
            is_kept: _,
            is_whole: _,
        } = self;
    }
}

impl Trail {
    /// One that keeps nothing.
    pub fn new(alloc: Global) -> Trail {
        Trail {
            commands: Vec::new(alloc),
            is_kept: false,
            is_whole: true,
        }
    }

    /// From now on commands are kept, or not.
    pub fn keep(&mut self, is_kept: bool) {
        self.is_kept = is_kept;
    }

    /// A case begins.
    pub fn begin(&mut self) {
        self.commands.clear();
        self.is_whole = true;
    }

    /// A command was accepted.
    pub fn note(&mut self, timed: Timed) {
        if self.is_kept && self.is_whole {
            self.is_whole = self.commands.push(timed).is_ok();
        }
    }

    /// The commands that were accepted, the first first, which aren't kept any more; None where they weren't, or memory was refused for
    /// them.
    pub fn take(&mut self, alloc: Global) -> Option<Vec<Timed>> {
        let commands = mem::replace(&mut self.commands, Vec::new(alloc));
        if self.is_kept && self.is_whole {
            Some(commands)
        } else {
            None
        }
    }
}
