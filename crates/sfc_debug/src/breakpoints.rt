//! The breakpoints that are set.

use crate::breakpoint::Breakpoint;
use std::marker::Model;

/// The breakpoints that are set, at most 64, the one that was set first before the others.
pub struct Breakpoints {
    set: Vec<Breakpoint>,
}

// By hand, so that a caller that drops one proves one call.
impl Drop for Breakpoints {
    fn drop(self) {
        let Breakpoints { set: _ } = self;
    }
}

impl Model for Breakpoints {
    ghost use Rattle.std.specs.Prelude.{◌≤◌, List, vec_len, vec_capacity};
    ghost use Rattle.sfc_debug.specs.declared.breakpoint.Breakpoint.{Breakpoint};

    ghost Value = { List Breakpoint };

    ghost view = { λ points. points.set.items };

    ghost invariant = { λ points. (64 ≤ vec_capacity points.set) × (vec_len points.set ≤ 64) };
}

ghost use Rattle.std.specs.Prelude.{◌≡◌, ◌<◌, ◌≤◌, [], None, length, IfOk, IfSome};
ghost use Rattle.sfc_debug.specs.Points as points;
ghost use Rattle.sfc_debug.specs.Private.Ranges.{HasRoom};

use sfc_base::ids::ProgId;
use sfc_events::command::{Command, Point};
use std::alloc::{AllocError, Global};

// How many may be set.
const BREAKPOINTS: usize = 64;

impl Breakpoints {
    /// None is set. The one error is that memory was refused.
    pub fn new(alloc: Global) -> Result<Breakpoints, AllocError>
        ensures { IfOk result (λ points. points ≡ []) }
    {
        let set = Vec::with_capacity(alloc, BREAKPOINTS)?;
        Ok(Breakpoints { set })
    }

    /// They, the one that was set first before the others.
    pub fn as_slice(&self) -> &[Breakpoint]
        ensures value { result.now ≡ self.now }
        ensures limit { length self.now ≤ 64 }
    {
        self.set.as_slice()
    }

    /// The place of the one at this point, if one is set there.
    pub fn place(&self, program: ProgId, point: Point) -> Option<usize>
        ensures value { result ≡ points.place_of program point self.now }
        ensures known { IfSome result (λ k. k < length self.now) }
    {
        for (k, breakpoint) in self.set.iter().enumerate() {
            if breakpoint.is_at(program, point) {
                return Some(k);
            }
        }
        None
    }

    // It takes the place of one at the same point. There is room for it.
    fn put(&mut self, breakpoint: Breakpoint)
        requires room { points.place_of breakpoint.program breakpoint.point self.old ≡ None → length self.old < 64 }
        ensures { self.new ≡ points.with_breakpoint breakpoint self.old }
    {
        match self.place(breakpoint.program, breakpoint.point) {
            Some(k) => self.set[k] = breakpoint,
            None => self.set.push_reserved(breakpoint),
        }
    }

    // None is set at this point.
    fn remove(&mut self, program: ProgId, point: Point)
        ensures { self.new ≡ points.without program point self.old }
    {
        if let Some(k) = self.place(program, point) {
            self.set.remove(k);
        }
    }

    /// After an accepted command. It takes no memory.
    pub fn follow(&mut self, command: Command)
        requires room { HasRoom command self.old }
        ensures { self.new ≡ points.points_after command self.old }
    {
        match command {
            Command::Break(program, point) => self.put(Breakpoint {
                program,
                point,
                condition: None,
            }),
            Command::BreakIf(program, point, id) => self.put(Breakpoint {
                program,
                point,
                condition: Some(id),
            }),
            Command::Unbreak(program, point) => self.remove(program, point),
            _ => {}
        }
    }

    /// Takes over those of another. It takes no memory.
    pub fn copy_from(&mut self, other: &Breakpoints)
        ensures { self.new ≡ other.now }
    {
        self.set.clear();
        let from = other.as_slice();
        for k in 0..from.len() {
            self.set.push_reserved(from[k]);
        }
    }
}
