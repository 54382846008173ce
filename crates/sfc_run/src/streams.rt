//! Where a run reads and writes.

use crate::picked::Picked;
use crate::recording::Recording;
use crate::sfc_debug::trace_mask::TraceMask;
use std::io::{Read, Write};

/// Where the lines of a session come from, and where its faults and those of the run are told.
#[derive(Drop)]
pub struct Streams<'s, S: Read, E: Write> {
    /// The lines.
    pub commands: &'s mut S,
    /// Where faults are told.
    pub errors: &'s mut E,
}

/// What is asked of a run.
#[derive(Drop)]
pub struct Asked<W: Write, T: Write, F: Write> {
    /// Where lines go.
    pub w: W,
    /// Where alarms go.
    pub tells: T,
    /// Where what is shown goes.
    pub shower: W,
    /// Where answers to lines go that ask how all stands.
    pub answers: W,
    /// Where accepted commands are recorded as a script.
    pub record: F,
    /// Where it is told that they aren't recorded any more.
    pub notes: T,
    /// Whether they are recorded.
    pub recording: Recording,
    /// What is shown.
    pub picked: Picked,
    /// Whether it is told at the end how late the scans of each task were.
    pub timing: bool,
    /// Which commands have lines.
    pub wanted: TraceMask,
    /// How many commands may be held, from 1 to 1,048,576.
    pub history: usize,
}
