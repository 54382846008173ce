//! Editors that are served on standard input and standard output, by either of their protocols.

use crate::debug::FileArchive;
use crate::files::{Streams, bytes_or_none, end_with};
use sfc_dap::desk::Desk;
use sfc_dap::serving::serve_dap;
use sfc_lsp::serving::serve_lsp;
use sfc_lsp::sfc_frames::frame_fault::{FrameFault, PutFault};
use sfc_lsp::sfc_frames::serving::ServeFault;
use sfc_lsp::shelf::Shelf;
use sfc_replay::input::read_to_end;
use sfc_replay::replay_error::ReplayError;
use std::alloc::AllocError;
use std::fs;
use std::rt::Files;

// What a file holds; None where it can't be read. The one error is that memory was refused.
fn read_file<R: Files>(
    archive: &FileArchive<'_, R>,
    path: &str,
) -> Result<Option<Vec<u8>>, AllocError> {
    let Ok(mut file) = fs::open(archive.rt, path) else {
        return Ok(None);
    };
    bytes_or_none(read_to_end(archive.alloc, &mut file))
}

impl<R: Files + Eprint> Desk for FileArchive<'_, R> {
    fn read(&mut self, path: &str) -> Result<Option<Vec<u8>>, AllocError> {
        read_file(self, path)
    }
}

impl<R: Files> Shelf for FileArchive<'_, R> {
    fn read(&mut self, path: &str) -> Result<Option<Vec<u8>>, AllocError> {
        read_file(self, path)
    }
}

// Tells on standard error why a client was left: the exit status, which is 3 where no frame came, or none could be written.
fn end_with_fault<R: Eprint>(rt: &R, fault: ServeFault) -> u8 {
    match fault {
        ServeFault::Memory | ServeFault::Frame(FrameFault::Memory) => {
            end_with(rt, ReplayError::Memory)
        }
        ServeFault::Frame(FrameFault::Read) => end_with(rt, ReplayError::Read),
        ServeFault::Put(PutFault::Write) => end_with(rt, ReplayError::Write),
        ServeFault::Frame(_) | ServeFault::Put(PutFault::TooLong) => {
            let _ = eprintln!(rt; "{fault}");
            3
        }
    }
}

/// Serves a client of the Language Server Protocol: the exit status, which is 1 where it leaves without `shutdown`.
pub fn serve_language<R: Eprint + Files + AllocGlobal>(rt: &R, streams: Streams) -> u8 {
    let Streams {
        mut input,
        mut output,
        shower: _,
        answers: _,
        alarms: _,
        notes: _,
        errors: _,
    } = streams;
    let alloc = rt.alloc();
    let mut shelf = FileArchive::new(rt, alloc);
    match serve_lsp(alloc, &mut shelf, &mut input, &mut output) {
        Ok(status) => status,
        Err(fault) => end_with_fault(rt, fault),
    }
}

/// Serves a client of the Debug Adapter Protocol: the exit status.
pub fn serve_debugger<R: Eprint + Files + AllocGlobal>(rt: &R, streams: Streams) -> u8 {
    let Streams {
        mut input,
        mut output,
        shower: _,
        answers: _,
        alarms: _,
        notes: _,
        errors: _,
    } = streams;
    let alloc = rt.alloc();
    let desk = FileArchive::new(rt, alloc);
    match serve_dap(alloc, desk, &mut input, &mut output) {
        Ok(()) => 0,
        Err(fault) => end_with_fault(rt, fault),
    }
}
