//! A chart that is stepped by hand.

use crate::arguments::Debugging;
use crate::files::{Streams, end_with, end_with_file};
use sfc_prompt::archive::{Archive, Kept};
use sfc_prompt::desk::{Desk, hold};
use sfc_replay::replay_error::ReplayError;
use std::alloc::{AllocError, Global};
use std::fs::File;
use std::io::{IsTerminal, Write};
use std::rt::Files;
use std::{fs, io};

/// A file to which a script is written as it grows.
#[derive(Drop)]
struct Record<F: Write> {
    name: String,
    file: F,
    // How many bytes were written.
    len: usize,
}

impl<F: Write> Record<F> {
    // Writes what a script has behind what was written of it.
    fn follow(&mut self, script: &[u8]) -> io::Result<()> {
        let more = script.get(self.len..).unwrap_or_default();
        if more.is_empty() {
            return Ok(());
        }
        self.file.write_all(more)?;
        self.file.flush()?;
        self.len = script.len();
        Ok(())
    }
}

/// Files, by their names.
#[derive(Drop)]
pub struct FileArchive<'a, R: Files> {
    pub rt: &'a R,
    pub alloc: Global,
    // The files that were written here.
    written: Vec<String>,
    // The file in which the session is recorded.
    record: Option<Record<R::File>>,
}

impl<'a, R: Files> FileArchive<'a, R> {
    /// No file was written yet, and nothing is recorded.
    pub fn new(rt: &'a R, alloc: Global) -> FileArchive<'a, R> {
        FileArchive {
            rt,
            alloc,
            written: Vec::new(alloc),
            record: None,
        }
    }

    // The session is recorded in a file of this name, which mustn't be there.
    fn record_to(&mut self, name: &str) -> io::Result<()> {
        let kept = String::from_str(self.alloc, name)?;
        let file = File::create_new(self.rt, name)?;
        self.record = Some(Record {
            name: kept,
            file,
            len: 0,
        });
        Ok(())
    }

    // Whether the session is recorded in the file of this name.
    fn records(&self, name: &str) -> bool {
        match &self.record {
            Some(record) => record.name.as_str() == name,
            None => false,
        }
    }

    // Takes the file away in which a session was to be recorded that never began.
    fn forget_record(&mut self) {
        if let Some(record) = self.record.take() {
            let _ = fs::remove_file(self.rt, record.name.as_str());
        }
    }

    // Whether a file is there that wasn't written here.
    fn is_foreign(&self, name: &str) -> bool {
        if self.written.iter().any(|written| written.as_str() == name) {
            return false;
        }
        !matches!(fs::exists(self.rt, name), Ok(false))
    }

    // Writes a file beside the one of this name, and puts it in its place.
    fn write(&self, name: &str, script: &[u8]) -> io::Result<()> {
        let part = part_name(self.alloc, name)?;
        let written = fs::write(self.rt, part.as_str(), script).and_then(|()| fs::rename(
            self.rt,
            part.as_str(),
            name,
        ));
        if written.is_err() {
            let _ = fs::remove_file(self.rt, part.as_str());
        }
        written
    }
}

// Why a file isn't written.
fn kept_by(error: &io::Error) -> Kept {
    match error.kind() {
        io::ErrorKind::NotFound | io::ErrorKind::NotADirectory => Kept::NoFolder,
        io::ErrorKind::PermissionDenied | io::ErrorKind::ReadOnlyFilesystem => Kept::NoRight,
        _ => Kept::Failed,
    }
}

// The name of the file that is written before it takes its place.
fn part_name(alloc: Global, name: &str) -> Result<String, AllocError> {
    let mut part = String::from_str(alloc, name)?;
    part.push_str(".part")?;
    Ok(part)
}

impl<R: Files + Eprint> Archive for FileArchive<'_, R> {
    fn keep(&mut self, name: &str, script: &[u8], may_replace: bool) -> Kept {
        // What is recorded there is this script.
        if self.records(name) {
            return Kept::Kept;
        }
        if !may_replace && self.is_foreign(name) {
            return Kept::Foreign;
        }
        let Ok(written) = String::from_str(self.alloc, name) else {
            return Kept::Failed;
        };
        if self.written.reserve(1).is_err() {
            return Kept::Failed;
        }
        match self.write(name, script) {
            Ok(()) => {
                self.written.push_reserved(written);
                Kept::Kept
            }
            Err(error) => kept_by(&error),
        }
    }

    fn record(&mut self, script: &[u8]) {
        let Some(record) = &mut self.record else {
            return;
        };
        if record.follow(script).is_err() {
            let _ = eprintln!(self.rt; "error: the session can't be recorded any more");
            self.record = None;
        }
    }
}

// An archive that records the session in the file that is named, if one is; or the exit status where that can't be written anew.
fn archive_of<'a, R: Eprint + Files + AllocGlobal>(
    rt: &'a R,
    record: Option<&str>,
) -> Result<FileArchive<'a, R>, u8> {
    let mut archive = FileArchive::new(rt, rt.alloc());
    let Some(name) = record else {
        return Ok(archive);
    };
    match archive.record_to(name) {
        Ok(()) => Ok(archive),
        Err(error) if error.kind() == io::ErrorKind::AlreadyExists => {
            let _ = eprintln!(rt; "error: {name} is there; --record writes a new file");
            Err(ReplayError::Write.status())
        }
        Err(_) => Err(end_with_file(rt, name, ReplayError::Write)),
    }
}

/// Holds a session on the chart of a file: the exit status. Its lines come from standard input, and its answers go to standard output. What it
/// accepts goes to the file to be recorded in, if one is named, line by line as it comes. A file that can't be opened is a read fault, and one
/// that can't be written a write fault.
pub fn debug_file<R: Eprint + Files + AllocGlobal>(
    rt: &R,
    streams: Streams,
    debugging: &Debugging,
) -> u8 {
    let Ok(mut chart) = fs::open(rt, debugging.chart.as_str()) else {
        return end_with(rt, ReplayError::Read);
    };
    let archive = match archive_of(rt, debugging.record.as_ref().map(|name| name.as_str())) {
        Ok(archive) => archive,
        Err(status) => return status,
    };
    let Streams {
        mut input,
        output,
        shower: _,
        answers: _,
        alarms: _,
        notes: _,
        errors: _,
    } = streams;
    let desk = Desk {
        is_terminal: input.is_terminal() && output.is_terminal(),
        answers: output,
        archive,
    };
    let (mut desk, held) = hold(rt.alloc(), &mut chart, &mut input, desk);
    match held {
        Ok(()) => 0,
        Err(error) => {
            if let ReplayError::Chart(_) = error {
                desk.archive.forget_record();
            }
            end_with(rt, error)
        }
    }
}
