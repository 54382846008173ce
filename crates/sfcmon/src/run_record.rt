//! The files in which a run is recorded.

use sfc_replay::replay_error::ReplayError;
use sfc_run::recording::Recording;
use std::alloc::{AllocError, Global};
use std::fs::File;
use std::io::{ErrorKind, Write};
use std::rt::Files;
use std::{fs, io};

/// The files of a record, one behind the other: the first has its name, and the k-th, from 2 on, `.k` behind that. None of them was there
/// before. A part begins where a line does.
#[derive(Drop)]
pub struct Parts<'a, R: Files> {
    rt: &'a R,
    alloc: Global,
    name: String,
    // How many bytes a part has at most, but for one that is a single line.
    most: usize,
    // The newest part; `None` where nothing is recorded.
    file: Option<R::File>,
    // Which one it is, counted from 1, and how many bytes it has.
    number: u64,
    len: usize,
    // Whether what was written of it ends with a line.
    is_at_line: bool,
}

// The name of a part.
fn part_name(alloc: Global, name: &str, number: u64) -> Result<String, AllocError> {
    format!(in alloc; "{name}.{number}")
}

// How many bytes in front are whole lines, and at most so many.
fn lines_in(bytes: &[u8], most: usize) -> usize {
    let front = bytes.get(..most.min(bytes.len())).unwrap_or_default();
    match front.iter().rposition(|byte| *byte == b'\n') {
        Some(place) => place.saturating_add(1),
        None => 0,
    }
}

// How many bytes the line in front has, with its end.
fn line_in(bytes: &[u8]) -> usize {
    match bytes.iter().position(|byte| *byte == b'\n') {
        Some(place) => place.saturating_add(1),
        None => bytes.len(),
    }
}

impl<'a, R: Files> Parts<'a, R> {
    // Nothing is recorded.
    fn none(rt: &'a R, alloc: Global) -> Parts<'a, R> {
        Parts {
            rt,
            alloc,
            name: String::new(alloc),
            most: 0,
            file: None,
            number: 1,
            len: 0,
            is_at_line: true,
        }
    }

    // The first part, in a new file of this name.
    fn open(rt: &'a R, alloc: Global, name: &str, most: usize) -> io::Result<Parts<'a, R>> {
        let kept = String::from_str(alloc, name)?;
        let file = File::create_new(rt, name)?;
        Ok(Parts {
            rt,
            alloc,
            name: kept,
            most,
            file: Some(file),
            number: 1,
            len: 0,
            is_at_line: true,
        })
    }

    // The next part, in a new file.
    fn begin(&mut self) -> io::Result<()> {
        let number = self.number.saturating_add(1);
        let name = part_name(self.alloc, self.name.as_str(), number)?;
        self.file = Some(File::create_new(self.rt, name.as_str())?);
        self.number = number;
        self.len = 0;
        Ok(())
    }

    // How many of these bytes go to the newest part: whole lines that there is room for, or else the rest of a line. The next part is begun
    // where there is no room for a line.
    fn share(&mut self, bytes: &[u8]) -> io::Result<usize> {
        if !self.is_at_line {
            return Ok(line_in(bytes));
        }
        let lines = lines_in(bytes, self.most.saturating_sub(self.len));
        if 0 < lines {
            return Ok(lines);
        }
        if 0 < self.len {
            self.begin()?;
        }
        Ok(lines_in(bytes, self.most).max(line_in(bytes)))
    }
}

impl<'a, R: Files> Write for Parts<'a, R> {
    fn write(&mut self, buf: &[u8]) -> io::Result<usize> {
        if buf.is_empty() {
            return Ok(0);
        }
        let share = self.share(buf)?;
        let piece = buf.get(..share.min(buf.len())).unwrap_or_default();
        let Some(file) = &mut self.file else {
            return Err(io::Error::from(ErrorKind::NotFound));
        };
        let count = file.write(piece)?.min(piece.len());
        self.len = self.len.saturating_add(count);
        self.is_at_line = match piece.get(..count).unwrap_or_default().last() {
            Some(byte) => *byte == b'\n',
            None => self.is_at_line,
        };
        Ok(count)
    }

    fn flush(&mut self) -> io::Result<()> {
        match &mut self.file {
            Some(file) => file.flush(),
            None => Ok(()),
        }
    }
}

/// Where a run is recorded, if a file is named: a new one; or the exit status where it is there, or can't be written anew.
pub fn parts_of<'a, R: Eprint + Files + AllocGlobal>(
    rt: &'a R,
    record: Option<&str>,
    most: usize,
) -> Result<(Parts<'a, R>, Recording), u8> {
    let Some(name) = record else {
        return Ok((Parts::none(rt, rt.alloc()), Recording::Off));
    };
    match Parts::open(rt, rt.alloc(), name, most) {
        Ok(parts) => Ok((parts, Recording::On)),
        Err(error) if error.kind() == ErrorKind::AlreadyExists => {
            let _ = eprintln!(rt; "error: {name} is there; --record writes a new file");
            Err(ReplayError::Write.status())
        }
        Err(_) => Err(crate::files::end_with_file(rt, name, ReplayError::Write)),
    }
}

/// Takes a file away in which a run was to be recorded that never began: one that has no bytes.
pub fn forget_empty<R: Files>(rt: &R, record: Option<&str>) {
    let Some(name) = record else {
        return;
    };
    if let Ok(metadata) = fs::metadata(rt, name) {
        if metadata.is_file() && metadata.len() == 0 {
            let _ = fs::remove_file(rt, name);
        }
    }
}
