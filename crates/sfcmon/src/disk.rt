//! Files that tests include.

use crate::files::{bytes_or_none, end_with_file};
use sfc_replay::replay_error::ReplayError;
use sfc_test::input::read_tests_to_end;
use sfc_why_tests::sfc_cases::sources::{IncludeError, Library, Reason, Sources};
use std::alloc::{AllocError, Global};
use std::fs;
use std::io::Read;
use std::rt::Files;

/// Files by their names.
#[derive(Drop)]
pub struct Disk<'a, R: Files> {
    pub rt: &'a R,
    pub alloc: Global,
}

impl<R: Files> Library for Disk<'_, R> {
    fn read(&mut self, name: &[u8]) -> Result<Option<Vec<u8>>, AllocError> {
        let Ok(name) = str::from_utf8(name) else {
            return Ok(None);
        };
        let Ok(mut file) = fs::open(self.rt, name) else {
            return Ok(None);
        };
        bytes_or_none(read_tests_to_end(self.alloc, &mut file))
    }
}

// A text of a file's as words, as far as it is UTF-8.
fn words_of(bytes: &[u8]) -> &str {
    match str::from_utf8(bytes) {
        Ok(words) => words,
        Err(_) => "?",
    }
}

// Tells on standard error that a file isn't included: the exit status.
fn tell<R: Eprint>(rt: &R, error: &IncludeError) -> u8 {
    let file = words_of(&error.file);
    let name = words_of(&error.name);
    let why = error.reason.text();
    let line = error.line;
    let _ = eprintln!(rt; "{file}: script line {line}: {name}: {why}");
    1
}

/// The text of a file of tests with those that it includes. The error is the exit status; whether all ends with it.
pub fn sources_of<R: Eprint + Files + AllocGlobal, S: Read>(
    rt: &R,
    name: &str,
    file: &mut S,
) -> Result<Sources, (u8, bool)> {
    let text = match read_tests_to_end(rt.alloc(), file) {
        Ok(text) => text,
        Err(error) => return Err((end_with_file(rt, name, error), true)),
    };
    let alloc = rt.alloc();
    let mut disk = Disk { rt, alloc };
    match Sources::of_file(alloc, &mut disk, name.as_bytes(), text) {
        Ok(sources) => Ok(sources),
        Err(error) => match error.reason {
            Reason::Memory => Err((end_with_file(rt, name, ReplayError::Memory), true)),
            _ => Err((tell(rt, &error), false)),
        },
    }
}
