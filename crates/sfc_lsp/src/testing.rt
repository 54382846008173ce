//! The faults of files of tests.

use crate::documents::Document;
use crate::shelf::Shelf;
use crate::uris::path_of;
use sfc_names::diagnostic::Diagnostic;
use sfc_names::testing::{diagnose_tests, including_fault};
use sfc_plant::plant::Plant;
use sfc_why_tests::sfc_cases::sources::{IncludeError, Library, Reason, Sources};
use std::alloc::{AllocError, Global};

/// The files that tests include.
#[derive(Drop)]
struct Included<'a, S: Shelf> {
    shelf: &'a mut S,
}

impl<S: Shelf> Library for Included<'_, S> {
    fn read(&mut self, name: &[u8]) -> Result<Option<Vec<u8>>, AllocError> {
        match str::from_utf8(name) {
            Ok(name) => self.shelf.read(name),
            Err(_) => Ok(None),
        }
    }
}

// What is shown where a file isn't included.
fn not_included(
    alloc: Global,
    text: &[u8],
    error: &IncludeError,
) -> Result<Vec<Diagnostic>, AllocError> {
    if error.reason == Reason::Memory {
        return Err(AllocError);
    }
    let mut found = Vec::new(alloc);
    found.push(including_fault(alloc, text, error)?)?;
    Ok(found)
}

/// What is shown of a file of tests that is open, over its chart: its faults, with those of the files that it includes. The one error is
/// that memory was refused.
pub fn tests_over<S: Shelf>(
    alloc: Global,
    (chart, plant): (&[u8], Plant),
    (uri, tests): (&str, &Document),
    shelf: &mut S,
) -> Result<Vec<Diagnostic>, AllocError> {
    let path = match path_of(alloc, uri)? {
        Some(path) => path,
        None => String::from_str(alloc, uri)?,
    };
    let text = Vec::from_slice(alloc, &tests.text)?;
    let mut library = Included { shelf };
    match Sources::of_file(alloc, &mut library, path.as_bytes(), text) {
        Ok(sources) => diagnose_tests(alloc, (chart, plant), &tests.text, &sources),
        Err(error) => not_included(alloc, &tests.text, &error),
    }
}
