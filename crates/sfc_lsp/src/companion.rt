//! The chart that a script or tests are for.

use crate::documents::{Document, Documents};
use crate::shelf::Shelf;
use crate::uris::{path_of, with_ending};
use std::alloc::{AllocError, Global};

/// A chart, and its name.
#[derive(Drop)]
pub enum Companion<'a> {
    /// It is open.
    Open(&'a str, &'a Document),
    /// It stands in a file.
    Shelved(String, Document),
}

impl Companion<'_> {
    /// The chart.
    pub fn document(&self) -> &Document {
        match self {
            Companion::Open(_, document) => document,
            Companion::Shelved(_, document) => document,
        }
    }

    /// Its name.
    pub fn uri(&self) -> &str {
        match self {
            Companion::Open(uri, _) => uri,
            Companion::Shelved(uri, _) => uri.as_str(),
        }
    }
}

// The chart of this name that stands in a file.
fn shelved<S: Shelf>(
    alloc: Global,
    shelf: &mut S,
    uri: &str,
) -> Result<Option<Document>, AllocError> {
    let Some(path) = path_of(alloc, uri)? else {
        return Ok(None);
    };
    match shelf.read(path.as_str())? {
        Some(text) => Ok(Some(Document::in_file(alloc, text)?)),
        None => Ok(None),
    }
}

// The open document of the same stem that is a chart, with its name.
fn beside<'a>(
    alloc: Global,
    documents: &'a Documents,
    uri: &str,
) -> Result<Option<(&'a str, &'a Document)>, AllocError> {
    let chart = with_ending(alloc, uri, ".chart")?;
    if let Some(found) = documents.get_pair(chart.as_str()) {
        return Ok(Some(found));
    }
    let chart = with_ending(alloc, uri, ".sfc")?;
    Ok(documents.get_pair(chart.as_str()))
}

/// The chart of a script or of tests: the one beside it with the same stem, open or in a file; else the only one that is open. The one
/// error is that memory was refused.
pub fn companion_of<'a, S: Shelf>(
    alloc: Global,
    documents: &'a Documents,
    shelf: &mut S,
    uri: &str,
) -> Result<Option<Companion<'a>>, AllocError> {
    if let Some((uri, document)) = beside(alloc, documents, uri)? {
        return Ok(Some(Companion::Open(uri, document)));
    }
    let chart = with_ending(alloc, uri, ".chart")?;
    if let Some(document) = shelved(alloc, shelf, chart.as_str())? {
        return Ok(Some(Companion::Shelved(chart, document)));
    }
    match documents.only_chart() {
        Some((uri, document)) => Ok(Some(Companion::Open(uri, document))),
        None => Ok(None),
    }
}
