//! The documents that a client has open, as it sent them last.

ghost use Rattle.std.specs.Prelude.{◌≡◌, IfOk, OnOk};
ghost use Rattle.sfc_lsp.specs.Documents.{Keeps};

use crate::language::Language;
use crate::positions::line_starts;
use indexmap::IndexMap;
use sfc_names::chart::Chart;
use sfc_names::diagnosing::{Diagnosed, diagnose_chart};
use sfc_names::diagnostic::Diagnostic;
use std::alloc::{AllocError, Global};

/// What is known of a document beside its text.
#[derive(Clone, Copy, Debug, PartialEq, Eq)]
pub struct Heading {
    pub language: Language,
    /// Its version, if the client counts them.
    pub version: Option<i64>,
}

impl Heading {
    /// Of a chart that stands in a file.
    pub fn of_chart() -> Heading {
        Heading {
            language: Language::Chart,
            version: None,
        }
    }
}

/// A document: its text as it was sent last, where its lines begin, and of a chart that which was read last.
#[derive(Drop)]
pub struct Document {
    pub heading: Heading,
    pub text: Vec<u8>,
    pub starts: Vec<usize>,
    /// The chart that the text is, or that an earlier one was.
    pub chart: Option<Chart>,
    /// Whether the chart is that of the text.
    pub is_current: bool,
    /// The faults and warnings of a chart that is open; of scripts and tests they are found when they are wanted, since they go by another
    /// text too.
    pub shown: Vec<Diagnostic>,
}

// What is read of a text, and the faults and warnings of a chart.
fn diagnosed(alloc: Global, language: Language, text: &[u8]) -> Result<Diagnosed, AllocError> {
    match language {
        Language::Chart => diagnose_chart(alloc, text),
        Language::Script | Language::Tests => Ok(Diagnosed {
            chart: None,
            list: Vec::new(alloc),
        }),
    }
}

// A document of which this was read; the chart of before stays where none was.
fn document_of(
    heading: Heading,
    text: Vec<u8>,
    starts: Vec<usize>,
    found: Diagnosed,
    before: Option<Chart>,
) -> Document
    ensures text { result.text ≡ text }
    ensures heading { result.heading ≡ heading }
{
    let Diagnosed { chart, list } = found;
    let is_current = chart.is_some();
    let chart = if is_current { chart } else { before };
    Document {
        heading,
        text,
        starts,
        chart,
        is_current,
        shown: list,
    }
}

impl Document {
    /// A document with this text. The chart of before stays where this text can't be read. The one error is that memory was refused.
    pub fn new(
        alloc: Global,
        heading: Heading,
        text: Vec<u8>,
        before: Option<Chart>,
    ) -> Result<Document, AllocError>
        ensures text { IfOk result (λ document. document.text ≡ text) }
        ensures heading { IfOk result (λ document. document.heading ≡ heading) }
    {
        let starts = line_starts(alloc, &text)?;
        let found = diagnosed(alloc, heading.language, &text)?;
        Ok(document_of(heading, text, starts, found, before))
    }

    /// A chart that stands in a file: none of its faults and warnings are looked for. The one error is that memory was refused.
    pub fn in_file(alloc: Global, text: Vec<u8>) -> Result<Document, AllocError>
        ensures { IfOk result (λ document. document.text ≡ text) }
    {
        let starts = line_starts(alloc, &text)?;
        let found = Diagnosed {
            chart: Chart::of(alloc, &text)?,
            list: Vec::new(alloc),
        };
        Ok(document_of(Heading::of_chart(), text, starts, found, None))
    }

    /// What it is written in.
    pub fn language(&self) -> Language {
        self.heading.language
    }

    /// The chart that was read last.
    pub fn into_chart(self) -> Option<Chart> {
        let Document { chart, .. } = self;
        chart
    }

    /// The chart that the text is; None where it can't be read.
    pub fn current(&self) -> Option<&Chart> {
        if self.is_current {
            self.chart.as_ref()
        } else {
            None
        }
    }
}

/// The documents that are open, by their names.
pub struct Documents {
    pub map: IndexMap<String, Document>,
}

// By hand, so that a caller that drops one proves one call.
impl Drop for Documents {
    fn drop(self) {
        let Documents { map: _ } = self;
    }
}

impl Documents {
    /// None is open.
    pub fn new(alloc: Global) -> Documents {
        Documents {
            map: IndexMap::new(alloc),
        }
    }

    /// The document of this name; None where it isn't open.
    pub fn get(&self, uri: &str) -> Option<&Document> {
        self.map.get(uri)
    }

    /// The document of this name, with the name as it is kept; None where it isn't open.
    pub fn get_pair(&self, uri: &str) -> Option<(&str, &Document)> {
        for (name, document) in &self.map {
            if name.as_str() == uri {
                return Some((name.as_str(), document));
            }
        }
        None
    }

    /// Keeps a document under its name, in place of one that was there; the others stay as they are. The one error is that memory was
    /// refused.
    pub fn put(&mut self, alloc: Global, uri: &str, document: Document) -> Result<(), AllocError>
        ensures { OnOk result (Keeps uri.now document self.old.map.entries self.new.map.entries) }
    {
        let name = String::from_str(alloc, uri)?;
        match self.map.insert(name, document) {
            Ok(_) => Ok(()),
            Err(_) => Err(AllocError),
        }
    }

    /// Takes out the document of this name; the others stay as they are. None where it isn't open.
    pub fn take(&mut self, uri: &str) -> Option<Document> {
        self.map.shift_remove(uri)
    }

    /// Takes out the document of this name, and answers the chart that was read of it last.
    pub fn take_chart(&mut self, uri: &str) -> Option<Chart> {
        self.map.shift_remove(uri)?.into_chart()
    }

    /// The one document that is a chart; None where there is none, or more than one.
    pub fn only_chart(&self) -> Option<(&str, &Document)> {
        let mut found = None;
        for (uri, document) in &self.map {
            if document.language() == Language::Chart {
                if found.is_some() {
                    return None;
                }
                found = Some((uri.as_str(), document));
            }
        }
        found
    }
}
