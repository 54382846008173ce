//! What documents declare.

use crate::answer::Answer;
use crate::asked::Asked;
use crate::documents::{Document, Documents};
use crate::values::range_of;
use sfc_names::chart::Chart;
use sfc_names::declarations::{Declaration, Sort, declarations_of};
use sfc_names::sfc_places::span::Span;
use sfc_responses::symbol::{Group, Located, Symbol};
use std::alloc::{AllocError, Global};

// The number of the protocol for a kind of things.
fn kind_number(sort: Sort) -> u32 {
    match sort {
        Sort::Configuration => 2,
        Sort::ProgramType => 5,
        Sort::Step => 7,
        Sort::Action => 12,
        Sort::Variable => 13,
        Sort::Task => 14,
        Sort::Instance => 19,
        Sort::Transition => 24,
    }
}

// A thing, as it is told.
fn told_of(
    alloc: Global,
    (document, chart): (&Document, &Chart),
    declaration: Declaration,
) -> Result<Symbol, AllocError> {
    Ok(Symbol {
        kind: kind_number(declaration.sort),
        name: String::from_utf8_lossy(alloc, chart.bytes(declaration.label))?,
        range: range_of(document, Span::of(declaration.span)),
        selection: range_of(document, Span::of(declaration.name)),
    })
}

// All things, each with those in it.
fn groups_of(
    alloc: Global,
    (document, chart): (&Document, &Chart),
) -> Result<Vec<Group>, AllocError> {
    let mut groups: Vec<Group> = Vec::new(alloc);
    for declaration in declarations_of(alloc, chart)? {
        let symbol = told_of(alloc, (document, chart), declaration)?;
        match groups.last_mut() {
            Some(group) if declaration.is_inner => group.inner.push(symbol)?,
            _ => groups.push(Group {
                head: symbol,
                inner: Vec::new(alloc),
            })?,
        }
    }
    Ok(groups)
}

// A thing with its document, and what it stands in.
fn located_of(
    alloc: Global,
    (uri, document, chart): (&str, &Document, &Chart),
    declaration: Declaration,
    around: &[u8],
) -> Result<Located, AllocError> {
    Ok(Located {
        around: String::from_utf8_lossy(alloc, around)?,
        kind: kind_number(declaration.sort),
        name: String::from_utf8_lossy(alloc, chart.bytes(declaration.label))?,
        uri: String::from_str(alloc, uri)?,
        range: range_of(document, Span::of(declaration.name)),
    })
}

// Whether a word stands in a name, in any case of the letters.
fn is_in(word: &[u8], name: &[u8]) -> bool {
    if word.is_empty() {
        return true;
    }
    name.windows(word.len())
        .any(|window| window.eq_ignore_ascii_case(word))
}

// Puts the things of a document last in whose names a word stands.
fn put_symbols(
    alloc: Global,
    (uri, document, chart): (&str, &Document, &Chart),
    word: &[u8],
    list: &mut Vec<Located>,
) -> Result<(), AllocError> {
    let mut around: &[u8] = b"";
    for declaration in declarations_of(alloc, chart)? {
        let name = chart.bytes(declaration.label);
        if !declaration.is_inner {
            around = b"";
        }
        if is_in(word, name) {
            list.push(located_of(alloc, (uri, document, chart), declaration, around)?)?;
        }
        if !declaration.is_inner {
            around = name;
        }
    }
    Ok(())
}

/// What a document declares; null where it can't be read. The one error is that memory was refused.
pub fn document_symbols(asked: &Asked<'_>) -> Result<Answer, AllocError> {
    let alloc = asked.alloc;
    let Some(chart) = asked.chart() else {
        return Ok(Answer::nothing());
    };
    if !asked.client.has_inner_symbols {
        let mut list = Vec::new(alloc);
        put_symbols(alloc, (asked.uri, asked.document, chart), b"", &mut list)?;
        return Ok(Answer::List(list));
    }
    Ok(Answer::Symbols(groups_of(alloc, (asked.document, chart))?))
}

/// What all documents that are open declare in whose names a word stands. The one error is that memory was refused.
pub fn all_symbols(alloc: Global, documents: &Documents, word: &str) -> Result<Answer, AllocError> {
    let mut list = Vec::new(alloc);
    for (uri, document) in &documents.map {
        if let Some(chart) = document.current() {
            let at = (uri.as_str(), document, chart);
            put_symbols(alloc, at, word.as_bytes(), &mut list)?;
        }
    }
    Ok(Answer::List(list))
}
