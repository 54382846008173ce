//! What mends a fault of a chart.

use crate::chart::tokens_of;
use crate::faults::reports_of;
use crate::qualifiers::is_timed;
use crate::reading::bytes_of;
use sfc_page::append::append;
use sfc_places::span::Span;
use sfc_tokens::token::Token;
use sfc_why::place::front_of;
use sfc_why::report::Report;
use std::alloc::{AllocError, Global};

/// The most faults of which is tried what mends them.
const MOST: usize = 10;

/// Bytes of a text that are replaced, and what it is called.
pub struct Mend {
    pub title: Vec<u8>,
    pub span: Span,
    pub text: Vec<u8>,
}

// By hand, so that a caller that drops one proves one call.
impl Drop for Mend {
    fn drop(self) {
        let Mend {
            title: _,
            span: _,
            text: _,
        } = self;
    }
}

/// A text with other bytes in place of these. The one error is that memory was refused.
pub fn replaced(
    alloc: Global,
    text: &[u8],
    span: Span,
    more: &[u8],
) -> Result<Vec<u8>, AllocError> {
    let mut other = Vec::from_slice(alloc, text.get(..span.from).unwrap_or(text))?;
    append(&mut other, more)?;
    append(&mut other, text.get(span.to..).unwrap_or(b""))?;
    Ok(other)
}

// The bytes of a report's place.
fn span_of(text: &[u8], report: &Report) -> Span {
    report.place.span(text)
}

// What puts the name that may be meant in the place of the one that stands there.
fn near_mend(alloc: Global, text: &[u8], report: &Report) -> Result<Option<Mend>, AllocError> {
    let Some(near) = &report.near else {
        return Ok(None);
    };
    let mut title = Vec::from_slice(alloc, b"did you mean ")?;
    append(&mut title, near)?;
    append(&mut title, b"?")?;
    Ok(Some(Mend {
        title,
        span: span_of(text, report),
        text: Vec::from_slice(alloc, near)?,
    }))
}

// What puts bytes at a place.
fn insertion(
    alloc: Global,
    title: &[u8],
    place: usize,
    text: &[u8],
) -> Result<Option<Mend>, AllocError> {
    Ok(Some(Mend {
        title: Vec::from_slice(alloc, title)?,
        span: Span {
            from: place,
            to: place,
        },
        text: Vec::from_slice(alloc, text)?,
    }))
}

// The last token before a report's place.
fn last_before<'a>(front: &'a [u8], tokens: &'a [Token]) -> Option<(&'a [u8], usize)> {
    let token = tokens.last()?;
    Some((bytes_of(front, token.span), token.span.to as usize))
}

// What puts the semicolon, or the time of a qualifier, behind what stands before a report's place.
fn missing_mend(alloc: Global, text: &[u8], report: &Report) -> Result<Option<Mend>, AllocError> {
    let front = front_of(text, report.place);
    let Some(tokens) = tokens_of(alloc, front)? else {
        return Ok(None);
    };
    let Some((word, behind)) = last_before(front, &tokens) else {
        return Ok(None);
    };
    if is_timed(word) {
        insertion(alloc, b"give the qualifier its time", behind, b", T#1s")
    } else {
        insertion(alloc, b"insert the missing ;", behind, b";")
    }
}

// Whether a report of a text that was changed here stands before a place of it.
fn stands_here(text: &[u8], report: &Report, from: usize, to: usize) -> bool {
    let place = span_of(text, report).from;
    from <= place && place <= to
}

// Whether the fault at a report's place is gone where the text is mended, and there are no more faults than before.
fn mends(
    alloc: Global,
    text: &[u8],
    (report, count): (&Report, usize),
    mend: &Mend,
) -> Result<bool, AllocError> {
    let other = replaced(alloc, text, mend.span, &mend.text)?;
    let fault = span_of(text, report).from;
    let to = fault.saturating_add(mend.text.len());
    let reports = reports_of(alloc, &other)?;
    let is_there = reports
        .iter()
        .any(|report| stands_here(&other, report, mend.span.from, to));
    Ok(!is_there && reports.len() <= count)
}

// Puts what mends a report last, where it does.
fn put_mend(
    alloc: Global,
    text: &[u8],
    (report, count): (&Report, usize),
    mend: Option<Mend>,
    found: &mut Vec<Mend>,
) -> Result<(), AllocError> {
    if let Some(mend) = mend {
        if mends(alloc, text, (report, count), &mend)? {
            found.push(mend)?;
        }
    }
    Ok(())
}

// Puts what mends a report last: the near name, and what is missing.
fn put_mends(
    alloc: Global,
    text: &[u8],
    (report, count): (&Report, usize),
    found: &mut Vec<Mend>,
) -> Result<(), AllocError> {
    let near = near_mend(alloc, text, report)?;
    put_mend(alloc, text, (report, count), near, found)?;
    let missing = missing_mend(alloc, text, report)?;
    put_mend(alloc, text, (report, count), missing, found)
}

/// What mends the faults of a chart whose places touch these bytes, up to the tenth of them; of each is known that its fault is gone then,
/// and that there are no more than before. The one error is that memory was refused.
pub fn mends_of(alloc: Global, text: &[u8], touched: Span) -> Result<Vec<Mend>, AllocError> {
    let mut found = Vec::new(alloc);
    let mut tried = 0usize;
    let reports = reports_of(alloc, text)?;
    let count = reports.len();
    for report in &reports {
        let span = span_of(text, report);
        if tried < MOST && span.from <= touched.to && touched.from <= span.to {
            put_mends(alloc, text, (report, count), &mut found)?;
            tried += 1;
        }
    }
    Ok(found)
}
