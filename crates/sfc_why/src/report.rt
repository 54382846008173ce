//! What is told of a fault.

ghost use Rattle.std.specs.Prelude.{◌≡◌, IfOk};
ghost use Rattle.sfc_why.specs.Telling.{IsReportAt, IsReportInFile};

use crate::place::{Place, front_of};
use crate::position::{Position, position_behind};
use crate::source_line::{add_source_line, told_word};
use sfc_events::load_error::LoadError;
use sfc_events::read_error::ReadErrorKind;
use sfc_events::refusal::Refusal;
use std::alloc::{AllocError, Global};

/// Why a chart or a script is refused.
#[derive(Clone, Copy)]
pub enum Fault {
    /// A chart, by the reader.
    Reading(ReadErrorKind),
    /// A chart, by the loader.
    Loading(LoadError),
    /// A script, at this line, counted from 1, or for its length at 0.
    Script(usize),
    /// A command of a script names what the chart hasn't: it is refused for this when it is played.
    Warning(Refusal),
}

/// What is told of the first fault of a chart or a script.
pub struct Report {
    pub refusal: Fault,
    /// The token at fault, or where else the fault is.
    pub place: Place,
    /// Its line and column.
    pub position: Position,
    /// The token, or in words what there is in its stead.
    pub word: Vec<u8>,
    /// The name or the word that may be meant, if one is near.
    pub near: Option<Vec<u8>>,
    /// The source line with marks, the element, and what else is told, in lines.
    pub lines: Vec<u8>,
}

// By hand, so that a caller that drops one proves one call.
impl Drop for Report {
    fn drop(self) {
        let Report {
            refusal: _,
            place: _,
            position: _,
            word: _,
            near: _,
            lines: _,
        } = self;
    }
}

impl Report {
    /// The report, with the name or the word that may be meant.
    pub fn with_near(self, near: Option<Vec<u8>>) -> Report
        ensures refusal { result.refusal ≡ self.refusal }
        ensures place { result.place ≡ self.place }
        ensures position { result.position ≡ self.position }
    {
        let Report {
            refusal,
            place,
            position,
            word,
            near: _,
            lines,
        } = self;
        Report {
            refusal,
            place,
            position,
            word,
            near,
            lines,
        }
    }
}

// What is told in place of a token.
fn word_of(alloc: Global, text: &[u8], place: Place) -> Result<Vec<u8>, AllocError> {
    let span = place.span(text);
    match place {
        Place::End => Vec::from_slice(alloc, b"end of the text"),
        Place::Whole => Vec::from_slice(alloc, b"the text"),
        Place::Word { length: 0, .. } => Vec::from_slice(alloc, b"end of the line"),
        Place::Token { .. } | Place::Byte { .. } | Place::Word { .. } => {
            told_word(alloc, text.get(span.from..span.to).unwrap_or(b""))
        }
    }
}

// The lines that show the place.
fn shown(
    alloc: Global,
    text: &[u8],
    place: Place,
    position: Position,
) -> Result<Vec<u8>, AllocError> {
    let mut lines = Vec::new(alloc);
    if let Place::Whole = place {
        return Ok(lines);
    }
    add_source_line(
        alloc,
        text,
        place.span(text),
        position.line as u64,
        &mut lines,
    )?;
    Ok(lines)
}

// A report of a fault at a place of a text, whose line and column these are.
fn report_with(
    alloc: Global,
    text: &[u8],
    refusal: Fault,
    at: (Place, Position),
    more: &[u8],
) -> Result<Report, AllocError>
    ensures refusal { IfOk result (λ report. report.refusal ≡ refusal) }
    ensures place { IfOk result (λ report. report.place ≡ at.0) }
    ensures position { IfOk result (λ report. report.position ≡ at.1) }
{
    let (place, position) = at;
    let word = word_of(alloc, text, place)?;
    let mut lines = shown(alloc, text, place, position)?;
    lines.extend_from_slice(more)?;
    Ok(Report {
        refusal,
        place,
        position,
        word,
        near: None,
        lines,
    })
}

/// A report of a fault at a place of a text; these lines are told behind the source line, and nothing that may be meant. The one error is
/// that memory was refused.
pub fn report_at(
    alloc: Global,
    text: &[u8],
    refusal: Fault,
    place: Place,
    more: &[u8],
) -> Result<Report, AllocError>
    ensures { IfOk result (IsReportAt text.now refusal place) }
{
    let position = position_behind(front_of(text, place));
    report_with(alloc, text, refusal, (place, position), more)
}

/// The same where the line with the place is this one of the file that it came from.
pub fn report_in_file(
    alloc: Global,
    text: &[u8],
    refusal: Fault,
    at: (Place, usize),
    more: &[u8],
) -> Result<Report, AllocError>
    ensures { IfOk result (IsReportInFile text.now refusal at.0 at.1) }
{
    let (place, line) = at;
    let Position { line: _, column } = position_behind(front_of(text, place));
    let position = Position { line, column };
    report_with(alloc, text, refusal, (place, position), more)
}
