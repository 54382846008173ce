//! What a chart surely or probably does wrong, from a file to standard output.

use crate::arguments::Linting;
use crate::files::end_with;
use sfc_base::write_fault::{WriteFault, put_all};
use sfc_lint::budget::Budget;
use sfc_lint::kind::{Kind, kind_named};
use sfc_lint::lint::{Warning, Warnings, lint};
use sfc_lint::reading::Reading;
use sfc_lint::sfc_page::time_text::put_decimal;
use sfc_lint::sfc_text::read::read;
use sfc_outline::outline::{Outline, outline_of};
use sfc_plant::plant::Plant;
use sfc_replay::input::read_to_end;
use sfc_replay::replay_error::ReplayError;
use sfc_tokens::lex::tokens;
use sfc_why::position::{Position, position_behind};
use sfc_why::sfc_script::sfc_load::load::load;
use std::alloc::Global;
use std::io::{Read, Write};
use std::rt::Files;
use std::{fs, io};

// What a text declares and names, and the plant that it is.
fn outlined(alloc: Global, text: &[u8]) -> Result<(Outline, Plant), ReplayError> {
    let source = match read(alloc, text) {
        Ok(source) => source,
        Err(error) => return Err(ReplayError::from(error)),
    };
    let plant = match load(alloc, &source) {
        Ok(plant) => plant,
        Err(error) => return Err(ReplayError::from(error)),
    };
    Ok((outline_of(alloc, text, &source)?, plant))
}

// The warnings of a text.
fn warnings_of(alloc: Global, text: &[u8], budget: Budget) -> Result<Warnings, ReplayError> {
    let (outline, plant) = outlined(alloc, text)?;
    let tokens = match tokens(alloc, text) {
        Ok(tokens) => tokens,
        Err(error) => return Err(ReplayError::from(error)),
    };
    let reading = Reading {
        text,
        tokens: &tokens,
        outline: &outline,
    };
    Ok(lint(alloc, reading, &plant, budget)?)
}

// Whether one of these words names the kind.
fn names(words: &[String], kind: Kind) -> bool {
    words
        .iter()
        .any(|word| kind_named(word.as_bytes()) == Some(kind))
}

// Whether the kind counts for the exit status.
fn is_denied(linting: &Linting, kind: Kind) -> bool {
    names(&linting.denied, kind) || linting.denied.iter().any(|word| word.as_str() == "all")
}

/// The last line end before a warning, so that what stands before it isn't looked at once more.
#[derive(Clone, Copy)]
struct LineEnd {
    // The byte of it; the front of the text before the first.
    at: usize,
    // How many stand before it.
    before: usize,
}

impl LineEnd {
    // Where a byte stands that isn't before the line end, which goes on to the last one before that byte.
    fn position(&mut self, text: &[u8], byte: usize) -> Position {
        let front = text.get(self.at..byte).unwrap_or(b"");
        let Position { line, column } = position_behind(front);
        let place = Position {
            line: self.before.saturating_add(line),
            column,
        };
        if let Some(last) = front.iter().rposition(|byte| *byte == b'\n') {
            self.at = self.at.saturating_add(last);
            self.before = place.line.saturating_sub(2);
        }
        place
    }
}

// Writes where a warning stands: the file, the line and the column.
fn put_place<W: Write>(file: &[u8], position: Position, writer: &mut W) -> Result<(), WriteFault> {
    put_all(writer, file)?;
    put_all(writer, b":")?;
    put_decimal(position.line as u64, writer)?;
    put_all(writer, b":")?;
    put_decimal(position.column as u64, writer)
}

// Writes a warning.
fn put_warning<W: Write>(
    file: &[u8],
    position: Position,
    warning: &Warning,
    writer: &mut W,
) -> Result<(), WriteFault> {
    put_place(file, position, writer)?;
    put_all(writer, b": warning ")?;
    put_all(writer, warning.kind.code().as_bytes())?;
    put_all(writer, b": ")?;
    put_all(writer, warning.kind.name().as_bytes())?;
    put_all(writer, b": ")?;
    put_all(writer, &warning.text)?;
    put_all(writer, b"\n")?;
    put_all(writer, &warning.more)?;
    put_all(writer, b"  mend: ")?;
    put_all(writer, warning.kind.mend().as_bytes())?;
    put_all(writer, b"\n")
}

// Writes which programs were not searched whole, if there are any.
fn put_given_up<W: Write>(warnings: &Warnings, writer: &mut W) -> Result<(), WriteFault> {
    if warnings.given_up.is_empty() {
        return Ok(());
    }
    put_all(
        writer,
        b"note: not searched whole, since there is too much to search: ",
    )?;
    put_all(writer, &warnings.given_up)?;
    put_all(writer, b"\n")
}

// Writes the warnings that are to be told: the exit status.
fn put_warnings<W: Write>(
    linting: &Linting,
    text: &[u8],
    warnings: &Warnings,
    writer: &mut W,
) -> Result<u8, WriteFault> {
    let mut status = 0;
    let mut is_told = false;
    let mut line_end = LineEnd { at: 0, before: 0 };
    for warning in &warnings.list {
        if names(&linting.allowed, warning.kind) {
            continue;
        }
        let position = line_end.position(text, warning.span.from as usize);
        put_warning(linting.chart.as_bytes(), position, warning, writer)?;
        is_told = true;
        if is_denied(linting, warning.kind) {
            status = 1;
        }
    }
    if !is_told {
        put_all(writer, b"no warning\n")?;
    }
    put_given_up(warnings, writer)?;
    Ok(status)
}

// Tells the warnings of a chart: the exit status.
fn lint_chart<C: Read, W: Write>(
    alloc: Global,
    linting: &Linting,
    chart: &mut C,
    writer: &mut W,
) -> Result<u8, ReplayError> {
    let text = read_to_end(alloc, chart)?;
    let warnings = warnings_of(alloc, &text, Budget::of_sets(linting.limit))?;
    Ok(put_warnings(linting, &text, &warnings, writer)?)
}

/// Tells the warnings of a file's chart: the exit status, which is 1 also where there is one of a kind that counts. A file that can't be
/// opened is a read fault.
pub fn lint_file<R: Print + Eprint + Files + AllocGlobal>(rt: &R, linting: &Linting) -> u8 {
    let Ok(mut chart) = fs::open(rt, linting.chart.as_str()) else {
        return end_with(rt, ReplayError::Read);
    };
    let mut out = io::writer(rt);
    match lint_chart(rt.alloc(), linting, &mut chart, &mut out) {
        Ok(status) => status,
        Err(error) => end_with(rt, error),
    }
}

// Writes what a kind of warnings means, and what to do.
fn put_kind<W: Write>(kind: Kind, writer: &mut W) -> Result<(), WriteFault> {
    put_all(writer, kind.code().as_bytes())?;
    put_all(writer, b" ")?;
    put_all(writer, kind.name().as_bytes())?;
    put_all(writer, b"\n  told by: lint\n  meaning: ")?;
    put_all(writer, kind.meaning().as_bytes())?;
    put_all(writer, b"\n  mend: ")?;
    put_all(writer, kind.mend().as_bytes())?;
    put_all(writer, b"\n  example, in a chart:\n    ")?;
    put_all(writer, kind.example().as_bytes())?;
    put_all(writer, b"\n")
}

/// Prints what a kind of warnings means: the exit status.
pub fn explain_kind<R: Print + Eprint>(rt: &R, kind: Kind) -> u8 {
    let mut out = io::writer(rt);
    match put_kind(kind, &mut out) {
        Ok(()) => 0,
        Err(fault) => end_with(rt, ReplayError::from(fault)),
    }
}
