//! Files of tests: what their words mean in a chart, what may stand there, and their faults.

use crate::chart::Chart;
use crate::completion::{Candidate, Candidates, Sort};
use crate::diagnosing::message_of;
use crate::diagnostic::{Diagnostic, Origin, Severity};
use crate::names::{Space, find_in, program_of_instance};
use sfc_base::case::is_same_word;
use sfc_base::run::{Alphabet, has};
use sfc_outline::item::Item;
use sfc_outline::mention::Declared;
use sfc_page::append::append;
use sfc_places::span::Span;
use sfc_plant::plant::Plant;
use sfc_why_tests::sfc_cases::instant::read_instant;
use sfc_why_tests::sfc_cases::sfc_script::split::{first_word, next_line};
use sfc_why_tests::sfc_cases::sources::{IncludeError, Sources};
use sfc_why_tests::tests::{TestFault, TestsTold, explain_tests};
use std::alloc::{AllocError, Global};

/// The words that begin what a line says.
const KEYWORDS: &str =
    "TEST RUN UNTIL EXPECT ALWAYS NEVER WITHIN EVERY AT RAMP LET INCLUDE SCAN INPUT FORCE RELEASE RESET READ BREAK UNBREAK STOP GO SINGLE EPOCH END";

/// The words that stand within lines.
const PARTS: &str =
    "WITHIN AFTER EXPECT UNTIL FOR NOT AND OR IN ACTIVE REFUSED FAULT OVERRUNS INPUT TOGGLE TRUE FALSE";

// Whether the byte at a place may stand in a name.
fn is_letter(text: &[u8], place: usize) -> bool {
    match text.get(place) {
        Some(byte) => has(Alphabet::Word, *byte),
        None => false,
    }
}

// Where the name begins that ends at a place.
fn name_start(text: &[u8], to: usize) -> usize {
    let mut from = to.min(text.len());
    'letters: for _letter in 0..text.len() {
        if from == 0 || !is_letter(text, from.saturating_sub(1)) {
            break;
        }
        from = from.saturating_sub(1);
    }
    from
}

// Where the name ends that begins at a place.
fn name_end(text: &[u8], from: usize) -> usize {
    for place in from..text.len() {
        if !is_letter(text, place) {
            return place;
        }
    }
    text.len().max(from)
}

// The name in which a byte stands, or which ends before it; None where there is none.
fn name_at(text: &[u8], byte: usize) -> Option<Span> {
    let from = name_start(text, byte);
    let to = name_end(text, from);
    if from < to {
        Some(Span { from, to })
    } else {
        None
    }
}

// The bytes of a name.
fn word_at(text: &[u8], span: Span) -> &[u8] {
    text.get(span.from..span.to).unwrap_or(b"")
}

// How many program types a chart has.
fn count_programs(chart: &Chart) -> usize {
    let mut count = 0usize;
    for entry in &chart.outline.entries {
        if let Item::ProgramType { .. } = entry.item {
            count = count.saturating_add(1);
        }
    }
    count
}

// What a name means in a program type.
fn find_in_program(chart: &Chart, program: usize, word: &[u8]) -> Option<Declared> {
    find_in(chart, Space::Locals(program), word).or(find_in(chart, Space::Steps(program), word))
}

// What a name means in the first program type that has it.
fn find_in_any(chart: &Chart, word: &[u8]) -> Option<Declared> {
    for program in 0..count_programs(chart) {
        let found = find_in_program(chart, program, word);
        if found.is_some() {
            return found;
        }
    }
    None
}

// The program type of the instance whose name stands with a dot before a name.
fn program_before(chart: &Chart, text: &[u8], name: Span) -> Option<usize> {
    let dot = name.from.checked_sub(1)?;
    if text.get(dot) != Some(&b'.') {
        return None;
    }
    let before = Span {
        from: name_start(text, dot),
        to: dot,
    };
    program_of_instance(chart, word_at(text, before))
}

/// The name at a byte of a file of tests, and what it means in a chart: a variable, a task, a program instance or a step; None where it
/// means nothing of that.
pub fn meaning_in_tests(chart: &Chart, text: &[u8], byte: usize) -> Option<(Span, Declared)> {
    let span = name_at(text, byte)?;
    let word = word_at(text, span);
    let found = match program_before(chart, text, span) {
        Some(program) => find_in_program(chart, program, word),
        None => find_in(chart, Space::Globals, word)
            .or(find_in(chart, Space::Instances, word))
            .or(find_in(chart, Space::Tasks, word))
            .or(find_in_any(chart, word)),
    };
    Some((span, found?))
}

// Puts words last.
fn add_words(found: &mut Candidates, words: &str) -> Result<(), AllocError> {
    for word in words.split_whitespace() {
        found.add(word.as_bytes(), Sort::Command, b"")?;
    }
    Ok(())
}

// Puts the names last that a line may have.
fn add_names(found: &mut Candidates, chart: &Chart) -> Result<(), AllocError> {
    found.add_space(chart, Space::Globals)?;
    found.add_space(chart, Space::Instances)?;
    found.add_space(chart, Space::Tasks)?;
    for program in 0..count_programs(chart) {
        found.add_space(chart, Space::Locals(program))?;
        found.add_space(chart, Space::Steps(program))?;
    }
    Ok(())
}

// The bytes of the line before a place.
fn line_before(text: &[u8], place: usize) -> &[u8] {
    let front = text.get(..place).unwrap_or(text);
    match front.iter().rposition(|byte| *byte == b'\n') {
        Some(end) => front.get(end.saturating_add(1)..).unwrap_or(b""),
        None => front,
    }
}

// Whether a line begins behind these bytes: they have no word, or an instant alone.
fn begins_line(front: &[u8]) -> bool {
    match first_word(front) {
        None => true,
        Some((word, behind)) => read_instant(word).is_some() && first_word(behind).is_none(),
    }
}

/// What may stand at a byte of a file of tests, in place of the letters of a name before it. The one error is that memory was refused.
pub fn complete_tests(
    alloc: Global,
    text: &[u8],
    byte: usize,
    chart: Option<&Chart>,
) -> Result<Vec<Candidate>, AllocError> {
    let mut found = Candidates::new(alloc);
    if begins_line(line_before(text, name_start(text, byte))) {
        add_words(&mut found, KEYWORDS)?;
        return Ok(found.into_list());
    }
    add_words(&mut found, PARTS)?;
    if let Some(chart) = chart {
        add_names(&mut found, chart)?;
    }
    Ok(found.into_list())
}

// Where a line begins, which is counted from 1; the end of the text where it has fewer.
fn line_start(text: &[u8], number: usize) -> usize {
    let mut rest = text;
    'lines: for _line in 1..number {
        let Some((_, behind)) = next_line(rest) else {
            break;
        };
        rest = behind;
    }
    text.len().saturating_sub(rest.len())
}

// The first line that includes a file.
fn including_line(text: &[u8]) -> Span {
    let mut rest = text;
    'lines: for _line in 0..=text.len() {
        let Some((line, behind)) = next_line(rest) else {
            break;
        };
        let from = text.len().saturating_sub(rest.len());
        if let Some((word, _)) = first_word(line) {
            if is_same_word(word, b"INCLUDE") {
                let to = from.saturating_add(line.len());
                return Span { from, to };
            }
        }
        rest = behind;
    }
    Span { from: 0, to: 0 }
}

// The bytes of the file itself at which a fault is shown: where it stands, or the line that includes its file.
fn shown_at(text: &[u8], sources: &Sources, fault: &TestFault) -> Span {
    let (file, line) = sources.place(fault.line);
    if file != sources.name() {
        return including_line(text);
    }
    let base = line_start(sources.text(), fault.line);
    let span = fault.report.place.span(sources.text());
    let start = line_start(text, line);
    Span {
        from: start.saturating_add(span.from.saturating_sub(base)),
        to: start.saturating_add(span.to.saturating_sub(base)),
    }
}

// What is shown of a fault.
fn diagnostic_of(
    alloc: Global,
    text: &[u8],
    sources: &Sources,
    fault: &TestFault,
) -> Result<Diagnostic, AllocError> {
    Ok(Diagnostic {
        span: shown_at(text, sources, fault),
        severity: Severity::Error,
        code: Vec::from_slice(alloc, b"script line")?,
        origin: Origin::Reading,
        message: message_of(alloc, &fault.report, None)?,
        is_unused: false,
    })
}

/// What is shown of a file of tests where a file isn't included: why, at the line that says so, or at the first one that includes a file. The
/// one error is that memory was refused.
pub fn including_fault(
    alloc: Global,
    text: &[u8],
    error: &IncludeError,
) -> Result<Diagnostic, AllocError> {
    let mut message = Vec::from_slice(alloc, &error.name)?;
    append(&mut message, b": ")?;
    append(&mut message, error.reason.text().as_bytes())?;
    Ok(Diagnostic {
        span: including_line(text),
        severity: Severity::Error,
        code: Vec::from_slice(alloc, b"script line")?,
        origin: Origin::Reading,
        message,
        is_unused: false,
    })
}

/// What is shown of a file of tests, with those that it includes, over the text of its chart and the plant that it is: its first faulty
/// line, or the commands that name what the chart hasn't. The one error is that memory was refused.
pub fn diagnose_tests(
    alloc: Global,
    (chart, plant): (&[u8], Plant),
    text: &[u8],
    sources: &Sources,
) -> Result<Vec<Diagnostic>, AllocError> {
    let mut found = Vec::new(alloc);
    match explain_tests(alloc, chart, plant, sources)? {
        TestsTold::Fault(fault) => found.push(diagnostic_of(alloc, text, sources, &fault)?)?,
        TestsTold::NoFault(faults) => {
            for fault in &faults {
                found.push(diagnostic_of(alloc, text, sources, fault)?)?;
            }
        }
    }
    Ok(found)
}
