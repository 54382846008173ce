//! All faults and warnings of a text.

ghost use Rattle.std.specs.Prelude.{◌≡◌, IfOk, IfSome};
ghost use Rattle.sfc_names.specs.Diagnosing as diagnosing;
ghost use Rattle.sfc_names.specs.Diagnosing.{AreFaults, AreWarnings, DiagnosesChart, IsFault, IsWarning};
ghost use Rattle.sfc_script.specs.sfc_load.Accepted.{IsAccepted};

use crate::chart::Chart;
use crate::diagnostic::{Diagnostic, Origin, Severity};
use crate::faults::reports_of;
use sfc_explain::explanation::Explanation;
use sfc_lint::budget::Budget;
use sfc_lint::kind::Kind;
use sfc_lint::lint::{Warning, lint};
use sfc_lint::reading::Reading;
use sfc_page::append::{append, append_number};
use sfc_places::span::Span;
use sfc_plant::plant::Plant;
use sfc_why::page::explanation_of;
use sfc_why::place::Place;
use sfc_why::report::Report;
use sfc_why::script::{ScriptTold, explain_script};
use std::alloc::{AllocError, Global};

/// The most warnings that are shown of a chart.
const MOST: usize = 1_000;

// The bytes of a place in a text.
fn span_of(text: &[u8], place: Place) -> Span
    ensures { result ≡ diagnosing.span_of text.now place }
{
    match place {
        Place::Token { from, length, .. }
        | Place::Byte { from, length, .. }
        | Place::Word { from, length } => Span {
            from,
            to: from.saturating_add(length),
        },
        Place::End => Span {
            from: text.len(),
            to: text.len(),
        },
        Place::Whole => Span { from: 0, to: 0 },
    }
}

// The number and the name of what is explained.
fn code_of(alloc: Global, explanation: &Explanation) -> Result<Vec<u8>, AllocError> {
    let mut code = Vec::new(alloc);
    if let Some(number) = explanation.topic.number() {
        append_number(&mut code, u64::from(number))?;
        append(&mut code, b" ")?;
    }
    append(&mut code, explanation.topic.name().as_bytes())?;
    Ok(code)
}

// Whether the line tells something beside the source line and its marks.
fn is_note(line: &[u8]) -> bool {
    match line {
        [b' ', b' ', third, ..] => third.is_ascii_alphabetic(),
        _ => false,
    }
}

// Puts the lines last that tell something beside the source line, without the blanks before them.
fn put_notes(message: &mut Vec<u8>, lines: &[u8]) -> Result<(), AllocError> {
    for line in lines.split(|byte| *byte == b'\n') {
        if is_note(line) {
            append(message, b"\n")?;
            append(message, line.get(2..).unwrap_or(b""))?;
        }
    }
    Ok(())
}

/// What is told of a report, in lines; the name of what is explained stands before it. The one error is that memory was refused.
pub fn message_of(
    alloc: Global,
    report: &Report,
    explanation: Option<&Explanation>,
) -> Result<Vec<u8>, AllocError> {
    let mut message = Vec::new(alloc);
    if let Some(explanation) = explanation {
        append(&mut message, explanation.topic.name().as_bytes())?;
        append(&mut message, b": ")?;
    }
    append(&mut message, &report.word)?;
    if let Some(near) = &report.near {
        append(&mut message, b"; near: ")?;
        append(&mut message, near)?;
    }
    put_notes(&mut message, &report.lines)?;
    if let Some(explanation) = explanation {
        append(&mut message, b"\nmeaning: ")?;
        append(&mut message, explanation.meaning.as_bytes())?;
    }
    Ok(message)
}

// The code of a report, if it has one.
fn code_of_report(alloc: Global, explanation: Option<&Explanation>) -> Result<Vec<u8>, AllocError> {
    match explanation {
        Some(explanation) => code_of(alloc, explanation),
        None => Ok(Vec::new(alloc)),
    }
}

// What is shown of a report.
fn diagnostic_of(
    alloc: Global,
    text: &[u8],
    report: &Report,
    severity: Severity,
) -> Result<Diagnostic, AllocError>
    ensures span { IfOk result (λ found. found.span ≡ diagnosing.span_of text.now report.now.place) }
    ensures severity { IfOk result (λ found. found.severity ≡ severity) }
{
    let explanation = explanation_of(report.refusal);
    let code = code_of_report(alloc, explanation)?;
    let message = message_of(alloc, report, explanation)?;
    Ok(Diagnostic {
        span: span_of(text, report.place),
        severity,
        code,
        origin: Origin::Reading,
        message,
        is_unused: false,
    })
}

// What is shown of faults.
fn faults_of(alloc: Global, text: &[u8], reports: &[Report]) -> Result<Vec<Diagnostic>, AllocError>
    ensures { IfOk result (λ found. AreFaults text.now reports.now found.items) }
{
    let mut found = Vec::new(alloc);
    let mut rest = reports;
    'all: while let Some((report, behind)) = rest.split_first() {
        found.push(diagnostic_of(alloc, text, report, Severity::Error)?)?;
        rest = behind;
    }
    Ok(found)
}

// Whether a kind of warnings is told of what could be left out.
fn is_unused(kind: Kind) -> bool {
    matches!(kind, Kind::Unreachable | Kind::Unused)
}

// The code and the name of a kind of warnings.
fn code_of_kind(alloc: Global, kind: Kind) -> Result<Vec<u8>, AllocError> {
    let mut code = Vec::from_slice(alloc, kind.code().as_bytes())?;
    append(&mut code, b" ")?;
    append(&mut code, kind.name().as_bytes())?;
    Ok(code)
}

// What is shown of a warning of a chart.
fn warning_of(alloc: Global, warning: &Warning) -> Result<Diagnostic, AllocError>
    ensures { IfOk result IsWarning }
{
    let mut message = Vec::from_slice(alloc, &warning.text)?;
    put_notes(&mut message, &warning.more)?;
    append(&mut message, b"\nmend: ")?;
    append(&mut message, warning.kind.mend().as_bytes())?;
    Ok(Diagnostic {
        span: Span::of(warning.span),
        severity: Severity::Warning,
        code: code_of_kind(alloc, warning.kind)?,
        origin: Origin::Lint,
        message,
        is_unused: is_unused(warning.kind),
    })
}

// What is shown of warnings of a chart; of many the first ones.
fn warnings_of(alloc: Global, warnings: &[Warning]) -> Result<Vec<Diagnostic>, AllocError>
    ensures { IfOk result (λ found. AreWarnings found.items) }
{
    let mut found = Vec::new(alloc);
    for warning in warnings.get(..MOST).unwrap_or(warnings) {
        found.push(warning_of(alloc, warning)?)?;
    }
    Ok(found)
}

// What is shown of the warnings of a chart that has no fault.
fn lint_of(alloc: Global, chart: &Chart, plant: &Plant) -> Result<Vec<Diagnostic>, AllocError>
    ensures { IfOk result (λ found. AreWarnings found.items) }
{
    let reading = Reading {
        text: &chart.text,
        tokens: &chart.tokens,
        outline: &chart.outline,
    };
    let warnings = lint(alloc, reading, plant, Budget::of_an_editor())?;
    warnings_of(alloc, &warnings.list)
}

// What is shown of the faults of a text.
fn faults_in(alloc: Global, text: &[u8]) -> Result<Vec<Diagnostic>, AllocError>
    ensures { IfOk result (λ found. DiagnosesChart text.now found.items) }
{
    let reports = reports_of(alloc, text)?;
    faults_of(alloc, text, &reports)
}

/// What was read of a chart, and what is shown of it.
#[derive(Drop)]
pub struct Diagnosed {
    /// The chart that the text is, where it can be read.
    pub chart: Option<Chart>,
    pub list: Vec<Diagnostic>,
}

// What is shown of a chart that was read of the text.
fn shown_of(alloc: Global, text: &[u8], chart: &Chart) -> Result<Vec<Diagnostic>, AllocError>
    ensures { IfSome chart.now.plant (IsAccepted text.now) → IfOk result (λ found. DiagnosesChart text.now found.items) }
{
    match &chart.plant {
        Some(plant) => lint_of(alloc, chart, plant),
        None => faults_in(alloc, text),
    }
}

/// What is shown of a chart, and what was read of it: its faults, as `reports_of` has them; where it has none, its warnings. The one
/// error is that memory was refused.
pub fn diagnose_chart(alloc: Global, text: &[u8]) -> Result<Diagnosed, AllocError>
    ensures { IfOk result (λ found. DiagnosesChart text.now found.list.items) }
{
    match Chart::of(alloc, text)? {
        Some(chart) => {
            let list = shown_of(alloc, text, &chart)?;
            Ok(Diagnosed {
                chart: Some(chart),
                list,
            })
        }
        None => {
            let list = faults_in(alloc, text)?;
            Ok(Diagnosed { chart: None, list })
        }
    }
}

// What is shown of warnings of a script.
fn warnings_of_script(
    alloc: Global,
    script: &[u8],
    reports: &[Report],
) -> Result<Vec<Diagnostic>, AllocError> {
    let mut found = Vec::new(alloc);
    for report in reports {
        found.push(diagnostic_of(alloc, script, report, Severity::Warning)?)?;
    }
    Ok(found)
}

/// What is shown of a script, over the text of its chart and the plant that it is: its first faulty line; where it has none, warnings of
/// names that the chart hasn't. The one error is that memory was refused.
pub fn diagnose_script(
    alloc: Global,
    text: &[u8],
    plant: Plant,
    script: &[u8],
) -> Result<Vec<Diagnostic>, AllocError> {
    match explain_script(alloc, text, plant, script)? {
        ScriptTold::NoFault(reports) => warnings_of_script(alloc, script, &reports),
        ScriptTold::Fault(report) => {
            let mut found = Vec::new(alloc);
            found.push(diagnostic_of(alloc, script, &report, Severity::Error)?)?;
            Ok(found)
        }
    }
}
