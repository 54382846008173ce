//! Why a chart is refused.

ghost use Rattle.std.specs.Prelude.{◌≡◌, ◌≢◌, IfOk, Ok, Err};
ghost use Rattle.sfc_text.specs.Reads.{TextReads};
ghost use Rattle.sfc_tokens.specs.Texts.{TextLexes};
ghost use Rattle.sfc_tokens.specs.Tokens.{kinds};
ghost use Rattle.sfc_why.specs.Places.{IsPlaceOf};
ghost use Rattle.sfc_why.specs.Telling.{Explains, IsReportFor};
ghost use Rattle.sfc_events.specs.declared.read_error.ReadErrorKind.TheVariants.{TooLong, Memory};
ghost use Rattle.sfc_events.specs.declared.load_error.LoadError.TheVariants as load;
ghost use Rattle.sfc_why.specs.declared.report.Fault.TheVariants.{Reading, Loading};

use crate::place::{Place, token_place};
use crate::reading::{ReadingFault, reading_fault};
use crate::report::{Fault, Report, report_at};
use crate::sfc_load::load::load_with_place;
use crate::sfc_places::by_tree::finding_of;
use crate::sfc_places::chart_text::ChartText;
use crate::sfc_places::finding::Finding;
use crate::sfc_places::span::spans_of;
use crate::sfc_places::tree_text::TreeText;
use crate::sfc_script::sfc_load::sfc_check::placed_error::PlacedLoadError;
use sfc_events::load_error::LoadError;
use sfc_events::read_error::{ReadError, ReadErrorKind};
use sfc_hints::hints::Hints;
use sfc_hints::notes::add_finding;
use sfc_hints::trial::Goal;
use sfc_plant::plant::Plant;
use sfc_text::read::read_with_place;
use sfc_text::tree::Source;
use sfc_tokens::lex::tokens;
use sfc_tokens::placed::Placed;
use std::alloc::{AllocError, Global};

/// What is told of a chart.
#[derive(Drop)]
pub enum Told {
    /// It has no fault: the plant that it is.
    NoFault(Plant),
    /// Its first fault.
    Fault(Report),
}

// A fault of a text that is too long.
fn too_long(alloc: Global, text: &[u8]) -> Result<Report, AllocError>
    ensures { IfOk result (IsReportFor text.now (Reading TooLong)) }
{
    let refusal = Fault::Reading(ReadErrorKind::TooLong);
    let lines = b"  there may be: 1048576 bytes\n";
    report_at(alloc, text, refusal, Place::Whole, lines)
}

// A fault of a text that the reader refuses for another reason.
fn refused_by_reader(
    alloc: Global,
    text: &[u8],
    error: &Placed<ReadError>,
) -> Result<Report, AllocError>
    ensures { IfOk result (IsReportFor text.now (Reading error.now.kind)) }
{
    let fault = reading_fault(alloc, Goal::Chart, text, error)?;
    let refusal = Fault::Reading(error.value().kind);
    let ReadingFault { place, told } = fault;
    let report = report_at(alloc, text, refusal, place, &told.lines)?;
    let Hints { lines: _, near } = told;
    Ok(report.with_near(near))
}

// A fault of a text that the reader refuses.
fn refused_reading(
    alloc: Global,
    text: &[u8],
    error: &Placed<ReadError>,
) -> Result<Report, AllocError>
    ensures report { IfOk result (IsReportFor text.now (Reading error.now.kind)) }
    ensures memory { IfOk result (λ report. error.now.kind ≢ Memory) }
{
    match error.value().kind {
        ReadErrorKind::Memory => Err(AllocError),
        ReadErrorKind::TooLong => too_long(alloc, text),
        _ => refused_by_reader(alloc, text, error),
    }
}

// The place of what was found, and what is told of it.
fn found_at(
    alloc: Global,
    text: &TreeText<'_>,
    finding: Finding,
    told: &mut Hints,
) -> Result<Place, AllocError>
    requires { TextLexes text.now.chart.now.text.now (Ok (kinds text.now.chart.now.tokens.now)) }
    ensures { IfOk result (IsPlaceOf text.now.chart.now.text.now) }
{
    let chart = text.chart;
    let Some(span) = chart.spans.get(finding.token) else {
        return Ok(Place::Whole);
    };
    add_finding(alloc, told, text, finding)?;
    token_place(alloc, chart.text, chart.tokens, finding.token, *span)
}

// The place of a fault that loading finds, and what is told of it.
fn loading_fault(
    alloc: Global,
    chart: &ChartText<'_>,
    source: &Source,
    fault: &PlacedLoadError,
    told: &mut Hints,
) -> Result<Place, AllocError>
    requires { TextLexes chart.now.text.now (Ok (kinds chart.now.tokens.now)) }
    ensures { IfOk result (IsPlaceOf chart.now.text.now) }
{
    let text = TreeText { chart, source };
    match finding_of(alloc, &text, fault)? {
        Some(finding) => found_at(alloc, &text, finding, told),
        None => Ok(Place::Whole),
    }
}

// The place of a fault of a text that loading refuses, and what is told of it.
fn loading_place(
    alloc: Global,
    text: &[u8],
    source: &Source,
    fault: &PlacedLoadError,
    told: &mut Hints,
) -> Result<Place, AllocError>
    ensures { IfOk result (IsPlaceOf text.now) }
{
    match tokens(alloc, text) {
        Ok(found) => {
            let spans = spans_of(alloc, &found)?;
            let chart = ChartText {
                text,
                tokens: found.as_slice(),
                spans: spans.as_slice(),
            };
            loading_fault(alloc, &chart, source, fault, told)
        }
        Err(error) if error.kind == ReadErrorKind::Memory => Err(AllocError),
        Err(_) => Ok(Place::Whole),
    }
}

// A fault of a text that loading refuses.
fn refused_by_loader(
    alloc: Global,
    text: &[u8],
    source: &Source,
    fault: &PlacedLoadError,
) -> Result<Report, AllocError>
    ensures { IfOk result (IsReportFor text.now (Loading fault.now)) }
{
    let mut told = Hints::new(alloc);
    let place = loading_place(alloc, text, source, fault, &mut told)?;
    let report = report_at(
        alloc,
        text,
        Fault::Loading(fault.error()),
        place,
        &told.lines,
    )?;
    let Hints { lines: _, near } = told;
    Ok(report.with_near(near))
}

// A fault of a text that loading refuses, unless memory was refused.
fn refused_loading(
    alloc: Global,
    text: &[u8],
    source: &Source,
    fault: &PlacedLoadError,
) -> Result<Report, AllocError>
    ensures report { IfOk result (IsReportFor text.now (Loading fault.now)) }
    ensures memory { IfOk result (λ report. fault.now ≢ load.Memory) }
{
    match fault.error() {
        LoadError::Memory => Err(AllocError),
        _ => refused_by_loader(alloc, text, source, fault),
    }
}

/// What is told of the text of a chart: the plant that it is, or its first fault, which is that of `read` or of `load`. The one
/// error is that memory was refused.
pub fn explain_chart(alloc: Global, text: &[u8]) -> Result<Told, AllocError>
    ensures { IfOk result (Explains text.now) }
{
    let source = match read_with_place(alloc, text) {
        Ok(source) => source,
        Err(error) => return Ok(Told::Fault(refused_reading(alloc, text, &error)?)),
    };
    match load_with_place(alloc, &source) {
        Ok(plant) => Ok(Told::NoFault(plant)),
        Err(fault) => Ok(Told::Fault(refused_loading(alloc, text, &source, &fault)?)),
    }
}
