//! Faults of conditions in scripts and tests.

use crate::over::Over;
use crate::place::Place;
use crate::reading::{ReadingFault, reading_fault};
use crate::sfc_load::scope::scope_of;
use crate::sfc_places::by_tree::{condition_detail, token_at};
use crate::sfc_places::chart_text::ChartText;
use crate::sfc_places::enclosing::token_of;
use crate::sfc_places::span::{Span, spans_of};
use crate::sfc_script::sfc_load::sfc_check::check::check;
use crate::sfc_script::sfc_load::sfc_check::placed_error::{PlacedLoadError, PlacedTypeError};
use crate::sfc_script::sfc_load::sfc_check::type_error::TypeError;
use sfc_base::ids::ProgId;
use sfc_base::var_type::VarType;
use sfc_events::read_error::{ReadError, ReadErrorKind};
use sfc_hints::hints::Hints;
use sfc_hints::notes::add_detail;
use sfc_hints::trial::Goal;
use sfc_hints::writing::add_line;
use sfc_page::append::append_number;
use sfc_plant::plant::Plant;
use sfc_text::expression::Expression;
use sfc_text::read_expr::read_expr_with_place;
use sfc_tokens::lex::tokens;
use sfc_tokens::placed::Placed;
use std::alloc::{AllocError, Global};

/// What is at fault in a script or a file of tests: bytes of it, and what is told of them.
#[derive(Drop)]
pub struct ScriptFault {
    pub span: Span,
    pub told: Hints,
}

/// Where a text stands that should be a condition of a program instance: the byte of the script or the file of tests at which it begins,
/// and in words.
#[derive(Clone, Copy)]
pub struct Site {
    pub base: usize,
    pub words: &'static str,
}

impl Site {
    // The bytes at which a place of the text lies.
    fn span_of(self, text: &[u8], place: Place) -> Span {
        self.moved(place.span(text))
    }

    // The bytes at which these bytes of the text lie.
    fn moved(self, span: Span) -> Span {
        Span {
            from: self.base.saturating_add(span.from),
            to: self.base.saturating_add(span.to),
        }
    }

    // What is told of the condition: by which refusal, and this.
    fn told(self, alloc: Global, number: u8, name: &str, more: Hints) -> Result<Hints, AllocError> {
        let mut lines = Vec::new(alloc);
        lines.extend_from_slice(b"  in: ")?;
        lines.extend_from_slice(self.words.as_bytes())?;
        lines.extend_from_slice(b", ")?;
        append_number(&mut lines, u64::from(number))?;
        lines.extend_from_slice(b" ")?;
        add_line(&mut lines, name.as_bytes())?;
        lines.extend_from_slice(&more.lines)?;
        let Hints { lines: _, near } = more;
        Ok(Hints { lines, near })
    }
}

// The fault of a condition that can't be read.
fn unread_fault(
    alloc: Global,
    text: &[u8],
    site: Site,
    error: &Placed<ReadError>,
) -> Result<ScriptFault, AllocError> {
    let kind = error.value().kind;
    if kind == ReadErrorKind::Memory {
        return Err(AllocError);
    }
    let fault = reading_fault(alloc, Goal::Expression, text, error)?;
    let span = site.span_of(text, fault.place);
    let (number, name) = (kind.number(), kind.name());
    let ReadingFault { place: _, told } = fault;
    let told = site.told(alloc, number, name, told)?;
    Ok(ScriptFault { span, told })
}

// A condition that is read, and that has no type in its program instance; and that instance.
#[derive(Clone, Copy)]
struct Untyped<'a> {
    text: &'a [u8],
    expression: &'a Expression,
    instance: ProgId,
}

// The type fault of a condition; None where it has none. The one error is that memory was refused.
fn type_fault(
    alloc: Global,
    plant: &Plant,
    condition: &Untyped<'_>,
) -> Result<Option<PlacedTypeError>, AllocError> {
    if condition.instance.0 as usize >= plant.instances().len() {
        return Ok(None);
    }
    let scope = scope_of(plant, condition.instance);
    match check(alloc, condition.expression, &scope, VarType::Bool) {
        Ok(_expr) => Ok(None),
        Err(fault) => match fault.error() {
            TypeError::Memory => Err(AllocError),
            _ => Ok(Some(fault)),
        },
    }
}

// The place in the chart of the name of this instance's program type.
fn type_name_of(over: &Over<'_>, instance: ProgId) -> usize {
    match over.program_of(instance) {
        Some(program) => token_of(over.text.chart, &program.name),
        None => 0,
    }
}

// The bytes of a token of a text.
fn word_at<'a>(text: &ChartText<'a>, token: usize) -> (Span, &'a [u8]) {
    match text.spans.get(token) {
        Some(span) => (*span, text.text.get(span.from..span.to).unwrap_or(b"")),
        None => (
            Span {
                from: text.text.len(),
                to: text.text.len(),
            },
            b"",
        ),
    }
}

// Adds what is told of a type fault of a condition, and answers its bytes there.
fn add_fault(
    alloc: Global,
    over: &Over<'_>,
    condition: &ChartText<'_>,
    (instance, fault): (ProgId, &PlacedLoadError),
    told: &mut Hints,
) -> Result<Span, AllocError> {
    let token = token_at(condition, fault.span());
    let (span, word) = word_at(condition, token);
    let program = type_name_of(over, instance);
    let detail = condition_detail(condition, token, program, fault);
    add_detail(alloc, told, over.text, word, detail)?;
    Ok(span)
}

// The type fault of a condition.
fn typing_fault(
    alloc: Global,
    over: &Over<'_>,
    condition: &ChartText<'_>,
    (instance, fault): (ProgId, &PlacedLoadError),
    site: Site,
) -> Result<ScriptFault, AllocError> {
    let mut more = Hints::new(alloc);
    let span = add_fault(alloc, over, condition, (instance, fault), &mut more)?;
    let (number, name) = (fault.error().number(), fault.error().name());
    let told = site.told(alloc, number, name, more)?;
    let span = site.moved(span);
    Ok(ScriptFault { span, told })
}

// The fault of a condition of which no type fault is found.
fn whole_fault(alloc: Global, text: &[u8], site: Site) -> Result<ScriptFault, AllocError> {
    let told = site.told(alloc, 10, "WrongType", Hints::new(alloc))?;
    let span = site.span_of(text, Place::Whole);
    Ok(ScriptFault { span, told })
}

// The fault of a condition that is read.
fn checked_fault(
    alloc: Global,
    over: &Over<'_>,
    untyped: &Untyped<'_>,
    site: Site,
) -> Result<ScriptFault, AllocError> {
    let Some(fault) = type_fault(alloc, over.resource.plant(), untyped)? else {
        return whole_fault(alloc, untyped.text, site);
    };
    let fault = PlacedLoadError::from(fault);
    let Ok(found) = tokens(alloc, untyped.text) else {
        return Err(AllocError);
    };
    let spans = spans_of(alloc, &found)?;
    let condition = ChartText {
        text: untyped.text,
        tokens: found.as_slice(),
        spans: spans.as_slice(),
    };
    typing_fault(alloc, over, &condition, (untyped.instance, &fault), site)
}

/// The fault of a text that is no condition of this program instance: its bytes, and what is told of them. Where the text is one, or there
/// is no such instance, it is told as a whole. The one error is that memory was refused.
pub fn condition_fault(
    alloc: Global,
    over: &Over<'_>,
    (instance, text): (ProgId, &[u8]),
    site: Site,
) -> Result<ScriptFault, AllocError> {
    match read_expr_with_place(alloc, text) {
        Err(error) => unread_fault(alloc, text, site, &error),
        Ok(expression) => {
            let untyped = Untyped {
                text,
                expression: &expression,
                instance,
            };
            checked_fault(alloc, over, &untyped, site)
        }
    }
}
