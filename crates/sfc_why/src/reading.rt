//! Faults of texts that can't be read: the byte or the token at fault, the element, and what could stand there.

ghost use Rattle.std.specs.Prelude.{IfOk, Ok};
ghost use Rattle.sfc_tokens.specs.Texts.{TextLexes};
ghost use Rattle.sfc_tokens.specs.Tokens.{kinds};
ghost use Rattle.sfc_why.specs.Places.{IsPlaceOf};

use crate::place::{Place, byte_place, token_place};
use crate::sfc_places::chart_text::ChartText;
use crate::sfc_places::finding::Part;
use crate::sfc_places::span::{Span, character_length, spans_of};
use sfc_events::read_error::{ReadError, ReadErrorKind};
use sfc_hints::expected::{Front, find_expected};
use sfc_hints::hints::Hints;
use sfc_hints::mending::add_byte_mending;
use sfc_hints::misplaced::Misplaced;
use sfc_hints::notes::add_in;
use sfc_hints::short_front::{LONGEST, short_front};
use sfc_hints::surroundings::element_before;
use sfc_hints::trial::Goal;
use sfc_tokens::lex::tokens;
use sfc_tokens::placed::Placed;
use sfc_tokens::token::Token;
use std::alloc::{AllocError, Global};

/// Where a text that can't be read is at fault, and what is told of it beside.
#[derive(Drop)]
pub struct ReadingFault {
    pub place: Place,
    pub told: Hints,
}

// Adds a line with the element that is open behind these bytes, which are tokens.
fn add_element_behind(alloc: Global, front: &[u8], lines: &mut Vec<u8>) -> Result<(), AllocError> {
    match tokens(alloc, front) {
        Ok(found) => add_in(
            lines,
            &found,
            element_before(&found, found.len()),
            Part::Whole,
        ),
        Err(error) if error.kind == ReadErrorKind::Memory => Err(AllocError),
        Err(_) => Ok(()),
    }
}

// The fault of a text at bytes that are no token, behind so many tokens.
fn byte_fault(
    alloc: Global,
    goal: Goal,
    text: &[u8],
    piece: (usize, Span),
    kind: ReadErrorKind,
) -> Result<ReadingFault, AllocError>
    ensures { IfOk result (λ fault. IsPlaceOf text.now fault.place) }
{
    let (index, span) = piece;
    let place = byte_place(alloc, text, index, span)?;
    let mut told = Hints::new(alloc);
    if let Goal::Chart = goal {
        add_element_behind(alloc, text.get(..span.from).unwrap_or(b""), &mut told.lines)?;
    }
    add_byte_mending(
        &mut told.lines,
        kind,
        text.get(span.from..span.to).unwrap_or(b""),
        text.get(span.from..).unwrap_or(b""),
    )?;
    Ok(ReadingFault { place, told })
}

// How many tokens the bytes are; 0 where they are none. The one error is that memory was refused.
fn count_tokens(alloc: Global, bytes: &[u8]) -> Result<usize, AllocError> {
    match tokens(alloc, bytes) {
        Ok(found) => Ok(found.len()),
        Err(error) if error.kind == ReadErrorKind::Memory => Err(AllocError),
        Err(_) => Ok(0),
    }
}

// The bytes that are refused, up to the end of a character. A location has no sign, so that `%` alone is refused before a minus.
fn whole_characters(text: &[u8], span: Span) -> Span {
    let bytes = text.get(span.from..).unwrap_or(b"");
    let least = span.from.saturating_add(character_length(bytes));
    let to = match bytes {
        [b'%', b'-', ..] => least,
        _ => span.to.max(least),
    };
    Span {
        from: span.from,
        to,
    }
}

// Where a text is at fault that has no tokens. The one error is that memory was refused.
fn lexical_fault(
    alloc: Global,
    goal: Goal,
    text: &[u8],
    fault: &Placed<ReadError>,
) -> Result<ReadingFault, AllocError>
    ensures { IfOk result (λ fault. IsPlaceOf text.now fault.place) }
{
    let span = whole_characters(text, Span::of(fault.span()));
    let index = count_tokens(alloc, text.get(..span.from).unwrap_or(b""))?;
    byte_fault(alloc, goal, text, (index, span), fault.value().kind)
}

// The place among the tokens of the first one that begins at a byte or behind it; how many there are where none does.
fn index_of(tokens: &[Token], place: usize) -> usize {
    let mut index = 0usize;
    for token in tokens {
        if token.span.from as usize >= place {
            break;
        }
        index = index.saturating_add(1);
    }
    index
}

// Adds a line of what could stand behind the front of a text.
fn add_expected(
    alloc: Global,
    goal: Goal,
    front: &[u8],
    lines: &mut Vec<u8>,
) -> Result<(), AllocError> {
    if front.len() > LONGEST {
        return Ok(());
    }
    let front = Front { goal, bytes: front };
    let expected = find_expected(alloc, &front)?;
    if expected.is_empty() {
        return Ok(());
    }
    lines.extend_from_slice(b"  expected: ")?;
    expected.add_to(lines)?;
    lines.extend_from_slice(b"\n")
}

// The place of a token; the end of the text where there is none.
fn place_at(alloc: Global, chart: &ChartText<'_>, index: usize) -> Result<Place, AllocError>
    requires { TextLexes chart.now.text.now (Ok (kinds chart.now.tokens.now)) }
    ensures { IfOk result (IsPlaceOf chart.now.text.now) }
{
    let Some(span) = chart.spans.get(index) else {
        return Ok(Place::End);
    };
    token_place(alloc, chart.text, chart.tokens, index, *span)
}

// The front of a text before a token: of a chart without the elements that have ended there.
fn front_of(
    alloc: Global,
    goal: Goal,
    text: &ChartText<'_>,
    index: usize,
) -> Result<Vec<u8>, AllocError> {
    match goal {
        Goal::Chart => short_front(alloc, text, index),
        Goal::Expression => {
            let end = match text.spans.get(index) {
                Some(span) => span.from,
                None => text.text.len(),
            };
            Vec::from_slice(alloc, text.text.get(..end).unwrap_or(b""))
        }
    }
}

// Adds a line of what could stand in place of a token, and one of what mends it, if that is known.
fn add_expected_at(
    alloc: Global,
    goal: Goal,
    chart: &ChartText<'_>,
    index: usize,
    told: &mut Hints,
) -> Result<(), AllocError> {
    let front = front_of(alloc, goal, chart, index)?;
    add_expected(alloc, goal, &front, &mut told.lines)?;
    if front.len() > LONGEST {
        return Ok(());
    }
    let misplaced = Misplaced {
        chart: *chart,
        index,
        goal,
        front: &front,
    };
    misplaced.add_mending(alloc, told)
}

// What is told of a token that can't stand there: the element, and what could.
fn syntax_told(
    alloc: Global,
    goal: Goal,
    chart: &ChartText<'_>,
    index: usize,
    kind: ReadErrorKind,
) -> Result<Hints, AllocError> {
    let mut told = Hints::new(alloc);
    if let Goal::Chart = goal {
        let element = element_before(chart.tokens, index);
        add_in(&mut told.lines, chart.tokens, element, Part::Whole)?;
    }
    if let ReadErrorKind::Syntax = kind {
        add_expected_at(alloc, goal, chart, index, &mut told)?;
    }
    Ok(told)
}

// Where a text is at fault whose tokens can't be read so, with what could stand there. The one error is that memory was refused.
fn syntax_fault(
    alloc: Global,
    goal: Goal,
    chart: &ChartText<'_>,
    fault: &Placed<ReadError>,
) -> Result<ReadingFault, AllocError>
    requires { TextLexes chart.now.text.now (Ok (kinds chart.now.tokens.now)) }
    ensures { IfOk result (λ fault. IsPlaceOf chart.now.text.now fault.place) }
{
    let index = index_of(chart.tokens, Span::of(fault.span()).from);
    let place = place_at(alloc, chart, index)?;
    let told = syntax_told(alloc, goal, chart, index, fault.value().kind)?;
    Ok(ReadingFault { place, told })
}

/// Where a text is at fault that can't be read so, by the reader's own place. The one error is that memory was refused.
pub fn reading_fault(
    alloc: Global,
    goal: Goal,
    text: &[u8],
    fault: &Placed<ReadError>,
) -> Result<ReadingFault, AllocError>
    ensures { IfOk result (λ fault. IsPlaceOf text.now fault.place) }
{
    match tokens(alloc, text) {
        Ok(found) => {
            let spans = spans_of(alloc, &found)?;
            let chart = ChartText {
                text,
                tokens: found.as_slice(),
                spans: spans.as_slice(),
            };
            syntax_fault(alloc, goal, &chart, fault)
        }
        Err(error) if error.kind == ReadErrorKind::Memory => Err(AllocError),
        Err(_) => lexical_fault(alloc, goal, text, fault),
    }
}
