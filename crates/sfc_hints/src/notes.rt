//! What is told of a fault beside its place: near names, the first one of a name, types, numbers.

use crate::candidates::candidates;
use crate::describe::{add_declared, add_element, add_part};
use crate::hints::Hints;
use crate::near::nearest;
use crate::writing::{add_joint, add_line};
use sfc_base::location::Size;
use sfc_base::var_type::VarType;
use sfc_page::append::{append_number, append_signed};
use sfc_places::chart_text::ChartText;
use sfc_places::declared::Declared;
use sfc_places::enclosing::token_of;
use sfc_places::finding::{Detail, Element, Finding, Part, Sort, Types};
use sfc_places::marks::{line_at, spelling_at};
use sfc_places::spaces::{first_of, steps_of};
use sfc_places::tree_text::TreeText;
use sfc_tokens::token::Token;
use std::alloc::{AllocError, Global};

/// Adds a line with what a fault is in. The one error is that memory was refused.
pub fn add_in(
    told: &mut Vec<u8>,
    tokens: &[Token],
    element: Element,
    part: Part,
) -> Result<(), AllocError> {
    told.extend_from_slice(b"  in: ")?;
    add_element(told, tokens, element)?;
    add_part(told, part)?;
    told.extend_from_slice(b"\n")
}

/// Adds a line with those of the names that are near to one that isn't found, if there are any, and keeps the nearest, unless that is as far
/// as the name is long. The one error is that memory was refused.
pub fn add_nearest(
    alloc: Global,
    told: &mut Hints,
    chart: &ChartText<'_>,
    wanted: &[u8],
    names: &[Declared],
) -> Result<(), AllocError> {
    let tokens = chart.tokens;
    let found = nearest(alloc, tokens, wanted, names)?;
    if found.is_empty() {
        return Ok(());
    }
    told.lines.extend_from_slice(b"  declared nearby: ")?;
    let mut place = 0usize;
    for near in found.as_slice() {
        if near.distance < wanted.len() {
            told.keep_near(alloc, spelling_at(tokens, near.declared.token))?;
        }
        add_joint(&mut told.lines, place, 0)?;
        let line = line_at(chart, near.declared.token);
        add_declared(&mut told.lines, tokens, near.declared, line)?;
        place = place.saturating_add(1);
    }
    told.lines.extend_from_slice(b"\n")
}

// Adds a line with the declared names that are near to one that isn't found, if there are any.
fn add_near(
    alloc: Global,
    told: &mut Hints,
    text: &TreeText<'_>,
    wanted: &[u8],
    sort: Sort,
) -> Result<(), AllocError> {
    let names = candidates(alloc, text, sort)?;
    add_nearest(alloc, told, text.chart, wanted, &names)
}

// The step of this name in any program type, and the name of that type.
fn step_anywhere(
    alloc: Global,
    text: &TreeText<'_>,
    wanted: &[u8],
) -> Result<Option<(Declared, usize)>, AllocError> {
    let chart = text.chart;
    for program in text.source.programs.as_slice() {
        let steps = steps_of(alloc, chart, program)?;
        if let Some(step) = first_of(chart, &steps, wanted) {
            return Ok(Some((step, token_of(chart, &program.name))));
        }
    }
    Ok(None)
}

// Adds a line with the program type that has a step which is none here, if there is one.
fn add_elsewhere(
    alloc: Global,
    told: &mut Vec<u8>,
    text: &TreeText<'_>,
    wanted: &[u8],
    sort: Sort,
) -> Result<(), AllocError> {
    let Sort::Steps { .. } = sort else {
        return Ok(());
    };
    let Some((step, program)) = step_anywhere(alloc, text, wanted)? else {
        return Ok(());
    };
    let chart = text.chart;
    told.extend_from_slice(b"  mend: this is a step of PROGRAM ")?;
    told.extend_from_slice(spelling_at(chart.tokens, program))?;
    told.extend_from_slice(b" (line ")?;
    append_number(told, u64::from(line_at(chart, step.token)))?;
    add_line(told, b"), and a transition joins steps of one program type")
}

// Adds a line of how a step is asked, where a variable is wanted and a step of this name is there.
fn add_step_flag(
    alloc: Global,
    told: &mut Vec<u8>,
    text: &TreeText<'_>,
    wanted: &[u8],
    sort: Sort,
) -> Result<(), AllocError> {
    let Sort::Variables { program } = sort else {
        return Ok(());
    };
    let steps = candidates(alloc, text, Sort::Steps { program })?;
    if first_of(text.chart, &steps, wanted).is_none() {
        return Ok(());
    }
    told.extend_from_slice(b"  mend: ")?;
    told.extend_from_slice(wanted)?;
    add_line(told, b".X says whether this step is active")
}

// Adds a line with the first one of a name.
fn add_first(told: &mut Vec<u8>, chart: &ChartText<'_>, first: Declared) -> Result<(), AllocError> {
    told.extend_from_slice(b"  first: ")?;
    add_declared(told, chart.tokens, first, line_at(chart, first.token))?;
    told.extend_from_slice(b"\n")
}

// Adds a line with the first one in a list of steps.
fn add_first_in_list(
    told: &mut Vec<u8>,
    chart: &ChartText<'_>,
    first: usize,
) -> Result<(), AllocError> {
    told.extend_from_slice(b"  first: ")?;
    told.extend_from_slice(spelling_at(chart.tokens, first))?;
    told.extend_from_slice(b" (line ")?;
    append_number(told, u64::from(line_at(chart, first)))?;
    add_line(told, b")")
}

// The reserved word of a type.
fn type_text(var_type: VarType) -> &'static [u8] {
    match var_type {
        VarType::Bool => b"BOOL",
        VarType::Int => b"INT",
        VarType::Dint => b"DINT",
        VarType::Time => b"TIME",
    }
}

// Types in words.
fn types_text(types: Types) -> &'static [u8] {
    match types {
        Types::One(var_type) => type_text(var_type),
        Types::Integers => b"INT or DINT",
        Types::Numbers => b"INT, DINT or TIME",
        Types::Untyped => b"an integer without a type",
    }
}

// Adds a line of what is wanted, and one of what is there.
fn add_wanted(told: &mut Vec<u8>, wanted: &[u8], found: &[u8]) -> Result<(), AllocError> {
    told.extend_from_slice(b"  wanted: ")?;
    add_line(told, wanted)?;
    told.extend_from_slice(b"  found: ")?;
    add_line(told, found)
}

// Adds a line of how a time is written, where a number stands for one.
fn add_time(told: &mut Vec<u8>, wanted: Types, found: Types) -> Result<(), AllocError> {
    match (wanted, found) {
        (Types::One(VarType::Time), Types::Untyped | Types::Integers) => {
            add_line(told, b"  mend: T#2s is a time of two seconds")
        }
        _ => Ok(()),
    }
}

// The letter of a size.
fn size_text(size: Size) -> &'static [u8] {
    match size {
        Size::Bit => b"size X",
        Size::Byte => b"size B",
        Size::Word => b"size W",
        Size::DoubleWord => b"size D",
        Size::LongWord => b"size L",
    }
}

// The locations that a variable of the type may have.
fn location_text(var_type: VarType) -> &'static [u8] {
    match var_type {
        VarType::Bool => b"a location of size X, for BOOL",
        VarType::Int => b"a location of size W, for INT",
        VarType::Dint => b"a location of size D, for DINT",
        VarType::Time => b"no location, for TIME",
    }
}

// The numbers of a type.
fn range_text(var_type: VarType) -> &'static [u8] {
    match var_type {
        VarType::Bool => b"BOOL, 0 or 1",
        VarType::Int => b"INT, from -32768 to 32767",
        VarType::Dint => b"DINT, from -2147483648 to 2147483647",
        VarType::Time => b"TIME",
    }
}

// Adds a line of the numbers of a type, and one of the number that is there.
fn add_range(told: &mut Vec<u8>, wanted: VarType, found: i64) -> Result<(), AllocError> {
    told.extend_from_slice(b"  wanted: ")?;
    add_line(told, range_text(wanted))?;
    told.extend_from_slice(b"  found: ")?;
    append_signed(told, found)?;
    told.extend_from_slice(b"\n")
}

// Adds a line of how many there are, and one of how many there may be.
fn add_count(told: &mut Vec<u8>, found: usize, most: usize) -> Result<(), AllocError> {
    told.extend_from_slice(b"  there are: ")?;
    append_number(told, found as u64)?;
    told.extend_from_slice(b"\n  there may be: ")?;
    append_number(told, most as u64)?;
    told.extend_from_slice(b"\n")
}

/// Adds lines with the details of a fault at a word, over the chart. The one error is that memory was refused.
pub fn add_detail(
    alloc: Global,
    told: &mut Hints,
    text: &TreeText<'_>,
    word: &[u8],
    detail: Detail,
) -> Result<(), AllocError> {
    if let Detail::Missing(sort) = detail {
        add_near(alloc, told, text, word, sort)?;
        add_step_flag(alloc, &mut told.lines, text, word, sort)?;
        return add_elsewhere(alloc, &mut told.lines, text, word, sort);
    }
    add_lines(&mut told.lines, text.chart, word, detail)
}

// The same of a fault that isn't of a name that is missing.
fn add_lines(
    told: &mut Vec<u8>,
    chart: &ChartText<'_>,
    word: &[u8],
    detail: Detail,
) -> Result<(), AllocError> {
    match detail {
        Detail::Nothing | Detail::Missing(_) => Ok(()),
        Detail::MissingPart => {
            add_line(told, b"  expected: X, T or Q")?;
            add_line(
                told,
                b"  mend: Fill.X says whether step Fill is active, Fill.T for how long",
            )
        }
        Detail::OutsideAction => add_line(told, b"  wanted: the action in whose body it stands"),
        Detail::NoWith => add_line(told, b"  expected: WITH and the name of a task"),
        Detail::First(first) => add_first(told, chart, first),
        Detail::FirstInList(first) => add_first_in_list(told, chart, first),
        Detail::Types { wanted, found } => {
            add_wanted(told, types_text(wanted), types_text(found))?;
            add_time(told, wanted, found)
        }
        Detail::Sizes { var_type, found } => {
            add_wanted(told, location_text(var_type), size_text(found))
        }
        Detail::Range { wanted, found } => add_range(told, wanted, found),
        Detail::NegativeInterval => add_wanted(told, b"T#0s or more", word),
        Detail::Count { found, most } => add_count(told, found, most),
    }
}

/// Adds lines with all that is told of a fault that loading finds: what it is in, and its details. The one error is that
/// memory was refused.
pub fn add_finding(
    alloc: Global,
    told: &mut Hints,
    text: &TreeText<'_>,
    finding: Finding,
) -> Result<(), AllocError> {
    let chart = text.chart;
    add_in(&mut told.lines, chart.tokens, finding.element, finding.part)?;
    let word = match chart.spans.get(finding.token) {
        Some(span) => chart.text.get(span.from..span.to).unwrap_or(b""),
        None => b"",
    };
    add_detail(alloc, told, text, word, finding.detail)
}
