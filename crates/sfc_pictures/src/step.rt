//! Steps with their action blocks (2.6.2, 2.6.4).

use crate::sheet::Sheet;
use sfc_base::references::Variable;
use sfc_page::append::{append, append_time};
use sfc_plant::association::{Association, Qualifier, Time};
use sfc_plant::chart::Step;
use sfc_plant::names::Names;
use std::alloc::AllocError;

// A qualifier, with its time where it has one.
fn append_qualifier(
    out: &mut Vec<u8>,
    names: &Names<'_>,
    qualifier: Qualifier,
) -> Result<(), AllocError> {
    append(out, qualifier.letters())?;
    match qualifier {
        Qualifier::Timed(_, Time::Literal(micros)) => {
            append(out, b" ")?;
            append_time(out, micros)
        }
        Qualifier::Timed(_, Time::Variable(variable)) => {
            append(out, b" ")?;
            append(out, names.variable(variable))
        }
        _ => Ok(()),
    }
}

// A cell of an action block.
fn append_cell(out: &mut Vec<u8>, text: &[u8]) -> Result<(), AllocError> {
    append(out, b"<td align=\"left\">")?;
    append(out, text)?;
    append(out, b"</td>")
}

// A cell for each indicator.
fn append_indicators(
    out: &mut Vec<u8>,
    names: &Names<'_>,
    indicators: &[Variable],
) -> Result<(), AllocError> {
    for indicator in indicators {
        append_cell(out, names.variable(*indicator))?;
    }
    Ok(())
}

// A line of an action block: the qualifier, the action, the indicators.
fn append_association(
    out: &mut Vec<u8>,
    names: &Names<'_>,
    association: &Association,
) -> Result<(), AllocError> {
    append(out, b"<tr><td>")?;
    append_qualifier(out, names, association.qualifier)?;
    append(out, b"</td>")?;
    append_cell(out, names.target(association.target))?;
    append_indicators(out, names, association.indicators.as_slice())?;
    append(out, b"</tr>")
}

// The lines of an action block.
fn append_lines(
    out: &mut Vec<u8>,
    names: &Names<'_>,
    associations: &[Association],
) -> Result<(), AllocError> {
    for association in associations {
        append_association(out, names, association)?;
    }
    Ok(())
}

// The action block at the side of a step, where it has one.
fn append_block(
    out: &mut Vec<u8>,
    names: &Names<'_>,
    associations: &[Association],
) -> Result<(), AllocError> {
    if associations.is_empty() {
        return Ok(());
    }
    append(
        out,
        b"<td border=\"0\" cellpadding=\"0\"><table border=\"0\" cellborder=\"1\" cellspacing=\"0\" cellpadding=\"4\">",
    )?;
    append_lines(out, names, associations)?;
    append(out, b"</table></td>")
}

// The name of a step, and its time where it is active.
fn append_name(out: &mut Vec<u8>, name: &[u8], active_for: Option<i64>) -> Result<(), AllocError> {
    append(out, name)?;
    match active_for {
        None => Ok(()),
        Some(micros) => {
            append(out, b"<br/>")?;
            append_time(out, micros)
        }
    }
}

// What stands in the box of a step: a second border where it is initial.
fn append_inside(
    out: &mut Vec<u8>,
    step: &Step,
    active_for: Option<i64>,
) -> Result<(), AllocError> {
    if !step.is_initial {
        return append_name(out, step.name.spelling(), active_for);
    }
    append(
        out,
        b"<table border=\"1\" cellborder=\"0\" cellspacing=\"0\" cellpadding=\"4\"><tr><td>",
    )?;
    append_name(out, step.name.spelling(), active_for)?;
    append(out, b"</td></tr></table>")
}

// The box of a step, filled where it is active.
fn append_box(out: &mut Vec<u8>, step: &Step, active_for: Option<i64>) -> Result<(), AllocError> {
    append(out, b"<td port=\"s\"")?;
    if step.is_initial {
        append(out, b" cellpadding=\"3\"")?;
    }
    if active_for.is_some() {
        append(out, b" bgcolor=\"#ffe082\"")?;
    }
    append(out, b">")?;
    append_inside(out, step, active_for)?;
    append(out, b"</td>")
}

/// Puts a step: its box, with a double border where it is initial and filled where it is active, and its action block at the side. The one
/// error is that memory was refused; then a front of it may stand there.
pub fn append_step(
    out: &mut Vec<u8>,
    sheet: &Sheet<'_>,
    number: usize,
    step: &Step,
) -> Result<(), AllocError> {
    append(out, b"    ")?;
    sheet.append_node(out, b"s", number)?;
    append(
        out,
        b" [label=<<table border=\"0\" cellborder=\"1\" cellspacing=\"0\" cellpadding=\"6\"><tr>",
    )?;
    append_box(out, step, sheet.active_for(number))?;
    append_block(out, &sheet.names, step.associations.as_slice())?;
    append(out, b"</tr></table>>]\n")
}
