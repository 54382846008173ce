//! Transitions, with the lines of forks and joins (2.6.3, 2.6.5).

use crate::label::{append_cut, append_escaped};
use crate::sheet::Sheet;
use sfc_base::references::StepId;
use sfc_page::append::{append, append_number};
use sfc_plant::chart::Transition;
use std::alloc::AllocError;

// A side of a transition: the kind of its double line, whether its steps come before the transition, and the first step from which the
// transition comes.
#[derive(Clone, Copy)]
struct Side {
    line: &'static [u8],
    is_before: bool,
    first: StepId,
}

// Where a transition comes from.
fn before(first: StepId) -> Side {
    Side {
        line: b"j",
        is_before: true,
        first,
    }
}

// Where it leads.
fn behind(first: StepId) -> Side {
    Side {
        line: b"f",
        is_before: false,
        first,
    }
}

// The number of a transition, its name and its priority, where it has one.
fn append_head(
    out: &mut Vec<u8>,
    number: usize,
    transition: &Transition,
) -> Result<(), AllocError> {
    append_number(out, (number as u64).saturating_add(1))?;
    if let Some(name) = &transition.name {
        append(out, b" ")?;
        append(out, name.spelling())?;
    }
    if let Some(priority) = transition.priority {
        append(out, b" (PRIORITY := ")?;
        append_number(out, u64::from(priority))?;
        append(out, b")")?;
    }
    append(out, b": ")
}

// The bar of a transition, in another color where the latest scan cleared it.
fn append_bar(out: &mut Vec<u8>, is_cleared: bool) -> Result<(), AllocError> {
    append(
        out,
        b"<td><table border=\"0\" cellborder=\"0\" cellspacing=\"0\" cellpadding=\"0\"><tr><td port=\"b\" bgcolor=\"",
    )?;
    append(out, if is_cleared { b"#c62828" } else { b"#000000" })?;
    append(
        out,
        b"\" width=\"44\" height=\"4\" fixedsize=\"true\"></td></tr></table></td>",
    )
}

// The node of a transition: its bar, and beside it number, name, priority and condition; a long condition stands whole as the tooltip.
fn append_node(
    out: &mut Vec<u8>,
    sheet: &Sheet<'_>,
    number: usize,
    transition: &Transition,
) -> Result<(), AllocError> {
    append(out, b"    ")?;
    sheet.append_node(out, b"t", number)?;
    append(
        out,
        b" [label=<<table border=\"0\" cellborder=\"0\" cellspacing=\"0\" cellpadding=\"0\"><tr>",
    )?;
    append_bar(out, sheet.is_cleared(number))?;
    append(out, b"<td align=\"left\" cellpadding=\"4\">")?;
    append_head(out, number, transition)?;
    append_cut(out, sheet.condition(number))?;
    append(out, b"</td></tr></table>> tooltip=\"")?;
    append_escaped(out, sheet.condition(number))?;
    append(out, b"\"]\n")
}

// The double line of a side.
fn append_line(
    out: &mut Vec<u8>,
    sheet: &Sheet<'_>,
    number: usize,
    side: Side,
) -> Result<(), AllocError> {
    append(out, b"    ")?;
    sheet.append_node(out, side.line, number)?;
    append(
        out,
        b" [label=<<table border=\"0\" cellborder=\"1\" cellspacing=\"0\" cellpadding=\"0\"><tr><td sides=\"tb\" width=\"160\" height=\"5\" fixedsize=\"true\"></td></tr></table>>]\n",
    )
}

// An edge between a bar and its double line.
fn append_bar_edge(
    out: &mut Vec<u8>,
    sheet: &Sheet<'_>,
    number: usize,
    side: Side,
) -> Result<(), AllocError> {
    append(out, b"    ")?;
    if side.is_before {
        sheet.append_node(out, side.line, number)?;
        append(out, b":s -> ")?;
        sheet.append_node(out, b"t", number)?;
        append(out, b":b:n\n")
    } else {
        sheet.append_node(out, b"t", number)?;
        append(out, b":b:s -> ")?;
        sheet.append_node(out, side.line, number)?;
        append(out, b":n\n")
    }
}

// Where the edges of a side end: at its double line, or at the bar where it has one step.
fn append_end(
    out: &mut Vec<u8>,
    sheet: &Sheet<'_>,
    number: usize,
    side: Side,
    is_double: bool,
) -> Result<(), AllocError> {
    match (is_double, side.is_before) {
        (true, true) => {
            sheet.append_node(out, side.line, number)?;
            append(out, b":n")
        }
        (true, false) => {
            sheet.append_node(out, side.line, number)?;
            append(out, b":s")
        }
        (false, true) => {
            sheet.append_node(out, b"t", number)?;
            append(out, b":b:n")
        }
        (false, false) => {
            sheet.append_node(out, b"t", number)?;
            append(out, b":b:s")
        }
    }
}

// How an edge to a step ends: one that leads back, to a step that stands no later in the text, has a head.
fn head_of(side: Side, step: StepId) -> &'static [u8] {
    if step.0 <= side.first.0 {
        b":s:n [arrowhead=normal]\n"
    } else {
        b":s:n\n"
    }
}

// An edge between a step and a side.
fn append_edge(
    out: &mut Vec<u8>,
    sheet: &Sheet<'_>,
    number: usize,
    side: Side,
    step: (StepId, bool),
) -> Result<(), AllocError> {
    let (step, is_double) = step;
    append(out, b"    ")?;
    if side.is_before {
        sheet.append_node(out, b"s", usize::from(step.0))?;
        append(out, b":s:s -> ")?;
        append_end(out, sheet, number, side, is_double)?;
        append(out, b"\n")
    } else {
        append_end(out, sheet, number, side, is_double)?;
        append(out, b" -> ")?;
        sheet.append_node(out, b"s", usize::from(step.0))?;
        append(out, head_of(side, step))
    }
}

// An edge for each step of a side.
fn append_edges(
    out: &mut Vec<u8>,
    sheet: &Sheet<'_>,
    number: usize,
    side: Side,
    steps: &[StepId],
) -> Result<(), AllocError> {
    let is_double = steps.len() > 1;
    for step in steps {
        append_edge(out, sheet, number, side, (*step, is_double))?;
    }
    Ok(())
}

// The steps of a side: several stand at a double line.
fn append_side(
    out: &mut Vec<u8>,
    sheet: &Sheet<'_>,
    number: usize,
    side: Side,
    steps: &[StepId],
) -> Result<(), AllocError> {
    if steps.len() > 1 {
        append_line(out, sheet, number, side)?;
        append_bar_edge(out, sheet, number, side)?;
    }
    append_edges(out, sheet, number, side, steps)
}

/// Puts a transition: its bar, the steps from which it comes and to which it leads, and double lines where these are several. The one
/// error is that memory was refused; then a front of it may stand there.
pub fn append_transition(
    out: &mut Vec<u8>,
    sheet: &Sheet<'_>,
    number: usize,
    transition: &Transition,
) -> Result<(), AllocError> {
    append_node(out, sheet, number, transition)?;
    let preceding = transition.preceding.as_slice();
    let first = match preceding.first() {
        Some(step) => *step,
        None => StepId(0),
    };
    append_side(out, sheet, number, before(first), preceding)?;
    append_side(
        out,
        sheet,
        number,
        behind(first),
        transition.following.as_slice(),
    )
}
