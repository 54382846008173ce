//! Action blocks as SVG (2.6.4.3).

ghost use Rattle.std.specs.Prelude.{◌≡◌, ◌++◌, ◌+◌, ◌<◌, ◌^◌, OnOk};
ghost use Rattle.sfc_drawing.specs.Elements.{numbered};
ghost use Rattle.sfc_drawing.specs.Steps as text;

use crate::drawn::{Columns, DrawnRow, DrawnStep};
use crate::element::word_before;
use crate::part::Part::{Markup, Number, Said};
use crate::part::{append_parts, word_if};
use crate::shape::{Point, Rect, append_along, append_rect, append_text};
use sfc_layout::node_box::NodeBox;
use sfc_page::append::append;
use std::alloc::AllocError;

#[tactic(auto, unfolding(crate::specs::Steps::row_head))]
fn append_row_head<'x>(
    out: &mut Vec<u8>,
    chart: &'x [u8],
    step: &'x [u8],
    number: u64,
    row: &DrawnRow,
) -> Result<(), AllocError>
    ensures { OnOk result (out.new.items ≡ out.old.items ++ text.row_head chart.now step.now number row.now) }
{
    append_parts(
        out,
        &[
            Markup(b"<g id=\""),
            Said(chart),
            Markup(b"-step-"),
            Said(step),
            Markup(b"-"),
            Number(number),
            Markup(b"\" class=\"act"),
            Markup(word_if(row.mark.is_executed, b" ran")),
            Markup(word_if(row.mark.is_forced, b" forced")),
            Markup(word_if(row.mark.is_never, b" never")),
            Markup(b"\"><title>"),
        ],
    )
}

#[tactic(auto, unfolding(crate::specs::Steps::row_title))]
fn append_row_title(out: &mut Vec<u8>, row: &DrawnRow) -> Result<(), AllocError>
    ensures { OnOk result (out.new.items ≡ out.old.items ++ text.row_title row.now) }
{
    let time = row.time.as_slice();
    let indicators = row.indicators.as_slice();
    append_parts(
        out,
        &[
            Said(row.qualifier.as_slice()),
            Markup(word_before(b" ", time)),
            Said(time),
            Markup(b" "),
            Said(row.action.as_slice()),
            Markup(word_before(b" with ", indicators)),
            Said(indicators),
            Markup(word_if(row.mark.is_forced, b", forced")),
            Markup(word_if(row.mark.is_never, b", never executed")),
            Markup(b"</title>\n"),
        ],
    )
}

#[tactic(auto, unfolding(crate::specs::Steps::field_text))]
fn append_field<'x>(
    out: &mut Vec<u8>,
    class: &'x [u8],
    field: Rect,
    most: usize,
    said: &'x [u8],
) -> Result<(), AllocError>
    requires x { field.x + 5 < 2 ^ 64 }
    requires y { field.y + 14 < 2 ^ 64 }
    ensures { OnOk result (out.new.items ≡ out.old.items ++ text.field_text class.now field most said.now) }
{
    if field.width == 0 {
        return Ok(());
    }
    append_rect(out, b"cell", field)?;
    let at = Point {
        x: field.x + 5,
        y: field.y + 14,
    };
    append_text(out, class, at, most, said)
}

#[tactic(auto, unfolding(crate::specs::Steps::action_class))]
fn action_class(has_body: bool) -> &'static [u8]
    ensures { result.now ≡ text.action_class has_body }
{
    if has_body { b"declared" } else { b"c" }
}

// A field that begins there.
fn field_at(left: u64, top: u32, width: u32) -> Rect
    ensures { result ≡ text.field_at left top width }
{
    Rect {
        x: left,
        y: u64::from(top),
        width: u64::from(width),
        height: 20,
    }
}

// The fields of a line, from there on.
#[tactic(auto, unfolding(crate::specs::Steps::fields_text))]
fn append_fields(
    out: &mut Vec<u8>,
    left: u64,
    columns: Columns,
    row: &DrawnRow,
) -> Result<(), AllocError>
    requires { left < 2 ^ 33 }
    ensures { OnOk result (out.new.items ≡ out.old.items ++ text.fields_text left columns row.now) }
{
    let top = row.top;
    let field = field_at(left, top, columns.qualifier);
    append_field(out, b"c", field, 24, row.qualifier.as_slice())?;
    let left = left + u64::from(columns.qualifier);
    let field = field_at(left, top, columns.time);
    append_field(out, b"c", field, 24, row.time.as_slice())?;
    let left = left + u64::from(columns.time);
    let field = field_at(left, top, columns.action);
    append_field(
        out,
        action_class(row.has_body),
        field,
        28,
        row.action.as_slice(),
    )?;
    let left = left + u64::from(columns.action);
    let field = field_at(left, top, columns.indicators);
    append_field(out, b"c", field, 24, row.indicators.as_slice())
}

#[tactic(auto, unfolding(crate::specs::Steps::row_text))]
fn append_row(
    out: &mut Vec<u8>,
    chart: &[u8],
    step: &DrawnStep,
    number: u64,
    row: &DrawnRow,
) -> Result<(), AllocError>
    ensures { OnOk result (out.new.items ≡ out.old.items ++ text.row_text chart.now step.now number row.now) }
{
    append_row_head(out, chart, step.name.as_slice(), number, row)?;
    append_row_title(out, row)?;
    let left = u64::from(step.place.right) + 14;
    append_fields(out, left, step.columns, row)?;
    append(out, b"</g>\n")
}

/// Puts the line from a step to its action block at the end, if it has one. The one error is that memory was refused.
#[tactic(auto, unfolding(crate::specs::Steps::block_line))]
pub fn append_block_line(
    out: &mut Vec<u8>,
    place: NodeBox,
    rows: &[DrawnRow],
) -> Result<(), AllocError>
    ensures { OnOk result (out.new.items ≡ out.old.items ++ text.block_line place rows.now) }
{
    if rows.is_empty() {
        return Ok(());
    }
    let right = u64::from(place.right);
    append_along(out, right, u64::from(place.top) + 17, right + 14)
}

/// Puts the lines of the action block of a step at the end. The one error is that memory was refused.
pub fn append_rows(
    out: &mut Vec<u8>,
    chart: &[u8],
    step: &DrawnStep,
    rows: &[DrawnRow],
) -> Result<(), AllocError>
    ensures { OnOk result (out.new.items ≡ out.old.items ++ numbered (text.row_text chart.now step.now) 1 rows.now) }
{
    for (place, row) in rows.iter().enumerate() {
        append_row(out, chart, step, place as u64 + 1, row)?;
    }
    Ok(())
}
