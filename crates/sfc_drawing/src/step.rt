//! Steps as SVG (2.6.2).

ghost use Rattle.std.specs.Prelude.{◌≡◌, ◌++◌, ◌<◌, OnOk};
ghost use Rattle.sfc_drawing.specs.Steps as text;

use crate::drawn::{DrawnStep, Entry, StepMark};
use crate::element::{append_owns, append_sheet};
use crate::part::Part::{Markup, Number, Said};
use crate::part::{append_parts, word_if};
use crate::row::{append_block_line, append_rows};
use crate::shape::{Point, Rect, Way, append_along, append_head, append_rect, append_text};
use sfc_layout::node_box::NodeBox;
use sfc_page::append::append;
use std::alloc::AllocError;

#[tactic(auto, unfolding(crate::specs::Steps::step_head))]
fn append_step_head<'x>(
    out: &mut Vec<u8>,
    chart: &'x [u8],
    step: &'x DrawnStep,
) -> Result<(), AllocError>
    ensures { OnOk result (out.new.items ≡ out.old.items ++ text.step_head chart.now step.now) }
{
    append_parts(
        out,
        &[
            Markup(b"<g id=\""),
            Said(chart),
            Markup(b"-step-"),
            Said(step.name.as_slice()),
            Markup(b"\" class=\"step"),
            Markup(word_if(step.is_initial, b" initial")),
            Markup(word_if(step.mark.is_active, b" on")),
            Markup(word_if(step.mark.is_never, b" never")),
        ],
    )
}

#[tactic(auto, unfolding(crate::specs::Steps::step_word))]
fn step_word(is_initial: bool) -> &'static [u8]
    ensures { result.now ≡ text.step_word is_initial }
{
    if is_initial {
        b"initial step "
    } else {
        b"step "
    }
}

#[tactic(auto, unfolding(crate::specs::Steps::step_title))]
fn append_step_title<'x>(
    out: &mut Vec<u8>,
    is_initial: bool,
    name: &'x [u8],
    mark: &'x StepMark,
) -> Result<(), AllocError>
    ensures { OnOk result (out.new.items ≡ out.old.items ++ text.step_title is_initial name.now mark.now) }
{
    append_parts(
        out,
        &[
            Markup(step_word(is_initial)),
            Said(name),
            Markup(word_if(mark.is_active, b", active for ")),
            Said(mark.time.as_slice()),
            Markup(word_if(mark.is_never, b", never active")),
            Markup(b"</title>\n"),
        ],
    )
}

// The arrow at which jumps come to a step with this line, if some do.
#[tactic(auto, unfolding(crate::specs::Steps::entry_text))]
fn append_entry(out: &mut Vec<u8>, x: u32, entry: &Option<Entry>) -> Result<(), AllocError>
    ensures { OnOk result (out.new.items ≡ out.old.items ++ text.entry_text x entry.now) }
{
    let Some(entry) = entry else {
        return Ok(());
    };
    let y = u64::from(entry.y);
    append_along(out, u64::from(x) + 15, y, u64::from(x) + 8)?;
    append_head(out, Way::Left, x, entry.y)?;
    let at = Point {
        x: u64::from(x) + 18,
        y: y + 3,
    };
    append_text(out, b"q", at, 60, entry.from.as_slice())
}

fn box_of(place: NodeBox) -> Rect
    ensures { result ≡ text.box_of place }
{
    let left = u64::from(place.left) + 4;
    let top = u64::from(place.top);
    Rect {
        x: left,
        y: top,
        width: u64::from(place.right).saturating_sub(left),
        height: u64::from(place.bottom).saturating_sub(top),
    }
}

// The box in that of an initial step.
fn inner_of(place: NodeBox) -> Rect
    ensures { result ≡ text.inner_of place }
{
    let left = u64::from(place.left);
    let top = u64::from(place.top);
    Rect {
        x: left + 8,
        y: top + 4,
        width: u64::from(place.right).saturating_sub(left + 12),
        height: u64::from(place.bottom).saturating_sub(top + 8),
    }
}

#[tactic(auto, unfolding(crate::specs::Steps::box_text))]
fn append_box(out: &mut Vec<u8>, is_initial: bool, place: NodeBox) -> Result<(), AllocError>
    ensures { OnOk result (out.new.items ≡ out.old.items ++ text.box_text is_initial place) }
{
    append_rect(out, b"box", box_of(place))?;
    if is_initial {
        append_rect(out, b"l inner", inner_of(place))?;
    }
    Ok(())
}

#[tactic(auto, unfolding(crate::specs::Steps::token_text))]
fn append_token(out: &mut Vec<u8>, place: NodeBox) -> Result<(), AllocError>
    ensures { OnOk result (out.new.items ≡ out.old.items ++ text.token_text place) }
{
    append_parts(
        out,
        &[
            Markup(b"<circle class=\"token\" cx=\""),
            Number(u64::from(place.left) + 15),
            Markup(b"\" cy=\""),
            Number(u64::from(place.top) + 12),
            Markup(b"\" r=\"4\"/>\n"),
        ],
    )
}

// How far below the top of the box the name stands.
#[tactic(auto, unfolding(crate::specs::Steps::name_height))]
fn name_height(is_active: bool) -> u64
    ensures value { result ≡ text.name_height is_active }
    ensures low { result < 32 }
{
    if is_active { 16 } else { 21 }
}

// The name, the token and the time of a step that stands there.
#[tactic(auto, unfolding(crate::specs::Steps::label_text))]
fn append_label(
    out: &mut Vec<u8>,
    place: NodeBox,
    name: &[u8],
    mark: &StepMark,
) -> Result<(), AllocError>
    ensures { OnOk result (out.new.items ≡ out.old.items ++ text.label_text place name.now mark.now) }
{
    let x = u64::from(place.x);
    let top = u64::from(place.top);
    let at = Point {
        x,
        y: top + name_height(mark.is_active),
    };
    append_text(out, b"n mid", at, 32, name)?;
    append_token(out, place)?;
    let room = u64::from(place.right).saturating_sub(u64::from(place.left) + 14);
    let at = Point { x, y: top + 28 };
    append_text(
        out,
        b"time mid",
        at,
        (room / 6) as usize,
        mark.time.as_slice(),
    )
}

// An asterisk, where branches of a step with this line begin.
#[tactic(auto, unfolding(crate::specs::Steps::branches_text))]
fn append_branches(out: &mut Vec<u8>, x: u32, branches: Option<u32>) -> Result<(), AllocError>
    ensures { OnOk result (out.new.items ≡ out.old.items ++ text.branches_text x branches) }
{
    let Some(y) = branches else {
        return Ok(());
    };
    let at = Point {
        x: u64::from(x) + 4,
        y: u64::from(y).saturating_sub(2),
    };
    append_text(out, b"q", at, 1, b"*")
}

/// Puts a step of this chart at the end, with its action block. The one error is that memory was refused.
#[tactic(auto, unfolding(crate::specs::Steps::step_text))]
pub fn append_step(out: &mut Vec<u8>, chart: &[u8], step: &DrawnStep) -> Result<(), AllocError>
    ensures { OnOk result (out.new.items ≡ out.old.items ++ text.step_text chart.now step.now) }
{
    append_step_head(out, chart, step)?;
    append_sheet(out, step.sheet)?;
    append_step_title(out, step.is_initial, step.name.as_slice(), &step.mark)?;
    append_owns(out, step.own.as_slice())?;
    append_entry(out, step.place.x, &step.entry)?;
    append_box(out, step.is_initial, step.place)?;
    append_label(out, step.place, step.name.as_slice(), &step.mark)?;
    append_block_line(out, step.place, step.rows.as_slice())?;
    append_rows(out, chart, step, step.rows.as_slice())?;
    append_branches(out, step.place.x, step.branches)?;
    append(out, b"</g>\n")
}
