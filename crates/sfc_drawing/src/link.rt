//! Links as SVG (2.6.5).

ghost use Rattle.std.specs.Prelude.{◌≡◌, ◌++◌, ◌+◌, ◌<◌, ◌^◌, OnOk};
ghost use Rattle.sfc_drawing.specs.Links as text;
ghost use Rattle.sfc_drawing.specs.Shapes.{point};

use crate::drawn::{DrawnLink, End};
use crate::element::append_sheet;
use crate::part::Part::{Markup, Number, Pixel, Said};
use crate::part::append_parts;
use crate::shape::{Point, Way, append_down, append_head, append_number, append_text};
use sfc_layout::drawing::Drawing;
use sfc_page::append::append;
use std::alloc::AllocError;

#[tactic(auto, unfolding(crate::specs::Links::end_id))]
fn append_end_id(out: &mut Vec<u8>, end: &End) -> Result<(), AllocError>
    ensures { OnOk result (out.new.items ≡ out.old.items ++ text.end_id end.now) }
{
    match end {
        End::Step(name) => append_parts(out, &[Said(name.as_slice())]),
        End::Transition(number) => append_parts(out, &[Number(*number)]),
    }
}

#[tactic(auto, unfolding(crate::specs::Links::end_said))]
fn append_end_said(out: &mut Vec<u8>, end: &End) -> Result<(), AllocError>
    ensures { OnOk result (out.new.items ≡ out.old.items ++ text.end_said end.now) }
{
    match end {
        End::Step(name) => append_parts(out, &[Markup(b"step "), Said(name.as_slice())]),
        End::Transition(number) => append_parts(out, &[Markup(b"transition "), Number(*number)]),
    }
}

#[tactic(auto, unfolding(crate::specs::Links::kind_text))]
fn kind_text(drawing: Drawing) -> &'static [u8]
    ensures { result.now ≡ text.kind_text drawing }
{
    match drawing {
        Drawing::Line { .. } => b"fall",
        Drawing::Jump { .. } => b"jump",
        Drawing::Loop { .. } => b"loop",
    }
}

#[tactic(auto, unfolding(crate::specs::Links::id_begin))]
fn append_id_begin(out: &mut Vec<u8>, chart: &[u8]) -> Result<(), AllocError>
    ensures { OnOk result (out.new.items ≡ out.old.items ++ text.id_begin chart.now) }
{
    append_parts(out, &[Markup(b"<g id=\""), Said(chart), Markup(b"-link-")])
}

#[tactic(auto, unfolding(crate::specs::Links::class_text))]
fn append_class(out: &mut Vec<u8>, drawing: Drawing) -> Result<(), AllocError>
    ensures { OnOk result (out.new.items ≡ out.old.items ++ text.class_text drawing) }
{
    append_parts(
        out,
        &[Markup(b"\" class=\"link "), Markup(kind_text(drawing))],
    )
}

#[tactic(auto, unfolding(crate::specs::Links::link_head))]
fn append_link_head(out: &mut Vec<u8>, chart: &[u8], link: &DrawnLink) -> Result<(), AllocError>
    ensures { OnOk result (out.new.items ≡ out.old.items ++ text.link_head chart.now link.now) }
{
    append_id_begin(out, chart)?;
    append_end_id(out, &link.source)?;
    append(out, b"-")?;
    append_end_id(out, &link.target)?;
    append_class(out, link.drawing)
}

#[tactic(auto, unfolding(crate::specs::Links::link_title))]
fn append_link_title(out: &mut Vec<u8>, link: &DrawnLink) -> Result<(), AllocError>
    ensures { OnOk result (out.new.items ≡ out.old.items ++ text.link_title link.now) }
{
    append(out, b"from ")?;
    append_end_said(out, &link.source)?;
    append(out, b" to ")?;
    append_end_said(out, &link.target)?;
    append(out, b"</title>\n")
}

// The name of the target of a jump.
#[tactic(auto, unfolding(crate::specs::Links::target_text))]
fn append_target(out: &mut Vec<u8>, at: Point, target: &End) -> Result<(), AllocError>
    ensures { OnOk result (out.new.items ≡ out.old.items ++ text.target_text at target.now) }
{
    match target {
        End::Step(name) => append_text(out, b"n", at, 32, name.as_slice()),
        End::Transition(number) => append_parts(
            out,
            &[
                Markup(b"<text class=\"n\" x=\""),
                Number(at.x),
                Markup(b"\" y=\""),
                Number(at.y),
                Markup(b"\">T"),
                Number(*number),
                Markup(b"</text>\n"),
            ],
        ),
    }
}

#[tactic(auto, unfolding(crate::specs::Links::jump_text))]
fn append_jump(
    out: &mut Vec<u8>,
    x: u32,
    top: u32,
    bottom: u32,
    target: &End,
) -> Result<(), AllocError>
    ensures { OnOk result (out.new.items ≡ out.old.items ++ text.jump_text x top bottom target.now) }
{
    append_down(out, x, top, bottom)?;
    append_head(out, Way::Down, x, bottom)?;
    let at = Point {
        x: u64::from(x) + 10,
        y: u64::from(bottom) + 8,
    };
    append_target(out, at, target)
}

#[tactic(auto, unfolding(crate::specs::Links::aside_text))]
fn append_aside(
    out: &mut Vec<u8>,
    x: u32,
    top: u32,
    bottom: u32,
    side: u32,
) -> Result<(), AllocError>
    ensures { OnOk result (out.new.items ≡ out.old.items ++ text.aside_text x top bottom side) }
{
    append_parts(
        out,
        &[
            Markup(b"<path class=\"l\" d=\"M"),
            Pixel(x),
            Markup(b" "),
            Pixel(top),
            Markup(b"V"),
            Pixel(bottom),
            Markup(b"H"),
            Pixel(side),
        ],
    )
}

#[tactic(auto, unfolding(crate::specs::Links::up_text))]
fn append_up(out: &mut Vec<u8>, entry: u32, line: u32) -> Result<(), AllocError>
    ensures { OnOk result (out.new.items ≡ out.old.items ++ text.up_text entry line) }
{
    append_parts(
        out,
        &[
            Markup(b"V"),
            Pixel(entry),
            Markup(b"H"),
            Pixel(line),
            Markup(b"\"/>\n"),
        ],
    )
}

// The way of the first of the loops of a step up to where they enter, and to the line of the step.
#[tactic(auto, unfolding(crate::specs::Links::return_text))]
fn append_return(
    out: &mut Vec<u8>,
    bottom: u32,
    side: u32,
    entry: u32,
    line: u32,
) -> Result<(), AllocError>
    ensures { OnOk result (out.new.items ≡ out.old.items ++ text.return_text bottom side entry line) }
{
    append_up(out, entry, line)?;
    let middle = entry + bottom.saturating_sub(entry) / 2;
    append_head(out, Way::Up, side, middle.saturating_sub(4))?;
    append_head(out, Way::Right, line, entry)
}

#[tactic(auto, unfolding(crate::specs::Links::drawing_text))]
fn append_drawing(out: &mut Vec<u8>, link: &DrawnLink) -> Result<(), AllocError>
    ensures { OnOk result (out.new.items ≡ out.old.items ++ text.drawing_text link.now link.now.drawing) }
{
    match link.drawing {
        Drawing::Line { x, top, bottom } => append_down(out, x, top, bottom),
        Drawing::Jump { x, top, bottom } => append_jump(out, x, top, bottom, &link.target),
        Drawing::Loop {
            x,
            top,
            bottom,
            side,
            is_first,
        } => {
            append_aside(out, x, top, bottom, side)?;
            if is_first {
                append_return(out, bottom, side, link.entry, link.line)
            } else {
                append(out, b"\"/>\n")
            }
        }
    }
}

// Where a link begins.
fn begin_of(drawing: Drawing) -> (u32, u32)
    ensures { point result.0 result.1 ≡ text.begin_of drawing }
{
    match drawing {
        Drawing::Line { x, top, .. }
        | Drawing::Jump { x, top, .. }
        | Drawing::Loop { x, top, .. } => { (x, top) }
    }
}

#[tactic(auto, unfolding(crate::specs::Links::priority_text))]
fn append_priority(
    out: &mut Vec<u8>,
    x: u32,
    y: u32,
    priority: Option<u32>,
) -> Result<(), AllocError>
    ensures { OnOk result (out.new.items ≡ out.old.items ++ text.priority_text (point x y) priority) }
{
    let Some(priority) = priority else {
        return Ok(());
    };
    let at = Point {
        x: u64::from(x) + 4,
        y: u64::from(y) + 11,
    };
    append_number(out, b"q", at, u64::from(priority))
}

/// Puts a link of this chart at the end. The one error is that memory was refused.
#[tactic(auto, unfolding(crate::specs::Links::link_text))]
pub fn append_link(out: &mut Vec<u8>, chart: &[u8], link: &DrawnLink) -> Result<(), AllocError>
    ensures { OnOk result (out.new.items ≡ out.old.items ++ text.link_text chart.now link.now) }
{
    append_link_head(out, chart, link)?;
    append_sheet(out, link.sheet)?;
    append_link_title(out, link)?;
    append_drawing(out, link)?;
    let (x, y) = begin_of(link.drawing);
    append_priority(out, x, y, link.priority)?;
    append(out, b"</g>\n")
}
