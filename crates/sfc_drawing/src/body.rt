//! Bodies of actions as SVG (2.6.4.1).

ghost use Rattle.std.specs.Prelude.{◌≡◌, ◌++◌, OnOk};
ghost use Rattle.sfc_drawing.specs.Pictures as text;

use crate::drawn::DrawnBody;
use crate::element::append_lines;
use crate::part::Part::{Markup, Said};
use crate::part::{append_parts, word_if};
use crate::shape::{Point, Rect, append_rect, append_text};
use sfc_page::append::append;
use std::alloc::AllocError;

#[tactic(auto, unfolding(crate::specs::Pictures::body_head))]
fn append_body_head<'x>(
    out: &mut Vec<u8>,
    chart: &'x [u8],
    body: &'x DrawnBody,
) -> Result<(), AllocError>
    ensures { OnOk result (out.new.items ≡ out.old.items ++ text.body_head chart.now body.now) }
{
    append_parts(
        out,
        &[
            Markup(b"<g id=\""),
            Said(chart),
            Markup(b"-action-"),
            Said(body.name.as_slice()),
            Markup(b"\" class=\"body"),
            Markup(word_if(body.mark.is_executed, b" ran")),
            Markup(word_if(body.mark.is_never, b" never")),
            Markup(b"\"><title>action "),
            Said(body.name.as_slice()),
            Markup(word_if(body.mark.is_never, b", never executed")),
            Markup(b"</title>\n"),
        ],
    )
}

// The frame of the name.
fn name_frame(body: &DrawnBody) -> Rect
    ensures { result ≡ text.name_frame body.now }
{
    Rect {
        x: u64::from(body.left),
        y: u64::from(body.top),
        width: u64::from(body.width),
        height: 22,
    }
}

// The frame of the lines.
fn lines_frame(body: &DrawnBody) -> Rect
    ensures { result ≡ text.lines_frame body.now }
{
    Rect {
        x: u64::from(body.left),
        y: u64::from(body.top) + 22,
        width: u64::from(body.width),
        height: u64::from(body.height),
    }
}

#[tactic(auto, unfolding(crate::specs::Pictures::frames_text))]
fn append_frames(out: &mut Vec<u8>, body: &DrawnBody) -> Result<(), AllocError>
    ensures { OnOk result (out.new.items ≡ out.old.items ++ text.frames_text body.now) }
{
    append_rect(out, b"cell", name_frame(body))?;
    let left = u64::from(body.left);
    let y = u64::from(body.top) + 15;
    append_text(out, b"q", Point { x: left + 8, y }, 6, b"ACTION")?;
    append_text(
        out,
        b"n",
        Point { x: left + 54, y },
        90,
        body.name.as_slice(),
    )?;
    append_rect(out, b"cell", lines_frame(body))
}

/// Puts the body of an action of this chart at the end. The one error is that memory was refused.
#[tactic(auto, unfolding(crate::specs::Pictures::body_text))]
pub fn append_body(out: &mut Vec<u8>, chart: &[u8], body: &DrawnBody) -> Result<(), AllocError>
    ensures { OnOk result (out.new.items ≡ out.old.items ++ text.body_text chart.now body.now) }
{
    append_body_head(out, chart, body)?;
    append_frames(out, body)?;
    append_lines(out, b"c", 90, body.lines.as_slice())?;
    append(out, b"</g>\n")
}
