//! Charts, and the whole text.

ghost use Rattle.std.specs.Prelude.{◌≡◌, ◌++◌, OnOk, IfOk, flat_map};
ghost use Rattle.sfc_drawing.specs.Elements.{numbered};
ghost use Rattle.sfc_drawing.specs.Steps.{step_text};
ghost use Rattle.sfc_drawing.specs.Transitions.{transition_text};
ghost use Rattle.sfc_drawing.specs.Links.{link_text};
ghost use Rattle.sfc_drawing.specs.Pictures as text;
ghost use Rattle.sfc_drawing.specs.Pictures.{picture_text};

use crate::body::append_body;
use crate::drawn::{Corner, DrawnBody, DrawnChart, DrawnLink, DrawnStep, DrawnTransition, Picture};
use crate::link::append_link;
use crate::part::Part::{Markup, Number, Pixel, Said};
use crate::part::append_parts;
use crate::step::append_step;
use crate::style::STYLE;
use crate::transition::append_transition;
use sfc_page::append::append;
use std::alloc::{AllocError, Global};

fn append_links(out: &mut Vec<u8>, chart: &[u8], links: &[DrawnLink]) -> Result<(), AllocError>
    ensures { OnOk result (out.new.items ≡ out.old.items ++ flat_map (link_text chart.now) links.now) }
{
    for link in links {
        append_link(out, chart, link)?;
    }
    Ok(())
}

fn append_steps(out: &mut Vec<u8>, chart: &[u8], steps: &[DrawnStep]) -> Result<(), AllocError>
    ensures { OnOk result (out.new.items ≡ out.old.items ++ flat_map (step_text chart.now) steps.now) }
{
    for step in steps {
        append_step(out, chart, step)?;
    }
    Ok(())
}

fn append_transitions(
    out: &mut Vec<u8>,
    chart: &[u8],
    transitions: &[DrawnTransition],
) -> Result<(), AllocError>
    ensures { OnOk result (out.new.items ≡ out.old.items ++ numbered (transition_text chart.now) 1 transitions.now) }
{
    for (place, transition) in transitions.iter().enumerate() {
        append_transition(out, chart, place as u64 + 1, transition)?;
    }
    Ok(())
}

#[tactic(auto, unfolding(crate::specs::Pictures::body_text))]
fn append_bodies(out: &mut Vec<u8>, chart: &[u8], bodies: &[DrawnBody]) -> Result<(), AllocError>
    ensures { OnOk result (out.new.items ≡ out.old.items ++ flat_map (text.body_text chart.now) bodies.now) }
{
    for body in bodies {
        append_body(out, chart, body)?;
    }
    Ok(())
}

#[tactic(auto, unfolding(crate::specs::Pictures::chart_head))]
fn append_chart_head<'x>(
    out: &mut Vec<u8>,
    name: &'x [u8],
    note: &'x [u8],
) -> Result<(), AllocError>
    ensures { OnOk result (out.new.items ≡ out.old.items ++ text.chart_head name.now note.now) }
{
    append_parts(
        out,
        &[
            Markup(b"<g id=\""),
            Said(name),
            Markup(b"\" class=\"chart\"><title>PROGRAM "),
            Said(name),
            Said(note),
            Markup(b"</title>\n"),
        ],
    )
}

#[tactic(auto, unfolding(crate::specs::Pictures::chart_title))]
fn append_chart_title<'x>(
    out: &mut Vec<u8>,
    corner: Corner,
    name: &'x [u8],
    note: &'x [u8],
) -> Result<(), AllocError>
    ensures { OnOk result (out.new.items ≡ out.old.items ++ text.chart_title corner name.now note.now) }
{
    append_parts(
        out,
        &[
            Markup(b"<text class=\"n\" x=\""),
            Pixel(corner.left),
            Markup(b"\" y=\""),
            Number(u64::from(corner.top) + 14),
            Markup(b"\">PROGRAM "),
            Said(name),
            Said(note),
            Markup(b"</text>\n"),
        ],
    )
}

#[tactic(auto, unfolding(crate::specs::Pictures::chart_text))]
fn append_chart(out: &mut Vec<u8>, chart: &DrawnChart) -> Result<(), AllocError>
    ensures { OnOk result (out.new.items ≡ out.old.items ++ text.chart_text chart.now) }
{
    let name = chart.name.as_slice();
    append_chart_head(out, name, chart.note.as_slice())?;
    append_chart_title(out, chart.corner, name, chart.note.as_slice())?;
    append_links(out, name, chart.links.as_slice())?;
    append_steps(out, name, chart.steps.as_slice())?;
    append_transitions(out, name, chart.transitions.as_slice())?;
    append_bodies(out, name, chart.bodies.as_slice())?;
    append(out, b"</g>\n")
}

fn append_charts(out: &mut Vec<u8>, charts: &[DrawnChart]) -> Result<(), AllocError>
    ensures { OnOk result (out.new.items ≡ out.old.items ++ flat_map text.chart_text charts.now) }
{
    for chart in charts {
        append_chart(out, chart)?;
    }
    Ok(())
}

#[tactic(auto, unfolding(crate::specs::Pictures::picture_head))]
fn append_picture_head(out: &mut Vec<u8>, width: u32, height: u32) -> Result<(), AllocError>
    ensures { OnOk result (out.new.items ≡ out.old.items ++ text.picture_head width height) }
{
    append_parts(
        out,
        &[
            Markup(b"<svg xmlns=\"http://www.w3.org/2000/svg\" viewBox=\"0 0 "),
            Pixel(width),
            Markup(b" "),
            Pixel(height),
            Markup(b"\" width=\""),
            Pixel(width),
            Markup(b"\" height=\""),
            Pixel(height),
            Markup(b"\">\n"),
        ],
    )
}

#[tactic(auto, unfolding(crate::specs::Pictures::paper_text))]
fn append_paper(out: &mut Vec<u8>, width: u32, height: u32) -> Result<(), AllocError>
    ensures { OnOk result (out.new.items ≡ out.old.items ++ text.paper_text width height) }
{
    append_parts(
        out,
        &[
            Markup(b"<rect class=\"paper\" width=\""),
            Pixel(width),
            Markup(b"\" height=\""),
            Pixel(height),
            Markup(b"\"/>\n"),
        ],
    )
}

#[tactic(auto, unfolding(crate::specs::Pictures::picture_text))]
fn append_picture(out: &mut Vec<u8>, picture: &Picture) -> Result<(), AllocError>
    ensures { OnOk result (out.new.items ≡ out.old.items ++ text.picture_text picture.now) }
{
    append_picture_head(out, picture.width, picture.height)?;
    append(out, STYLE)?;
    append_paper(out, picture.width, picture.height)?;
    append_charts(out, picture.charts.as_slice())?;
    append(out, b"</svg>\n")
}

/// The text of a picture as SVG. The one error is that memory was refused.
pub fn svg_of(alloc: Global, picture: &Picture) -> Result<Vec<u8>, AllocError>
    ensures { IfOk result (λ text. text.items ≡ picture_text picture.now) }
{
    let mut text = Vec::new(alloc);
    append_picture(&mut text, picture)?;
    Ok(text)
}
