//! Charts as drawings, from files to standard output.

use crate::arguments::{Drawing, Shown};
use crate::cover::open_cover;
use crate::files::end_with;
use sfc_base::write_fault::put_all;
use sfc_cover::cover::Cover;
use sfc_pictures::draw::{draw_after as dot_after, draw_chart as dot_chart};
use sfc_pictures::picture_error::PictureError;
use sfc_replay::replay_error::ReplayError;
use sfc_svg::draw::{draw_after, draw_types};
use sfc_svg::svg_error::SvgError;
use std::alloc::Global;
use std::io::{Read, Write};
use std::rt::Files;
use std::{fs, io};

// The bytes of a name, where there is one.
fn bytes_of(name: &Option<String>) -> Option<&[u8]> {
    match name {
        Some(name) => Some(name.as_bytes()),
        None => None,
    }
}

// What a drawing for Graphviz ends with, as that of an SVG.
fn svg_error(error: PictureError) -> SvgError {
    match error {
        PictureError::NoSuchType => SvgError::NoSuchType,
        PictureError::Monitor(error) => SvgError::Replay(error),
    }
}

// The exit status of a drawing; what is wrong is told on standard error.
fn status_of<R: Eprint>(rt: &R, drawn: Result<(), SvgError>) -> u8 {
    match drawn {
        Ok(()) => 0,
        Err(SvgError::Replay(error)) => end_with(rt, error),
        Err(SvgError::NoSuchType) => {
            let _ = eprintln!(rt; "error: {}", SvgError::NoSuchType);
            2
        }
        Err(SvgError::TooLarge) => {
            let _ = eprintln!(rt; "error: {}", SvgError::TooLarge);
            1
        }
    }
}

// Draws the program types of a chart.
fn draw<C: Read, W: Write>(
    alloc: Global,
    chart: &mut C,
    drawing: &Drawing,
    out: &mut W,
) -> Result<(), SvgError> {
    let name = bytes_of(&drawing.program);
    if drawing.is_dot {
        dot_chart(alloc, chart, name, out).map_err(svg_error)
    } else {
        draw_types(alloc, chart, name, out)
    }
}

// Draws the chart as it stands behind a script: the exit status.
fn draw_behind<R: Eprint + Files + AllocGlobal, C: Read, W: Write>(
    rt: &R,
    chart: &mut C,
    drawing: &Drawing,
    script: &str,
    out: &mut W,
) -> u8 {
    let Ok(mut script) = fs::open(rt, script) else {
        return end_with(rt, ReplayError::Read);
    };
    let name = bytes_of(&drawing.program);
    let drawn = if drawing.is_dot {
        dot_after(rt.alloc(), chart, &mut script, name, out).map_err(svg_error)
    } else {
        draw_after(rt.alloc(), chart, &mut script, name, out)
    };
    status_of(rt, drawn)
}

// Draws the instances of a chart with what scripts never reach.
fn draw_covered<W: Write>(
    alloc: Global,
    cover: &Cover,
    name: Option<&[u8]>,
    out: &mut W,
) -> Result<(), SvgError> {
    match cover.drawing(alloc, name)? {
        Some(text) => Ok(put_all(out, &text)?),
        None => Err(SvgError::NoSuchType),
    }
}

// Draws the chart with what scripts never reach: the exit status.
fn draw_unreached<R: Eprint + Files + AllocGlobal, C: Read, W: Write>(
    rt: &R,
    chart: &mut C,
    drawing: &Drawing,
    scripts: &[String],
    out: &mut W,
) -> u8 {
    match open_cover(rt, chart, scripts) {
        Ok(cover) => {
            let name = bytes_of(&drawing.program);
            status_of(rt, draw_covered(rt.alloc(), &cover, name, out))
        }
        Err(status) => status,
    }
}

/// Draws the chart of a file on standard output: the exit status. A file that can't be opened is a read fault.
pub fn draw_file<R: Print + Eprint + Files + AllocGlobal>(rt: &R, drawing: &Drawing) -> u8 {
    let Ok(mut chart) = fs::open(rt, drawing.chart.as_str()) else {
        return end_with(rt, ReplayError::Read);
    };
    let mut out = io::writer(rt);
    match &drawing.shown {
        Shown::Types => status_of(rt, draw(rt.alloc(), &mut chart, drawing, &mut out)),
        Shown::After(script) => draw_behind(rt, &mut chart, drawing, script.as_str(), &mut out),
        Shown::Covered(scripts) => draw_unreached(rt, &mut chart, drawing, scripts, &mut out),
    }
}
