//! What all elements of a chart share.

ghost use Rattle.std.specs.Prelude.{◌≡◌, ◌++◌, OnOk, flat_map};
ghost use Rattle.sfc_drawing.specs.Elements as text;

use crate::drawn::{Corner, Line, Own};
use crate::part::Part::{Markup, Pixel};
use crate::part::append_parts;
use crate::shape::{Point, append_along, append_down, append_text};
use std::alloc::AllocError;

/// The word, where there is a text behind it.
#[tactic(auto, unfolding(crate::specs::Elements::word_before))]
pub fn word_before(word: &'static [u8], said: &[u8]) -> &'static [u8]
    ensures { result.now ≡ text.word_before word.now said.now }
{
    if said.is_empty() { b"" } else { word }
}

/// Puts where the sheet of an element stands at the end, before its title. The one error is that memory was refused.
#[tactic(auto, unfolding(crate::specs::Elements::sheet_text))]
pub fn append_sheet(out: &mut Vec<u8>, sheet: Corner) -> Result<(), AllocError>
    ensures { OnOk result (out.new.items ≡ out.old.items ++ text.sheet_text sheet) }
{
    append_parts(
        out,
        &[
            Markup(b"\" transform=\"translate("),
            Pixel(sheet.left),
            Markup(b" "),
            Pixel(sheet.top),
            Markup(b")\"><title>"),
        ],
    )
}

#[tactic(auto, unfolding(crate::specs::Elements::line_text))]
fn append_line<'x>(
    out: &mut Vec<u8>,
    class: &'x [u8],
    most: usize,
    line: &'x Line,
) -> Result<(), AllocError>
    ensures { OnOk result (out.new.items ≡ out.old.items ++ text.line_text class.now most line.now) }
{
    let at = Point {
        x: u64::from(line.x),
        y: u64::from(line.y),
    };
    append_text(out, class, at, most, line.text.as_slice())
}

/// Puts lines of text of this class at the end, of each of which at most so many characters are shown. The one error is that memory was
/// refused.
pub fn append_lines<'x>(
    out: &mut Vec<u8>,
    class: &'x [u8],
    most: usize,
    lines: &'x [Line],
) -> Result<(), AllocError>
    ensures { OnOk result (out.new.items ≡ out.old.items ++ flat_map (text.line_text class.now most) lines.now) }
{
    for line in lines {
        append_line(out, class, most, line)?;
    }
    Ok(())
}

#[tactic(auto, unfolding(crate::specs::Elements::own_text))]
fn append_own(out: &mut Vec<u8>, own: Own) -> Result<(), AllocError>
    ensures { OnOk result (out.new.items ≡ out.old.items ++ text.own_text own) }
{
    match own {
        Own::Stem { x, top, bottom } => append_down(out, x, top, bottom),
        Own::Single { left, right, y } => {
            append_along(out, u64::from(left), u64::from(y), u64::from(right))
        }
        Own::Double { left, right, y } => {
            let from = u64::from(left).saturating_sub(10);
            let to = u64::from(right) + 10;
            append_along(out, from, u64::from(y), to)?;
            append_along(out, from, u64::from(y) + 4, to)
        }
    }
}

/// Puts the lines of a node at the end. The one error is that memory was refused.
#[tactic(auto, using(crate::proofs::Joins::grown))]
pub fn append_owns(out: &mut Vec<u8>, owns: &[Own]) -> Result<(), AllocError>
    ensures { OnOk result (out.new.items ≡ out.old.items ++ flat_map text.own_text owns.now) }
{
    for own in owns {
        append_own(out, *own)?;
    }
    Ok(())
}
