//! Of what all is made: rectangles, texts and arrow heads.

ghost use Rattle.std.specs.Prelude.{◌≡◌, ◌++◌, OnOk};
ghost use Rattle.sfc_drawing.specs.Parts.{part_text};
ghost use Rattle.sfc_drawing.specs.Shapes as text;

use crate::part::Part::{Cut, Markup, Number, Pixel};
use crate::part::{Part, append_parts};
use std::alloc::AllocError;

/// A point, in pixels.
#[derive(Clone, Copy, Debug, PartialEq, Eq)]
pub struct Point {
    pub x: u64,
    pub y: u64,
}

/// A rectangle, in pixels.
#[derive(Clone, Copy, Debug, PartialEq, Eq)]
pub struct Rect {
    pub x: u64,
    pub y: u64,
    pub width: u64,
    pub height: u64,
}

/// Where an arrow leads.
#[derive(Clone, Copy, Debug, PartialEq, Eq)]
pub enum Way {
    Left,
    Right,
    Up,
    Down,
}

/// Puts a rectangle of this class at the end. The one error is that memory was refused.
#[tactic(auto, unfolding(crate::specs::Shapes::rect_text))]
pub fn append_rect(out: &mut Vec<u8>, class: &[u8], rect: Rect) -> Result<(), AllocError>
    ensures { OnOk result (out.new.items ≡ out.old.items ++ text.rect_text class.now rect) }
{
    append_parts(
        out,
        &[
            Markup(b"<rect class=\""),
            Markup(class),
            Markup(b"\" x=\""),
            Number(rect.x),
            Markup(b"\" y=\""),
            Number(rect.y),
            Markup(b"\" width=\""),
            Number(rect.width),
            Markup(b"\" height=\""),
            Number(rect.height),
            Markup(b"\"/>\n"),
        ],
    )
}

// Puts a text of this class at the end.
#[tactic(auto, unfolding(crate::specs::Shapes::text_around))]
fn append_around<'x>(
    out: &mut Vec<u8>,
    class: &'x [u8],
    at: Point,
    inner: Part<'x>,
) -> Result<(), AllocError>
    ensures { OnOk result (out.new.items ≡ out.old.items ++ text.text_around class.now at (part_text inner.entry)) }
{
    append_parts(
        out,
        &[
            Markup(b"<text class=\""),
            Markup(class),
            Markup(b"\" x=\""),
            Number(at.x),
            Markup(b"\" y=\""),
            Number(at.y),
            Markup(b"\">"),
            inner,
            Markup(b"</text>\n"),
        ],
    )
}

/// Puts a text of this class at the end, of which at most so many characters are shown. The one error is that memory was refused.
pub fn append_text<'x>(
    out: &mut Vec<u8>,
    class: &'x [u8],
    at: Point,
    most: usize,
    said: &'x [u8],
) -> Result<(), AllocError>
    ensures { OnOk result (out.new.items ≡ out.old.items ++ text.text_text class.now at most said.now) }
{
    append_around(out, class, at, Cut(most, said))
}

/// Puts a number at the end, as a text of this class. The one error is that memory was refused.
pub fn append_number(
    out: &mut Vec<u8>,
    class: &[u8],
    at: Point,
    number: u64,
) -> Result<(), AllocError>
    ensures { OnOk result (out.new.items ≡ out.old.items ++ text.number_text class.now at number) }
{
    append_around(out, class, at, Number(number))
}

// Puts a triangle at the end.
#[tactic(auto, unfolding(crate::specs::Shapes::triangle_text))]
fn append_triangle(out: &mut Vec<u8>, a: Point, b: Point, tip: Point) -> Result<(), AllocError>
    ensures { OnOk result (out.new.items ≡ out.old.items ++ text.triangle_text a b tip) }
{
    append_parts(
        out,
        &[
            Markup(b"<path class=\"head\" d=\"M"),
            Number(a.x),
            Markup(b" "),
            Number(a.y),
            Markup(b"L"),
            Number(b.x),
            Markup(b" "),
            Number(b.y),
            Markup(b"L"),
            Number(tip.x),
            Markup(b" "),
            Number(tip.y),
            Markup(b"Z\"/>\n"),
        ],
    )
}

// Four pixels to the left and to the right of x, on this line.
fn beside(x: u32, y: u64) -> (Point, Point)
    ensures left { result.0 ≡ text.left_of x y }
    ensures right { result.1 ≡ text.right_of x y }
{
    let x = u64::from(x);
    (
        Point {
            x: x.saturating_sub(4),
            y,
        },
        Point { x: x + 4, y },
    )
}

// Four pixels above and below y, on this line.
fn around(x: u64, y: u32) -> (Point, Point)
    ensures above { result.0 ≡ text.above x y }
    ensures below { result.1 ≡ text.below x y }
{
    let y = u64::from(y);
    (
        Point {
            x,
            y: y.saturating_sub(4),
        },
        Point { x, y: y + 4 },
    )
}

// Where the tip of an arrow is.
fn tip_of(way: Way, x: u32, y: u32) -> Point
    ensures { result ≡ text.tip_of way x y }
{
    let x = u64::from(x);
    let y = u64::from(y);
    match way {
        Way::Left | Way::Right | Way::Up => Point { x, y },
        Way::Down => Point { x, y: y + 8 },
    }
}

/// Puts the head of an arrow at the end, whose tip is there; of one that leads down, the line ends there. The one error is that
/// memory was refused.
#[tactic(auto, unfolding(crate::specs::Shapes::head_text))]
pub fn append_head(out: &mut Vec<u8>, way: Way, x: u32, y: u32) -> Result<(), AllocError>
    ensures { OnOk result (out.new.items ≡ out.old.items ++ text.head_text way x y) }
{
    let (a, b) = match way {
        Way::Left => around(u64::from(x) + 8, y),
        Way::Right => around(u64::from(x).saturating_sub(8), y),
        Way::Up => beside(x, u64::from(y) + 8),
        Way::Down => beside(x, u64::from(y)),
    };
    append_triangle(out, a, b, tip_of(way, x, y))
}

/// Puts a line down at the end. The one error is that memory was refused.
#[tactic(auto, unfolding(crate::specs::Shapes::down_text))]
pub fn append_down(out: &mut Vec<u8>, x: u32, top: u32, bottom: u32) -> Result<(), AllocError>
    ensures { OnOk result (out.new.items ≡ out.old.items ++ text.down_text x top bottom) }
{
    append_parts(
        out,
        &[
            Markup(b"<path class=\"l\" d=\"M"),
            Pixel(x),
            Markup(b" "),
            Pixel(top),
            Markup(b"V"),
            Pixel(bottom),
            Markup(b"\"/>\n"),
        ],
    )
}

/// Puts a line to the left or to the right at the end. The one error is that memory was refused.
#[tactic(auto, unfolding(crate::specs::Shapes::along_text))]
pub fn append_along(out: &mut Vec<u8>, from: u64, y: u64, to: u64) -> Result<(), AllocError>
    ensures { OnOk result (out.new.items ≡ out.old.items ++ text.along_text from y to) }
{
    append_parts(
        out,
        &[
            Markup(b"<path class=\"l\" d=\"M"),
            Number(from),
            Markup(b" "),
            Number(y),
            Markup(b"H"),
            Number(to),
            Markup(b"\"/>\n"),
        ],
    )
}
