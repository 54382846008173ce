//! What is drawn of the bodies of actions (2.6.4.1).

ghost use Rattle.std.specs.Prelude.{◌≡◌, ◌≤◌, IfOk, length, map};
ghost use Rattle.sfc_drawing.specs.Said as said;

use crate::drawn::{ActionMark, Corner, DrawnBody, Line};
use crate::listed::lines_at;
use crate::marks::Marks;
use crate::owned::owned;
use crate::widths::{shown, wide};
use sfc_base::items::Items;
use sfc_plant::action::Action;
use std::alloc::{AllocError, Global};

/// How many characters of a line are shown.
const MOST: u32 = 90;

/// Where bodies stand: side by side from a corner up to a limit, then in a new row.
#[derive(Clone, Copy)]
pub struct Flow {
    pub corner: Corner,
    pub limit: u32,
    // where the next stands
    left: u32,
    top: u32,
    // how high the highest of the row is
    height: u32,
    // how far all go to the right
    right: u32,
}

impl Flow {
    /// Nothing stands there yet.
    pub fn new(corner: Corner, limit: u32) -> Flow {
        Flow {
            corner,
            limit,
            left: corner.left,
            top: corner.top,
            height: 0,
            right: 0,
        }
    }

    // The corner of a body that is so wide and so high, and what is free behind it.
    fn put(self, width: u32, height: u32) -> (Corner, Flow) {
        let mut flow = self;
        if flow.left > flow.corner.left && flow.left.saturating_add(width) > flow.limit {
            flow.left = flow.corner.left;
            flow.top = flow.top.saturating_add(flow.height).saturating_add(16);
            flow.height = 0;
        }
        let corner = Corner {
            left: flow.left,
            top: flow.top,
        };
        flow.right = flow.right.max(flow.left.saturating_add(width));
        flow.left = flow.left.saturating_add(width).saturating_add(16);
        flow.height = flow.height.max(height);
        (corner, flow)
    }

    /// How far all go to the right.
    pub fn right(&self) -> u32 {
        self.right
    }

    /// How far down all go.
    pub fn bottom(&self) -> u32 {
        self.top.saturating_add(self.height)
    }
}

// How many blanks a line begins with.
fn indent_of(line: &[u8]) -> usize
    ensures { result ≤ length line.now }
{
    match line.iter().position(|byte| *byte != b' ') {
        Some(place) => place,
        None => line.len(),
    }
}

// The lines of a body, which begin at this corner.
fn draw_lines(alloc: Global, lines: &[Vec<u8>], corner: Corner) -> Result<Items<Line>, AllocError> {
    let mut drawn = Vec::new(alloc);
    let mut y = corner.top;
    for line in lines {
        let indent = indent_of(line);
        let said = line.as_slice().get(indent..).unwrap_or(b"");
        drawn.push(Line {
            x: corner
                .left
                .saturating_add(wide(shown(&line[..indent], MOST))),
            y,
            text: owned(alloc, said)?,
        })?;
        y = y.saturating_add(15);
    }
    Ok(Items::from_vec(drawn))
}

// How wide the frame of a body is.
fn width_of(name: &[u8], lines: &[Vec<u8>]) -> u32 {
    let mut most = shown(name, MOST).saturating_add(8);
    for line in lines {
        let indent = shown(&line[..indent_of(line)], MOST);
        most = most.max(shown(line, MOST.saturating_add(indent)));
    }
    wide(most).saturating_add(20)
}

// The body of an action.
fn draw_body(
    alloc: Global,
    action: &Action,
    lines: &[Vec<u8>],
    mark: ActionMark,
    flow: Flow,
) -> Result<(DrawnBody, Flow), AllocError>
    ensures { IfOk result (λ drawn. said.body_drawn drawn.0 ≡ said.body_said mark action.now) }
{
    let name = action.name.spelling();
    let width = width_of(name, lines);
    let count = u32::try_from(lines.len()).unwrap_or(u32::MAX);
    let height = count.saturating_mul(15).saturating_add(12);
    let (corner, flow) = flow.put(width, height.saturating_add(22));
    let first = Corner {
        left: corner.left.saturating_add(10),
        top: corner.top.saturating_add(39),
    };
    let body = DrawnBody {
        name: owned(alloc, name)?,
        left: corner.left,
        top: corner.top,
        width,
        height,
        lines: draw_lines(alloc, lines, first)?,
        mark,
    };
    Ok((body, flow))
}

/// The bodies of actions with these lines. Answers too how far they go. The one error is that memory was refused.
pub fn draw_bodies(
    alloc: Global,
    actions: &[Action],
    bodies: &[Vec<Vec<u8>>],
    marks: &Marks,
    flow: Flow,
) -> Result<(Items<DrawnBody>, Flow), AllocError>
    ensures { IfOk result (λ drawn. map said.body_drawn drawn.0 ≡ said.bodies_said marks.now actions.now) }
{
    let mut drawn = Vec::new(alloc);
    let mut flow = flow;
    for (number, action) in actions.iter().enumerate() {
        let lines = lines_at(bodies, number);
        let (body, next) = draw_body(alloc, action, lines, marks.body(number), flow)?;
        drawn.push(body)?;
        flow = next;
    }
    Ok((Items::from_vec(drawn), flow))
}
