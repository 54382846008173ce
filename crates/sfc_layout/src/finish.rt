//! The last pass: each node has its box, and each link is drawn.

ghost use Rattle.std.specs.Prelude.{◌≡◌, ◌<◌, ◌≤◌, ◌+◌, ℕ, true, IfOk, OnOk, length};
ghost use Rattle.sfc_layout.specs.Links.{AreDrawn, IsDrawn, AreWithin};
ghost use Rattle.sfc_layout.specs.Sizes.{AreStepBoxes, AreTransitionBoxes};

use crate::board::Board;
use crate::chart::{Link, Step, Transition};
use crate::draw_error::DrawError;
use crate::drawing::Drawing;
use crate::extent::Extent;
use crate::node_box::NodeBox;
use crate::node_room::NodeRoom;
use crate::sizes::{BESIDE, BOX};
use crate::table::Table;
use std::alloc::{AllocError, Global};

/// Room for a box at the left of a sheet.
fn room(own: Extent, height: u32) -> NodeRoom
    ensures own { result.own ≡ own }
    ensures height { result.height ≡ height }
{
    NodeRoom {
        x: 0,
        own,
        right: own.right,
        height,
        gap: BESIDE,
    }
}

/// Has each step at its place on the board, or below all that is there. The errors are those of the board.
pub fn settle_steps(board: &mut Board, steps: &[Step]) -> Result<(), DrawError>
    requires { length steps.now ≤ length board.old.boxes.items }
    ensures len { OnOk result (length board.new.boxes.items ≡ length board.old.boxes.items) }
    ensures boxes { OnOk result (AreStepBoxes steps.now board.new.boxes.items) }
{
    for (node, step) in steps.iter().enumerate() {
        board.settle_missing(node, room(step.extent(), BOX))?;
    }
    Ok(())
}

/// Has each transition at its place on the board, or below all that is there, and the steps as they are. The errors are those of
/// the board.
pub fn settle_transitions(
    board: &mut Board,
    steps: &[Step],
    transitions: &[Transition],
) -> Result<(), DrawError>
    requires len { length steps.now + length transitions.now ≡ length board.old.boxes.items }
    requires boxes { AreStepBoxes steps.now board.old.boxes.items }
    ensures len { OnOk result (length board.new.boxes.items ≡ length board.old.boxes.items) }
    ensures steps { OnOk result (AreStepBoxes steps.now board.new.boxes.items) }
    ensures boxes { OnOk result (AreTransitionBoxes (length steps.now) transitions.now board.new.boxes.items) }
{
    let count = steps.len();
    for (number, transition) in transitions.iter().enumerate() {
        board.settle_missing(count + number, room(transition.extent(), 2 * BESIDE))?;
    }
    Ok(())
}

/// How each link is drawn: as it was put, or where that is none, as a jump right below its source. The one error is that memory
/// was refused.
pub fn draw_links(
    alloc: Global,
    boxes: &[NodeBox],
    links: &[Link],
    put: &Table<Option<Drawing>>,
) -> Result<Vec<Drawing>, AllocError>
    requires { AreWithin (length boxes.now) links.now }
    ensures len { IfOk result (λ drawings. length drawings.items ≡ length links.now) }
    ensures drawn { IfOk result (λ drawings. AreDrawn boxes.now links.now drawings.items) }
{
    let mut drawings = Vec::new(alloc);
    for (number, link) in links.iter().enumerate() {
        let source = boxes[link.source];
        let target = boxes[link.target];
        drawings.push(drawn(source, target, put.get(number)))?;
    }
    Ok(drawings)
}

/// How a link is drawn between two boxes: as it was put, or as a jump.
fn drawn(source: NodeBox, target: NodeBox, put: Option<Drawing>) -> Drawing
    ensures { IsDrawn source target result }
{
    match put {
        Some(drawing) if fits(source, target, drawing) => drawing,
        _ => {
            let top = source.bottom.max(source.top);
            Drawing::Jump {
                x: source.x,
                top,
                bottom: top.saturating_add(10),
            }
        }
    }
}

/// Whether a link may be drawn so between two boxes.
fn fits(source: NodeBox, target: NodeBox, drawing: Drawing) -> bool
    ensures { result ≡ true → IsDrawn source target drawing }
{
    match drawing {
        Drawing::Line { top, bottom, .. } => {
            source.sheet == target.sheet
                && source.top <= top
                && top <= bottom
                && bottom <= target.bottom
        }
        Drawing::Jump { top, bottom, .. } => source.top <= top && top <= bottom,
        Drawing::Loop { top, bottom, .. } => {
            source.sheet == target.sheet && source.top <= top && top <= bottom
        }
    }
}
