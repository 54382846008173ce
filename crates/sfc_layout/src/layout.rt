//! The layout of a chart.

ghost use Rattle.std.specs.Prelude.{◌≡◌, ◌+◌, ℕ, true, false, IfOk, IfErr, OnOk, MatchOption, length};
ghost use Rattle.sfc_layout.specs.Apart.{AreApart};
ghost use Rattle.sfc_layout.specs.Links.{AreDrawn, AreLinks, IsOfWrong, IsLink, IsWrong};
ghost use Rattle.sfc_layout.specs.Sizes.{AreStepBoxes, AreTransitionBoxes};

use crate::board::Board;
use crate::chart::{Chart, Link};
use crate::draw_error::DrawError;
use crate::drawing::{Bar, Drawing, Sheet, Stem, Stub};
use crate::finish::{draw_links, settle_steps, settle_transitions};
use crate::layout_error::LayoutError;
use crate::node_box::NodeBox;
use crate::plan::Plan;
use crate::sheets::arrange;
use crate::sweep::Sweep;
use crate::table::Table;
use crate::writer::Writer;
use std::alloc::{AllocError, Global};

/// Where everything of a chart is drawn. All but sheets in pixels from the left and the top of a sheet.
#[derive(Drop)]
pub struct Layout {
    /// The box of each node.
    pub boxes: Vec<NodeBox>,
    /// Where jumps and loops enter each node, if some do.
    pub entries: Vec<u32>,
    /// How each link is drawn.
    pub links: Vec<Drawing>,
    pub bars: Vec<Bar>,
    pub stems: Vec<Stem>,
    pub stubs: Vec<Stub>,
    pub sheets: Vec<Sheet>,
}

/// The layout of a chart. A chart whose links are not all between a step and a transition is refused, by the first of them that
/// isn't. The other errors are that the drawing would be 2^32 pixels wide or high, or that memory was refused.
pub fn lay_out(alloc: Global, chart: &Chart) -> Result<Layout, LayoutError>
    ensures all_links { OnOk result (AreLinks (length chart.now.steps.items) (length chart.now.transitions.items) chart.now.links.items) }
    ensures wrong_link { IfErr result (IsOfWrong (length chart.now.steps.items) (length chart.now.transitions.items) chart.now.links.items) }

    // Each step and each transition has one box, of its size, and no two boxes share a point.
    ensures each_node { IfOk result (λ l. length l.boxes.items ≡ length chart.now.steps.items + length chart.now.transitions.items) }
    ensures step_boxes { IfOk result (λ l. AreStepBoxes chart.now.steps.items l.boxes.items) }
    ensures transition_boxes { IfOk result (λ l. AreTransitionBoxes (length chart.now.steps.items) chart.now.transitions.items l.boxes.items) }
    ensures apart { IfOk result (λ l. AreApart l.boxes.items) }

    // Each link is drawn once, as a line, a loop or a jump.
    ensures each_link { IfOk result (λ l. length l.links.items ≡ length chart.now.links.items) }
    ensures drawn { IfOk result (λ l. AreDrawn l.boxes.items chart.now.links.items l.links.items) }
{
    let steps = chart.steps.as_slice().len();
    let transitions = chart.transitions.as_slice().len();
    if let Some(link) = first_wrong(steps, transitions, chart.links.as_slice()) {
        return Err(LayoutError::Link(link));
    }
    match draw(alloc, chart) {
        Ok(layout) => Ok(layout),
        Err(DrawError::TooLarge) => Err(LayoutError::TooLarge),
        Err(DrawError::OutOfMemory) => Err(LayoutError::OutOfMemory),
    }
}

/// The first of these links that leads neither from a step to a transition nor the other way, where there are so many of both.
fn first_wrong(steps: usize, transitions: usize, links: &[Link]) -> Option<usize>
    ensures { MatchOption result (AreLinks steps transitions links.now) (IsWrong steps transitions links.now) }
{
    for (number, link) in links.iter().enumerate() {
        if !is_link(steps, transitions, *link) {
            return Some(number);
        }
    }
    None
}

/// Whether a link leads from one of so many steps to one of so many transitions, or the other way.
fn is_link(steps: usize, transitions: usize, link: Link) -> bool
    ensures yes { result ≡ true → IsLink steps transitions link }
    ensures no { result ≡ false → IsLink steps transitions link → ⊥ }
{
    let Link { source, target } = link;
    if source < steps {
        steps <= target && target - steps < transitions
    } else {
        target < steps && source - steps < transitions
    }
}

/// The layout of a chart with such links.
fn draw(alloc: Global, chart: &Chart) -> Result<Layout, DrawError>
    requires { AreLinks (length chart.now.steps.items) (length chart.now.transitions.items) chart.now.links.items }
    ensures each_node { IfOk result (λ l. length l.boxes.items ≡ length chart.now.steps.items + length chart.now.transitions.items) }
    ensures step_boxes { IfOk result (λ l. AreStepBoxes chart.now.steps.items l.boxes.items) }
    ensures transition_boxes { IfOk result (λ l. AreTransitionBoxes (length chart.now.steps.items) chart.now.transitions.items l.boxes.items) }
    ensures apart { IfOk result (λ l. AreApart l.boxes.items) }
    ensures each_link { IfOk result (λ l. length l.links.items ≡ length chart.now.links.items) }
    ensures drawn { IfOk result (λ l. AreDrawn l.boxes.items chart.now.links.items l.links.items) }
{
    let (writer, sizes) = write(alloc, chart)?;
    let Writer {
        board,
        hang: _,
        entries,
        links,
        bars,
        stems,
        stubs,
    } = writer;
    let boxes = settle_all(alloc, board, chart)?;
    let links = draw_all(alloc, chart, &boxes, &links)?;
    let sheets = arrange(alloc, sizes.as_slice())?;
    Ok(Layout {
        boxes,
        entries: entries.into_rows(),
        links,
        bars,
        stems,
        stubs,
        sheets,
    })
}

/// How each link of a chart is drawn between these boxes. The one error is that memory was refused.
fn draw_all(
    alloc: Global,
    chart: &Chart,
    boxes: &Vec<NodeBox>,
    put: &Table<Option<Drawing>>,
) -> Result<Vec<Drawing>, AllocError>
    requires links { AreLinks (length chart.now.steps.items) (length chart.now.transitions.items) chart.now.links.items }
    requires nodes { length boxes.now.items ≡ length chart.now.steps.items + length chart.now.transitions.items }
    ensures each_link { IfOk result (λ drawings. length drawings.items ≡ length chart.now.links.items) }
    ensures drawn { IfOk result (λ drawings. AreDrawn boxes.now.items chart.now.links.items drawings.items) }
{
    let placed = boxes.as_slice();
    let links = chart.links.as_slice();
    let drawings = draw_links(alloc, placed, links, put)?;
    Ok(drawings)
}

/// What all passes put.
fn write(alloc: Global, chart: &Chart) -> Result<(Writer, Vec<Sheet>), DrawError> {
    let mut plan = Plan::of(alloc, chart)?;
    let mut sweep = Sweep::new(alloc, &plan)?;
    let mut writer = Writer::new(alloc, &plan)?;
    let mut sheets = Vec::new(alloc);
    for network in 0..plan.networks.count() {
        let first = sweep.network(&mut plan, network)?;
        let width = sweep.columns.solve(alloc, first)?;
        writer.network(&plan, &sweep)?;
        sheets.push(Sheet {
            left: 0,
            top: 0,
            width,
            height: writer.board.lowest(),
        })?;
        writer.board.turn(alloc);
    }
    Ok((writer, sheets))
}

/// The boxes of all nodes.
fn settle_all(alloc: Global, board: Board, chart: &Chart) -> Result<Vec<NodeBox>, DrawError>
    ensures each_node { IfOk result (λ boxes. length boxes.items ≡ length chart.now.steps.items + length chart.now.transitions.items) }
    ensures step_boxes { IfOk result (λ boxes. AreStepBoxes chart.now.steps.items boxes.items) }
    ensures transition_boxes { IfOk result (λ boxes. AreTransitionBoxes (length chart.now.steps.items) chart.now.transitions.items boxes.items) }
    ensures apart { IfOk result (λ boxes. AreApart boxes.items) }
{
    let steps = chart.steps.as_slice();
    let transitions = chart.transitions.as_slice();
    let Some(nodes) = steps.len().checked_add(transitions.len()) else {
        return Err(DrawError::TooLarge);
    };
    let mut board = of_count(alloc, board, nodes)?;
    settle_steps(&mut board, steps)?;
    settle_transitions(&mut board, steps, transitions)?;
    Ok(board.into_boxes())
}

/// The board, if it has so many boxes; else an empty one. The one error is that memory was refused.
fn of_count(alloc: Global, board: Board, nodes: usize) -> Result<Board, AllocError>
    ensures { IfOk result (λ b. length b.boxes.items ≡ nodes) }
{
    if board.count() == nodes {
        Ok(board)
    } else {
        Board::new(alloc, nodes)
    }
}
