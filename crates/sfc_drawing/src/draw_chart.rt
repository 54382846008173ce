//! What is drawn of a chart.

ghost use Rattle.std.specs.Prelude.{◌≡◌, ◌≤◌, ◌+◌, IfOk, flat_map, length, map, take, drop};
ghost use Rattle.sfc_layout.specs.Apart.{AreApart};
ghost use Rattle.sfc_drawing.specs.Said as said;

use crate::draw_body::{Flow, draw_bodies};
use crate::draw_link::draw_links;
use crate::draw_step::draw_step;
use crate::draw_transition::draw_transition;
use crate::drawing_error::DrawingError;
use crate::drawn::{Corner, DrawnChart, DrawnLink, DrawnStep, DrawnTransition};
use crate::graph::{Subject, numbers_of};
use crate::listed::text_at;
use crate::marks::Marks;
use crate::spots::Spots;
use crate::widths::{shown, wide};
use sfc_base::items::Items;
use sfc_layout::drawing::Sheet;
use sfc_layout::layout::lay_out;
use sfc_plant::chart::{Step, Transition};
use sfc_plant::names::Names;
use std::alloc::{AllocError, Global};

/// How far below the title of a chart its sheets begin.
const TITLE: u32 = 34;

/// The least width that the bodies of a chart may take.
const BODIES: u32 = 900;

/// What stands above a chart: the name that its ids begin with, and what is told of all of it.
#[derive(Drop)]
pub struct Title {
    pub name: Items<u8>,
    pub note: Items<u8>,
}

// What is drawn of the steps.
fn draw_steps(
    alloc: Global,
    names: &Names<'_>,
    steps: &[Step],
    spots: &Spots<'_>,
    marks: &Marks,
) -> Result<Items<DrawnStep>, AllocError>
    requires { length steps.now ≤ length spots.now.layout.now.boxes.items }
    ensures said { IfOk result (λ drawn. map said.step_drawn drawn ≡ said.steps_said names.now marks.now steps.now) }
    ensures places { IfOk result (λ drawn. map (λ s. s.place) drawn ≡ take (length steps.now) spots.now.layout.now.boxes.items) }
{
    let mut drawn = Vec::new(alloc);
    for (number, step) in steps.iter().enumerate() {
        let spot = spots.step(alloc, number)?;
        drawn.push(draw_step(alloc, names, step, spot, marks.step(number))?)?;
    }
    Ok(Items::from_vec(drawn))
}

// What is drawn of the transitions, whose nodes stand behind so many steps.
fn draw_transitions(
    alloc: Global,
    transitions: &[Transition],
    conditions: &[Vec<u8>],
    spots: &Spots<'_>,
    marks: &Marks,
) -> Result<Items<DrawnTransition>, AllocError>
    requires { spots.now.steps + length transitions.now ≤ length spots.now.layout.now.boxes.items }
    ensures said { IfOk result (λ drawn. map said.transition_drawn drawn ≡ said.transitions_said marks.now transitions.now) }
    ensures places { IfOk result (λ drawn. map (λ t. t.place) drawn
        ≡ take (length transitions.now) (drop spots.now.steps spots.now.layout.now.boxes.items)) }
{
    let mut drawn = Vec::new(alloc);
    for (number, transition) in transitions.iter().enumerate() {
        let condition = text_at(conditions, number);
        let spot = spots.transition(alloc, spots.steps + number)?;
        let mark = marks.transition(number);
        drawn.push(draw_transition(alloc, transition, condition, spot, mark)?)?;
    }
    Ok(Items::from_vec(drawn))
}

// What is drawn of the nodes of a chart, and of its links.
#[derive(Drop)]
struct Parts {
    steps: Items<DrawnStep>,
    transitions: Items<DrawnTransition>,
    links: Items<DrawnLink>,
}

fn draw_parts(
    alloc: Global,
    subject: Subject<'_>,
    spots: &Spots<'_>,
    marks: &Marks,
) -> Result<Parts, AllocError>
    requires steps { spots.now.steps ≡ length subject.chart.now.steps }
    requires boxes { length spots.now.layout.now.boxes.items ≡ spots.now.steps + length subject.chart.now.transitions }
    requires apart { AreApart spots.now.layout.now.boxes.items }
    requires names { spots.now.names.now ≡ subject.names.now }
    ensures parts { IfOk result (λ parts.
        said.ArePartsOf subject.entry.names.now subject.entry.chart.now marks.now parts.steps parts.transitions) }
    ensures links { IfOk result (λ parts. map said.link_drawn parts.links
        ≡ flat_map (said.links_at subject.entry.names.now subject.entry.chart.now.transitions) subject.entry.ranked.now) }
{
    let steps = subject.chart.steps.as_slice();
    let steps = draw_steps(alloc, subject.names, steps, spots, marks)?;
    let all = subject.chart.transitions.as_slice();
    let transitions = draw_transitions(alloc, all, subject.conditions, spots, marks)?;
    let links = draw_links(alloc, spots, all, subject.ranked)?;
    Ok(Parts {
        steps,
        transitions,
        links,
    })
}

// How far sheets that begin at this corner go to the right, and down.
fn ends_of(sheets: &[Sheet], corner: Corner) -> Corner {
    let mut end = corner;
    for sheet in sheets {
        let right = sheet.left.saturating_add(sheet.width);
        let bottom = sheet.top.saturating_add(sheet.height);
        end.left = end.left.max(corner.left.saturating_add(right));
        end.top = end.top.max(corner.top.saturating_add(bottom));
    }
    end
}

// How far the title goes to the right.
fn title_end(title: &Title, corner: Corner) -> u32 {
    let name = shown(title.name.as_slice(), u32::MAX);
    let note = shown(title.note.as_slice(), u32::MAX);
    let characters = name.saturating_add(note).saturating_add(8);
    corner.left.saturating_add(wide(characters))
}

// Where the bodies of a chart stand whose sheets end there.
fn flow_below(corner: Corner, end: Corner) -> Flow {
    let below = Corner {
        left: corner.left,
        top: end.top.saturating_add(30),
    };
    let limit = end.left.max(corner.left.saturating_add(BODIES));
    Flow::new(below, limit)
}

// Where the sheets of a chart begin, below its title.
fn sheets_of(corner: Corner) -> Corner {
    Corner {
        left: corner.left,
        top: corner.top.saturating_add(TITLE),
    }
}

// The parts of a chart whose sheets begin there, and where they end.
fn lay_out_parts(
    alloc: Global,
    subject: Subject<'_>,
    sheets: Corner,
    marks: &Marks,
) -> Result<(Parts, Corner), DrawingError>
    ensures parts { IfOk result (λ laid.
        said.ArePartsOf subject.entry.names.now subject.entry.chart.now marks.now laid.0.steps laid.0.transitions) }
    ensures links { IfOk result (λ laid. map said.link_drawn laid.0.links
        ≡ flat_map (said.links_at subject.entry.names.now subject.entry.chart.now.transitions) subject.entry.ranked.now) }
{
    let numbers = numbers_of(alloc, subject)?;
    let layout = lay_out(alloc, &numbers)?;
    let spots = Spots::new(alloc, subject.names, &numbers, &layout, sheets)?;
    let parts = draw_parts(alloc, subject, &spots, marks)?;
    Ok((parts, ends_of(layout.sheets.as_slice(), sheets)))
}

/// What is drawn of a chart below this corner. The errors are that it would be too large, or that memory was refused.
pub fn draw_chart(
    alloc: Global,
    subject: Subject<'_>,
    title: Title,
    corner: Corner,
    marks: &Marks,
) -> Result<DrawnChart, DrawingError>
    ensures drawn { IfOk result (λ drawn.
        said.IsDrawn subject.entry.names.now subject.entry.chart.now subject.entry.ranked.now marks.now drawn) }
    ensures name { IfOk result (λ drawn. drawn.name ≡ title.name) }
    ensures note { IfOk result (λ drawn. drawn.note ≡ title.note) }
{
    let (parts, end) = lay_out_parts(alloc, subject, sheets_of(corner), marks)?;
    let actions = subject.chart.actions.as_slice();
    let flow = flow_below(corner, end);
    let (bodies, flow) = draw_bodies(alloc, actions, subject.bodies, marks, flow)?;
    let right = end.left.max(flow.right()).max(title_end(&title, corner));
    Ok(DrawnChart {
        name: title.name,
        note: title.note,
        corner,
        right,
        bottom: flow.bottom(),
        links: parts.links,
        steps: parts.steps,
        transitions: parts.transitions,
        bodies,
    })
}
