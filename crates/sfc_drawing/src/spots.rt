//! Where all of a chart stands, and what is drawn beside the boxes of its nodes.

ghost use Rattle.std.specs.Prelude.{◌≡◌, ◌<◌, IfOk, length, slice_index_or, vec_len};

use crate::draw_step::StepSpot;
use crate::draw_transition::TransitionSpot;
use crate::drawn::{Corner, Entry, Line, Own, Stubs};
use crate::owned::owned;
use sfc_base::items::Items;
use sfc_base::references::StepId;
use sfc_layout::chart::{Chart as Numbers, Link};
use sfc_layout::drawing::{Bar, Drawing, Stem};
use sfc_layout::layout::Layout;
use sfc_page::append::{append, append_number};
use sfc_plant::names::Names;
use std::alloc::{AllocError, Global};

/// How many of the transitions from which jumps come are said at a step.
const SAID: usize = 4;

// What is drawn beside the box of a node.
#[derive(Drop)]
struct Beside {
    own: Vec<Own>,
    // The nodes from which jumps come.
    arrivals: Vec<usize>,
    // How many links hang from it, and how far down.
    outs: usize,
    branches: u32,
    // Where the arrow stands by which links without a line come to it.
    stub: Option<u32>,
}

/// A chart with its layout.
#[derive(Drop)]
pub struct Spots<'a> {
    pub names: &'a Names<'a>,
    pub layout: &'a Layout,
    pub steps: usize,
    /// Where its sheets begin.
    pub corner: Corner,
    nodes: Vec<Beside>,
}

// The line of a bar.
fn own_of_bar(bar: Bar) -> Own {
    let Bar { left, right, y, .. } = bar;
    if bar.is_double {
        Own::Double { left, right, y }
    } else {
        Own::Single { left, right, y }
    }
}

// That of a stem.
fn own_of_stem(stem: Stem) -> Own {
    Own::Stem {
        x: stem.x,
        top: stem.top,
        bottom: stem.bottom,
    }
}

// How far down a link begins.
fn top_of(drawing: Drawing) -> u32 {
    match drawing {
        Drawing::Line { top, .. } | Drawing::Jump { top, .. } | Drawing::Loop { top, .. } => top,
    }
}

// Nothing beside so many nodes.
fn nothing(alloc: Global, count: usize) -> Result<Vec<Beside>, AllocError> {
    let mut nodes = Vec::new(alloc);
    for _ in 0..count {
        nodes.push(Beside {
            own: Vec::new(alloc),
            arrivals: Vec::new(alloc),
            outs: 0,
            branches: 0,
            stub: None,
        })?;
    }
    Ok(nodes)
}

// Puts a line beside its node.
fn push_own(nodes: &mut Vec<Beside>, node: usize, own: Own) -> Result<(), AllocError> {
    if node < nodes.len() {
        nodes[node].own.push(own)?;
    }
    Ok(())
}

// Puts a link beside its source, and where it is a jump beside its target.
fn push_link(nodes: &mut Vec<Beside>, link: Link, drawing: Drawing) -> Result<(), AllocError> {
    if link.source < nodes.len() {
        let source = &mut nodes[link.source];
        source.outs = source.outs.saturating_add(1);
        source.branches = top_of(drawing);
    }
    if let Drawing::Jump { .. } = drawing {
        if link.target < nodes.len() {
            nodes[link.target].arrivals.push(link.source)?;
        }
    }
    Ok(())
}

// Puts all lines beside their nodes.
fn push_owns(nodes: &mut Vec<Beside>, layout: &Layout) -> Result<(), AllocError> {
    for bar in layout.bars.iter() {
        push_own(nodes, bar.node, own_of_bar(*bar))?;
    }
    for stem in layout.stems.iter() {
        push_own(nodes, stem.node, own_of_stem(*stem))?;
    }
    Ok(())
}

// Puts all links and arrows beside their nodes.
fn push_links(
    nodes: &mut Vec<Beside>,
    numbers: &Numbers,
    layout: &Layout,
) -> Result<(), AllocError> {
    for (number, link) in numbers.links.iter().enumerate() {
        if let Some(drawing) = layout.links.get(number) {
            push_link(nodes, *link, *drawing)?;
        }
    }
    for stub in layout.stubs.iter() {
        if stub.node < nodes.len() {
            nodes[stub.node].stub = Some(stub.x);
        }
    }
    Ok(())
}

// The names of transitions: at most four, and dots where there are more.
fn names_text(alloc: Global, numbers: &[usize]) -> Result<Items<u8>, AllocError> {
    let mut text = Vec::new(alloc);
    for (place, number) in numbers.iter().take(SAID).enumerate() {
        append(&mut text, if place > 0 { b", T" } else { b"T" })?;
        append_number(&mut text, *number as u64)?;
    }
    if numbers.len() > SAID {
        append(&mut text, b" ..")?;
    }
    Ok(Items::from_vec(text))
}

impl<'a> Spots<'a> {
    /// Those of a chart with these numbers. The one error is that memory was refused.
    pub fn new(
        alloc: Global,
        names: &'a Names<'a>,
        numbers: &Numbers,
        layout: &'a Layout,
        corner: Corner,
    ) -> Result<Spots<'a>, AllocError>
        ensures names { IfOk result (λ spots. spots.names.now ≡ names.now) }
        ensures layout { IfOk result (λ spots. spots.layout.now ≡ layout.now) }
        ensures steps { IfOk result (λ spots. spots.steps ≡ vec_len numbers.now.steps) }
    {
        let mut nodes = nothing(alloc, layout.boxes.len())?;
        push_owns(&mut nodes, layout)?;
        push_links(&mut nodes, numbers, layout)?;
        Ok(Spots {
            names,
            layout,
            steps: numbers.steps.len(),
            corner,
            nodes,
        })
    }

    /// Where a sheet stands.
    pub fn sheet(&self, sheet: usize) -> Corner {
        match self.layout.sheets.get(sheet) {
            Some(sheet) => Corner {
                left: self.corner.left.saturating_add(sheet.left),
                top: self.corner.top.saturating_add(sheet.top),
            },
            None => self.corner,
        }
    }

    /// How far down loops and jumps enter a node.
    pub fn entry(&self, node: usize) -> u32 {
        match self.layout.entries.get(node) {
            Some(entry) => *entry,
            None => 0,
        }
    }

    /// Whether several links hang from a node.
    pub fn has_branches(&self, node: usize) -> bool {
        match self.nodes.get(node) {
            Some(beside) => beside.outs > 1,
            None => false,
        }
    }

    // The lines of a node.
    fn own(&self, alloc: Global, node: usize) -> Result<Items<Own>, AllocError> {
        match self.nodes.get(node) {
            Some(beside) => Ok(Items::from_vec(Vec::from_slice(alloc, &beside.own)?)),
            None => Ok(Items::from_vec(Vec::new(alloc))),
        }
    }

    // The nodes from which jumps come to a node.
    fn arrivals(&self, node: usize) -> &[usize] {
        match self.nodes.get(node) {
            Some(beside) => &beside.arrivals,
            None => &[],
        }
    }

    // The arrow at which jumps come to a step, if some do.
    fn entry_of(&self, alloc: Global, step: usize) -> Result<Option<Entry>, AllocError> {
        let arrivals = self.arrivals(step);
        if arrivals.is_empty() {
            return Ok(None);
        }
        let mut numbers = Vec::new(alloc);
        for node in arrivals {
            numbers.push(node.saturating_sub(self.steps).saturating_add(1))?;
        }
        numbers.sort_unstable();
        Ok(Some(Entry {
            y: self.entry(step),
            from: names_text(alloc, &numbers)?,
        }))
    }

    // The name of a step.
    fn step_name(&self, step: usize) -> &[u8] {
        match u16::try_from(step) {
            Ok(number) => self.names.step(StepId(number)),
            Err(_) => b"",
        }
    }

    // The arrow by which links without a line come to a transition, if some do.
    fn stubs_of(&self, alloc: Global, node: usize) -> Result<Option<Stubs>, AllocError> {
        let arrivals = self.arrivals(node);
        let Some(x) = self.nodes.get(node).and_then(|beside| beside.stub) else {
            return Ok(None);
        };
        let entry = self.entry(node);
        let mut names = Vec::new(alloc);
        let mut y = entry.saturating_sub(6);
        for step in arrivals.iter().rev() {
            names.push(Line {
                x: x.saturating_add(8),
                y,
                text: owned(alloc, self.step_name(*step))?,
            })?;
            y = y.saturating_sub(15);
        }
        Ok(Some(Stubs {
            x,
            top: y.saturating_add(2),
            bottom: entry.saturating_sub(8),
            names: Items::from_vec(names),
        }))
    }

    /// Where the step with this number stands. The one error is that memory was refused.
    pub fn step(&self, alloc: Global, step: usize) -> Result<StepSpot, AllocError>
        requires { step < length self.now.layout.now.boxes.items }
        ensures { IfOk result (λ spot. spot.place ≡ slice_index_or self.now.layout.now.boxes.items step spot.place) }
    {
        let place = self.layout.boxes[step];
        let branches = match self.nodes.get(step) {
            Some(beside) if beside.outs > 1 => Some(beside.branches),
            _ => None,
        };
        Ok(StepSpot {
            sheet: self.sheet(place.sheet),
            place,
            own: self.own(alloc, step)?,
            entry: self.entry_of(alloc, step)?,
            branches,
        })
    }

    /// Where the transition that is this node stands. The one error is that memory was refused.
    pub fn transition(&self, alloc: Global, node: usize) -> Result<TransitionSpot, AllocError>
        requires { node < length self.now.layout.now.boxes.items }
        ensures { IfOk result (λ spot. spot.place ≡ slice_index_or self.now.layout.now.boxes.items node spot.place) }
    {
        let place = self.layout.boxes[node];
        Ok(TransitionSpot {
            sheet: self.sheet(place.sheet),
            place,
            own: self.own(alloc, node)?,
            stubs: self.stubs_of(alloc, node)?,
        })
    }
}
