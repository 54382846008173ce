//! How many columns a part of a chart takes.

use crate::dominators::Dominators;
use crate::graph::{Graph, Kind};
use crate::sizes::BROAD;
use crate::table::Table;
use std::alloc::{AllocError, Global};

/// What a node dominates, as far as it was counted.
#[derive(Clone, Copy)]
struct Part {
    // the columns of what stands side by side
    width: usize,
    // the columns of the widest node right below in which lines meet
    meeting: usize,
    // how many nodes right below there are in which lines meet
    meetings: usize,
    // how many lines begin in the part, and how many of these end in it
    begun: usize,
    ended: usize,
    nodes: usize,
}

const ALONE: Part = Part {
    width: 0,
    meeting: 0,
    meetings: 0,
    begun: 0,
    ended: 0,
    nodes: 1,
};

/// The parts that nodes dominate.
#[derive(Drop)]
pub struct Breadth {
    parts: Table<Part>,
}

/// Where few lines meet across many columns, and others beside them, one line stays. The one error is that memory was refused.
pub fn cut_wide(
    alloc: Global,
    graph: &mut Graph,
    order: &[usize],
    dominators: &Dominators,
) -> Result<(), AllocError> {
    let mut breadth = Breadth::begin(alloc, graph, dominators)?;
    for node in order.iter().rev() {
        breadth.sum(graph, *node, dominators.up(*node));
    }
    for node in order {
        let part = breadth.parts.get(dominators.up(*node));
        let lines = graph.lines_in(*node);
        if lines > 1 && part.meetings > 2 && part.width > lines.saturating_mul(4).max(BROAD) {
            cut_but_first(graph, *node);
        }
    }
    Ok(())
}

/// Cuts all lines to a node but the first.
fn cut_but_first(graph: &mut Graph, node: usize) {
    let first = graph.first_line(node);
    for place in graph.ins().start(node)..graph.ins().end(node) {
        let link = graph.ins().at(place);
        if graph.is_line(link) && first != Some(link) {
            graph.turn(link, Kind::Cut);
        }
    }
}

/// A broad branch that no line leaves loses the line to it, and becomes a root, which is put behind the others.
/// The one error is that memory was refused.
pub fn split(
    alloc: Global,
    graph: &mut Graph,
    order: &[usize],
    dominators: &Dominators,
    roots: &mut Vec<usize>,
) -> Result<Breadth, AllocError> {
    let mut breadth = Breadth::begin(alloc, graph, dominators)?;
    let mut split = Vec::new(alloc);
    for node in order.iter().rev() {
        if breadth.sum_or_split(graph, *node, dominators.up(*node)) {
            split.push(*node)?;
        }
    }
    split.reverse();
    roots.extend_from_slice(&split)?;
    Ok(breadth)
}

impl Breadth {
    /// No part is summed up yet; but of each node it is counted how many lines begin and end in its part, without those of parts below.
    fn begin(alloc: Global, graph: &Graph, dominators: &Dominators) -> Result<Breadth, AllocError> {
        let mut parts = Table::blank(alloc, graph.nodes().saturating_add(1), ALONE)?;
        for link in 0..graph.links() {
            if graph.is_line(link) {
                let mut begins = parts.get(graph.source(link));
                begins.begun = begins.begun.saturating_add(1);
                parts.set(graph.source(link), begins);
                let up = dominators.up(graph.target(link));
                let mut ends = parts.get(up);
                ends.ended = ends.ended.saturating_add(1);
                parts.set(up, ends);
            }
        }
        Ok(Breadth { parts })
    }

    /// How many nodes a node dominates, with itself.
    pub fn nodes(&self, node: usize) -> usize {
        self.parts.get(node).nodes
    }

    /// Adds the part of a node to that of its dominator, and answers its own.
    fn gather(&mut self, graph: &Graph, node: usize, up: usize) -> Part {
        let mut part = self.parts.get(node);
        part.width = part
            .width
            .max(part.meeting)
            .max(graph.outs().count(node))
            .max(1);
        self.parts.set(node, part);
        let mut above = self.parts.get(up);
        above.begun = above.begun.saturating_add(part.begun);
        above.ended = above.ended.saturating_add(part.ended);
        above.nodes = above.nodes.saturating_add(part.nodes);
        self.parts.set(up, above);
        part
    }

    /// Adds columns to the part of a node.
    fn widen(&mut self, node: usize, columns: usize) {
        let mut part = self.parts.get(node);
        part.width = part.width.saturating_add(columns);
        self.parts.set(node, part);
    }

    /// Adds a node where lines meet to the part of its dominator, and a column for each line.
    fn meet(&mut self, graph: &Graph, node: usize, up: usize) {
        let columns = self.parts.get(node).width;
        let mut above = self.parts.get(up);
        above.meetings = above.meetings.saturating_add(1);
        above.meeting = above.meeting.max(columns);
        self.parts.set(up, above);
        let ins = graph.ins();
        for place in ins.start(node)..ins.end(node) {
            if graph.is_line(ins.at(place)) {
                self.widen(graph.source(ins.at(place)), 1);
            }
        }
    }

    /// Sums up the part of a node, behind those of all nodes that it dominates.
    fn sum(&mut self, graph: &Graph, node: usize, up: usize) {
        let part = self.gather(graph, node, up);
        if graph.lines_in(node) > 1 {
            self.meet(graph, node, up);
        } else if !graph.is_end(node) {
            self.widen(up, part.width);
        }
    }

    /// The same, where a broad branch that no line leaves loses the line to it. Answers whether this is one.
    fn sum_or_split(&mut self, graph: &mut Graph, node: usize, up: usize) -> bool {
        let part = self.parts.get(node);
        let width = part.width.max(part.meeting).max(graph.outs().count(node));
        let is_broad = graph.is_step(node) && graph.lines_in(node) == 1 && width > BROAD;
        if !is_broad || part.begun != part.ended {
            self.sum(graph, node, up);
            return false;
        }
        self.gather(graph, node, up);
        if let Some(link) = graph.first_line(node) {
            graph.turn(link, Kind::Cut);
        }
        self.widen(up, 1);
        true
    }
}
