//! Nodes and links, and what a link is drawn as.

use crate::chart::{Chart, Link, Step, Transition};
use crate::rows::Rows;
use crate::table::Table;
use std::alloc::{AllocError, Global};

/// What a link is drawn as.
#[derive(Clone, Copy, Debug, PartialEq, Eq)]
pub enum Kind {
    /// A line that leads down.
    Line,
    /// It leads back to a step above: a loop or a jump.
    Back,
    /// A jump, for another reason.
    Cut,
}

const NO_STEP: Step = Step {
    initial: false,
    name: 0,
    half: 0,
    block: 0,
    rows: 0,
};

const NO_TRANSITION: Transition = Transition {
    name: 0,
    number: 0,
    text: 0,
    lines: 0,
    priority: None,
};

/// The nodes of a chart: the steps from 0 on, then the transitions; one more stands for the sheet. The links of a step are in
/// the order of the chart; those of a transition in an order that the layout chooses.
#[derive(Drop)]
pub struct Graph {
    steps: Table<Step>,
    transitions: Table<Transition>,
    links: Table<Link>,
    kinds: Table<Kind>,
    outs: Rows,
    ins: Rows,
    lines_out: Table<usize>,
    lines_in: Table<usize>,
}

impl Graph {
    /// The nodes and links of a chart, each link a line. The one error is that memory was refused.
    pub fn new(alloc: Global, chart: &Chart) -> Result<Graph, AllocError> {
        let nodes = chart.steps.len().saturating_add(chart.transitions.len());
        let mut lines_out = Table::blank(alloc, nodes, 0)?;
        let mut lines_in = Table::blank(alloc, nodes, 0)?;
        for link in chart.links.iter() {
            add_one(&mut lines_out, link.source);
            add_one(&mut lines_in, link.target);
        }
        let mut graph = Graph {
            steps: Table::from_slice(alloc, chart.steps.as_slice(), NO_STEP)?,
            transitions: Table::from_slice(alloc, chart.transitions.as_slice(), NO_TRANSITION)?,
            links: Table::from_slice(
                alloc,
                chart.links.as_slice(),
                Link {
                    source: 0,
                    target: 0,
                },
            )?,
            kinds: Table::blank(alloc, chart.links.len(), Kind::Line)?,
            outs: Rows::of_lengths(alloc, &lines_out)?,
            ins: Rows::of_lengths(alloc, &lines_in)?,
            lines_out,
            lines_in,
        };
        graph.enter_links(alloc, nodes)?;
        Ok(graph)
    }

    /// Puts each link into the rows of its nodes.
    fn enter_links(&mut self, alloc: Global, nodes: usize) -> Result<(), AllocError> {
        let mut sent = Table::blank(alloc, nodes, 0)?;
        let mut come = Table::blank(alloc, nodes, 0)?;
        for k in 0..self.links.len() {
            let Link { source, target } = self.links.get(k);
            self.outs.put(self.outs.start(source).saturating_add(sent.get(source)), k);
            self.ins
                .put(self.ins.start(target).saturating_add(come.get(target)), k);
            add_one(&mut sent, source);
            add_one(&mut come, target);
        }
        Ok(())
    }

    /// How many steps there are: the number of the first transition.
    pub fn steps(&self) -> usize {
        self.steps.len()
    }

    /// How many nodes there are: the number that stands for the sheet.
    pub fn nodes(&self) -> usize {
        self.steps.len().saturating_add(self.transitions.len())
    }

    /// How many links there are.
    pub fn links(&self) -> usize {
        self.links.len()
    }

    /// Whether a node is a step.
    pub fn is_step(&self, node: usize) -> bool {
        node < self.steps.len()
    }

    /// The step of this number.
    pub fn step(&self, node: usize) -> Step {
        self.steps.get(node)
    }

    /// The transition of this node.
    pub fn transition(&self, node: usize) -> Transition {
        self.transitions.get(node.saturating_sub(self.steps.len()))
    }

    /// Whether a node is an initial step.
    pub fn is_initial(&self, node: usize) -> bool {
        self.steps.get(node).initial
    }

    /// The width of the name of a node.
    pub fn name(&self, node: usize) -> u32 {
        if self.is_step(node) {
            self.step(node).name
        } else {
            self.transition(node).name
        }
    }

    /// The width of the priority of a node, where it is a transition with one.
    pub fn priority(&self, node: usize) -> Option<u32> {
        self.transition(node).priority
    }

    /// The node from which a link leads.
    pub fn source(&self, link: usize) -> usize {
        self.links.get(link).source
    }

    /// The node to which a link leads.
    pub fn target(&self, link: usize) -> usize {
        self.links.get(link).target
    }

    /// The links that lead from nodes.
    pub fn outs(&self) -> &Rows {
        &self.outs
    }

    /// The links that lead to nodes.
    pub fn ins(&self) -> &Rows {
        &self.ins
    }

    /// Puts a link at a place of the links that lead from nodes.
    pub fn put_out(&mut self, place: usize, link: usize) {
        self.outs.put(place, link);
    }

    /// What a link is drawn as.
    pub fn kind(&self, link: usize) -> Kind {
        self.kinds.get(link)
    }

    /// Whether a link is a line that leads down.
    pub fn is_line(&self, link: usize) -> bool {
        self.kind(link) == Kind::Line
    }

    /// How many lines lead from a node.
    pub fn lines_out(&self, node: usize) -> usize {
        self.lines_out.get(node)
    }

    /// How many lines lead to a node.
    pub fn lines_in(&self, node: usize) -> usize {
        self.lines_in.get(node)
    }

    /// Has a line drawn as something else.
    pub fn turn(&mut self, link: usize, kind: Kind) {
        if self.is_line(link) {
            let Link { source, target } = self.links.get(link);
            take_one(&mut self.lines_out, source);
            take_one(&mut self.lines_in, target);
        }
        self.kinds.set(link, kind);
    }

    /// Whether a node is a transition that no line leaves.
    pub fn is_end(&self, node: usize) -> bool {
        !self.is_step(node) && self.lines_out(node) == 0
    }

    /// Whether a link leads back from a transition that leads to nothing else.
    pub fn is_loop(&self, link: usize) -> bool {
        self.kind(link) == Kind::Back && self.outs.count(self.source(link)) == 1
    }

    /// Whether a link leads on to a node of its own.
    pub fn leads_on(&self, link: usize) -> bool {
        let target = self.target(link);
        self.is_line(link) && !self.is_end(target) && self.lines_in(target) == 1
    }

    /// The first line that leads to a node.
    pub fn first_line(&self, node: usize) -> Option<usize> {
        let ins = &self.ins;
        for place in ins.start(node)..ins.end(node) {
            if self.is_line(ins.at(place)) {
                return Some(ins.at(place));
            }
        }
        None
    }
}

/// Counts one more of this number.
fn add_one(table: &mut Table<usize>, number: usize) {
    let count = table.get(number);
    table.set(number, count.saturating_add(1));
}

/// Counts one less of this number.
fn take_one(table: &mut Table<usize>, number: usize) {
    let count = table.get(number);
    table.set(number, count.saturating_sub(1));
}
