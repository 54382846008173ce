//! What may stand in any order, side by side where it meets again.

use crate::dominators::Dominators;
use crate::graph::Graph;
use crate::table::Table;
use std::alloc::{AllocError, Global};

/// A part of a list of nodes.
#[derive(Clone, Copy)]
struct Span {
    start: usize,
    count: usize,
}

const NOTHING: Span = Span { start: 0, count: 0 };

/// The nodes that may stand in any order: the roots, and the steps behind a transition with more than two lines.
#[derive(Drop)]
pub struct Gathering {
    // the free nodes of each transition and, as those of the sheet, the roots
    free: Table<Span>,
    nodes: Table<usize>,
    // of each node in which free nodes meet these
    met: Table<Span>,
    members: Table<usize>,
    // the node, and one more, for which a free node was marked
    mark: Table<usize>,
    // the link from a transition to a node
    link: Table<usize>,
}

impl Gathering {
    /// Gathers what meets again, in the order that all lines follow: the roots, and the links of transitions. The one error is
    /// that memory was refused; roots and links may then stand in another order.
    pub fn gather(
        alloc: Global,
        graph: &mut Graph,
        order: &[usize],
        dominators: &Dominators,
        roots: &mut Vec<usize>,
    ) -> Result<(), AllocError> {
        let mut gathering = Gathering::new(alloc, graph)?;
        for transition in graph.steps()..graph.nodes() {
            gathering.free_steps(graph, transition)?;
        }
        gathering.free_roots(graph, roots)?;
        for node in order {
            gathering.meet(alloc, graph, *node, dominators)?;
        }
        for transition in graph.steps()..graph.nodes() {
            gathering.arrange(alloc, graph, transition)?;
        }
        gathering.take_roots(graph, roots.as_mut_slice());
        Ok(())
    }

    /// With no free nodes.
    fn new(alloc: Global, graph: &Graph) -> Result<Gathering, AllocError> {
        let nodes = graph.nodes();
        Ok(Gathering {
            free: Table::blank(alloc, nodes.saturating_add(1), NOTHING)?,
            nodes: Table::new(alloc, 0),
            met: Table::blank(alloc, nodes, NOTHING)?,
            members: Table::new(alloc, 0),
            mark: Table::blank(alloc, nodes, 0)?,
            link: Table::blank(alloc, nodes, 0)?,
        })
    }

    /// The steps behind a transition, where lines lead to more than two, are free.
    fn free_steps(&mut self, graph: &Graph, transition: usize) -> Result<(), AllocError> {
        let count = graph.lines_out(transition);
        if count < 3 {
            return Ok(());
        }
        let start = self.nodes.len();
        self.free.set(transition, Span { start, count });
        for place in graph.outs().start(transition)..graph.outs().end(transition) {
            let link = graph.outs().at(place);
            if graph.is_line(link) {
                self.nodes.push(graph.target(link))?;
            }
        }
        Ok(())
    }

    /// The roots are free.
    fn free_roots(&mut self, graph: &Graph, roots: &Vec<usize>) -> Result<(), AllocError> {
        let start = self.nodes.len();
        let count = roots.len();
        self.free.set(graph.nodes(), Span { start, count });
        for root in roots {
            self.nodes.push(*root)?;
        }
        Ok(())
    }

    /// The roots, as they stand now.
    fn take_roots(&self, graph: &Graph, roots: &mut [usize]) {
        let start = self.free.get(graph.nodes()).start;
        for i in 0..roots.len() {
            roots[i] = self.nodes.get(start.saturating_add(i));
        }
    }

    /// Puts the free nodes side by side that meet in this node.
    fn meet(
        &mut self,
        alloc: Global,
        graph: &Graph,
        node: usize,
        dominators: &Dominators,
    ) -> Result<(), AllocError> {
        let up = dominators.up(node);
        let free = self.free.get(up);
        if free.count == 0 {
            return Ok(());
        }
        let start = self.members.len();
        for place in graph.ins().start(node)..graph.ins().end(node) {
            let link = graph.ins().at(place);
            if graph.is_line(link) {
                self.join(node, dominators.below(graph.source(link), up))?;
            }
        }
        let count = self.members.len().saturating_sub(start);
        if count > 1 {
            self.met.set(node, Span { start, count });
            self.regroup(alloc, free, node)?;
        }
        Ok(())
    }

    /// Marks the free nodes from which a line comes by way of `branch` to a node.
    fn join(&mut self, node: usize, branch: usize) -> Result<(), AllocError> {
        let met = self.met.get(branch);
        if met.count == 0 {
            return self.note(node, branch);
        }
        for i in 0..met.count {
            let member = self.members.get(met.start.saturating_add(i));
            self.note(node, member)?;
        }
        Ok(())
    }

    /// Marks a free node as one of those that meet in a node, once.
    fn note(&mut self, node: usize, member: usize) -> Result<(), AllocError> {
        let mark = node.saturating_add(1);
        if self.mark.get(member) != mark {
            self.mark.set(member, mark);
            self.members.push(member)?;
        }
        Ok(())
    }

    /// Puts the marked ones of these free nodes side by side, where the first of them stands.
    fn regroup(&mut self, alloc: Global, free: Span, node: usize) -> Result<(), AllocError> {
        let Some(first) = self.first_marked(free, node) else {
            return Ok(());
        };
        let end = free.start.saturating_add(free.count);
        let mut marked = Vec::new(alloc);
        let mut others = Vec::new(alloc);
        for place in first..end {
            let member = self.nodes.get(place);
            if self.is_marked(member, node) {
                marked.push(member)?;
            } else {
                others.push(member)?;
            }
        }
        self.write(first, marked.as_slice());
        self.write(first.saturating_add(marked.len()), others.as_slice());
        Ok(())
    }

    /// Whether a free node is one of those that meet in a node.
    fn is_marked(&self, member: usize, node: usize) -> bool {
        self.mark.get(member) == node.saturating_add(1)
    }

    /// The place of the first marked one of these free nodes.
    fn first_marked(&self, free: Span, node: usize) -> Option<usize> {
        for place in free.start..free.start.saturating_add(free.count) {
            if self.is_marked(self.nodes.get(place), node) {
                return Some(place);
            }
        }
        None
    }

    /// Writes free nodes from a place on.
    fn write(&mut self, start: usize, nodes: &[usize]) {
        for (i, node) in nodes.iter().enumerate() {
            self.nodes.set(start.saturating_add(i), *node);
        }
    }

    /// Puts the lines of a transition in the order of its free nodes, and its other links behind them.
    fn arrange(
        &mut self,
        alloc: Global,
        graph: &mut Graph,
        transition: usize,
    ) -> Result<(), AllocError> {
        let mut lines = Vec::new(alloc);
        let mut others = Vec::new(alloc);
        for place in graph.outs().start(transition)..graph.outs().end(transition) {
            let link = graph.outs().at(place);
            if graph.is_line(link) {
                self.link.set(graph.target(link), link);
                lines.push(link)?;
            } else {
                others.push(link)?;
            }
        }
        let start = graph.outs().start(transition);
        put_outs(graph, start, lines.as_slice());
        put_outs(graph, start.saturating_add(lines.len()), others.as_slice());
        self.put_free(graph, start, transition);
        Ok(())
    }

    /// Puts the lines to the free nodes of a transition in their order.
    fn put_free(&self, graph: &mut Graph, start: usize, transition: usize) {
        let free = self.free.get(transition);
        for i in 0..free.count {
            let node = self.nodes.get(free.start.saturating_add(i));
            graph.put_out(start.saturating_add(i), self.link.get(node));
        }
    }
}

/// Puts links from a place on.
fn put_outs(graph: &mut Graph, start: usize, links: &[usize]) {
    for (i, link) in links.iter().enumerate() {
        graph.put_out(start.saturating_add(i), *link);
    }
}
