//! Which links lead down.

use crate::graph::{Graph, Kind};
use crate::table::Table;
use std::alloc::{AllocError, Global};

/// What the search has seen of a node.
#[derive(Clone, Copy, Debug, PartialEq, Eq)]
enum Seen {
    Not,
    /// It is on the way here.
    OnTheWay,
    /// All behind it was seen, from an initial step.
    Early,
    /// All behind it was seen, from another root.
    Late,
}

/// Which steps may be roots, in turn.
#[derive(Clone, Copy, Debug, PartialEq, Eq)]
enum Rank {
    Initial,
    /// No link leads to it.
    Unlinked,
    Any,
}

/// A search, depth first.
#[derive(Drop)]
pub struct Search {
    seen: Table<Seen>,
    is_root: Table<bool>,
    // the nodes on the way here, each with the place of its next link
    way: Vec<(usize, usize)>,
    /// The first nodes of the chart, in turn.
    pub roots: Vec<usize>,
    /// The nodes in an order that all lines follow.
    pub order: Vec<usize>,
}

impl Search {
    /// Goes through the chart: the initial steps are roots, then steps without links to them, then steps that are still unseen.
    /// A link that leads back to a node on the way, or to an initial step, is no line, nor one from what is reached from
    /// no initial step to what is, or to another root. The one error is that memory was refused.
    pub fn through(alloc: Global, graph: &mut Graph) -> Result<Search, AllocError> {
        let mut search = Search {
            seen: Table::blank(alloc, graph.nodes(), Seen::Not)?,
            is_root: Table::blank(alloc, graph.nodes(), false)?,
            way: Vec::new(alloc),
            roots: Vec::new(alloc),
            order: Vec::new(alloc),
        };
        search.start(graph, Rank::Initial)?;
        search.start(graph, Rank::Unlinked)?;
        search.start(graph, Rank::Any)?;
        search.order.reverse();
        Ok(search)
    }

    /// Goes down from the unseen steps of a rank.
    fn start(&mut self, graph: &mut Graph, rank: Rank) -> Result<(), AllocError> {
        for step in 0..graph.steps() {
            if self.seen.get(step) == Seen::Not && is_of_rank(graph, step, rank) {
                self.descend(graph, step)?;
            }
        }
        Ok(())
    }

    /// Goes down from a root.
    fn descend(&mut self, graph: &mut Graph, root: usize) -> Result<(), AllocError> {
        self.is_root.set(root, true);
        self.roots.push(root)?;
        self.enter(graph, root)?;
        let done = if graph.is_initial(root) {
            Seen::Early
        } else {
            Seen::Late
        };
        for _ in 0..graph.nodes().saturating_add(graph.links()) {
            let Some((node, place)) = self.way.pop() else {
                break;
            };
            if place < graph.outs().end(node) {
                self.way.push((node, place + 1))?;
                self.follow(graph, graph.outs().at(place), done)?;
            } else {
                self.seen.set(node, done);
                self.order.push(node)?;
            }
        }
        Ok(())
    }

    /// Has a node on the way.
    fn enter(&mut self, graph: &Graph, node: usize) -> Result<(), AllocError> {
        self.seen.set(node, Seen::OnTheWay);
        self.way.push((node, graph.outs().start(node)))?;
        Ok(())
    }

    /// Goes along a link, or says why it is no line.
    fn follow(&mut self, graph: &mut Graph, link: usize, done: Seen) -> Result<(), AllocError> {
        let target = graph.target(link);
        let seen = self.seen.get(target);
        if seen == Seen::OnTheWay || graph.is_initial(target) {
            graph.turn(link, Kind::Back);
        } else if seen == Seen::Early && done == Seen::Late || self.is_root.get(target) {
            graph.turn(link, Kind::Cut);
        } else if seen == Seen::Not {
            self.enter(graph, target)?;
        }
        Ok(())
    }
}

/// Whether a step may be a root in this turn.
fn is_of_rank(graph: &Graph, step: usize, rank: Rank) -> bool {
    match rank {
        Rank::Initial => graph.is_initial(step),
        Rank::Unlinked => graph.ins().count(step) == 0,
        Rank::Any => true,
    }
}
