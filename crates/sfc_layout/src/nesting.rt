//! Lines that leave selections.

use crate::dominators::Dominators;
use crate::graph::{Graph, Kind};
use crate::sizes::NESTED;
use crate::table::Table;
use std::alloc::{AllocError, Global};

/// How many selections are open at nodes.
#[derive(Drop)]
struct Nesting {
    opened: Table<usize>,
}

/// How many selections the lines to a node leave.
#[derive(Clone, Copy)]
struct Left {
    fewest: usize,
    most: usize,
}

/// Where a line to a node would leave too many open selections, the nearest lines to it stay alone. The one error is that
/// memory was refused.
pub fn cut_nested(
    alloc: Global,
    graph: &mut Graph,
    order: &[usize],
    dominators: &Dominators,
) -> Result<(), AllocError> {
    let nesting = Nesting::of(alloc, graph, order, dominators)?;
    for node in order {
        nesting.cut(graph, *node, dominators.up(*node));
    }
    Ok(())
}

impl Nesting {
    /// That of each node.
    fn of(
        alloc: Global,
        graph: &Graph,
        order: &[usize],
        dominators: &Dominators,
    ) -> Result<Nesting, AllocError> {
        let branches = branches_of(alloc, graph)?;
        let mut opened = Table::blank(alloc, graph.nodes(), 0usize)?;
        for node in order {
            let up = dominators.up(*node);
            let opens = branches.get(up) >= 2 && graph.lines_in(*node) == 1;
            let above = opened.get(up);
            opened.set(*node, above.saturating_add(usize::from(opens)));
        }
        Ok(Nesting { opened })
    }

    /// How many selections a line leaves, to a node with this dominator.
    fn left(&self, graph: &Graph, link: usize, up: usize) -> usize {
        let inner = self.opened.get(graph.source(link));
        inner.saturating_sub(self.opened.get(up))
    }

    /// The fewest and the most selections that lines to a node leave.
    fn extremes(&self, graph: &Graph, node: usize, up: usize) -> Left {
        let ins = graph.ins();
        let mut extremes = Left {
            fewest: usize::MAX,
            most: 0,
        };
        for place in ins.start(node)..ins.end(node) {
            let link = ins.at(place);
            if graph.is_line(link) {
                let left = self.left(graph, link, up);
                extremes.fewest = extremes.fewest.min(left);
                extremes.most = extremes.most.max(left);
            }
        }
        extremes
    }

    /// Cuts the lines to a node that leave more selections than the nearest, where one leaves too many.
    fn cut(&self, graph: &mut Graph, node: usize, up: usize) {
        let most = if graph.is_step(node) {
            NESTED
        } else {
            3 * NESTED
        };
        let left = self.extremes(graph, node, up);
        if graph.lines_in(node) < 2 || left.most <= most {
            return;
        }
        for place in graph.ins().start(node)..graph.ins().end(node) {
            let link = graph.ins().at(place);
            if graph.is_line(link) && self.left(graph, link, up) > left.fewest.max(1) {
                graph.turn(link, Kind::Cut);
            }
        }
    }
}

/// Of each node how many lines lead from it to nodes that are no ends.
fn branches_of(alloc: Global, graph: &Graph) -> Result<Table<usize>, AllocError> {
    let mut branches = Table::blank(alloc, graph.nodes(), 0usize)?;
    for link in 0..graph.links() {
        if graph.is_line(link) && !graph.is_end(graph.target(link)) {
            let count = branches.get(graph.source(link));
            branches.set(graph.source(link), count.saturating_add(1));
        }
    }
    Ok(branches)
}
