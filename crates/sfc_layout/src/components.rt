//! Roots that lines join.

use crate::graph::Graph;
use crate::table::Table;
use std::alloc::{AllocError, Global};

/// The networks of a chart: roots that lines join.
#[derive(Drop)]
pub struct Components {
    // a node of the same network; that which stands for all is its own
    of: Table<usize>,
    // the network of the node that stands for it, and one more
    number: Table<usize>,
    // the first and the last root of each network, and the next of each root
    first: Table<usize>,
    last: Table<usize>,
    next: Table<Option<usize>>,
}

impl Components {
    /// Those of the chart, in the order of their first roots. The one error is that memory was refused.
    pub fn of(alloc: Global, graph: &Graph, roots: &[usize]) -> Result<Components, AllocError> {
        let nodes = graph.nodes();
        let mut components = Components {
            of: Table::new(alloc, 0),
            number: Table::blank(alloc, nodes, 0)?,
            first: Table::new(alloc, 0),
            last: Table::new(alloc, 0),
            next: Table::blank(alloc, nodes, None)?,
        };
        for node in 0..nodes {
            components.of.push(node)?;
        }
        components.join_lines(graph);
        for root in roots {
            components.add(*root)?;
        }
        Ok(components)
    }

    /// How many networks there are.
    pub fn count(&self) -> usize {
        self.first.len()
    }

    /// The first root of a network.
    pub fn first(&self, network: usize) -> usize {
        self.first.get(network)
    }

    /// The next root of the same network.
    pub fn next(&self, root: usize) -> Option<usize> {
        self.next.get(root)
    }

    /// Joins the ends of all lines.
    fn join_lines(&mut self, graph: &Graph) {
        for link in 0..graph.links() {
            if graph.is_line(link) {
                let source = self.find(graph.source(link));
                let target = self.find(graph.target(link));
                self.of.set(source, target);
            }
        }
    }

    /// The node that stands for the network of a node.
    fn find(&mut self, node: usize) -> usize {
        let mut at = node;
        for _ in 0..self.of.len() {
            let above = self.of.get(at);
            if above == at {
                break;
            }
            let next = self.of.get(above);
            self.of.set(at, next);
            at = next;
        }
        at
    }

    /// Adds a root to its network.
    fn add(&mut self, root: usize) -> Result<(), AllocError> {
        let node = self.find(root);
        match self.number.get(node).checked_sub(1) {
            Some(network) => {
                self.next.set(self.last.get(network), Some(root));
                self.last.set(network, root);
            }
            None => {
                self.first.push(root)?;
                let network = self.last.push(root)?;
                self.number.set(node, network.saturating_add(1));
            }
        }
        Ok(())
    }
}
