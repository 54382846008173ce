//! What is known of a chart before anything is placed.

use crate::breadth::{self, Breadth};
use crate::chart::Chart;
use crate::components::Components;
use crate::dominators::Dominators;
use crate::extents::has_arrivals;
use crate::gathering::Gathering;
use crate::graph::Graph;
use crate::nesting;
use crate::search::Search;
use std::alloc::{AllocError, Global};

/// A chart with its lines, its dominators and its networks.
#[derive(Drop)]
pub struct Plan {
    pub graph: Graph,
    pub dominators: Dominators,
    pub breadth: Breadth,
    pub networks: Components,
    /// Whether a link leads to a root.
    pub is_entered: bool,
}

impl Plan {
    /// That of a chart. The one error is that memory was refused.
    pub fn of(alloc: Global, chart: &Chart) -> Result<Plan, AllocError> {
        let mut graph = Graph::new(alloc, chart)?;
        let mut search = Search::through(alloc, &mut graph)?;
        let dominators = Dominators::of(alloc, &graph, search.order.as_slice())?;
        nesting::cut_nested(alloc, &mut graph, search.order.as_slice(), &dominators)?;
        let dominators = Dominators::of(alloc, &graph, search.order.as_slice())?;
        breadth::cut_wide(alloc, &mut graph, search.order.as_slice(), &dominators)?;
        let dominators = Dominators::of(alloc, &graph, search.order.as_slice())?;
        let breadth = breadth::split(
            alloc,
            &mut graph,
            search.order.as_slice(),
            &dominators,
            &mut search.roots,
        )?;
        let dominators = Dominators::of(alloc, &graph, search.order.as_slice())?;
        Gathering::gather(
            alloc,
            &mut graph,
            search.order.as_slice(),
            &dominators,
            &mut search.roots,
        )?;
        Ok(Plan {
            networks: Components::of(alloc, &graph, search.roots.as_slice())?,
            is_entered: search.roots.iter().any(|root| has_arrivals(&graph, *root)),
            graph,
            dominators,
            breadth,
        })
    }
}
