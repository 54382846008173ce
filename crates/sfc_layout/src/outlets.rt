//! Which link goes straight down.

use crate::plan::Plan;

/// The place among the links of a node of that which goes straight down: of a transition the first. Of a step the first that
/// leads on to a node of its own and has no priority, else the first that leads on, else the first without a priority; but the
/// very first where it closes the loop to an initial step and nothing beside it is long.
pub fn main_outlet(plan: &Plan, node: usize) -> usize {
    let graph = &plan.graph;
    let start = graph.outs().start(node);
    if !graph.is_step(node) || closes_loop(plan, node) {
        return start;
    }
    let mut main = start;
    let mut best = rating(plan, start);
    for place in start..graph.outs().end(node) {
        let rating = rating(plan, place);
        if rating < best {
            best = rating;
            main = place;
        }
    }
    main
}

/// How far the link at a place is from what goes straight down.
fn rating(plan: &Plan, place: usize) -> u8 {
    let graph = &plan.graph;
    let link = graph.outs().at(place);
    let has_priority = graph.priority(graph.target(link)).is_some();
    match (graph.leads_on(link), has_priority) {
        (true, false) => 0,
        (true, true) => 1,
        (false, false) => 2,
        (false, true) => 3,
    }
}

/// Whether the first link of a step leads to a transition that closes the loop to an initial step, and none of its links leads
/// to a part of more than four nodes.
fn closes_loop(plan: &Plan, node: usize) -> bool {
    let graph = &plan.graph;
    let start = graph.outs().start(node);
    if rating(plan, start) != 2 {
        return false;
    }
    let transition = graph.target(graph.outs().at(start));
    let on = graph.outs().at(graph.outs().start(transition));
    if !graph.is_loop(on) || !graph.is_initial(graph.target(on)) {
        return false;
    }
    for place in start..graph.outs().end(node) {
        let target = graph.target(graph.outs().at(place));
        if plan.breadth.nodes(target) > 4 {
            return false;
        }
    }
    true
}
