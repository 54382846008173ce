//! How much room nodes take beside their lines.

use crate::extent::Extent;
use crate::graph::Graph;
use crate::sizes::{BAR, BESIDE, BOX, OVER, digits, small};

/// How many of the transitions from which jumps come are said at a step.
const SAID: usize = 4;

/// The links to a transition that have no line.
#[derive(Clone, Copy)]
pub struct Stubs {
    pub count: u32,
    /// The room for the names of their steps at the right of its double line.
    pub room: u32,
}

/// How far the box of a node goes to the left and to the right of its line.
pub fn own_extent(graph: &Graph, node: usize) -> Extent {
    if graph.is_step(node) {
        graph.step(node).extent()
    } else {
        graph.transition(node).extent()
    }
}

/// The height of the box of a node.
pub fn height(graph: &Graph, node: usize) -> u32 {
    if graph.is_step(node) { BOX } else { 2 * BESIDE }
}

/// How far a node goes to the left and to the right of its line, with its action block or its text.
pub fn extent(graph: &Graph, node: usize) -> Extent {
    let own = own_extent(graph, node);
    if !graph.is_step(node) {
        let text = graph.transition(node).text.saturating_add(BAR + 6);
        return Extent {
            left: own.left,
            right: text,
        };
    }
    let block = match graph.step(node).block {
        0 => 0,
        block => block.saturating_add(14),
    };
    Extent {
        left: own.left,
        right: own.right.saturating_add(block).max(arrival(graph, node)),
    }
}

/// Whether a link comes to a node without a line.
pub fn has_arrivals(graph: &Graph, node: usize) -> bool {
    graph.lines_in(node) < graph.ins().count(node)
}

/// How far what is said at the arrow into a step goes to the right of its line: the first transitions that jump to it.
pub fn arrival(graph: &Graph, step: usize) -> u32 {
    let mut first = [usize::MAX; SAID];
    let ins = graph.ins();
    for place in ins.start(step)..ins.end(step) {
        let link = ins.at(place);
        if !graph.is_line(link) {
            let number = graph.source(link).saturating_sub(graph.steps());
            enter(&mut first, number.saturating_add(1));
        }
    }
    let count = ins.count(step).saturating_sub(graph.lines_in(step));
    small(said(&first, count)).saturating_add(18)
}

/// Enters a number into the least ones, in rising order.
fn enter(first: &mut [usize; SAID], number: usize) {
    let mut number = number;
    for least in first.iter_mut() {
        if number < *least {
            let larger = *least;
            *least = number;
            number = larger;
        }
    }
}

/// How many characters the names of the first of so many transitions have, with what stands between them.
fn said(first: &[usize; SAID], count: usize) -> u32 {
    let mut characters = 0u32;
    for number in first.iter() {
        if *number != usize::MAX {
            characters = characters.saturating_add(digits(*number)).saturating_add(3);
        }
    }
    match count {
        0 => 0,
        1..=SAID => characters.saturating_sub(2),
        _ => characters.saturating_add(1),
    }
}

/// The links to a node that have no line, where it is a transition.
pub fn stubs_of(graph: &Graph, node: usize) -> Stubs {
    let mut stubs = Stubs { count: 0, room: 0 };
    if graph.is_step(node) {
        return stubs;
    }
    let ins = graph.ins();
    for place in ins.start(node)..ins.end(node) {
        let link = ins.at(place);
        if !graph.is_line(link) {
            let name = graph.name(graph.source(link));
            stubs.count = stubs.count.saturating_add(1);
            stubs.room = stubs.room.max(name.saturating_add(OVER + 18));
        }
    }
    stubs
}
