//! How far down everything stands.

use crate::board::Board;
use crate::draw_error::DrawError;
use crate::drawing::{Bar, Drawing, Stem, Stub};
use crate::event::{Event, Shown};
use crate::extents::{arrival, extent, has_arrivals, height, own_extent, stubs_of};
use crate::node_room::NodeRoom;
use crate::plan::Plan;
use crate::sizes::{BAR, BESIDE, BOX, LINE, OVER, ROW, SHORT, STUB};
use crate::skyline::Reach;
use crate::sweep::Sweep;
use crate::table::Table;
use std::alloc::{AllocError, Global};

/// How a line comes to a node.
#[derive(Clone, Copy, Debug, PartialEq, Eq)]
enum Way {
    /// Nothing comes.
    Nothing,
    /// This link alone.
    Link(usize),
    /// From the bar that joins several.
    Bar,
}

/// Where the line to a node begins, and how it comes.
#[derive(Clone, Copy)]
struct Start {
    y: u32,
    way: Way,
}

/// What is drawn so far.
#[derive(Drop)]
pub struct Writer {
    pub board: Board,
    // how far down each link begins, and where loops and jumps enter each step, or links a bar
    pub hang: Table<u32>,
    pub entries: Table<u32>,
    pub links: Table<Option<Drawing>>,
    pub bars: Vec<Bar>,
    pub stems: Vec<Stem>,
    pub stubs: Vec<Stub>,
}

impl Writer {
    /// Nothing is drawn yet. The one error is that memory was refused.
    pub fn new(alloc: Global, plan: &Plan) -> Result<Writer, AllocError> {
        let links = plan.graph.links();
        let nodes = plan.graph.nodes();
        Ok(Writer {
            board: Board::new(alloc, nodes)?,
            hang: Table::blank(alloc, links, 0)?,
            entries: Table::blank(alloc, nodes, 0)?,
            links: Table::blank(alloc, links, None)?,
            bars: Vec::new(alloc),
            stems: Vec::new(alloc),
            stubs: Vec::new(alloc),
        })
    }

    /// Draws what a sweep noted of a network: the boxes of the roots side by side at the top, then all in turn.
    pub fn network(&mut self, plan: &Plan, sweep: &Sweep) -> Result<(), DrawError> {
        for event in sweep.events.iter() {
            if let Some(root) = root_of(sweep, *event) {
                self.put_step(plan, sweep, root, *event)?;
            }
        }
        for event in sweep.events.iter() {
            self.put(plan, sweep, *event)?;
        }
        Ok(())
    }

    /// Draws what is next; of a root what is below its box.
    fn put(&mut self, plan: &Plan, sweep: &Sweep, event: Event) -> Result<(), DrawError> {
        match event.shown {
            Shown::Jump => self.put_jumps(plan, sweep, event),
            Shown::Loop(step) => self.put_loop(plan, sweep, step, event),
            Shown::Node(node) if plan.graph.is_step(node) => {
                if root_of(sweep, event).is_none() {
                    self.put_step(plan, sweep, node, event)?;
                }
                let bottom = self.board.bottom(node);
                self.put_split(plan, sweep, node, bottom)
            }
            Shown::Node(node) => self.put_transition(plan, sweep, node, event),
        }
    }

    /// The lowest place at which a link of these ends begins, and how far they go to the left and to the right.
    fn ends_of(&self, sweep: &Sweep, event: Event) -> (u32, Reach) {
        let mut low = 0;
        let mut reach = Reach {
            left: u32::MAX,
            right: 0,
        };
        for number in event.start..event.start.saturating_add(event.count) {
            let end = sweep.end(number);
            let x = sweep.columns.x(end.line);
            reach.left = reach.left.min(x);
            reach.right = reach.right.max(x);
            low = low.max(end.link.map_or(0, |link| self.hang.get(link)));
        }
        (low, reach)
    }

    /// Draws the lines that come down to a node, and the bar that joins them.
    fn put_join(
        &mut self,
        plan: &Plan,
        sweep: &Sweep,
        node: usize,
        event: Event,
    ) -> Result<Start, DrawError> {
        let Some(link) = sweep.end(event.start).link else {
            return Ok(Start {
                y: 0,
                way: Way::Nothing,
            });
        };
        let (low, reach) = self.ends_of(sweep, event);
        let is_double = !plan.graph.is_step(node) && plan.graph.ins().count(node) > 1;
        if event.count < 2 && !is_double {
            return Ok(Start {
                y: low,
                way: Way::Link(link),
            });
        }
        let over = wider(reach, is_double);
        let low = low.max(self.board.top(over)).saturating_add(14);
        let y = self.put_stubs(plan, node, reach.right, low)?;
        let stubbed = if stubs_of(&plan.graph, node).count > 0 {
            OVER + 10
        } else {
            0
        };
        self.bars.push(Bar {
            node,
            is_double,
            left: reach.left,
            right: reach.right.saturating_add(stubbed),
            y,
        })?;
        self.put_lines(sweep, event, y);
        self.board.take(over, y.saturating_add(6))?;
        self.entries.set(node, y);
        let y = if is_double { y.saturating_add(4) } else { y };
        Ok(Start { y, way: Way::Bar })
    }

    /// Keeps the room for the names of steps that come to a transition without a line, behind the right end of its double line.
    /// Answers how far down this line is.
    fn put_stubs(
        &mut self,
        plan: &Plan,
        node: usize,
        right: u32,
        low: u32,
    ) -> Result<u32, DrawError> {
        let stubs = stubs_of(&plan.graph, node);
        if stubs.count == 0 {
            return Ok(low);
        }
        let reach = Reach {
            left: right.saturating_add(OVER),
            right: right.saturating_add(stubs.room),
        };
        let names = stubs.count.saturating_mul(LINE).saturating_add(10);
        let y = low.max(self.board.top(reach).saturating_add(names));
        self.board.take(reach, y.saturating_add(6))?;
        let x = right.saturating_add(OVER + 10);
        self.stubs.push(Stub { node, x })?;
        Ok(y)
    }

    /// Draws the links of these ends as lines down to `bottom`.
    fn put_lines(&mut self, sweep: &Sweep, event: Event, bottom: u32) {
        for number in event.start..event.start.saturating_add(event.count) {
            let end = sweep.end(number);
            if let Some(link) = end.link {
                let x = sweep.columns.x(end.line);
                self.put_line(link, x, bottom);
            }
        }
    }

    /// Draws a link as a line down to `bottom`.
    fn put_line(&mut self, link: usize, x: u32, bottom: u32) {
        let top = self.hang.get(link);
        self.links.set(link, Some(Drawing::Line { x, top, bottom }));
    }

    /// Draws the line of a node down to `bottom`: its one link, or its own.
    fn put_stem(
        &mut self,
        node: usize,
        x: u32,
        start: Start,
        bottom: u32,
    ) -> Result<(), DrawError> {
        match start.way {
            Way::Link(link) => self.put_line(link, x, bottom),
            Way::Bar | Way::Nothing => self.stems.push(Stem {
                node,
                x,
                top: start.y,
                bottom,
            })?,
        }
        Ok(())
    }

    /// Draws the bar from which the links of a node hang, whose line goes on at `top`.
    fn put_split(
        &mut self,
        plan: &Plan,
        sweep: &Sweep,
        node: usize,
        top: u32,
    ) -> Result<(), DrawError> {
        let outs = plan.graph.outs();
        let mut y = top;
        if outs.count(node) > 1 {
            y = self.put_branches(plan, sweep, node, top)?;
        }
        for place in outs.start(node)..outs.end(node) {
            self.hang.set(outs.at(place), y);
        }
        Ok(())
    }

    /// The same where there are several. Answers how far down they hang.
    fn put_branches(
        &mut self,
        plan: &Plan,
        sweep: &Sweep,
        node: usize,
        top: u32,
    ) -> Result<u32, DrawError> {
        let is_double = !plan.graph.is_step(node);
        let reach = branches_of(plan, sweep, node);
        let said = said_of(plan, sweep, node);
        let over = wider(reach, is_double);
        let widest = Reach {
            left: over.left,
            right: over.right.max(said),
        };
        let gap = if is_double { 14 } else { 16 };
        let y = top
            .saturating_add(gap)
            .max(self.board.top(widest).saturating_add(10));
        self.bars.push(Bar {
            node,
            is_double,
            left: reach.left,
            right: reach.right,
            y,
        })?;
        let x = sweep.columns.x(sweep.line(node));
        self.stems.push(Stem {
            node,
            x,
            top,
            bottom: y,
        })?;
        self.board.take(over, y.saturating_add(4))?;
        self.put_priorities(plan, sweep, node, y.saturating_add(10))?;
        Ok(if is_double { y.saturating_add(4) } else { y })
    }

    /// Keeps the room for the priorities of the links of a step, down to `bottom`.
    fn put_priorities(
        &mut self,
        plan: &Plan,
        sweep: &Sweep,
        node: usize,
        bottom: u32,
    ) -> Result<(), DrawError> {
        let outs = plan.graph.outs();
        for place in outs.start(node)..outs.end(node) {
            if let Some(reach) = priority_of(plan, sweep, outs.at(place)) {
                self.board.take(reach, bottom)?;
            }
        }
        Ok(())
    }

    /// Draws a step below its ends.
    fn put_step(
        &mut self,
        plan: &Plan,
        sweep: &Sweep,
        step: usize,
        event: Event,
    ) -> Result<(), DrawError> {
        let x = sweep.columns.x(sweep.line(step));
        let start = self.put_join(plan, sweep, step, event)?;
        let arrives = has_arrivals(&plan.graph, step);
        let mut y = start.y;
        if arrives {
            y = self.put_entry(plan, sweep, step, y)?;
        }
        let least = match start.way {
            Way::Nothing if !arrives && !plan.is_entered => 0,
            Way::Nothing if !arrives => STUB,
            _ => y.saturating_add(16),
        };
        let room = room_of(plan, sweep, step, 10);
        let top = self.board.settle(step, room, least)?;
        if arrives || start.way != Way::Nothing {
            let from = if start.way == Way::Nothing {
                y.saturating_sub(8)
            } else {
                start.y
            };
            self.put_stem(step, x, Start { y: from, ..start }, top)?;
        }
        self.put_rows(plan, step, x, top)
    }

    /// Draws the arrow by which jumps and loops enter a step, whose line begins at `start`. Answers how far down it is.
    fn put_entry(
        &mut self,
        plan: &Plan,
        sweep: &Sweep,
        step: usize,
        start: u32,
    ) -> Result<u32, DrawError> {
        let x = sweep.columns.x(sweep.line(step));
        let reach = Reach {
            left: sweep.lane(step).map_or(x, |lane| sweep.columns.x(lane)),
            right: x.saturating_add(arrival(&plan.graph, step)),
        };
        let y = start.max(self.board.top(reach)).saturating_add(12);
        self.entries.set(step, y);
        self.board.take(reach, y.saturating_add(4))?;
        Ok(y)
    }

    /// Keeps the room for the action block of a step whose box begins at `top`.
    fn put_rows(&mut self, plan: &Plan, step: usize, x: u32, top: u32) -> Result<(), DrawError> {
        let sizes = plan.graph.step(step);
        if sizes.block > 0 {
            let left = x.saturating_add(u32::from(sizes.half));
            let right = left.saturating_add(sizes.block).saturating_add(14);
            let bottom = top
                .saturating_add((BOX - ROW) / 2)
                .saturating_add(sizes.rows);
            self.board.take(Reach { left, right }, bottom)?;
        }
        Ok(())
    }

    /// Draws a transition below its ends.
    fn put_transition(
        &mut self,
        plan: &Plan,
        sweep: &Sweep,
        node: usize,
        event: Event,
    ) -> Result<(), DrawError> {
        let x = sweep.columns.x(sweep.line(node));
        let start = self.put_join(plan, sweep, node, event)?;
        let room = room_of(plan, sweep, node, BESIDE);
        let least = start.y.saturating_add(22 - BESIDE);
        let bar = self.board.settle(node, room, least)?.saturating_add(BESIDE);
        self.put_stem(node, x, start, bar)?;
        let text = Reach {
            left: x.saturating_add(BAR),
            right: x.saturating_add(extent(&plan.graph, node).right),
        };
        let lines = plan.graph.transition(node).lines;
        self.board
            .take(text, bar.saturating_add(lines).saturating_add(8))?;
        self.put_split(plan, sweep, node, bar.saturating_add(2))
    }

    /// Draws the links of these ends as jumps.
    fn put_jumps(&mut self, plan: &Plan, sweep: &Sweep, event: Event) -> Result<(), DrawError> {
        for number in event.start..event.start.saturating_add(event.count) {
            let end = sweep.end(number);
            if let Some(link) = end.link {
                self.put_jump(plan, link, sweep.columns.x(end.line))?;
            }
        }
        Ok(())
    }

    /// Draws a link as a jump.
    fn put_jump(&mut self, plan: &Plan, link: usize, x: u32) -> Result<(), DrawError> {
        let name = plan.graph.name(plan.graph.target(link));
        let reach = Reach {
            left: x.saturating_sub(6),
            right: x.saturating_add(12).saturating_add(name),
        };
        let top = self.hang.get(link);
        let is_step = plan.graph.is_step(plan.graph.source(link));
        let least = top.saturating_add(if is_step { 15 } else { 10 });
        let bottom = least.max(self.board.top(reach).saturating_add(4));
        self.links.set(link, Some(Drawing::Jump { x, top, bottom }));
        self.board.take(reach, bottom.saturating_add(16))?;
        Ok(())
    }

    /// Draws the links of these ends as a loop to a step; where it would be too high, as jumps.
    fn put_loop(
        &mut self,
        plan: &Plan,
        sweep: &Sweep,
        step: usize,
        event: Event,
    ) -> Result<(), DrawError> {
        let (low, reach) = self.ends_of(sweep, event);
        let lane = sweep
            .lane(step)
            .map_or(reach.left, |lane| sweep.columns.x(lane));
        let reach = Reach {
            left: lane,
            right: reach.right,
        };
        let y = low.max(self.board.top(reach)).saturating_add(14);
        if y.saturating_sub(self.entries.get(step)) > SHORT {
            return self.put_jumps(plan, sweep, event);
        }
        self.put_loops(sweep, event, lane, y);
        self.board.take(reach, y.saturating_add(6))?;
        Ok(())
    }

    /// Draws the links of these ends as loops that go to the left at `bottom`, each to the one before it, the first to the lane.
    fn put_loops(&mut self, sweep: &Sweep, event: Event, lane: u32, bottom: u32) {
        let mut side = lane;
        for number in event.start..event.start.saturating_add(event.count) {
            let end = sweep.end(number);
            let x = sweep.columns.x(end.line);
            if let Some(link) = end.link {
                let drawing = Drawing::Loop {
                    x,
                    top: self.hang.get(link),
                    bottom,
                    side,
                    is_first: number == event.start,
                };
                self.links.set(link, Some(drawing));
            }
            side = x;
        }
    }
}

/// The root that is placed next, if it is one.
fn root_of(sweep: &Sweep, event: Event) -> Option<usize> {
    match event.shown {
        Shown::Node(node) if sweep.end(event.start).link.is_none() => Some(node),
        _ => None,
    }
}

/// The room that a node takes on its line, so far below what is above it.
fn room_of(plan: &Plan, sweep: &Sweep, node: usize, gap: u32) -> NodeRoom {
    NodeRoom {
        x: sweep.columns.x(sweep.line(node)),
        own: own_extent(&plan.graph, node),
        right: extent(&plan.graph, node).right,
        height: height(&plan.graph, node),
        gap,
    }
}

/// How far a bar goes to the left and to the right: a double one goes beyond its branches.
fn wider(reach: Reach, is_double: bool) -> Reach {
    let over = if is_double { OVER } else { 0 };
    Reach {
        left: reach.left.saturating_sub(over),
        right: reach.right.saturating_add(over),
    }
}

/// How far the links that hang from a node go to the left and to the right.
fn branches_of(plan: &Plan, sweep: &Sweep, node: usize) -> Reach {
    let outs = plan.graph.outs();
    let mut reach = Reach {
        left: u32::MAX,
        right: 0,
    };
    for place in outs.start(node)..outs.end(node) {
        let x = sweep.columns.x(sweep.leave(outs.at(place)));
        reach.left = reach.left.min(x);
        reach.right = reach.right.max(x);
    }
    reach
}

/// How far the priorities at the links of a step go to the right; 0, where there is none.
fn said_of(plan: &Plan, sweep: &Sweep, node: usize) -> u32 {
    let outs = plan.graph.outs();
    let mut said = 0;
    for place in outs.start(node)..outs.end(node) {
        if let Some(reach) = priority_of(plan, sweep, outs.at(place)) {
            said = said.max(reach.right);
        }
    }
    said
}

/// How far the priority at a link of a step goes to the left and to the right, where there is one.
fn priority_of(plan: &Plan, sweep: &Sweep, link: usize) -> Option<Reach> {
    let target = plan.graph.target(link);
    if plan.graph.is_step(target) {
        return None;
    }
    let priority = plan.graph.priority(target)?;
    let left = sweep.columns.x(sweep.leave(link));
    let right = left.saturating_add(4).saturating_add(priority);
    Some(Reach { left, right })
}
