//! What stands left of what: nodes are placed from left to right, below links that hang side by side.

use crate::columns::{Columns, Room, Side};
use crate::event::{End, Event, NO_END, Shown};
use crate::extent::Extent;
use crate::extents::{extent, stubs_of};
use crate::graph::Kind;
use crate::outlets::main_outlet;
use crate::plan::Plan;
use crate::sizes::{GAP, LANE};
use crate::strands::{Run, Strand, Strands, Thread};
use crate::table::Table;
use std::alloc::{AllocError, Global};
use std::cmp::Ordering;

/// Where a loop may lead to a step.
#[derive(Clone, Copy)]
pub struct Home {
    /// The strand of its lane.
    pub lane: usize,
    /// The line of its lane.
    pub line: usize,
}

/// The sweep over the networks of a chart.
#[derive(Drop)]
pub struct Sweep {
    alloc: Global,
    pub columns: Columns,
    pub strands: Strands,
    // the line of each node, that on which each link leaves its node, and the lane of each step
    line: Table<Option<usize>>,
    leave: Table<usize>,
    home: Table<Option<Home>>,
    // the strands to each node that were hung, how many they are, and how many lines to it do not hang yet
    hung_first: Table<Option<usize>>,
    hung_last: Table<Option<usize>>,
    hung: Table<usize>,
    wait: Table<usize>,
    // how many rows of strands were numbered
    rows: usize,
    /// What is drawn, in turn.
    pub events: Vec<Event>,
    ends: Table<End>,
}

impl Sweep {
    /// Nothing is placed yet. The one error is that memory was refused.
    pub fn new(alloc: Global, plan: &Plan) -> Result<Sweep, AllocError> {
        let nodes = plan.graph.nodes();
        let mut sweep = Sweep {
            alloc,
            columns: Columns::new(alloc, plan.graph.steps())?,
            strands: Strands::new(alloc),
            line: Table::blank(alloc, nodes, None)?,
            leave: Table::blank(alloc, plan.graph.links(), 0)?,
            home: Table::blank(alloc, plan.graph.steps(), None)?,
            hung_first: Table::blank(alloc, nodes, None)?,
            hung_last: Table::blank(alloc, nodes, None)?,
            hung: Table::blank(alloc, nodes, 0)?,
            wait: Table::new(alloc, 0),
            rows: 0,
            events: Vec::new(alloc),
            ends: Table::new(alloc, NO_END),
        };
        for node in 0..nodes {
            sweep.wait.push(plan.graph.lines_in(node))?;
        }
        Ok(sweep)
    }

    /// The line of a node.
    pub fn line(&self, node: usize) -> usize {
        self.line.get(node).unwrap_or(0)
    }

    /// The line on which a link leaves its node.
    pub fn leave(&self, link: usize) -> usize {
        self.leave.get(link)
    }

    /// The line of the lane of a step that a loop has taken.
    pub fn lane(&self, step: usize) -> Option<usize> {
        if self.columns.has_loop(step) {
            self.home.get(step).map(|home| home.line)
        } else {
            None
        }
    }

    /// The end of this number.
    pub fn end(&self, number: usize) -> End {
        self.ends.get(number)
    }

    /// Places all that the roots of a network lead to, in place of what was placed before. Answers the first column.
    /// The one error is that memory was refused.
    pub fn network(&mut self, plan: &mut Plan, network: usize) -> Result<usize, AllocError> {
        self.events = Vec::new(self.alloc);
        self.strands.turn();
        let start = self.columns.first()?;
        let roots = self.hang_roots(plan, network, start)?;
        for strand in roots.as_slice() {
            let root = self.strands.get(*strand).to;
            self.grow(plan, root, &[*strand])?;
        }
        self.place_all(plan)?;
        Ok(start)
    }

    /// Hangs the roots of a network side by side. Answers their strands.
    fn hang_roots(
        &mut self,
        plan: &Plan,
        network: usize,
        start: usize,
    ) -> Result<Vec<usize>, AllocError> {
        let mut strands = Vec::new(self.alloc);
        let mut border = start;
        let mut left = None;
        let mut next = Some(plan.networks.first(network));
        for _ in 0..plan.graph.nodes() {
            let Some(root) = next else {
                break;
            };
            let line = self.columns.behind(border, Side::Own)?;
            let right = self.columns.behind(line, Side::Own)?;
            let room = Room {
                line,
                left: border,
                right,
            };
            let strand = self
                .strands
                .add(Strand::new(Thread::Root, root, room), left)?;
            strands.push(strand)?;
            left = Some(strand);
            border = right;
            next = plan.networks.next(root);
        }
        Ok(strands)
    }

    /// From left to right, places the first node to which all its lines hang side by side; where there is none, cuts lines.
    fn place_all(&mut self, plan: &mut Plan) -> Result<(), AllocError> {
        let mut from = self.strands.head();
        for _ in 0..plan.graph.nodes().saturating_add(plan.graph.links()) {
            if let Some(run) = self.next_whole(from) {
                from = self.grow_run(plan, run)?;
            } else if self.relieve(plan)? {
                from = self.strands.head();
            } else {
                break;
            }
        }
        Ok(())
    }

    /// From a strand on, the first run of all strands to a node to which all its lines hang.
    fn next_whole(&self, from: Option<usize>) -> Option<Run> {
        let mut next = from;
        let mut is_fresh = true;
        for _ in 0..self.strands.count() {
            let strand = next?;
            if let Some(run) = self.whole_run(strand, is_fresh) {
                return Some(run);
            }
            is_fresh = is_fresh && self.strands.get(strand).is_lane();
            next = self.strands.get(strand).next;
        }
        None
    }

    /// The run around a strand, if it is of all strands to a node to which all its lines hang. Within a run none but the first is
    /// looked at, unless it is fresh.
    fn whole_run(&self, strand: usize, is_fresh: bool) -> Option<Run> {
        if !self.hangs_whole(strand) || !is_fresh && !self.strands.is_first(strand) {
            return None;
        }
        let run = self.strands.run_around(strand);
        if run.count == self.hung.get(self.strands.get(strand).to) {
            Some(run)
        } else {
            None
        }
    }

    /// Whether a strand is a link to a node to which all its lines hang.
    fn hangs_whole(&self, strand: usize) -> bool {
        let Strand { thread, to, .. } = self.strands.get(strand);
        thread != Thread::Lane && self.wait.get(to) == 0
    }

    /// Ends the lanes of a run. Answers its strands.
    fn without_lanes(&mut self, run: Run) -> Result<Vec<usize>, AllocError> {
        let mut strands = Vec::new(self.alloc);
        let between = self.strands.between(self.alloc, run.first, run.last)?;
        for strand in between.as_slice() {
            if self.strands.get(*strand).is_lane() {
                self.strands.end(&self.columns, *strand);
            } else {
                strands.push(*strand)?;
            }
        }
        Ok(strands)
    }

    /// Grows the node of a run. Answers the strand from which the sweep goes on.
    fn grow_run(&mut self, plan: &Plan, run: Run) -> Result<Option<usize>, AllocError> {
        let Strand { to, previous, .. } = self.strands.get(run.first);
        let strands = self.without_lanes(run)?;
        self.grow(plan, to, strands.as_slice())?;
        match previous {
            Some(strand) if self.strands.get(strand).is_open => Ok(previous),
            _ => Ok(self.strands.head()),
        }
    }

    /// Places a node, and below a step also the transitions to which nothing else leads, so that they stand in a row.
    fn grow(&mut self, plan: &Plan, node: usize, strands: &[usize]) -> Result<(), AllocError> {
        let outlets = self.place(plan, node, strands)?;
        let mut row = Vec::new(self.alloc);
        for strand in outlets.as_slice() {
            if self.leads_alone(plan, *strand) {
                let to = self.strands.get(*strand).to;
                let below = self.place(plan, to, &[*strand])?;
                row.extend_from_slice(below.as_slice())?;
            } else {
                row.push(*strand)?;
            }
        }
        let line = self.line(node);
        self.settle(plan, row.as_slice(), line)
    }

    /// Whether a strand is the one line to a transition.
    fn leads_alone(&self, plan: &Plan, strand: usize) -> bool {
        let Strand { thread, to, .. } = self.strands.get(strand);
        let is_line = matches!(thread, Thread::Link(link) if plan.graph.is_line(link));
        is_line && !plan.graph.is_step(to) && plan.graph.lines_in(to) == 1
    }

    /// Places a node below strands that stand side by side, and hangs its links. Answers their strands, from left to right.
    fn place(
        &mut self,
        plan: &Plan,
        node: usize,
        strands: &[usize],
    ) -> Result<Vec<usize>, AllocError> {
        let (Some(first), Some(last)) = (strands.first().copied(), strands.last().copied()) else {
            return Ok(Vec::new(self.alloc));
        };
        let line = self.choose_line(plan, node, strands);
        self.line.set(node, Some(line));
        let first = self.strands.get(first);
        let last = self.strands.get(last);
        self.end_all(node, strands)?;
        let mut room = Room {
            line,
            left: first.room.left,
            right: last.room.right,
        };
        self.strands.put_right_border(first.previous, room.left);
        self.strands.put_left_border(last.next, room.right);
        let mut left = first.previous;
        if plan.graph.is_step(node) && is_looped(plan, node) {
            let lane = self.add_lane(node, room.left, left)?;
            left = Some(lane);
            room.left = self.strands.get(lane).room.right;
        }
        self.keep_node(plan, node, room, last.room.line)?;
        self.hang(plan, node, room, left)
    }

    /// The line of a node: that of its dominator, where it is among those of the strands; else the first that hangs straight
    /// below its node; else the first.
    fn choose_line(&self, plan: &Plan, node: usize, strands: &[usize]) -> usize {
        let up = plan.dominators.up(node);
        let trunk = if up < plan.graph.nodes() {
            self.line.get(up)
        } else {
            None
        };
        let mut straight = None;
        let mut first = None;
        for strand in strands {
            let Strand { thread, room, .. } = self.strands.get(*strand);
            if trunk == Some(room.line) {
                return room.line;
            }
            if straight.is_none() && self.is_straight(plan, thread, room.line) {
                straight = Some(room.line);
            }
            first = first.or(Some(room.line));
        }
        straight.or(first).unwrap_or(0)
    }

    /// Whether a link hangs straight below its node.
    fn is_straight(&self, plan: &Plan, thread: Thread, line: usize) -> bool {
        match thread {
            Thread::Link(link) => self.line.get(plan.graph.source(link)) == Some(line),
            Thread::Root | Thread::Lane => false,
        }
    }

    /// Ends the strands to a node, which is drawn below them.
    fn end_all(&mut self, node: usize, strands: &[usize]) -> Result<(), AllocError> {
        let start = self.ends.len();
        for strand in strands {
            self.note_end(*strand)?;
            self.strands.end(&self.columns, *strand);
        }
        self.note(Shown::Node(node), start)
    }

    /// Notes where a strand ends, unless it is a lane.
    fn note_end(&mut self, strand: usize) -> Result<(), AllocError> {
        let Strand { thread, room, .. } = self.strands.get(strand);
        let link = match thread {
            Thread::Link(link) => Some(link),
            Thread::Root => None,
            Thread::Lane => return Ok(()),
        };
        self.ends.push(End {
            link,
            line: room.line,
        })?;
        Ok(())
    }

    /// Notes what is drawn next, with the ends from `start` on.
    fn note(&mut self, shown: Shown, start: usize) -> Result<(), AllocError> {
        let count = self.ends.len().saturating_sub(start);
        self.events.push(Event {
            shown,
            start,
            count,
        })?;
        Ok(())
    }

    /// Adds a lane for loops to a step behind its border to the left. Answers its strand.
    fn add_lane(
        &mut self,
        step: usize,
        border: usize,
        left: Option<usize>,
    ) -> Result<usize, AllocError> {
        let line = self.columns.behind(border, Side::Left)?;
        let right = self.columns.behind(line, Side::Left)?;
        let room = Room {
            line,
            left: border,
            right,
        };
        let extent = Extent {
            left: LANE,
            right: LANE,
        };
        self.columns.keep_lane(room, extent, step)?;
        let lane = self
            .strands
            .add(Strand::new(Thread::Lane, step, room), left)?;
        self.home.set(step, Some(Home { lane, line }));
        Ok(lane)
    }

    /// Keeps the room for a node, below strands of which the last hangs on this line.
    fn keep_node(
        &mut self,
        plan: &Plan,
        node: usize,
        room: Room,
        last: usize,
    ) -> Result<(), AllocError> {
        let Extent { left, right } = extent(&plan.graph, node);
        let right = right.saturating_add(GAP);
        self.columns.keep(room, Extent { left, right })?;
        let names = stubs_of(&plan.graph, node).room.saturating_add(GAP);
        self.columns.keep_apart(last, room.right, names, None)
    }

    /// Hangs the links of a node around its line, in this room. Answers their strands, from left to right.
    fn hang(
        &mut self,
        plan: &Plan,
        node: usize,
        room: Room,
        left: Option<usize>,
    ) -> Result<Vec<usize>, AllocError> {
        let outs = plan.graph.outs();
        let main = main_outlet(plan, node);
        let mut outlets = Vec::new(self.alloc);
        let mut left = left;
        let mut before = self.columns.before(room.line);
        let mut free = room;
        for place in outs.start(node)..outs.end(node) {
            let is_last = place.saturating_add(1) == outs.end(node);
            let own = self.room_of(free, before, place.cmp(&main), is_last)?;
            let strand = self.hang_link(plan, outs.at(place), own, left)?;
            outlets.push(strand)?;
            left = Some(strand);
            before = own.right;
            free.left = own.right;
        }
        if outlets.is_empty() {
            self.strands.put_right_border(left, room.right);
        }
        Ok(outlets)
    }

    /// The room for a link of a node with this room, which stands behind the column `before`: at the left of that which goes
    /// straight down, that itself, or at its right.
    fn room_of(
        &mut self,
        room: Room,
        before: usize,
        order: Ordering,
        is_last: bool,
    ) -> Result<Room, AllocError> {
        let side = match (order, self.columns.side(room.line)) {
            (Ordering::Less, _) => Side::Left,
            (_, Side::Own) => Side::Own,
            (_, Side::Left | Side::Right) => Side::Right,
        };
        let line = if order == Ordering::Equal {
            room.line
        } else {
            self.columns.behind(before, side)?
        };
        let right = if is_last {
            room.right
        } else {
            self.columns.behind(line, side)?
        };
        Ok(Room {
            line,
            right,
            ..room
        })
    }

    /// Hangs a link in its room, right behind a strand. Answers its strand.
    fn hang_link(
        &mut self,
        plan: &Plan,
        link: usize,
        room: Room,
        left: Option<usize>,
    ) -> Result<usize, AllocError> {
        let to = plan.graph.target(link);
        let strand = self
            .strands
            .add(Strand::new(Thread::Link(link), to, room), left)?;
        self.leave.set(link, room.line);
        if plan.graph.is_line(link) {
            self.note_hung(strand, to);
        }
        let right = match plan.graph.priority(to) {
            Some(priority) if !plan.graph.is_step(to) => priority.saturating_add(8),
            _ => LANE,
        };
        self.columns.keep(room, Extent { left: LANE, right })?;
        Ok(strand)
    }

    /// Notes that a line to a node hangs.
    fn note_hung(&mut self, strand: usize, to: usize) {
        match self.hung_last.get(to) {
            Some(last) => self.strands.put_hung_next(last, strand),
            None => self.hung_first.set(to, Some(strand)),
        }
        self.hung_last.set(to, Some(strand));
        self.hung.set(to, self.hung.get(to).saturating_add(1));
        self.wait.set(to, self.wait.get(to).saturating_sub(1));
    }

    /// Ends a strand as a jump.
    fn jump(&mut self, plan: &Plan, strand: usize) -> Result<(), AllocError> {
        let start = self.ends.len();
        self.label(plan, strand)?;
        self.note_end(strand)?;
        self.strands.end(&self.columns, strand);
        self.note(Shown::Jump, start)
    }

    /// Keeps the room for the name to which a strand would jump.
    fn label(&mut self, plan: &Plan, strand: usize) -> Result<(), AllocError> {
        let Strand { to, room, .. } = self.strands.get(strand);
        let right = plan.graph.name(to).saturating_add(12 + GAP);
        self.columns.keep(room, Extent { left: 8, right })
    }

    /// The lane of the step to which a strand may loop, below a node with this line.
    fn lane_of(&self, plan: &Plan, strand: usize, line: usize) -> Option<usize> {
        let Strand { thread, to, .. } = self.strands.get(strand);
        let is_loop = matches!(thread, Thread::Link(link) if plan.graph.is_loop(link));
        let home = self.home.get(to)?;
        if is_loop && self.line.get(to) == Some(line) && self.strands.get(home.lane).is_open {
            Some(home.lane)
        } else {
            None
        }
    }

    /// Ends the strands of a row below a node with this line that are no lines: by a loop where the lane stands beside, else by a
    /// jump.
    fn settle(&mut self, plan: &Plan, row: &[usize], line: usize) -> Result<(), AllocError> {
        self.rows = self.rows.saturating_add(1);
        for strand in row {
            self.strands.put_row(*strand, self.rows);
        }
        let straight = row
            .iter()
            .copied()
            .find(|strand| self.strands.get(*strand).room.line == line);
        if let Some(main) = straight {
            if self.is_open_end(plan, main) && self.lane_of(plan, main, line).is_some() {
                self.jump_before(plan, row, main)?;
                self.end_one(plan, main, line, straight)?;
            }
        }
        for strand in row {
            if self.is_open_end(plan, *strand) {
                self.end_one(plan, *strand, line, straight)?;
            }
        }
        Ok(())
    }

    /// Whether a strand is open, and no line.
    fn is_open_end(&self, plan: &Plan, strand: usize) -> bool {
        let Strand {
            thread,
            is_open,
            ..
        } = self.strands.get(strand);
        is_open && matches!(thread, Thread::Link(link) if !plan.graph.is_line(link))
    }

    /// Ends those of a row that stand before `main` and lead elsewhere as jumps, where they are no lines.
    fn jump_before(&mut self, plan: &Plan, row: &[usize], main: usize) -> Result<(), AllocError> {
        let to = self.strands.get(main).to;
        for strand in row {
            if *strand == main {
                break;
            }
            if self.is_open_end(plan, *strand) && self.strands.get(*strand).to != to {
                self.jump(plan, *strand)?;
            }
        }
        Ok(())
    }

    /// Ends a strand of a row by a loop, or as a jump.
    fn end_one(
        &mut self,
        plan: &Plan,
        strand: usize,
        line: usize,
        straight: Option<usize>,
    ) -> Result<(), AllocError> {
        if let Some(lane) = self.lane_of(plan, strand, line) {
            if let Some(run) = self.loop_around(plan, strand, lane, line) {
                let goes_on = straight.is_some_and(|other| other != strand
                    && self.strands.get(other).is_open);
                if !goes_on || self.is_only_loop(plan, lane, run) {
                    return self.close(plan, lane, run);
                }
            }
        }
        self.jump(plan, strand)
    }

    /// The strands of a row that may loop to the same step and stand side by side with this one, from the lane on, but for lanes;
    /// none, where others stand between.
    fn loop_around(&self, plan: &Plan, strand: usize, lane: usize, line: usize) -> Option<Run> {
        let mut run = Run {
            first: strand,
            last: strand,
            count: 1,
        };
        for _ in 0..self.strands.count() {
            let left = self.strands.get(run.first).previous?;
            if left == lane {
                return Some(self.extend_loop(plan, run, line));
            }
            if !self.strands.get(left).is_lane() && !self.may_join(plan, left, strand, line) {
                return None;
            }
            run.first = left;
            run.count = run.count.saturating_add(1);
        }
        None
    }

    /// Such a run with those at its right.
    fn extend_loop(&self, plan: &Plan, run: Run, line: usize) -> Run {
        let mut run = run;
        for _ in 0..self.strands.count() {
            match self.strands.get(run.last).next {
                Some(right) if self.may_join(plan, right, run.last, line) => {
                    run.last = right;
                    run.count = run.count.saturating_add(1);
                }
                _ => break,
            }
        }
        run
    }

    /// Whether a strand may loop to the same step as another of its row.
    fn may_join(&self, plan: &Plan, strand: usize, other: usize, line: usize) -> bool {
        let Strand { to, row, .. } = self.strands.get(other);
        let joining = self.strands.get(strand);
        joining.row == row && joining.to == to && self.lane_of(plan, strand, line).is_some()
    }

    /// Whether the loops of a run, which begins behind the lane of their step, are all links back to it, with no lane between.
    fn is_only_loop(&self, plan: &Plan, lane: usize, run: Run) -> bool {
        let step = self.strands.get(lane).to;
        let ins = plan.graph.ins();
        let mut loops = 0usize;
        for place in ins.start(step)..ins.end(step) {
            loops = loops.saturating_add(usize::from(plan.graph.is_loop(ins.at(place))));
        }
        loops == run.count && !self.strands.has_lane(run)
    }

    /// Ends a lane and the run behind it, whose strands become loops; lanes of inner loops end with them, since nothing can
    /// close these any more.
    fn close(&mut self, plan: &Plan, lane: usize, run: Run) -> Result<(), AllocError> {
        let step = self.strands.get(lane).to;
        let start = self.ends.len();
        let strands = self.strands.between(self.alloc, lane, run.last)?;
        for strand in strands.as_slice() {
            if !self.strands.get(*strand).is_lane() {
                self.label(plan, *strand)?;
                self.note_end(*strand)?;
            }
            self.strands.end(&self.columns, *strand);
        }
        self.columns.take_lane(step);
        self.note(Shown::Loop(step), start)
    }

    /// Where no node can be placed: of the first to which all its lines hang, but apart, the longest run stays, the other lines
    /// become jumps. Answers whether there is one.
    fn relieve(&mut self, plan: &mut Plan) -> Result<bool, AllocError> {
        let Some(strand) = self.first_hung() else {
            return Ok(false);
        };
        let node = self.strands.get(strand).to;
        let run = self.longest_run(node, strand);
        let kept = self.strands.between(self.alloc, run.first, run.last)?;
        self.rows = self.rows.saturating_add(1);
        for strand in kept.as_slice() {
            self.strands.put_row(*strand, self.rows);
        }
        self.cut_others(plan, node)?;
        self.hung.set(node, run.count);
        Ok(true)
    }

    /// The first strand to a node to which all its lines hang.
    fn first_hung(&self) -> Option<usize> {
        let mut next = self.strands.head();
        for _ in 0..self.strands.count() {
            let strand = next?;
            if self.hangs_whole(strand) {
                return Some(strand);
            }
            next = self.strands.get(strand).next;
        }
        None
    }

    /// The longest run of strands to a node; of equal ones that whose first line was made first.
    fn longest_run(&self, node: usize, strand: usize) -> Run {
        let mut longest = Run {
            first: strand,
            last: strand,
            count: 0,
        };
        let mut next = self.hung_first.get(node);
        for _ in 0..self.strands.count() {
            let Some(strand) = next else {
                break;
            };
            let Strand {
                is_open,
                hung_next,
                ..
            } = self.strands.get(strand);
            if is_open && self.strands.is_first(strand) {
                longest = self
                    .strands
                    .longer(longest, self.strands.run_around(strand));
            }
            next = hung_next;
        }
        longest
    }

    /// Ends the strands to a node as jumps that do not belong to the latest row.
    fn cut_others(&mut self, plan: &mut Plan, node: usize) -> Result<(), AllocError> {
        let mut next = self.hung_first.get(node);
        for _ in 0..self.strands.count() {
            let Some(strand) = next else {
                break;
            };
            let Strand {
                thread,
                is_open,
                row,
                hung_next,
                ..
            } = self.strands.get(strand);
            if let (Thread::Link(link), true) = (thread, is_open && row != self.rows) {
                plan.graph.turn(link, Kind::Cut);
                self.jump(plan, strand)?;
            }
            next = hung_next;
        }
        Ok(())
    }
}

/// Whether a loop may lead to a step.
fn is_looped(plan: &Plan, node: usize) -> bool {
    let ins = plan.graph.ins();
    for place in ins.start(node)..ins.end(node) {
        if plan.graph.is_loop(ins.at(place)) {
            return true;
        }
    }
    false
}
