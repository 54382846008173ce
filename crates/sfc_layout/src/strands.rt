//! Open links that hang down, from left to right.

use crate::columns::{Columns, Room, Side};
use crate::table::Table;
use std::alloc::{AllocError, Global};

/// What a strand is of.
#[derive(Clone, Copy, Debug, PartialEq, Eq)]
pub enum Thread {
    /// A link to a node.
    Link(usize),
    /// The way to a root.
    Root,
    /// A lane for loops to a step.
    Lane,
}

/// An open link that hangs down on a line, or a lane.
#[derive(Clone, Copy)]
pub struct Strand {
    pub thread: Thread,
    /// The node to which it leads.
    pub to: usize,
    pub room: Room,
    pub previous: Option<usize>,
    pub next: Option<usize>,
    pub is_open: bool,
    /// The row of outlets to which it belongs.
    pub row: usize,
    /// The strand to the same node that was hung next.
    pub hung_next: Option<usize>,
}

const NO_STRAND: Strand = Strand {
    thread: Thread::Lane,
    to: usize::MAX,
    room: Room {
        line: usize::MAX,
        left: usize::MAX,
        right: usize::MAX,
    },
    previous: None,
    next: None,
    is_open: false,
    row: 0,
    hung_next: None,
};

impl Strand {
    /// A strand that is to be added.
    pub fn new(thread: Thread, to: usize, room: Room) -> Strand {
        Strand {
            thread,
            to,
            room,
            ..NO_STRAND
        }
    }

    /// Whether it is a lane.
    pub fn is_lane(&self) -> bool {
        self.thread == Thread::Lane
    }
}

/// Strands that stand side by side, but for lanes, from the first to the last of them.
#[derive(Clone, Copy, Debug, PartialEq, Eq)]
pub struct Run {
    pub first: usize,
    pub last: usize,
    pub count: usize,
}

/// The strands, the open ones in an order from left to right, with a border between two neighbours.
#[derive(Drop)]
pub struct Strands {
    strands: Table<Strand>,
    head: Option<usize>,
}

impl Strands {
    /// No strands.
    pub fn new(alloc: Global) -> Strands {
        Strands {
            strands: Table::new(alloc, NO_STRAND),
            head: None,
        }
    }

    /// The first strand from the left.
    pub fn head(&self) -> Option<usize> {
        self.head
    }

    /// How many strands were added.
    pub fn count(&self) -> usize {
        self.strands.len()
    }

    /// The strand of this number.
    pub fn get(&self, strand: usize) -> Strand {
        self.strands.get(strand)
    }

    /// Gives a strand the row of outlets to which it belongs.
    pub fn put_row(&mut self, strand: usize, row: usize) {
        let mut changed = self.strands.get(strand);
        changed.row = row;
        self.strands.set(strand, changed);
    }

    /// Gives a strand the one to the same node that was hung next.
    pub fn put_hung_next(&mut self, strand: usize, next: usize) {
        let mut changed = self.strands.get(strand);
        changed.hung_next = Some(next);
        self.strands.set(strand, changed);
    }

    /// Goes on to a network without strands.
    pub fn turn(&mut self) {
        self.head = None;
    }

    /// Adds a strand right behind another, or as the first. The one error is that memory was refused.
    pub fn add(&mut self, strand: Strand, left: Option<usize>) -> Result<usize, AllocError> {
        let right = match left {
            Some(left) => self.strands.get(left).next,
            None => self.head,
        };
        let added = self.strands.push(Strand {
            previous: left,
            next: right,
            is_open: true,
            ..strand
        })?;
        self.join(left, Some(added));
        self.join(Some(added), right);
        Ok(added)
    }

    /// Has two strands side by side.
    fn join(&mut self, left: Option<usize>, right: Option<usize>) {
        match left {
            Some(left) => {
                let mut changed = self.strands.get(left);
                changed.next = right;
                self.strands.set(left, changed);
            }
            None => self.head = right,
        }
        if let Some(right) = right {
            let mut changed = self.strands.get(right);
            changed.previous = left;
            self.strands.set(right, changed);
        }
    }

    /// Ends a strand; its neighbour towards the line that it left may be as wide as both from now on.
    pub fn end(&mut self, columns: &Columns, strand: usize) {
        let mut ended = self.strands.get(strand);
        ended.is_open = false;
        self.strands.set(strand, ended);
        self.join(ended.previous, ended.next);
        if columns.side(ended.room.line) == Side::Own {
            self.put_right_border(ended.previous, ended.room.right);
        } else {
            self.put_left_border(ended.next, ended.room.left);
        }
    }

    /// Gives a strand another border at its right.
    pub fn put_right_border(&mut self, strand: Option<usize>, border: usize) {
        if let Some(strand) = strand {
            let mut changed = self.strands.get(strand);
            changed.room.right = border;
            self.strands.set(strand, changed);
        }
    }

    /// Gives a strand another border at its left.
    pub fn put_left_border(&mut self, strand: Option<usize>, border: usize) {
        if let Some(strand) = strand {
            let mut changed = self.strands.get(strand);
            changed.room.left = border;
            self.strands.set(strand, changed);
        }
    }

    /// The strand to the same node next to this one, but for lanes: that at the left, or that at the right.
    fn neighbour(&self, strand: usize, to_left: bool) -> Option<usize> {
        let to = self.get(strand).to;
        let mut next = Some(strand);
        for _ in 0..self.count() {
            let at = self.get(next?);
            next = if to_left { at.previous } else { at.next };
            let beside = self.get(next?);
            if !beside.is_lane() {
                return if beside.to == to { next } else { None };
            }
        }
        None
    }

    /// Whether no strand to the same node is next to this one at its left.
    pub fn is_first(&self, strand: usize) -> bool {
        self.neighbour(strand, true).is_none()
    }

    /// The strands to the node of this one that stand side by side with it, but for lanes.
    pub fn run_around(&self, strand: usize) -> Run {
        let mut run = Run {
            first: strand,
            last: strand,
            count: 1,
        };
        for _ in 0..self.count() {
            if let Some(first) = self.neighbour(run.first, true) {
                run.first = first;
            } else if let Some(last) = self.neighbour(run.last, false) {
                run.last = last;
            } else {
                break;
            }
            run.count = run.count.saturating_add(1);
        }
        run
    }

    /// The strands from one on to another.
    pub fn between(
        &self,
        alloc: Global,
        first: usize,
        last: usize,
    ) -> Result<Vec<usize>, AllocError> {
        let mut strands = Vec::new(alloc);
        let mut next = Some(first);
        for _ in 0..self.count() {
            let Some(strand) = next else {
                break;
            };
            strands.push(strand)?;
            if strand == last {
                break;
            }
            next = self.get(strand).next;
        }
        Ok(strands)
    }

    /// Whether there is a lane in a run.
    pub fn has_lane(&self, run: Run) -> bool {
        let mut strand = run.first;
        for _ in 0..run.count {
            if self.get(strand).is_lane() {
                return true;
            }
            let Some(next) = self.get(strand).next else {
                break;
            };
            strand = next;
        }
        false
    }

    /// The longer of two runs; of equal ones that whose first line was made first.
    pub fn longer(&self, one: Run, other: Run) -> Run {
        let is_earlier = self.get(other.first).room.line < self.get(one.first).room.line;
        if other.count > one.count || other.count == one.count && is_earlier {
            other
        } else {
            one
        }
    }
}
