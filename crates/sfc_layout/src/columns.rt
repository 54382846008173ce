//! What stands left of what, and where.

use crate::extent::Extent;
use crate::table::Table;
use std::alloc::{AllocError, Global};

/// On which side of a line that goes on a column was made.
#[derive(Clone, Copy, Debug, PartialEq, Eq)]
pub enum Side {
    /// On none.
    Own,
    Left,
    /// At its right, or at the right of one that was made at the left.
    Right,
}

/// A line, with the borders to its neighbours.
#[derive(Clone, Copy, Debug, PartialEq, Eq)]
pub struct Room {
    pub line: usize,
    pub left: usize,
    pub right: usize,
}

/// A line from top to bottom, or a border between two.
#[derive(Clone, Copy)]
struct Column {
    before: Option<usize>,
    after: Option<usize>,
    side: Side,
    // the latest distance to another column
    distance: Option<usize>,
    x: u32,
    // the least x that the columns before it allow
    least: u32,
}

const NOWHERE: Column = Column {
    before: None,
    after: None,
    side: Side::Own,
    distance: None,
    x: 0,
    least: 0,
};

/// A column is at least so far at the right of another.
#[derive(Clone, Copy)]
struct Distance {
    to: usize,
    pixels: u32,
    // the step whose lane this keeps free: it counts where a loop has taken the lane
    lane: Option<usize>,
    // the distance from the same column that was stated before
    earlier: Option<usize>,
}

const NO_DISTANCE: Distance = Distance {
    to: 0,
    pixels: 0,
    lane: None,
    earlier: None,
};

/// The columns, in an order from left to right, with distances between them.
#[derive(Drop)]
pub struct Columns {
    columns: Table<Column>,
    distances: Table<Distance>,
    // the steps whose lanes a loop has taken
    used: Table<bool>,
}

impl Columns {
    /// No columns; no lane of these steps is taken. The one error is that memory was refused.
    pub fn new(alloc: Global, steps: usize) -> Result<Columns, AllocError> {
        Ok(Columns {
            columns: Table::new(alloc, NOWHERE),
            distances: Table::new(alloc, NO_DISTANCE),
            used: Table::blank(alloc, steps, false)?,
        })
    }

    /// A new column, the first of a network. The one error is that memory was refused.
    pub fn first(&mut self) -> Result<usize, AllocError> {
        self.columns.push(NOWHERE)
    }

    /// A new column right behind another. The one error is that memory was refused.
    pub fn behind(&mut self, left: usize, side: Side) -> Result<usize, AllocError> {
        let mut before = self.columns.get(left);
        let right = before.after;
        let column = self.columns.push(Column {
            before: Some(left),
            after: right,
            side,
            ..NOWHERE
        })?;
        before.after = Some(column);
        self.columns.set(left, before);
        if let Some(right) = right {
            let mut after = self.columns.get(right);
            after.before = Some(column);
            self.columns.set(right, after);
        }
        Ok(column)
    }

    /// The column at the left of another.
    pub fn before(&self, column: usize) -> usize {
        self.columns.get(column).before.unwrap_or(column)
    }

    /// On which side of a line that goes on a column was made.
    pub fn side(&self, column: usize) -> Side {
        self.columns.get(column).side
    }

    /// Where a column is, in pixels from the left of its sheet.
    pub fn x(&self, column: usize) -> u32 {
        self.columns.get(column).x
    }

    /// A loop takes the lane of a step.
    pub fn take_lane(&mut self, step: usize) {
        self.used.set(step, true);
    }

    /// Whether a loop has taken the lane of a step.
    pub fn has_loop(&self, step: usize) -> bool {
        self.used.get(step)
    }

    /// A column is at least so far at the right of another. The one error is that memory was refused.
    pub fn keep_apart(
        &mut self,
        from: usize,
        to: usize,
        pixels: u32,
        lane: Option<usize>,
    ) -> Result<(), AllocError> {
        let mut column = self.columns.get(from);
        let distance = self.distances.push(Distance {
            to,
            pixels,
            lane,
            earlier: column.distance,
        })?;
        column.distance = Some(distance);
        self.columns.set(from, column);
        Ok(())
    }

    /// Something on a line needs so much room. The one error is that memory was refused.
    pub fn keep(&mut self, room: Room, extent: Extent) -> Result<(), AllocError> {
        self.keep_apart(room.left, room.line, extent.left, None)?;
        self.keep_apart(room.line, room.right, extent.right, None)
    }

    /// The lane of a step needs so much room, if a loop takes it. The one error is that memory was refused.
    pub fn keep_lane(&mut self, room: Room, extent: Extent, step: usize) -> Result<(), AllocError> {
        self.keep_apart(room.left, room.line, extent.left, Some(step))?;
        self.keep_apart(room.line, room.right, extent.right, Some(step))
    }

    /// How many pixels a distance asks for.
    fn pixels(&self, distance: Distance) -> u32 {
        match distance.lane {
            Some(step) if !self.used.get(step) => 0,
            _ => distance.pixels,
        }
    }

    /// Finds where the columns from this first one on are: each as far left as the distances allow; then what was made at the
    /// left of a line as far right as it may, and what was made at the right of such as far left. Answers the x of the last.
    /// The one error is that memory was refused.
    pub fn solve(&mut self, alloc: Global, first: usize) -> Result<u32, AllocError> {
        let order = self.order(alloc, first)?;
        for column in order.as_slice() {
            self.push_right(*column);
        }
        for column in order.iter().rev() {
            self.pull_right(*column);
        }
        for column in order.as_slice() {
            self.pull_left(*column);
        }
        Ok(self.last_x(order.as_slice()))
    }

    /// The columns from this first one on, from left to right.
    fn order(&self, alloc: Global, first: usize) -> Result<Vec<usize>, AllocError> {
        let mut order = Vec::new(alloc);
        let mut next = Some(first);
        for _ in 0..self.columns.len() {
            let Some(column) = next else {
                break;
            };
            order.push(column)?;
            next = self.columns.get(column).after;
        }
        Ok(order)
    }

    /// The largest x of these columns.
    fn last_x(&self, order: &[usize]) -> u32 {
        let mut last = 0;
        for column in order {
            last = self.x(*column).max(last);
        }
        last
    }

    /// Has all to which this column states a distance at least so far right.
    fn push_right(&mut self, column: usize) {
        let Column { x, distance, .. } = self.columns.get(column);
        let mut next = distance;
        for _ in 0..self.distances.len() {
            let Some(number) = next else {
                break;
            };
            let distance = self.distances.get(number);
            let mut other = self.columns.get(distance.to);
            other.x = other.x.max(x.saturating_add(self.pixels(distance)));
            self.columns.set(distance.to, other);
            next = distance.earlier;
        }
    }

    /// Has a column that was made at a side as far right as its distances allow.
    fn pull_right(&mut self, column: usize) {
        let mut moved = self.columns.get(column);
        if moved.side != Side::Own && moved.distance.is_some() {
            moved.x = moved.x.max(self.most(moved));
            self.columns.set(column, moved);
        }
    }

    /// The most x that the distances of a column allow.
    fn most(&self, column: Column) -> u32 {
        let mut most = u32::MAX;
        let mut next = column.distance;
        for _ in 0..self.distances.len() {
            let Some(number) = next else {
                break;
            };
            let distance = self.distances.get(number);
            let x = self.x(distance.to).saturating_sub(self.pixels(distance));
            most = most.min(x);
            next = distance.earlier;
        }
        most
    }

    /// Has a column that was made at the right as far left as those before it allow, and states what it asks of the others.
    fn pull_left(&mut self, column: usize) {
        let mut moved = self.columns.get(column);
        if moved.side == Side::Right {
            moved.x = moved.least;
            self.columns.set(column, moved);
        }
        let mut next = moved.distance;
        for _ in 0..self.distances.len() {
            let Some(number) = next else {
                break;
            };
            let distance = self.distances.get(number);
            let mut other = self.columns.get(distance.to);
            other.least = other
                .least
                .max(moved.x.saturating_add(self.pixels(distance)));
            self.columns.set(distance.to, other);
            next = distance.earlier;
        }
    }
}
