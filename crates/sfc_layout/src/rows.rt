//! The links of each node.

use crate::table::Table;
use std::alloc::{AllocError, Global};

/// Numbers in rows, one behind the other.
#[derive(Drop)]
pub struct Rows {
    // where each row begins; one more, where the last one ends
    starts: Table<usize>,
    numbers: Table<usize>,
}

impl Rows {
    /// The places at which each row has so many numbers, in turn from place 0 on; each of them has 0.
    /// The one error is that memory was refused.
    pub fn of_lengths(alloc: Global, lengths: &Table<usize>) -> Result<Rows, AllocError> {
        let mut starts = Table::new(alloc, 0);
        let mut end = 0usize;
        starts.push(0)?;
        for row in 0..lengths.len() {
            end = end.saturating_add(lengths.get(row));
            starts.push(end)?;
        }
        Ok(Rows {
            starts,
            numbers: Table::blank(alloc, end, 0)?,
        })
    }

    /// The place of the first number of a row.
    pub fn start(&self, row: usize) -> usize {
        self.starts.get(row)
    }

    /// The place behind the last number of a row.
    pub fn end(&self, row: usize) -> usize {
        self.starts.get(row.saturating_add(1))
    }

    /// How many numbers a row has.
    pub fn count(&self, row: usize) -> usize {
        self.end(row).saturating_sub(self.start(row))
    }

    /// The number at a place.
    pub fn at(&self, place: usize) -> usize {
        self.numbers.get(place)
    }

    /// Puts a number at a place.
    pub fn put(&mut self, place: usize, number: usize) {
        self.numbers.set(place, number);
    }
}
