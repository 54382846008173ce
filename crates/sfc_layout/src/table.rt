//! Rows by their number.

ghost use Rattle.std.specs.Prelude.{◌≡◌, ◌+◌, length, slice_index_or, slice_set, vec_len, IfOk, OnOk};

use std::alloc::{AllocError, Global};

/// Rows that are numbered from 0 on. Each number has a row: past the last one it is blank, and can't be written.
#[derive(Drop)]
pub struct Table<T: Copy> {
    rows: Vec<T>,
    blank: T,
}

impl<T: Copy> Table<T> {
    /// A table without rows.
    pub fn new(alloc: Global, blank: T) -> Table<T>
        ensures rows { vec_len result.rows ≡ 0 }
        ensures blank { result.blank ≡ blank }
    {
        Table {
            rows: Vec::new(alloc),
            blank,
        }
    }

    /// A table of so many blank rows. The one error is that memory was refused.
    pub fn blank(alloc: Global, count: usize, blank: T) -> Result<Table<T>, AllocError>
        ensures { IfOk result (λ table. vec_len table.rows ≡ count) }
    {
        let mut table = Table::new(alloc, blank);
        for _ in 0..count {
            table.push(blank)?;
        }
        Ok(table)
    }

    /// A table of these rows. The one error is that memory was refused.
    pub fn from_slice(alloc: Global, rows: &[T], blank: T) -> Result<Table<T>, AllocError>
        ensures { IfOk result (λ table. vec_len table.rows ≡ length rows.now) }
    {
        let mut table = Table::new(alloc, blank);
        for row in rows {
            table.push(*row)?;
        }
        Ok(table)
    }

    /// How many rows there are.
    pub fn len(&self) -> usize
        ensures { result ≡ vec_len self.now.rows }
    {
        self.rows.len()
    }

    /// The row of this number.
    pub fn get(&self, number: usize) -> T
        ensures { result ≡ slice_index_or self.now.rows.items number self.now.blank }
    {
        if number < self.rows.len() {
            self.rows[number]
        } else {
            self.blank
        }
    }

    /// Gives this number another row.
    pub fn set(&mut self, number: usize, row: T)
        ensures rows { self.new.rows.items ≡ slice_set self.old.rows.items number row }
        ensures len { vec_len self.new.rows ≡ vec_len self.old.rows }
        ensures blank { self.new.blank ≡ self.old.blank }
    {
        if number < self.rows.len() {
            self.rows[number] = row;
        }
    }

    /// One more row, and its number. The one error is that memory was refused.
    pub fn push(&mut self, row: T) -> Result<usize, AllocError>
        ensures number { IfOk result (λ n. n ≡ vec_len self.old.rows) }
        ensures len { OnOk result (vec_len self.new.rows ≡ vec_len self.old.rows + 1) }
    {
        let number = self.rows.len();
        self.rows.push(row)?;
        Ok(number)
    }

    /// All rows.
    pub fn into_rows(self) -> Vec<T>
        ensures { result.items ≡ self.rows.items }
    {
        let Table { rows, blank: _ } = self;
        rows
    }
}
