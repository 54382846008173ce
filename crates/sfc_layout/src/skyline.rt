//! How far down a sheet is taken.

ghost use Rattle.std.specs.Prelude.{◌≡◌, ◌<◌, ◌≤◌, ◌/◌, ℕ, vec_len, OnOk};
ghost use Rattle.sfc_layout.specs.Skyline.{depth, IsWithin};

use std::alloc::{AllocError, Global};

/// How many pixels a cell is wide.
pub const CELL: u32 = 8;

/// How far a thing goes to the left and to the right, in pixels from the left of its sheet; both are within it.
#[derive(Clone, Copy)]
pub struct Reach {
    pub left: u32,
    pub right: u32,
}

/// How far down each cell of a sheet is taken, from left to right. What is put below it meets nothing that was put before.
#[derive(Drop)]
pub struct Skyline {
    pub(crate) cells: Vec<u32>,
}

impl Skyline {
    /// That of a sheet on which there is nothing.
    pub fn new(alloc: Global) -> Skyline
        ensures { (cell : ℕ) → depth result cell ≡ 0 }
    {
        Skyline {
            cells: Vec::new(alloc),
        }
    }

    /// The lowest that is taken of these cells, in pixels from the top.
    pub fn top(&self, reach: Reach) -> u32
        ensures { (cell : ℕ) → IsWithin reach cell → depth self.now cell ≤ result }
    {
        let end = self.cells.len().min((reach.right / CELL) as usize + 1);
        let mut top = 0;
        for cell in (reach.left / CELL) as usize..end {
            top = self.cells[cell].max(top);
        }
        top
    }

    /// The lowest that is taken anywhere.
    pub fn lowest(&self) -> u32
        ensures { (cell : ℕ) → depth self.now cell ≤ result }
    {
        let mut lowest = 0;
        for depth in self.cells.iter() {
            lowest = lowest.max(*depth);
        }
        lowest
    }

    /// Takes these cells down to `bottom`. The one error is that memory was refused; no cell is then less taken.
    pub fn take(&mut self, reach: Reach, bottom: u32) -> Result<(), AllocError>
        ensures taken { OnOk result ((cell : ℕ) → IsWithin reach cell → bottom ≤ depth self.new cell) }
        ensures kept { (cell : ℕ) → depth self.old cell ≤ depth self.new cell }
    {
        let end = (reach.right / CELL) as usize + 1;
        self.widen(end)?;
        for cell in (reach.left / CELL) as usize..end {
            let depth = self.cells[cell];
            self.cells[cell] = depth.max(bottom);
        }
        Ok(())
    }

    /// Adds cells until there are so many.
    fn widen(&mut self, count: usize) -> Result<(), AllocError>
        ensures len { OnOk result (count ≤ vec_len self.new.cells) }
        ensures kept { (cell : ℕ) → depth self.new cell ≡ depth self.old cell }
    {
        for _ in self.cells.len()..count {
            self.cells.push(0)?;
        }
        Ok(())
    }
}
