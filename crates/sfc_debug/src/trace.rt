//! The newest rows of what was accepted.

ghost use Rattle.std.specs.Prelude.{◌≡◌, [], List, take, IfOk};
ghost use Rattle.sfc_events.specs.declared.command.TraceRow.{TraceRow};
ghost use Rattle.sfc_debug.specs.Private.Newest.{KeepsNewest};
ghost use Rattle.sfc_debug.specs.Tracing as tracing;

use crate::trace_mask::TraceMask;
use circular_buffer::HeapCircularBuffer;
use sfc_events::command::{Command, TraceRow};
use std::alloc::{AllocError, Global};

/// The newest rows of the commands whose kind is wanted, the newest first.
pub struct Trace {
    rows: HeapCircularBuffer<TraceRow>,
    mask: TraceMask,
}

// By hand, so that a caller that drops one proves one call.
impl Drop for Trace {
    fn drop(self) {
        let Trace { rows: _, mask: _ } = self;
    }
}

impl Trace {
    /// With no row. The one error is that memory was refused.
    pub fn new(alloc: Global, capacity: usize, mask: TraceMask) -> Result<Trace, AllocError>
        ensures mask { IfOk result (λ trace. trace.mask ≡ mask) }
        ensures capacity { IfOk result (λ trace. trace.rows.capacity ≡ capacity) }
        ensures rows { IfOk result (λ trace. KeepsNewest trace []) }
    {
        let rows = HeapCircularBuffer::with_capacity(alloc, capacity)?;
        Ok(Trace { rows, mask })
    }

    /// Which rows are wanted.
    pub fn mask(&self) -> TraceMask
        ensures { result ≡ self.now.mask }
    {
        self.mask
    }

    /// Whether rows of the command are wanted.
    pub fn wants(&self, command: Command) -> bool
        ensures { result ≡ tracing.is_wanted self.now.mask command }
    {
        self.mask.wants(command)
    }

    /// One more row, if its kind is wanted. It takes no memory.
    pub fn note(&mut self, row: TraceRow)
        ensures mask { self.new.mask ≡ self.old.mask }
        ensures capacity { self.new.rows.capacity ≡ self.old.rows.capacity }
        ensures rows { (rows : List TraceRow) → KeepsNewest self.old rows →
            KeepsNewest self.new (tracing.with_row self.old.mask row rows) }
    {
        if self.mask.wants(row.command) {
            self.rows.push_front(row);
        }
    }

    /// The n-th newest row, from 0, if so many are kept.
    pub fn row(&self, n: usize) -> Option<TraceRow>
        ensures { (rows : List TraceRow) → KeepsNewest self.now rows →
            result ≡ tracing.row_at self.now.rows.capacity rows n }
    {
        self.rows.get(n).copied()
    }
}
