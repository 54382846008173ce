//! The commands of a run whose breakpoints are set.

use sfc_asking::points::follow;
use sfc_events::command::TraceRow;
use std::alloc::{AllocError, Global};

/// The rows of the commands that set the breakpoints which are set, in order.
#[derive(Drop)]
pub struct Points {
    rows: Vec<TraceRow>,
    is_whole: bool,
}

impl Points {
    /// None is set.
    pub fn none(alloc: Global) -> Points {
        Points {
            rows: Vec::new(alloc),
            is_whole: true,
        }
    }

    /// Takes the next row of the feed. The one error is that memory was refused.
    pub fn note(&mut self, row: TraceRow) -> Result<(), AllocError> {
        follow(&mut self.rows, &row)
    }

    /// Rows of the feed were lost, of which some may be of such commands.
    pub fn lose(&mut self) {
        self.is_whole = false;
    }

    /// The rows, where none was lost.
    pub fn rows(&self) -> Option<&[TraceRow]> {
        if self.is_whole {
            Some(&self.rows)
        } else {
            None
        }
    }
}
