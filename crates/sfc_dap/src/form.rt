//! How a client counts.

use sfc_replies::arguments::flag_argument;
use sfc_wire::dap_request::Request;

/// How a client counts lines and columns, and what it takes.
#[derive(Clone, Copy)]
pub struct Form {
    /// The number of the first line.
    pub first_line: u64,
    /// The number of the first column.
    pub first_column: u64,
    /// Whether it is told that what it shows is no longer so.
    pub is_invalidated: bool,
}

// The number of the first, where it is counted from 1 or from 0.
fn first(is_one: bool) -> u64 {
    if is_one { 1 } else { 0 }
}

impl Form {
    /// That of a client that counts from 1, as one does that says nothing.
    pub fn usual() -> Form {
        Form {
            first_line: 1,
            first_column: 1,
            is_invalidated: false,
        }
    }

    /// That of a client that says so.
    pub fn of(request: Request<'_>) -> Form {
        Form {
            first_line: first(flag_argument(request, "linesStartAt1", true)),
            first_column: first(flag_argument(request, "columnsStartAt1", true)),
            is_invalidated: flag_argument(request, "supportsInvalidatedEvent", false),
        }
    }

    /// The number that the client has for a line, which is counted from 1 here.
    pub fn told(self, line: u32) -> u64 {
        u64::from(line.saturating_sub(1)).saturating_add(self.first_line)
    }

    /// The line, counted from 1, that has this number for the client.
    pub fn line(self, told: u64) -> u32 {
        let behind = told.saturating_sub(self.first_line);
        u32::try_from(behind).unwrap_or(u32::MAX).saturating_add(1)
    }
}
