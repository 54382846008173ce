//! What this debugger can do.

use sfc_replies::body::Body;
use sfc_replies::row::Row;
use sfc_replies::rows::Rows;
use std::alloc::{AllocError, Global};

// What is there, by its names in the protocol.
const ABILITIES: [&str; 14] = [
    "supportsBreakpointLocationsRequest",
    "supportsConditionalBreakpoints",
    "supportsConfigurationDoneRequest",
    "supportsDataBreakpoints",
    "supportsEvaluateForHovers",
    "supportsFunctionBreakpoints",
    "supportsHitConditionalBreakpoints",
    "supportsLogPoints",
    "supportsRestartRequest",
    "supportsSetVariable",
    "supportsStepBack",
    "supportsTerminateRequest",
    "supportTerminateDebuggee",
    "supportsDelayedStackTraceLoading",
];

// A filter of what stops besides breakpoints.
fn filter(alloc: Global, name: &str, label: &str, is_on: bool) -> Result<Row, AllocError> {
    Row::new(alloc)
        .text("filter", name)?
        .text("label", label)?
        .flag("default", is_on)
}

// The filters of what stops besides breakpoints.
fn filters(alloc: Global) -> Result<Rows, AllocError> {
    Rows::new(alloc)
        .row(filter(
            alloc,
            "fault",
            "The scan of a program ends with a fault",
            true,
        )?)?
        .row(filter(alloc, "refused", "A line of the script is refused", false)?)?
        .row(filter(alloc, "overrun", "A task misses a release", false)?)
}

/// What this debugger can do. The one error is that memory was refused.
pub fn capabilities(alloc: Global) -> Result<Body, AllocError> {
    let mut body = Body::new(alloc).rows("exceptionBreakpointFilters", filters(alloc)?)?;
    for ability in &ABILITIES {
        body = body.flag(ability, true)?;
    }
    Ok(body)
}
