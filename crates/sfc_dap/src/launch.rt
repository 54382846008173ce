//! What a launch asks for.

use sfc_replies::arguments::{flag_argument, number_argument, text_argument};
use sfc_wire::dap_request::Request;
use std::alloc::{AllocError, Global};

/// How many scans a client is given at once, where it doesn't say.
const SCANS: u64 = 10_000;

/// The most scans that it is given at once.
const MOST: u64 = 100_000;

/// What a launch asks for.
#[derive(Drop)]
pub struct Launch {
    /// The file of the chart.
    pub program: String,
    /// The file of a script whose lines are played.
    pub script: Option<String>,
    /// The file to which the accepted commands go at the end.
    pub save: Option<String>,
    /// Whether it is halted before the first command.
    pub is_halted: bool,
    /// Whether breakpoints are set.
    pub has_points: bool,
    /// How many scans are done at once, at most.
    pub scans: u64,
}

// The text of an argument as one of its own.
fn owned(alloc: Global, request: Request<'_>, name: &str) -> Result<Option<String>, AllocError> {
    match text_argument(request, name) {
        Some(text) => Ok(Some(String::from_str(alloc, text)?)),
        None => Ok(None),
    }
}

impl Launch {
    /// What a request asks for; None where it names no program. The one error is that memory was refused.
    pub fn of(alloc: Global, request: Request<'_>) -> Result<Option<Launch>, AllocError> {
        let Some(program) = owned(alloc, request, "program")? else {
            return Ok(None);
        };
        let scans = number_argument(request, "scans").unwrap_or(SCANS);
        Ok(Some(Launch {
            program,
            script: owned(alloc, request, "script")?,
            save: owned(alloc, request, "save")?,
            is_halted: flag_argument(request, "stopOnEntry", false),
            has_points: !flag_argument(request, "noDebug", false),
            scans: scans.clamp(1, MOST),
        }))
    }
}

// A text once more, if there is one.
fn copied(alloc: Global, text: &Option<String>) -> Result<Option<String>, AllocError> {
    match text {
        Some(text) => Ok(Some(String::from_str(alloc, text.as_str())?)),
        None => Ok(None),
    }
}

impl Launch {
    /// The same once more. The one error is that memory was refused.
    pub fn copy(&self, alloc: Global) -> Result<Launch, AllocError> {
        Ok(Launch {
            program: String::from_str(alloc, self.program.as_str())?,
            script: copied(alloc, &self.script)?,
            save: copied(alloc, &self.save)?,
            is_halted: self.is_halted,
            has_points: self.has_points,
            scans: self.scans,
        })
    }
}

/// The name of a file behind the last slash of its path.
pub fn base_name(path: &str) -> &str {
    match path.rsplit_once('/') {
        Some((_, name)) => name,
        None => path,
    }
}
