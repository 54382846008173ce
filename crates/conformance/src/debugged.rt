//! Sessions in which a chart is stepped by hand.

use crate::ending::Ending;
use sfc_prompt::archive::{Archive, Kept};
use sfc_prompt::desk::{Desk, hold};
use std::alloc::{AllocError, Global};

/// Scripts that were saved: of each a line with the name of its file, and its text.
#[derive(Drop)]
struct Scripts<'a> {
    text: &'a mut Vec<u8>,
}

// Adds a script under a name.
fn add(text: &mut Vec<u8>, name: &str, script: &[u8]) -> Result<(), AllocError> {
    text.extend_from_slice(b"kept ")?;
    text.extend_from_slice(name.as_bytes())?;
    text.extend_from_slice(b"\n")?;
    text.extend_from_slice(script)
}

impl Archive for Scripts<'_> {
    fn keep(&mut self, name: &str, script: &[u8], _may_replace: bool) -> Kept {
        match add(self.text, name, script) {
            Ok(()) => Kept::Kept,
            Err(_) => Kept::Failed,
        }
    }

    fn record(&mut self, _script: &[u8]) {}
}

/// How a session on a chart ends that has these lines. Behind what it writes stand the scripts that it saves.
pub fn debugged(alloc: Global, chart: &[u8], lines: &[u8]) -> Result<Ending, AllocError> {
    let mut chart = chart;
    let mut lines = lines;
    let mut ending = Ending::new(alloc);
    let mut kept = Vec::new(alloc);
    let desk = Desk {
        answers: &mut ending.output,
        archive: Scripts { text: &mut kept },
        is_terminal: false,
    };
    let (_, held) = hold(alloc, &mut chart, &mut lines, desk);
    if let Err(error) = held {
        ending.fault = format!(in alloc; "{error}")?;
        ending.status = error.status();
    }
    ending.output.extend_from_slice(&kept)?;
    Ok(ending)
}
