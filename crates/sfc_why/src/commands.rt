//! The words that begin commands of a script.

use sfc_hints::near::distance;
use std::alloc::{AllocError, Global};

/// The words that begin commands.
const COMMANDS: &str = "SCAN INPUT FORCE RELEASE RESET READ BREAK UNBREAK STOP GO SINGLE EPOCH END";

/// The words that begin commands and are near to the word, if there are any, and the nearest of them. The one error is that memory was
/// refused.
pub fn near_commands(
    alloc: Global,
    word: &[u8],
) -> Result<(Vec<&'static str>, Option<&'static str>), AllocError> {
    let mut found = Vec::new(alloc);
    let mut nearest = None;
    let mut least = usize::MAX;
    for command in COMMANDS.split_whitespace() {
        if let Some(far) = distance(alloc, word, command.as_bytes())? {
            found.push(command)?;
            if far < least {
                nearest = Some(command);
                least = far;
            }
        }
    }
    Ok((found, nearest))
}
