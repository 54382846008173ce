//! The words that begin lines of a test.

use sfc_why::sfc_hints::near::distance;
use std::alloc::{AllocError, Global};

/// The words that begin what a line says.
const KEYWORDS: &str =
    "TEST RUN UNTIL EXPECT ALWAYS NEVER WITHIN EVERY AT RAMP LET INCLUDE SCAN INPUT FORCE RELEASE RESET READ BREAK UNBREAK STOP GO SINGLE EPOCH END";

/// The word that begins lines and is nearest to this one, if one is near. The one error is that memory was refused.
pub fn near_keyword(alloc: Global, word: &[u8]) -> Result<Option<&'static str>, AllocError> {
    let mut nearest = None;
    let mut least = usize::MAX;
    for keyword in KEYWORDS.split_whitespace() {
        if let Some(far) = distance(alloc, word, keyword.as_bytes())? {
            if far < least {
                nearest = Some(keyword);
                least = far;
            }
        }
    }
    Ok(nearest)
}
