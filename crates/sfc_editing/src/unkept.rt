//! An archive that keeps nothing.

use sfc_prompt::archive::{Archive, Kept};

/// Keeps no script: for lines that keep none.
#[derive(Clone, Copy)]
pub struct Unkept;

impl Archive for Unkept {
    fn keep(&mut self, _name: &str, _script: &[u8], _may_replace: bool) -> Kept {
        Kept::Failed
    }

    fn record(&mut self, _script: &[u8]) {}
}
