//! What is done with the commands of cases.

use sfc_cover::cover::Cover;
use sfc_replay::replay_error::ReplayError;
use sfc_test::desk::Desk;
use std::alloc::{AllocError, Global};

/// What all cases reach together, where that is asked, and the script of the first case that failed.
#[derive(Drop)]
pub struct TestDesk {
    alloc: Global,
    cover: Option<Cover>,
    // Whether a case had more commands than a script.
    is_cut: bool,
    script: Option<Vec<u8>>,
}

impl TestDesk {
    /// With what was reached so far, where that is asked.
    pub fn new(alloc: Global, cover: Option<Cover>) -> TestDesk {
        TestDesk {
            alloc,
            cover,
            is_cut: false,
            script: None,
        }
    }

    /// What all cases have reached together, where that is asked.
    pub fn cover(&self) -> Option<&Cover> {
        match &self.cover {
            Some(cover) => Some(cover),
            None => None,
        }
    }

    /// Whether a case had more commands than a script may have, and isn't among those.
    pub fn is_cut(&self) -> bool {
        self.is_cut
    }

    /// The commands of the first case that has failed, as a script, if one has.
    pub fn script(&self) -> Option<&[u8]> {
        match &self.script {
            Some(script) => Some(script.as_slice()),
            None => None,
        }
    }
}

impl Desk for TestDesk {
    fn wants_all(&self) -> bool {
        self.cover.is_some()
    }

    fn take(&mut self, script: &[u8], has_failed: bool) -> Result<(), AllocError> {
        if has_failed && self.script.is_none() {
            let mut kept = Vec::new(self.alloc);
            kept.extend_from_slice(script)?;
            self.script = Some(kept);
        }
        let Some(cover) = &mut self.cover else {
            return Ok(());
        };
        let mut script = script;
        match cover.play(self.alloc, &mut script) {
            Ok(()) => Ok(()),
            Err(ReplayError::Script(_)) => {
                self.is_cut = true;
                Ok(())
            }
            // The chart was read before, and no device is here.
            Err(_) => Err(AllocError),
        }
    }
}
