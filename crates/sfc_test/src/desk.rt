//! What a suite asks of its surroundings.

use std::alloc::AllocError;

/// Where the commands of cases go, each case as a script.
pub trait Desk {
    /// Whether the scripts of all cases are wanted, besides those of cases that failed.
    fn wants_all(&self) -> bool;

    /// The commands that a case has accepted, as a script. A case of which memory was refused for them isn't told. The one error is that
    /// memory was refused.
    fn take(&mut self, script: &[u8], has_failed: bool) -> Result<(), AllocError>;
}

/// One that wants none.
#[derive(Clone, Copy, Debug)]
pub struct NoDesk;

impl Desk for NoDesk {
    fn wants_all(&self) -> bool {
        false
    }

    fn take(&mut self, _script: &[u8], _has_failed: bool) -> Result<(), AllocError> {
        Ok(())
    }
}
