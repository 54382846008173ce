//! How a command ends.

use std::alloc::Global;

/// What a command leaves: standard output, the text on standard error without its line end, and the exit status.
#[derive(Clone)]
pub struct Ending {
    pub output: Vec<u8>,
    pub fault: String,
    pub status: u8,
}

// By hand, so that a caller that drops one proves one call.
impl Drop for Ending {
    fn drop(self) {
        let Ending {
            output: _,
            fault: _,
            status: _,
        } = self;
    }
}

impl Ending {
    /// Nothing written, and status 0.
    pub fn new(alloc: Global) -> Ending {
        Ending {
            output: Vec::new(alloc),
            fault: String::new(alloc),
            status: 0,
        }
    }
}
