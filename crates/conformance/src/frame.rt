//! A chart of which only some parts are given.

use std::alloc::{AllocError, Global};

/// The parts of a chart that a case gives in place of the whole: the global variables, the body of the program type, and
/// the task with the instance.
#[derive(Clone)]
pub struct Frame {
    pub globals: Vec<u8>,
    pub body: Vec<u8>,
    pub task: Vec<u8>,
}

// By hand, so that a caller that drops one proves one call.
impl Drop for Frame {
    fn drop(self) {
        let Frame {
            globals: _,
            body: _,
            task: _,
        } = self;
    }
}

// The task and the instance, where none are given.
const TASK: &[u8] = b"TASK Main(INTERVAL := T#10ms, PRIORITY := 1); PROGRAM P WITH Main : Mix;\n";

impl Frame {
    /// No part is given.
    pub fn new(alloc: Global) -> Frame {
        Frame {
            globals: Vec::new(alloc),
            body: Vec::new(alloc),
            task: Vec::new(alloc),
        }
    }

    // The task and the instance.
    fn task(&self) -> &[u8] {
        if self.task.is_empty() {
            TASK
        } else {
            &self.task
        }
    }

    /// The chart of these parts.
    pub fn chart(&self, alloc: Global) -> Result<Vec<u8>, AllocError> {
        let parts = [
            b"PROGRAM Mix\n".as_slice(),
            self.body.as_slice(),
            b"END_PROGRAM CONFIGURATION C RESOURCE R ON Plc VAR_GLOBAL\n".as_slice(),
            self.globals.as_slice(),
            b"END_VAR\n".as_slice(),
            self.task(),
            b"END_RESOURCE END_CONFIGURATION\n".as_slice(),
        ];
        let mut text = Vec::new(alloc);
        for part in &parts {
            text.extend_from_slice(part)?;
        }
        Ok(text)
    }
}
