//! What went wrong in a run, with its exit status.

ghost use Rattle.std.specs.Prelude.{◌≡◌, ◌||◌, ◌++◌, OnOk, true, false};
ghost use Rattle.sfc_run.specs.Faults as faults;

use sfc_page::append::append;
use std::alloc::AllocError;

/// What went wrong in a run. Several of these may be so at once.
#[derive(Clone, Copy, Debug, PartialEq, Eq)]
pub struct RunFaults {
    /// Memory, or a thread, was refused.
    pub memory: bool,
    /// The session's lines couldn't be read to their end.
    pub read: bool,
    /// The lines of the feed, or the last line, couldn't be written.
    pub write: bool,
    /// History, receipts and seats don't agree.
    pub mismatch: bool,
    /// What is wrong with a line of the session couldn't be told. This is passed over: it has no line, and no exit status.
    pub untold: bool,
    /// A program stood faulted at the end.
    pub faulted: bool,
    /// Scans of a task ended before the session did.
    pub ended: bool,
}

// The text where it is so.
fn append_if(out: &mut Vec<u8>, is_so: bool, text: &[u8]) -> Result<(), AllocError>
    ensures { OnOk result (out.new.items ≡ out.old.items ++ faults.text_if is_so text.now) }
{
    if is_so { append(out, text) } else { Ok(()) }
}

impl RunFaults {
    /// Nothing went wrong.
    pub fn none() -> RunFaults
        ensures { result ≡ record {
          memory = false;
          read = false;
          write = false;
          mismatch = false;
          untold = false;
          faulted = false;
          ended = false;
        } }
    {
        RunFaults {
            memory: false,
            read: false,
            write: false,
            mismatch: false,
            untold: false,
            faulted: false,
            ended: false,
        }
    }

    /// Memory was refused.
    pub fn of_memory() -> RunFaults
        ensures { result ≡ record {
          memory = true;
          read = false;
          write = false;
          mismatch = false;
          untold = false;
          faulted = false;
          ended = false;
        } }
    {
        RunFaults {
            memory: true,
            read: false,
            write: false,
            mismatch: false,
            untold: false,
            faulted: false,
            ended: false,
        }
    }

    /// A reader failed.
    pub fn of_read() -> RunFaults
        ensures { result ≡ record {
          memory = false;
          read = true;
          write = false;
          mismatch = false;
          untold = false;
          faulted = false;
          ended = false;
        } }
    {
        RunFaults {
            memory: false,
            read: true,
            write: false,
            mismatch: false,
            untold: false,
            faulted: false,
            ended: false,
        }
    }

    /// A writer failed.
    pub fn of_write() -> RunFaults
        ensures { result ≡ record {
          memory = false;
          read = false;
          write = true;
          mismatch = false;
          untold = false;
          faulted = false;
          ended = false;
        } }
    {
        RunFaults {
            memory: false,
            read: false,
            write: true,
            mismatch: false,
            untold: false,
            faulted: false,
            ended: false,
        }
    }

    /// The audit found a mismatch.
    pub fn of_mismatch() -> RunFaults
        ensures { result ≡ record {
          memory = false;
          read = false;
          write = false;
          mismatch = true;
          untold = false;
          faulted = false;
          ended = false;
        } }
    {
        RunFaults {
            memory: false,
            read: false,
            write: false,
            mismatch: true,
            untold: false,
            faulted: false,
            ended: false,
        }
    }

    /// What is wrong with a line couldn't be told, where that is so.
    pub fn of_untold(is_so: bool) -> RunFaults
        ensures { result ≡ record {
          memory = false;
          read = false;
          write = false;
          mismatch = false;
          untold = is_so;
          faulted = false;
          ended = false;
        } }
    {
        RunFaults {
            memory: false,
            read: false,
            write: false,
            mismatch: false,
            untold: is_so,
            faulted: false,
            ended: false,
        }
    }

    /// A program stood faulted at the end, where that is so.
    pub fn of_faulted(is_so: bool) -> RunFaults
        ensures { result ≡ record {
          memory = false;
          read = false;
          write = false;
          mismatch = false;
          untold = false;
          faulted = is_so;
          ended = false;
        } }
    {
        RunFaults {
            memory: false,
            read: false,
            write: false,
            mismatch: false,
            untold: false,
            faulted: is_so,
            ended: false,
        }
    }

    /// Scans of a task ended early, where that is so.
    pub fn of_ended(is_so: bool) -> RunFaults
        ensures { result ≡ record {
          memory = false;
          read = false;
          write = false;
          mismatch = false;
          untold = false;
          faulted = false;
          ended = is_so;
        } }
    {
        RunFaults {
            memory: false,
            read: false,
            write: false,
            mismatch: false,
            untold: false,
            faulted: false,
            ended: is_so,
        }
    }

    /// What is so of either.
    pub fn with(self, other: RunFaults) -> RunFaults
        ensures { result ≡ faults.both self other }
    {
        RunFaults {
            memory: self.memory || other.memory,
            read: self.read || other.read,
            write: self.write || other.write,
            mismatch: self.mismatch || other.mismatch,
            untold: self.untold || other.untold,
            faulted: self.faulted || other.faulted,
            ended: self.ended || other.ended,
        }
    }

    /// The exit status: 4 where memory was refused, or else 3 where a device failed, or else 1 where the audit found a mismatch, a program
    /// stood faulted at the end, or scans of a task ended early; or else 0.
    pub fn status(self) -> u8
        ensures { result ≡ faults.status_of self }
    {
        if self.memory {
            4
        } else if self.read || self.write {
            3
        } else if self.mismatch || self.faulted || self.ended {
            1
        } else {
            0
        }
    }

    // The first two of the lines.
    fn append_front(self, out: &mut Vec<u8>) -> Result<(), AllocError>
        ensures { OnOk result (out.new.items ≡ out.old.items ++ faults.front_text self) }
    {
        append_if(out, self.memory, b"out of memory\n")?;
        append_if(out, self.read, b"read fault\n")
    }

    // The others.
    fn append_back(self, out: &mut Vec<u8>) -> Result<(), AllocError>
        ensures { OnOk result (out.new.items ≡ out.old.items ++ faults.back_text self) }
    {
        append_if(out, self.write, b"write fault\n")?;
        append_if(out, self.mismatch, b"refused 41 AuditMismatch\n")?;
        append_if(out, self.faulted, b"a program stood faulted at the end\n")
    }

    /// Puts a line for each at the end: `out of memory`, `read fault`, `write fault`, `refused 41 AuditMismatch`, `a program stood faulted
    /// at the end`, in this order; of scans that ended early each task's end is told elsewhere. The one error is that memory was refused;
    /// then a front of them may stand there.
    pub fn append_text(self, out: &mut Vec<u8>) -> Result<(), AllocError>
        ensures { OnOk result (out.new.items ≡ out.old.items ++ faults.faults_text self) }
    {
        self.append_front(out)?;
        self.append_back(out)
    }
}
