//! What lets a worker go on.

ghost use Rattle.std.specs.Prelude.{◌≡◌, Bool, not};

use crate::receipt::Receipt;
use sfc_base::ids::TaskId;

/// What a worker's latest turn came to.
#[derive(Clone, Copy, Debug, PartialEq, Eq)]
pub enum Turn {
    /// There was none yet.
    First,
    /// The scan was accepted, with this receipt.
    Done(Receipt),
    /// No release of the task waits. The next one by its interval is at this instant, by the clock that calls go by, if there is one and as
    /// long as the debugger doesn't halt the resource.
    Waits(Option<i64>),
    /// This other task goes first.
    Yielded(TaskId),
    /// The debugger has halted the resource.
    Halted,
}

/// What a worker asks before each scan. It may wait: what wakes it before its time is a bell of the controller.
pub trait Gate {
    /// Whether the latest turn was refused.
    ghost is_shut: { Self → Bool };

    /// Whether there is another turn.
    fn turn(&mut self, last: Turn) -> bool
        ensures { is_shut self.new ≡ not result };

    /// Whether the latest turn was refused.
    fn shut(&self) -> bool
        ensures { result ≡ is_shut self.now };
}
