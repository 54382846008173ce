//! When lost rows are told, and that what they left is known again.

ghost use Rattle.std.specs.Prelude.{◌≡◌, ◌++◌, OnOk};
ghost use Rattle.sfc_run.specs.Losses as rules;

use sfc_page::append::{append, append_number};
use std::alloc::AllocError;

/// How long lost rows aren't told again, in microseconds.
const PAUSE: i64 = 1_000_000;

/// Rows of a feed that were lost and aren't told yet.
#[derive(Clone, Copy, Debug, PartialEq, Eq)]
pub struct Losses {
    /// How many they are.
    pub waiting: u64,
    /// At which run instant some were last told, in microseconds.
    pub t: i64,
}

/// Puts at the end that it is known again how all stands, behind so many commands: a line. The one error is that memory was refused; then a
/// front of it may stand there.
pub fn append_known(out: &mut Vec<u8>, count: u64) -> Result<(), AllocError>
    ensures { OnOk result (out.new.items ≡ out.old.items ++ rules.known_text count) }
{
    append(out, b"known again behind ")?;
    append_number(out, count)?;
    append(out, b" commands\n")
}

impl Losses {
    /// None were lost yet, so that the first are told at any instant.
    pub fn none() -> Losses
        ensures { result ≡ rules.no_losses }
    {
        Losses {
            waiting: 0,
            t: -PAUSE,
        }
    }

    /// All are told.
    pub fn clear(&mut self)
        ensures { self.new ≡ rules.none_waiting self.old }
    {
        self.waiting = 0;
    }

    /// So many more were lost before a row of this run instant: how many are told with it. They are told where some wait, and either the
    /// last were told a second ago at least, or the row is urgent; and else none are, and they wait.
    pub fn told_with(&mut self, lost: u64, t: i64, is_urgent: bool) -> u64
        ensures told { result ≡ rules.told_with self.old lost t is_urgent }
        ensures losses { self.new ≡ rules.losses_after self.old lost t is_urgent }
    {
        let waiting = self.waiting.saturating_add(lost);
        if is_urgent || self.t.saturating_add(PAUSE) <= t {
            let last = if waiting == 0 { self.t } else { t };
            *self = Losses {
                waiting: 0,
                t: last,
            };
            return waiting;
        }
        self.waiting = waiting;
        0
    }
}
