//! A command, and when it is given.

use sfc_events::command::Command;
use std::marker::Model;

/// A command with its raw instant, in microseconds.
#[derive(Clone, Copy, Debug, PartialEq, Eq)]
pub struct Timed {
    pub command: Command,
    pub raw: i64,
}

impl Model for Timed {
    ghost use Rattle.sfc_debug.specs.Histories.{TimedCommand};

    ghost Value = { TimedCommand };

    ghost view = { λ timed. (timed.command, timed.raw) };

    ghost inverse = { λ pair. record { command = pair.0; raw = pair.1 } };
}
