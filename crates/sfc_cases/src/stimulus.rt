//! Commands that are given beside RUN and UNTIL.

ghost use Rattle.std.specs.Prelude.{◌≡◌};
ghost use Rattle.sfc_cases.specs.Stimuli as stimuli;

use crate::instant::Instant;
use sfc_base::value::Value;
use sfc_events::command::Command;

/// How a value changes from one command to the next.
#[derive(Clone, Copy, Debug, PartialEq, Eq)]
pub enum Change {
    /// Not at all.
    Stays,
    /// TRUE becomes FALSE, and FALSE becomes TRUE.
    Toggles,
    /// It becomes greater by 1.
    Rises,
    /// It becomes less by 1.
    Falls,
}

/// A command that is given at its instants.
#[derive(Clone, Copy, Debug)]
pub struct Stimulus {
    /// When the next one is wanted. Of one that has begun this is an instant of the test's clock.
    pub first: Instant,
    /// How many microseconds lie between two of them.
    pub period: i64,
    /// How many are left, where they are counted.
    pub left: Option<i64>,
    /// The next one.
    pub command: Command,
    /// How its value differs in the one behind it.
    pub change: Change,
}

// The value behind this one. A number at the end of its range stays.
fn changed(change: Change, value: Value) -> Value
    ensures { result ≡ stimuli.changed change value }
{
    match (change, value) {
        (Change::Toggles, Value::Bool(truth)) => Value::Bool(!truth),
        (Change::Rises, Value::Int(number)) => Value::Int(number.saturating_add(1)),
        (Change::Rises, Value::Dint(number)) => Value::Dint(number.saturating_add(1)),
        (Change::Falls, Value::Int(number)) => Value::Int(number.saturating_sub(1)),
        (Change::Falls, Value::Dint(number)) => Value::Dint(number.saturating_sub(1)),
        (_, value) => value,
    }
}

// The command behind this one.
fn changed_command(change: Change, command: Command) -> Command
    ensures { result ≡ stimuli.changed_command change command }
{
    match command {
        Command::Input(id, value) => Command::Input(id, changed(change, value)),
        command => command,
    }
}

// How many are left behind one, where they are counted.
fn less(left: Option<i64>) -> Option<i64>
    ensures { result ≡ stimuli.less left }
{
    match left {
        Some(count) => Some(count.saturating_sub(1)),
        None => None,
    }
}

impl Stimulus {
    /// Whether a command is left.
    pub fn is_left(&self) -> bool
        ensures { result ≡ stimuli.is_left self.now.left }
    {
        match self.left {
            Some(count) => count > 0,
            None => true,
        }
    }

    /// The same begun, where the clock stands so.
    pub fn begun(self, clock: i64) -> Stimulus
        ensures { result ≡ stimuli.begun clock self }
    {
        Stimulus {
            first: Instant::At(self.first.after(clock)),
            period: self.period,
            left: self.left,
            command: self.command,
            change: self.change,
        }
    }

    /// What is left behind its next command, which was wanted at this instant.
    pub fn behind_one(self, instant: i64) -> Stimulus
        ensures { result ≡ stimuli.behind_one instant self }
    {
        Stimulus {
            first: Instant::At(instant.saturating_add(self.period)),
            period: self.period,
            left: less(self.left),
            command: changed_command(self.change, self.command),
            change: self.change,
        }
    }
}
