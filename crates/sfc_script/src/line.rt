//! Lines of a script.

ghost use Rattle.std.specs.Prelude.{◌≡◌, Some};
ghost use Rattle.sfc_debug.specs.sfc_core.Agreement.{plant_of};
ghost use Rattle.sfc_script.specs.Commands as commands;
ghost use Rattle.sfc_script.specs.Private.Reading.{as_said};

use crate::command::{Conditional, read_command, read_conditional};
use crate::sfc_core::resource::Resource;
use crate::split::first_word;
use sfc_events::command::Command;
use sfc_tokens::duration::duration;

/// What a line of a script is. Instants are in microseconds.
#[derive(Clone, Copy)]
pub enum Line<'a> {
    /// It has no words, or begins with a semicolon.
    Skipped,
    /// A command without a condition, and its instant.
    Plain(Command, i64),
    /// A breakpoint with a condition, and its instant.
    When(Conditional<'a>, i64),
    /// It is no command.
    Faulty,
}

/// Whether the word begins with a semicolon.
pub fn begins_comment(word: &[u8]) -> bool
    ensures { result ≡ commands.begins_comment word.now }
{
    match word.first() {
        Some(byte) => *byte == b';',
        None => false,
    }
}

// What stands behind an instant.
fn read_behind<'a>(resource: &Resource, t: i64, text: &'a [u8]) -> Line<'a>
    ensures { as_said result ≡ commands.said_at (plant_of resource.now) (Some t) text.now }
{
    if let Some(command) = read_command(resource, text) {
        return Line::Plain(command, t);
    }
    match read_conditional(resource, text) {
        Some(conditional) => Line::When(conditional, t),
        None => Line::Faulty,
    }
}

/// What a line of a script is, without its end. It takes no memory.
pub fn read_line<'a>(resource: &Resource, line: &'a [u8]) -> Line<'a>
    ensures { as_said result ≡ commands.said_of (plant_of resource.now) line.now }
{
    let Some((instant, text)) = first_word(line) else {
        return Line::Skipped;
    };
    if begins_comment(instant) {
        return Line::Skipped;
    }
    match duration(instant) {
        Some(t) => read_behind(resource, t, text),
        None => Line::Faulty,
    }
}
