//! Lines of a session, which have no instants.

ghost use Rattle.std.specs.Prelude.{◌≡◌};
ghost use Rattle.sfc_debug.specs.sfc_core.Agreement.{plant_of};
ghost use Rattle.sfc_script.specs.SessionLines as sessions;

use crate::command::read_command;
use crate::line::begins_comment;
use crate::sfc_core::resource::Resource;
use crate::split::first_word;
use sfc_events::command::Command;

/// What a line of a session is.
#[derive(Clone, Copy, Debug, PartialEq, Eq)]
pub enum SessionLine {
    /// It has no words, or begins with a semicolon.
    Skipped,
    /// A command.
    Says(Command),
    /// It is no command. A breakpoint with a condition is none here.
    Faulty,
}

/// What a line of a session is, without its end: a command as a script has it behind an instant. A name that isn't found stands as a
/// number that no plant has, as in `read_command`. It takes no memory.
pub fn read_session_line(resource: &Resource, line: &[u8]) -> SessionLine
    ensures { result ≡ sessions.session_line (plant_of resource.now) line.now }
{
    let Some((word, _)) = first_word(line) else {
        return SessionLine::Skipped;
    };
    if begins_comment(word) {
        return SessionLine::Skipped;
    }
    match read_command(resource, line) {
        Some(command) => SessionLine::Says(command),
        None => SessionLine::Faulty,
    }
}
