//! Commands that a script says again and again, at other instants.

ghost use Rattle.std.specs.Prelude.{◌≡◌, ◌<◌, length, MatchOption, IfSome, Some, None};
ghost use Rattle.sfc_debug.specs.sfc_core.Agreement.{plant_of};
ghost use Rattle.sfc_script.specs.Lines.{lines_of};
ghost use Rattle.sfc_script.specs.Private.Repeating.{command_first, IsLast};

use crate::command::read_command;
use crate::sfc_core::resource::Resource;
use crate::split::next_line;
use sfc_events::command::Command;

/// A command without a condition that was read.
#[derive(Clone, Copy)]
pub struct Repeated<'a> {
    /// What stands behind the instant, with the end of the line.
    pub tail: &'a [u8],
    /// The command that it is.
    pub command: Command,
}

/// The command without a condition that stands behind an instant, and what follows its line; None where there is none.
/// Bytes that begin with the last command are that; else the command is read, and kept as the last where more follows.
/// It takes no memory.
pub fn command_behind<'a>(
    resource: &Resource,
    last: &mut Option<Repeated<'a>>,
    behind: &'a [u8],
) -> Option<(Command, &'a [u8])>
    requires { IsLast (plant_of resource.now) last.old }
    ensures command { MatchOption result (command_first (plant_of resource.now) (lines_of behind.now) ≡ None)
        (λ r. command_first (plant_of resource.now) (lines_of behind.now) ≡ Some (r.0, lines_of r.1.now)) }
    ensures shorter { IfSome result (λ r. length r.1.now < length behind.now) }
    ensures is_last { IsLast (plant_of resource.now) last.new }
{
    if let Some(repeated) = last {
        if let Some(rest) = behind.strip_prefix(repeated.tail) {
            return Some((repeated.command, rest));
        }
    }
    let (text, rest) = next_line(behind)?;
    let command = read_command(resource, text)?;
    if !rest.is_empty() {
        let tail = &behind[..behind.len() - rest.len()];
        *last = Some(Repeated { tail, command });
    }
    Some((command, rest))
}
