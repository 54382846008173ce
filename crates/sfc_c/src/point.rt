//! Points of charts, as C has them: a kind and a number.

ghost use Rattle.std.specs.Prelude.{◌≡◌};
ghost use Rattle.sfc_c.specs.Codes as codes;

use sfc_base::ids::{ActionNumber, ProgId, TransitionId};
use sfc_base::references::StepId;
use sfc_events::command::{Command, CondId, Point};

/// The number that stands for no condition.
const NO_CONDITION: u16 = 65_535;

/// The step, transition or action with this number, by its kind: 0, 1 or 2; None for any other kind.
pub fn point_of(kind: u8, number: u16) -> Option<Point>
    ensures { result ≡ codes.point_of kind number }
{
    match kind {
        0 => Some(Point::Step(StepId(number))),
        1 => Some(Point::Transition(TransitionId(number))),
        2 => Some(Point::Action(ActionNumber(number as usize))),
        _ => None,
    }
}

/// The command that sets a breakpoint, with the condition of this number, or without one for 65535.
pub fn break_of(program: ProgId, point: Point, condition: u16) -> Command
    ensures { result ≡ codes.break_of program point condition }
{
    if condition == NO_CONDITION {
        Command::Break(program, point)
    } else {
        Command::BreakIf(program, point, CondId(condition))
    }
}
