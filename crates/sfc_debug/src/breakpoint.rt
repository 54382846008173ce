//! Where a breakpoint is set.

ghost use Rattle.std.specs.Prelude.{◌≡◌};
ghost use Rattle.sfc_debug.specs.Points as points;

use sfc_base::ids::ProgId;
use sfc_events::command::{CondId, Point};

/// A breakpoint: the program instance, the point in its chart, and the condition that a hit waits for, if it waits for one.
#[derive(Clone, Copy, Debug, PartialEq, Eq)]
pub struct Breakpoint {
    /// The program instance.
    pub program: ProgId,
    /// The point in its chart.
    pub point: Point,
    /// The condition, by its place in the debugger's table.
    pub condition: Option<CondId>,
}

// Two points of a chart are the same.
fn is_point(point: Point, other: Point) -> bool
    ensures { result ≡ points.is_point point other }
{
    match (point, other) {
        (Point::Step(step), Point::Step(other)) => step.0 == other.0,
        (Point::Transition(transition), Point::Transition(other)) => transition.0 == other.0,
        (Point::Action(action), Point::Action(other)) => action.0 == other.0,
        _ => false,
    }
}

impl Breakpoint {
    /// Whether it stands at this point of the program instance.
    pub fn is_at(self, program: ProgId, point: Point) -> bool
        ensures { result ≡ points.is_at program point self }
    {
        self.program.0 == program.0 && is_point(self.point, point)
    }
}
