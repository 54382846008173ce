//! Steps, transitions and actions after the latest scan.

ghost use Rattle.std.specs.Prelude.{◌≡◌, List, None};
ghost use Rattle.sfc_replay.specs.sfc_image.Changes.{Change};
ghost use Rattle.sfc_replay.specs.sfc_instance.Life.{InstanceState};
ghost use Rattle.sfc_replay.specs.sfc_instance.Views.{Shows, tables_in};
ghost use Rattle.sfc_replay.specs.sfc_debug.Agreement.{Agrees};
ghost use Rattle.sfc_replay.specs.sfc_debug.Histories.{CommandHistory};
ghost use Rattle.sfc_replay.specs.sfc_debug.Steered.{Steered, steered_by};
ghost use Rattle.sfc_c.specs.Codes as codes;
ghost use Rattle.sfc_c.specs.Handles.{Holds};
ghost use Rattle.sfc_c.specs.Readings as readings;

use crate::handle::Handle;
use crate::number::flag;
use crate::point::point_of;
use crate::sfc_debug::debugger::Debugger;
use crate::sfc_instance::program_view::ProgramView;
use crate::status::{CLOSED, UNKNOWN};
use sfc_base::ids::ProgId;
use sfc_events::command::Point;
use std::alloc::Global;

/// How a step, a transition or an action stands after the latest scan: `sfc_point_state_t` of `sfc.h`.
#[repr(C)]
#[derive(Clone, Copy)]
pub struct PointState {
    /// A step's time, in microseconds; else 0.
    pub elapsed: i64,
    /// 1 where a step is active, or an action's Q is TRUE; 0 for a transition.
    pub active: i32,
    /// 1 where the latest scan activated the step, cleared the transition, or executed the action; else 0.
    pub happened: i32,
}

// How a point of a program instance stands, if its chart has it.
fn shown(view: &ProgramView<'_>, point: Point) -> Option<PointState>
    ensures { (changes : List Change) (instance_state : InstanceState) → Shows view.now changes instance_state →
        result ≡ readings.shown (tables_in view.now) instance_state point }
{
    match point {
        Point::Step(step) if (step.0 as usize) < view.steps() => Some(PointState {
            elapsed: view.elapsed(step),
            active: flag(view.active(step)),
            happened: flag(view.activated(step)),
        }),
        Point::Transition(transition) if (transition.0 as usize) < view.transitions() => Some(
            PointState {
                elapsed: 0,
                active: 0,
                happened: flag(view.cleared(transition)),
            },
        ),
        Point::Action(action) if action.0 < view.actions() => Some(PointState {
            elapsed: 0,
            active: flag(view.q(action)),
            happened: flag(view.executed(action)),
        }),
        _ => None,
    }
}

// How a point of a program instance stands, if the plant has it.
fn point_in(debugger: &Debugger, program: ProgId, point: Option<Point>) -> Option<PointState>
    ensures { (h : CommandHistory) → Agrees debugger.now h →
        result ≡ readings.point_state (steered_by debugger.now) h program point }
{
    let point = point?;
    let resource = debugger.resource();
    if (program.0 as usize) >= resource.plant().instances().len() {
        return None;
    }
    shown(&resource.program(program), point)
}

/// How a step, a transition or an action of a program instance stands after the latest scan, by its kind and its number.
#[unsafe(no_mangle)]
pub extern "C" fn sfc_point_state(
    alloc: Global,
    plc: &mut Handle,
    program: u8,
    kind: u8,
    number: u16,
    into: &mut PointState,
) -> i32
    ensures state { (s : Steered) (h : CommandHistory) → Holds plc.old.value s h →
        readings.Gives (readings.point_state s h (record { 0 = program }) (codes.point_of kind number)) into.old into.new result }
    ensures kept { plc.new.value ≡ plc.old.value }
    ensures closed { plc.old.value ≡ None → result ≡ codes.closed }
{
    let point = point_of(kind, number);
    match plc.read(alloc, |debugger| point_in(debugger, ProgId(program), point)) {
        None => CLOSED,
        Some(None) => UNKNOWN,
        Some(Some(state)) => {
            *into = state;
            0
        }
    }
}
