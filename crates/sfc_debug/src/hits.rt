//! Whether a scan hits a breakpoint.

ghost use Rattle.std.specs.Prelude.{◌≡◌, ◌<◌, ◌+◌, List, length, true};
ghost use Rattle.sfc_base.specs.Ticks.{Within};
ghost use Rattle.sfc_events.specs.History.{History};
ghost use Rattle.sfc_core.specs.sfc_image.Changes.{Change};
ghost use Rattle.sfc_plant.specs.Finding.{chart_of};
ghost use Rattle.sfc_core.specs.sfc_tables.Tables.{tables_of};
ghost use Rattle.sfc_core.specs.sfc_instance.Life.{InstanceState};
ghost use Rattle.sfc_core.specs.sfc_instance.Views.{Shows, environment_in, tables_in};
ghost use Rattle.sfc_core.specs.Agreement as core;
ghost use Rattle.sfc_core.specs.PlantState.{state_of};
ghost use Rattle.sfc_debug.specs.Hits as rules;
ghost use Rattle.sfc_debug.specs.Points as points;
ghost use Rattle.sfc_debug.specs.Work.{condition_nodes, points_work};

use crate::break_condition::BreakCondition;
use crate::breakpoint::Breakpoint;
use crate::sfc_instance::laws::window;
use crate::sfc_instance::program_view::ProgramView;
use crate::sfc_tables::tables::Tables;
use sfc_base::ids::ProgId;
use sfc_base::ticks::Ticks;
use sfc_base::value::Value;
use sfc_core::resource::Resource;
use sfc_events::command::{CondId, Point};
use sfc_events::instance_set::InstanceSet;
use sfc_expr::eval::eval;

// Whether the chart with these tables has the point.
fn is_point_of(tables: &Tables, point: Point) -> bool
    ensures { result ≡ points.is_point_of tables.now point }
{
    match point {
        Point::Step(step) => (step.0 as usize) < tables.steps(),
        Point::Transition(transition) => (transition.0 as usize) < tables.transitions(),
        Point::Action(action) => action.0 < tables.actions(),
    }
}

/// Whether the plant has the program instance, and its chart the point.
pub fn has_point(resource: &Resource, program: ProgId, point: Point) -> bool
    ensures value { result ≡ points.has_point (core.plant_of resource.now) program point }
    ensures known { result ≡ true → program.0 < length (core.plant_of resource.now).instances }
    ensures few { result ≡ true → program.0 < 64 }
    ensures there { result ≡ true →
        points.is_point_of (tables_of (chart_of (core.plant_of resource.now) program)) point ≡ true }
{
    if (program.0 as usize) >= resource.plant().instances().len() {
        return false;
    }
    is_point_of(resource.program(program).tables(), point)
}

// Whether the latest scan activated the step, cleared the transition, or executed the action.
fn has_happened(view: &ProgramView<'_>, point: Point) -> bool
    requires { points.is_point_of (tables_in view.now) point ≡ true }
    ensures { (changes : List Change) (instance_state : InstanceState) → Shows view.now changes instance_state →
        result ≡ rules.has_happened (tables_in view.now) instance_state point }
{
    match point {
        Point::Step(step) => view.activated(step),
        Point::Transition(transition) => view.cleared(transition),
        Point::Action(action) => view.executed(action),
    }
}

// Whether the condition is TRUE now; a fault of it is not told.
fn holds(
    table: &[BreakCondition],
    view: &ProgramView<'_>,
    condition: Option<CondId>,
    ticks: &mut Ticks,
) -> bool
    ensures value { result ≡ rules.holds table.now (environment_in view.now) condition }
    ensures ticks { Within (condition_nodes table.now condition) ticks.old ticks.new }
{
    let Some(id) = condition else {
        return true;
    };
    let Some(entry) = table.get(id.0 as usize) else {
        return false;
    };
    match eval(entry.condition.expr(), view, ticks) {
        Ok(Value::Bool(holds)) => holds,
        _ => false,
    }
}

/// Whether a scan after which the resource stands so, and in which these instances ran without fault, hits the
/// breakpoint.
#[tactic(auto, unfolding(crate::specs::Hits::is_hit))]
fn is_hit(
    resource: &Resource,
    table: &[BreakCondition],
    ran: InstanceSet,
    breakpoint: Breakpoint,
    ticks: &mut Ticks,
) -> bool
    ensures value { (h : History) → core.Agrees resource.now h →
        result ≡ rules.is_hit (core.plant_of resource.now) table.now ran (state_of (core.plant_of resource.now) h) breakpoint }
    ensures ticks { Within (1 + condition_nodes table.now breakpoint.condition) ticks.old ticks.new }
{
    window();
    ticks.tick();
    let Breakpoint {
        program,
        point,
        condition,
    } = breakpoint;
    if !has_point(resource, program, point) || !ran.contains(program) {
        return false;
    }
    let view = resource.program(program);
    has_happened(&view, point) && holds(table, &view, condition, ticks)
}

/// Whether one of the breakpoints is hit.
pub fn any_hit(
    resource: &Resource,
    table: &[BreakCondition],
    ran: InstanceSet,
    set: &[Breakpoint],
    ticks: &mut Ticks,
) -> bool
    ensures value { (h : History) → core.Agrees resource.now h →
        result ≡ rules.any_hit (core.plant_of resource.now) table.now ran (state_of (core.plant_of resource.now) h) set.now }
    ensures ticks { Within (points_work table.now set.now) ticks.old ticks.new }
{
    match set.split_first() {
        None => false,
        Some((breakpoint, rest)) => {
            is_hit(resource, table, ran, *breakpoint, ticks)
                || any_hit(resource, table, ran, rest, ticks)
        }
    }
}
