//! Where breakpoints stand, and their conditions.

ghost use Rattle.std.specs.Prelude.{◌≡◌, ◌++◌, slice_get, OnOk};
ghost use Rattle.sfc_debug.specs.sfc_core.Agreement as core;
ghost use Rattle.sfc_expr.specs.Trees.{expression_of};
ghost use Rattle.sfc_debug.specs.Hits.{shown_condition};
ghost use Rattle.sfc_output.specs.Commands as output;
ghost use Rattle.sfc_debug.specs.Steered.{steered_by};

use crate::sfc_core::resource::Resource;
use crate::sfc_instance::program_view::ProgramView;
use crate::sfc_tables::tables::Tables;
use sfc_base::ids::ProgId;
use sfc_debug::debugger::Debugger;
use sfc_events::command::{CondId, Point};
use sfc_expr::expr::Expr;
use sfc_list::list_expr::list_expr;
use sfc_page::append::{append, append_number};
use sfc_plant::names::Names;
use sfc_plant::plant::Plant;
use std::alloc::AllocError;

// A point of the chart.
fn append_point(
    out: &mut Vec<u8>,
    names: &Names<'_>,
    tables: &Tables,
    point: Point,
) -> Result<(), AllocError>
    ensures { OnOk result (out.new.items ≡ out.old.items ++ output.point_text names.now tables.now point) }
{
    match point {
        Point::Step(step) => {
            append(out, b" STEP ")?;
            append(out, names.step(step))
        }
        Point::Transition(transition) => {
            append(out, b" TRANSITION ")?;
            append_number(out, u64::from(transition.0) + 1)
        }
        Point::Action(action) => {
            append(out, b" ACTION ")?;
            append(out, tables.action_name(names, action))
        }
    }
}

// A point of a program instance that is there.
fn append_point_of(
    out: &mut Vec<u8>,
    resource: &Resource,
    program: ProgId,
    point: Point,
) -> Result<(), AllocError>
    ensures { OnOk result (out.new.items ≡ out.old.items ++
        output.point_in (core.plant_of resource.now) program point (slice_get (core.plant_of resource.now).instances program.0)) }
{
    let plant = resource.plant();
    if (program.0 as usize) >= plant.instances().len() {
        return Ok(());
    }
    let view = resource.program(program);
    append_point(out, &plant.names(program), view.tables(), point)
}

/// Puts at the end where a breakpoint stands: the name of the program instance, and the point of its chart. The one error is that
/// memory was refused; then a front of it may stand there.
pub fn append_place(
    out: &mut Vec<u8>,
    resource: &Resource,
    program: ProgId,
    point: Point,
) -> Result<(), AllocError>
    ensures { OnOk result (out.new.items ≡ out.old.items ++ output.place_text (core.plant_of resource.now) program point) }
{
    append(out, resource.plant().instance_name(program))?;
    append_point_of(out, resource, program, point)
}

// An expression of a program instance; nothing where that isn't there.
fn append_expression(
    out: &mut Vec<u8>,
    plant: &Plant,
    program: ProgId,
    expr: &Expr,
) -> Result<(), AllocError>
    ensures { OnOk result (out.new.items ≡ out.old.items ++
        output.expression_in plant.now program (expression_of expr.now) (slice_get plant.now.instances program.0)) }
{
    if (program.0 as usize) >= plant.instances().len() {
        return Ok(());
    }
    match list_expr(plant, program, expr, out) {
        Ok(()) => Ok(()),
        Err(_) => Err(AllocError),
    }
}

/// Puts a condition of the debugger at the end, as the condition of a transition is listed; nothing where there is none. The one
/// error is that memory was refused; then a front of it may stand there.
pub fn append_condition(
    out: &mut Vec<u8>,
    debugger: &Debugger,
    id: CondId,
) -> Result<(), AllocError>
    ensures { OnOk result (out.new.items ≡ out.old.items ++ output.condition_text (steered_by debugger.now).plant
        (shown_condition (slice_get (steered_by debugger.now).table id.0))) }
{
    match debugger.condition(id) {
        None => Ok(()),
        Some((program, expr)) => append_expression(out, debugger.resource().plant(), program, expr),
    }
}
