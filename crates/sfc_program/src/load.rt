//! The trees of a program type to what it is.

ghost use Rattle.std.specs.Prelude.{◌≡◌, ◌≤◌, length, map};
ghost use Rattle.sfc_text.specs.Trees as trees;
ghost use Rattle.sfc_text.specs.Trees.{element_of};
ghost use Rattle.sfc_variables.specs.Checks.{Loads, ◌then◌};
ghost use Rattle.sfc_program.specs.Elements.{steps_of, step_names, action_names};
ghost use Rattle.sfc_program.specs.Loading.{distinct_check, element_names, initial_check, chart_check, program_check};
ghost use Rattle.sfc_program.specs.Built.{chart_of, program_of};

use crate::actions::load_actions;
use crate::associations::load_steps;
use crate::element_names::{ElementNames, check_initial, load_element_names};
use crate::limits::check_limits;
use crate::scope::ProgramScope;
use crate::transitions::load_transitions;
use sfc_base::items::Items;
use sfc_base::limits::STEPS;
use sfc_check::placed_error::{PlacedLoadError, loaded_at, loaded_within};
use sfc_plant::chart::Chart;
use sfc_plant::name_table::NameTable;
use sfc_plant::program_type::ProgramType;
use sfc_plant::variable_table::VariableTable;
use sfc_text::tree::{Element, Program};
use sfc_tokens::span::NOWHERE;
use sfc_variables::own::{OwnVariables, load_own};
use std::alloc::Global;

// The chart of the elements, whose names are known: associations, then transitions, then bodies.
fn load_chart(
    alloc: Global,
    elements: &[Element],
    scope: &ProgramScope,
) -> Result<Chart, PlacedLoadError>
    ensures { let trees : _ = map element_of elements.now in
        Loads (λ chart. chart) result (chart_check scope.now trees) (chart_of scope.now trees) }
{
    let steps = load_steps(alloc, elements, scope)?;
    let transitions = load_transitions(alloc, elements, scope)?;
    let actions = load_actions(alloc, elements, scope)?;
    Ok(Chart {
        steps: Items::from_vec(steps),
        transitions: Items::from_vec(transitions),
        actions: Items::from_vec(actions),
    })
}

// The chart of the elements, whose names are these: an initial step, then the chart.
fn load_named(
    alloc: Global,
    elements: &[Element],
    globals: &VariableTable,
    locals: &VariableTable,
    names: &ElementNames,
) -> Result<Chart, PlacedLoadError>
    requires { length names.now.steps ≤ STEPS }
    ensures { let trees : _ = map element_of elements.now in
        let space : _ = record {
          globals = globals.now;
          locals = locals.now;
          steps = names.now.steps;
          actions = names.now.actions;
        } in
        Loads (λ chart. chart) result (initial_check trees then chart_check space trees) (chart_of space trees) }
{
    loaded_at(check_initial(elements), NOWHERE)?;
    let scope = ProgramScope::new(globals, locals, &names.steps, &names.actions);
    load_chart(alloc, elements, &scope)
}

// The chart of the elements, whose names stand in one name space with those of the variables: names, then an initial
// step, then the chart.
fn load_elements(
    alloc: Global,
    elements: &[Element],
    globals: &VariableTable,
    locals: &VariableTable,
    space: &mut NameTable,
) -> Result<Chart, PlacedLoadError>
    requires { length (steps_of (map element_of elements.now)) ≤ STEPS }
    ensures { let trees : _ = map element_of elements.now in
        let names : _ = record {
          globals = globals.now;
          locals = locals.now;
          steps = step_names trees;
          actions = action_names trees;
        } in
        Loads (λ chart. chart) result
        (distinct_check space.old (element_names trees) then initial_check trees then chart_check names trees)
        (chart_of names trees) }
{
    let names = load_element_names(alloc, elements, space)?;
    load_named(alloc, elements, globals, locals, &names)
}

/// The program type that the trees are, where the global variables are these.
///
/// It answers the first fault in this order: the limits on steps, transitions and associations; locals and externals;
/// names that stand twice, of steps, then actions, then transitions; no initial step; associations; transitions;
/// bodies. A fault is at the name, the literal or the operator that is refused, or at the first of what is too much; that there
/// is no initial step at the name of the program type. `Memory` is answered where memory was refused.
#[tactic(auto, unfolding(crate::specs::Loading::program_check))]
pub fn load_program(
    alloc: Global,
    program: &Program,
    globals: &VariableTable,
) -> Result<ProgramType, PlacedLoadError>
    ensures { Loads (λ loaded. loaded) result
        (program_check globals.now (trees.program_of program.now))
        (program_of globals.now (trees.program_of program.now)) }
{
    let elements = program.elements.as_slice();
    check_limits(elements)?;
    let own = load_own(alloc, program.variables.as_slice(), globals)?;
    let OwnVariables {
        locals,
        externals,
        mut names,
    } = own;
    let chart = load_elements(alloc, elements, globals, &locals, &mut names);
    let chart = loaded_within(chart, program.name.span())?;
    Ok(ProgramType {
        name: program.name.copy(alloc)?,
        locals,
        externals,
        chart,
    })
}
