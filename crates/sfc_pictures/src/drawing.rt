//! The drawings of program types and of instances.

ghost use Rattle.std.specs.Prelude.{◌≡◌, ℕ, IfSome, length};
ghost use Rattle.sfc_plant.specs.Sound.{IsProgram};

use crate::conditions::Conditions;
use crate::sfc_core::resource::Resource;
use crate::sfc_instance::program_view::ProgramView;
use crate::sfc_tables::tables::Tables;
use crate::sheet::Sheet;
use crate::step::append_step;
use crate::transition::append_transition;
use sfc_base::ids::{ProgId, TransitionId, TypeId};
use sfc_page::append::{append, append_number};
use sfc_plant::chart::{Step, Transition};
use sfc_plant::names::Names;
use sfc_plant::plant::Plant;
use sfc_plant::program_type::ProgramType;
use std::alloc::{AllocError, Global};

// The steps of a chart.
fn append_steps(out: &mut Vec<u8>, sheet: &Sheet<'_>, steps: &[Step]) -> Result<(), AllocError> {
    let mut number = 0usize;
    for step in steps {
        append_step(out, sheet, number, step)?;
        number = number.saturating_add(1);
    }
    Ok(())
}

// The transitions of a chart as they win (2.6.5), so that branches stand in this order from left to right.
fn append_transitions(
    out: &mut Vec<u8>,
    sheet: &Sheet<'_>,
    transitions: &[Transition],
) -> Result<(), AllocError> {
    for id in &sheet.ranked {
        let number = usize::from(id.0);
        if let Some(transition) = transitions.get(number) {
            append_transition(out, sheet, number, transition)?;
        }
    }
    Ok(())
}

// The chart of a sheet behind the title of its drawing.
fn append_chart(out: &mut Vec<u8>, sheet: &Sheet<'_>) -> Result<(), AllocError> {
    append(out, b"\"\n")?;
    append_steps(out, sheet, sheet.chart.steps.as_slice())?;
    append_transitions(out, sheet, sheet.chart.transitions.as_slice())?;
    append(out, b"  }\n")
}

// How a drawing begins, until its title.
fn append_begin(out: &mut Vec<u8>, number: usize) -> Result<(), AllocError> {
    append(out, b"  subgraph cluster_")?;
    append_number(out, number as u64)?;
    append(out, b" {\n    label=\"")
}

// The title of an instance: its name and program type, how many scans its life has had, and its fault.
fn append_title(
    out: &mut Vec<u8>,
    name: &[u8],
    program: &ProgramType,
    view: &ProgramView<'_>,
) -> Result<(), AllocError> {
    append(out, name)?;
    append(out, b" : ")?;
    append(out, program.name.spelling())?;
    append(out, b", scans ")?;
    append_number(out, view.scans())?;
    match view.fault() {
        None => Ok(()),
        Some(fault) => {
            append(out, b", fault ")?;
            append(out, fault.name())
        }
    }
}

// How many transitions the program types in front of one have.
fn transitions_before(plant: &Plant, program: usize) -> usize {
    let mut count = 0usize;
    for before in plant.types().iter().take(program) {
        count = count.saturating_add(before.chart.transitions.len());
    }
    count
}

// The program type with this number.
fn type_at(plant: &Plant, number: usize) -> Option<&ProgramType>
    ensures { IfSome result (λ program. IsProgram (length plant.now.globals) program.now) }
{
    plant.types().get(number)
}

// The transitions of a program type as they win.
fn ranked_of(alloc: Global, program: &ProgramType) -> Result<Vec<TransitionId>, AllocError>
    requires { (globals : ℕ) × IsProgram globals program.now }
{
    let tables = Tables::build(alloc, &program.chart)?;
    Vec::from_slice(alloc, tables.ranked())
}

// The drawing of a program type.
fn append_type<'a>(
    alloc: Global,
    out: &mut Vec<u8>,
    plant: &'a Plant,
    conditions: &'a Conditions,
    number: usize,
) -> Result<(), AllocError> {
    let Some(program) = type_at(plant, number) else {
        return Ok(());
    };
    append_begin(out, number)?;
    append(out, program.name.spelling())?;
    let sheet = Sheet {
        number,
        ranked: ranked_of(alloc, program)?,
        names: Names::new(plant.globals(), program),
        chart: &program.chart,
        conditions,
        transitions_before: transitions_before(plant, number),
        view: None,
    };
    append_chart(out, &sheet)
}

// The drawing of an instance.
fn append_instance<'a>(
    alloc: Global,
    out: &mut Vec<u8>,
    resource: &'a Resource,
    conditions: &'a Conditions,
    number: usize,
) -> Result<(), AllocError> {
    let plant = resource.plant();
    let Some(instance) = plant.instances().get(number) else {
        return Ok(());
    };
    let Some(program) = type_at(plant, instance.program.0) else {
        return Ok(());
    };
    let view = resource.program(ProgId(number as u8));
    append_begin(out, number)?;
    append_title(out, instance.name.spelling(), program, &view)?;
    let sheet = Sheet {
        number,
        ranked: ranked_of(alloc, program)?,
        names: plant.names(ProgId(number as u8)),
        chart: &program.chart,
        conditions,
        transitions_before: transitions_before(plant, instance.program.0),
        view: Some(view),
    };
    append_chart(out, &sheet)
}

// Whether a program type is wanted.
fn is_wanted(wanted: Option<TypeId>, program: usize) -> bool {
    match wanted {
        None => true,
        Some(wanted) => wanted.0 == program,
    }
}

// A drawing for each program type that is wanted.
fn append_types(
    alloc: Global,
    out: &mut Vec<u8>,
    plant: &Plant,
    conditions: &Conditions,
    wanted: Option<TypeId>,
) -> Result<(), AllocError> {
    for number in 0..plant.types().len() {
        if is_wanted(wanted, number) {
            append_type(alloc, out, plant, conditions, number)?;
        }
    }
    Ok(())
}

// A drawing for each instance of what is wanted.
fn append_instances(
    alloc: Global,
    out: &mut Vec<u8>,
    resource: &Resource,
    conditions: &Conditions,
    wanted: Option<TypeId>,
) -> Result<(), AllocError> {
    let instances = resource.plant().instances();
    for number in 0..instances.len() {
        if is_wanted(wanted, instances[number].program.0) {
            append_instance(alloc, out, resource, conditions, number)?;
        }
    }
    Ok(())
}

// How a picture begins.
fn append_head(out: &mut Vec<u8>, plant: &Plant) -> Result<(), AllocError> {
    append(out, b"digraph \"")?;
    append(out, plant.configuration().spelling())?;
    append(
        out,
        b"\" {\n  graph [fontname=\"Helvetica\" fontsize=12 ranksep=0.25 nodesep=0.4 style=rounded ordering=out color=\"#9e9e9e\"]\n",
    )?;
    append(
        out,
        b"  node [shape=plain fontname=\"Helvetica\" fontsize=11]\n  edge [arrowhead=none]\n",
    )
}

/// The picture of a plant: a drawing for each of its program types, or for the one that is wanted. The one error is that memory was
/// refused.
pub fn picture_of_types(
    alloc: Global,
    plant: &Plant,
    wanted: Option<TypeId>,
) -> Result<Vec<u8>, AllocError> {
    let conditions = Conditions::of_plant(alloc, plant)?;
    let mut out = Vec::new(alloc);
    append_head(&mut out, plant)?;
    append_types(alloc, &mut out, plant, &conditions, wanted)?;
    append(&mut out, b"}\n")?;
    Ok(out)
}

/// The picture of a resource: a drawing for each of its program instances, or for each of the program type that is wanted, as they stand.
/// The one error is that memory was refused.
pub fn picture_of_instances(
    alloc: Global,
    resource: &Resource,
    wanted: Option<TypeId>,
) -> Result<Vec<u8>, AllocError> {
    let conditions = Conditions::of_plant(alloc, resource.plant())?;
    let mut out = Vec::new(alloc);
    append_head(&mut out, resource.plant())?;
    append_instances(alloc, &mut out, resource, &conditions, wanted)?;
    append(&mut out, b"}\n")?;
    Ok(out)
}
