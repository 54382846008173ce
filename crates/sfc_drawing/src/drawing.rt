//! Plants as drawings.

ghost use Rattle.std.specs.Prelude.{◌≡◌, ◌++◌, ◌∷◌, [], All, IfOk, OnOk, length};
ghost use Rattle.sfc_plant.specs.ProgramTypes.{type_of};
ghost use Rattle.sfc_plant.specs.Sound.{IsProgram};
ghost use Rattle.sfc_drawing.specs.Drawings as drawings;

use crate::draw_chart::{Title, draw_chart};
use crate::drawing_error::DrawingError;
use crate::drawn::{Corner, DrawnChart, Picture};
use crate::graph::Subject;
use crate::listed::Listed;
use crate::marks::{Marked, Marks};
use crate::owned::owned;
use crate::picture::svg_of;
use sfc_base::ids::{ProgId, TypeId};
use sfc_base::items::Items;
use sfc_page::append::append;
use sfc_plant::names::Names;
use sfc_plant::plant::Plant;
use sfc_plant::program_type::ProgramType;
use sfc_plant::variable::Variable;
use sfc_tables::tables::Tables;
use std::alloc::{AllocError, Global};

/// What stands around all, and between two charts.
const MARGIN: u32 = 20;

/// How many transitions and actions the types in front of one have.
#[derive(Clone, Copy)]
struct Passed {
    transitions: usize,
    actions: usize,
}

// Those in front of the type with this number.
fn before(types: &[ProgramType], number: usize) -> Passed {
    let mut before = Passed {
        transitions: 0,
        actions: 0,
    };
    for program in types.iter().take(number) {
        before.transitions = before
            .transitions
            .saturating_add(program.chart.transitions.len());
        before.actions = before.actions.saturating_add(program.chart.actions.len());
    }
    before
}

// A program type among the global variables of its plant, with what a listing has of its chart.
#[derive(Clone, Copy)]
struct Source<'a> {
    globals: &'a [Variable],
    program: &'a ProgramType,
    conditions: &'a [Vec<u8>],
    bodies: &'a [Vec<Vec<u8>>],
}

// The source that is the type with this number, or an instance of it.
fn source_of<'a>(
    plant: &'a Plant,
    listed: &'a Listed,
    program: &'a ProgramType,
    number: usize,
) -> Source<'a>
    ensures globals { result.globals.now ≡ plant.now.globals }
    ensures program { result.program.now ≡ program.now }
{
    let before = before(plant.types(), number);
    Source {
        globals: plant.globals(),
        program,
        conditions: listed.conditions(before.transitions),
        bodies: listed.bodies(before.actions),
    }
}

// The chart of a program type, below this corner.
fn draw_program(
    alloc: Global,
    source: Source<'_>,
    title: Title,
    corner: Corner,
    marks: &Marks,
) -> Result<DrawnChart, DrawingError>
    requires { IsProgram (length source.globals.now) source.program.now }
    ensures { IfOk result (λ drawn.
        drawings.IsOf source.entry.globals.now title.name title.note marks.now source.entry.program.now drawn) }
{
    let names = Names::new(source.globals, source.program);
    let tables = Tables::build(alloc, &source.program.chart)?;
    let subject = Subject {
        names: &names,
        chart: &source.program.chart,
        ranked: tables.ranked(),
        conditions: source.conditions,
        bodies: source.bodies,
    };
    draw_chart(alloc, subject, title, corner, marks)
}

// Where a chart stands below others that go down so far.
fn corner_below(bottom: u32) -> Corner {
    Corner {
        left: MARGIN,
        top: bottom.saturating_add(MARGIN),
    }
}

// One chart more.
fn push_chart(charts: &mut Vec<DrawnChart>, chart: DrawnChart) -> Result<(), AllocError>
    ensures { OnOk result (charts.new.items ≡ charts.old.items ++ chart ∷ []) }
{
    charts.push(chart)?;
    Ok(())
}

// The charts of these types, the first of which has this number among those of the plant.
fn draw_types(
    alloc: Global,
    plant: &Plant,
    types: &[ProgramType],
    first: usize,
) -> Result<Vec<DrawnChart>, DrawingError>
    requires { All (IsProgram (length plant.now.globals)) types.now }
    ensures { IfOk result (λ charts. drawings.AreOf plant.now.globals types.now charts.items) }
{
    let listed = Listed::of_plant(alloc, plant)?;
    let marks = Marks::none(alloc);
    let mut charts = Vec::new(alloc);
    let mut corner = corner_below(0);
    for (number, program) in types.iter().enumerate() {
        let title = Title {
            name: owned(alloc, program.name.spelling())?,
            note: owned(alloc, b"")?,
        };
        let source = source_of(plant, &listed, program, first.saturating_add(number));
        let chart = draw_program(alloc, source, title, corner, &marks)?;
        corner = corner_below(chart.bottom.saturating_add(MARGIN));
        push_chart(&mut charts, chart)?;
    }
    Ok(charts)
}

// The picture of these charts.
fn picture_of(charts: Vec<DrawnChart>) -> Picture
    ensures { result.charts ≡ charts.items }
{
    let mut right = 0;
    let mut bottom = 0;
    for chart in charts.as_slice() {
        right = chart.right.max(right);
        bottom = chart.bottom.max(bottom);
    }
    Picture {
        width: right.saturating_add(MARGIN),
        height: bottom.saturating_add(2 * MARGIN),
        charts: Items::from_vec(charts),
    }
}

// The types that are wanted: all, or this one.
fn wanted_types(plant: &Plant, wanted: Option<TypeId>) -> &[ProgramType]
    ensures types { result.now ≡ drawings.wanted_types plant.now.types wanted }
    ensures sound { All (IsProgram (length plant.now.globals)) result.now }
{
    let types = plant.types();
    match wanted {
        None => types,
        Some(id) if id.0 < types.len() => &types[id.0..id.0 + 1],
        Some(_) => &[],
    }
}

/// The charts of all program types of a plant, or of this one, one below the other. The errors are that one would be too large, or that
/// memory was refused.
pub fn picture_of_types(
    alloc: Global,
    plant: &Plant,
    wanted: Option<TypeId>,
) -> Result<Picture, DrawingError>
    ensures { IfOk result (λ picture. drawings.AreOf plant.now.globals (drawings.wanted_types plant.now.types wanted) picture.charts) }
{
    let first = match wanted {
        None => 0,
        Some(id) => id.0,
    };
    let charts = draw_types(alloc, plant, wanted_types(plant, wanted), first)?;
    Ok(picture_of(charts))
}

/// The charts of all program types of a plant, or of this one, as SVG. The errors are that one would be too large, or that memory was
/// refused.
pub fn svg_of_types(
    alloc: Global,
    plant: &Plant,
    wanted: Option<TypeId>,
) -> Result<Vec<u8>, DrawingError>
    ensures { IfOk result (λ text. drawings.IsDrawing plant.now.globals (drawings.wanted_types plant.now.types wanted) text.items) }
{
    let picture = picture_of_types(alloc, plant, wanted)?;
    let text = svg_of(alloc, &picture)?;
    Ok(text)
}

// What stands behind the name of an instance: its program type, and what is told of it.
fn note_of(alloc: Global, program: &ProgramType, marks: &Marks) -> Result<Items<u8>, AllocError>
    ensures { IfOk result (λ note. note ≡ drawings.note_of program.now marks.now) }
{
    let mut note = Vec::from_slice(alloc, b" : ")?;
    append(&mut note, program.name.spelling())?;
    append(&mut note, marks.note.as_slice())?;
    Ok(Items::from_vec(note))
}

// The number of the program type of an instance.
fn type_number(plant: &Plant, instance: ProgId) -> usize {
    match plant.instances().get(usize::from(instance.0)) {
        Some(instance) => instance.program.0,
        None => 0,
    }
}

// The chart of an instance, below this corner, if the plant has such an instance.
fn draw_instance(
    alloc: Global,
    plant: &Plant,
    listed: &Listed,
    marked: &Marked,
    corner: Corner,
) -> Result<Option<DrawnChart>, DrawingError>
    ensures { IfOk result (λ drawn. drawings.IsOfInstance plant.now marked.now (type_of plant.now marked.now.instance) drawn) }
{
    match plant.type_of(marked.instance) {
        None => Ok(None),
        Some(program) => {
            let number = type_number(plant, marked.instance);
            let source = source_of(plant, listed, program, number);
            let title = Title {
                name: owned(alloc, plant.instance_name(marked.instance))?,
                note: note_of(alloc, program, &marked.marks)?,
            };
            let chart = draw_program(alloc, source, title, corner, &marked.marks)?;
            Ok(Some(chart))
        }
    }
}

// Where the next chart stands behind this one, if there is one.
fn corner_behind(corner: Corner, drawn: &Option<DrawnChart>) -> Corner {
    match drawn {
        None => corner,
        Some(chart) => corner_below(chart.bottom.saturating_add(MARGIN)),
    }
}

// One chart more, if there is one.
fn push_drawn(charts: &mut Vec<DrawnChart>, drawn: Option<DrawnChart>) -> Result<(), AllocError>
    ensures { OnOk result (charts.new.items ≡ charts.old.items ++ drawings.if_some drawn) }
{
    match drawn {
        None => Ok(()),
        Some(chart) => push_chart(charts, chart),
    }
}

// The charts of these instances.
fn draw_instances(
    alloc: Global,
    plant: &Plant,
    instances: &[Marked],
) -> Result<Vec<DrawnChart>, DrawingError>
    ensures { IfOk result (λ charts. drawings.AreOfInstances plant.now instances.now charts.items) }
{
    let listed = Listed::of_plant(alloc, plant)?;
    let mut charts = Vec::new(alloc);
    let mut corner = corner_below(0);
    for marked in instances {
        let drawn = draw_instance(alloc, plant, &listed, marked, corner)?;
        corner = corner_behind(corner, &drawn);
        push_drawn(&mut charts, drawn)?;
    }
    Ok(charts)
}

/// The charts of these program instances of a plant, one below the other, each with what is told of it. One that the plant doesn't have
/// is passed over. The errors are that one would be too large, or that memory was refused.
pub fn picture_of_instances(
    alloc: Global,
    plant: &Plant,
    instances: &[Marked],
) -> Result<Picture, DrawingError>
    ensures { IfOk result (λ picture. drawings.AreOfInstances plant.now instances.now picture.charts) }
{
    let charts = draw_instances(alloc, plant, instances)?;
    Ok(picture_of(charts))
}

/// The same as SVG.
pub fn svg_of_instances(
    alloc: Global,
    plant: &Plant,
    instances: &[Marked],
) -> Result<Vec<u8>, DrawingError>
    ensures { IfOk result (λ text. drawings.IsMarkedDrawing plant.now instances.now text.items) }
{
    let picture = picture_of_instances(alloc, plant, instances)?;
    let text = svg_of(alloc, &picture)?;
    Ok(text)
}
