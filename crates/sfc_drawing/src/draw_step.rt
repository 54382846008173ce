//! What is drawn of steps and their action blocks (2.6.2, 2.6.4).

ghost use Rattle.std.specs.Prelude.{◌≡◌, ◌++◌, IfOk, OnOk, flat_map, map, option_map};
ghost use Rattle.sfc_drawing.specs.Said as said;
ghost use Rattle.sfc_drawing.specs.Told as told;

use crate::drawn::{ActionMark, Columns, Corner, DrawnRow, DrawnStep, Entry, Own, StepMark};
use crate::marks::{StepState, action_mark};
use crate::owned::owned;
use crate::widths::{shown, wide};
use sfc_base::items::Items;
use sfc_base::references::Variable;
use sfc_layout::node_box::NodeBox;
use sfc_page::append::{append, append_time};
use sfc_plant::association::{Association, Qualifier, Target, Time};
use sfc_plant::chart::Step;
use sfc_plant::names::Names;
use std::alloc::{AllocError, Global};

/// Where a step stands, and what is drawn at it.
#[derive(Drop)]
pub struct StepSpot {
    pub sheet: Corner,
    pub place: NodeBox,
    pub own: Items<Own>,
    pub entry: Option<Entry>,
    pub branches: Option<u32>,
}

// The time of an association, if it has one.
fn time_text(
    alloc: Global,
    names: &Names<'_>,
    qualifier: Qualifier,
) -> Result<Items<u8>, AllocError>
    ensures { IfOk result (λ text. text ≡ said.time_said names.now qualifier) }
{
    let mut text = Vec::new(alloc);
    match qualifier {
        Qualifier::Timed(_, Time::Literal(micros)) => append_time(&mut text, micros)?,
        Qualifier::Timed(_, Time::Variable(variable)) => {
            append(&mut text, names.variable(variable))?
        }
        Qualifier::NonStored
        | Qualifier::Reset
        | Qualifier::Set
        | Qualifier::Pulse
        | Qualifier::RisingPulse
        | Qualifier::FallingPulse => {}
    }
    Ok(Items::from_vec(text))
}

fn append_indicator(
    out: &mut Vec<u8>,
    names: &Names<'_>,
    indicator: Variable,
) -> Result<(), AllocError>
    ensures { OnOk result (out.new.items ≡ out.old.items ++ said.further names.now indicator) }
{
    append(out, b", ")?;
    append(out, names.variable(indicator))
}

// The indicators behind the first.
#[tactic(auto, using(crate::proofs::Joins::grown))]
fn append_further(
    out: &mut Vec<u8>,
    names: &Names<'_>,
    indicators: &[Variable],
) -> Result<(), AllocError>
    ensures { OnOk result (out.new.items ≡ out.old.items ++ flat_map (said.further names.now) indicators.now) }
{
    for indicator in indicators {
        append_indicator(out, names, *indicator)?;
    }
    Ok(())
}

// The indicators of an association, parted by commas.
fn indicators_text(
    alloc: Global,
    names: &Names<'_>,
    indicators: &[Variable],
) -> Result<Items<u8>, AllocError>
    ensures { IfOk result (λ text. text ≡ said.indicators_said names.now indicators.now) }
{
    let mut text = Vec::new(alloc);
    if let Some((first, others)) = indicators.split_first() {
        append(&mut text, names.variable(*first))?;
        append_further(&mut text, names, others)?;
    }
    Ok(Items::from_vec(text))
}

// Whether the action of an association has a body, and is no variable.
fn has_body(target: Target) -> bool
    ensures { result ≡ said.has_body target }
{
    match target {
        Target::Declared(_) => true,
        Target::Boolean(_) => false,
    }
}

// An association, so far down.
fn draw_row(
    alloc: Global,
    names: &Names<'_>,
    association: &Association,
    top: u32,
    mark: ActionMark,
) -> Result<DrawnRow, AllocError>
    ensures { IfOk result (λ row. said.row_drawn row ≡ said.row_said names.now mark association.now) }
{
    Ok(DrawnRow {
        qualifier: owned(alloc, association.qualifier.letters())?,
        time: time_text(alloc, names, association.qualifier)?,
        action: owned(alloc, names.target(association.target))?,
        indicators: indicators_text(alloc, names, association.indicators.as_slice())?,
        has_body: has_body(association.target),
        top,
        mark,
    })
}

/// The lines of the action block of a step, the first of them so far down, with what is told of them. The one error is that memory was
/// refused.
pub fn draw_rows(
    alloc: Global,
    names: &Names<'_>,
    associations: &[Association],
    top: u32,
    marks: &[ActionMark],
) -> Result<Items<DrawnRow>, AllocError>
    ensures { IfOk result (λ rows. map said.row_drawn rows ≡ said.rows_said names.now marks.now associations.now) }
{
    let mut rows = Vec::new(alloc);
    let mut top = top;
    for (number, association) in associations.iter().enumerate() {
        let mark = action_mark(marks, number);
        let row = draw_row(alloc, names, association, top, mark)?;
        rows.push(row)?;
        top = top.saturating_add(20);
    }
    Ok(Items::from_vec(rows))
}

// The width of a field with so many characters; 0 where it has none.
fn field_width(characters: u32) -> u32 {
    match characters {
        0 => 0,
        _ => wide(characters).saturating_add(10),
    }
}

/// How wide the fields of an action block are.
pub fn columns_of(rows: &[DrawnRow]) -> Columns {
    let mut most = Columns {
        qualifier: 0,
        time: 0,
        action: 0,
        indicators: 0,
    };
    for row in rows {
        most.qualifier = most.qualifier.max(shown(row.qualifier.as_slice(), 24));
        most.time = most.time.max(shown(row.time.as_slice(), 24));
        most.action = most.action.max(shown(row.action.as_slice(), 28));
        most.indicators = most.indicators.max(shown(row.indicators.as_slice(), 24));
    }
    Columns {
        qualifier: field_width(most.qualifier),
        time: field_width(most.time),
        action: field_width(most.action),
        indicators: field_width(most.indicators),
    }
}

// For how long a step is active, if it is.
fn time_told(alloc: Global, active: Option<i64>) -> Result<Items<u8>, AllocError>
    ensures { IfOk result (λ time. time ≡ told.time_told active) }
{
    let mut time = Vec::new(alloc);
    if let Some(micros) = active {
        append_time(&mut time, micros)?;
    }
    Ok(Items::from_vec(time))
}

// What is told of a step, if something is.
fn step_mark(alloc: Global, state: Option<&StepState>) -> Result<StepMark, AllocError>
    ensures { IfOk result (λ mark. mark ≡ told.step_mark (option_map (λ state. state.now) state.entry)) }
{
    match state {
        Some(state) => Ok(StepMark {
            is_active: state.active.is_some(),
            time: time_told(alloc, state.active)?,
            is_never: state.is_never,
        }),
        None => Ok(StepMark {
            is_active: false,
            time: Items::from_vec(Vec::new(alloc)),
            is_never: false,
        }),
    }
}

// What is told of the associations of a step.
fn rows_told(state: Option<&StepState>) -> &[ActionMark]
    ensures { result.now ≡ told.rows_told (option_map (λ state. state.now) state.entry) }
{
    match state {
        Some(state) => state.rows.as_slice(),
        None => &[],
    }
}

/// What is drawn of a step, with what is told of it. The one error is that memory was refused.
pub fn draw_step(
    alloc: Global,
    names: &Names<'_>,
    step: &Step,
    spot: StepSpot,
    state: Option<&StepState>,
) -> Result<DrawnStep, AllocError>
    ensures said { IfOk result (λ drawn.
        said.step_drawn drawn ≡ said.step_said names.now (option_map (λ state. state.now) state.entry) step.now) }
    ensures place { IfOk result (λ drawn. drawn.place ≡ spot.place) }
{
    let top = spot.place.top.saturating_add(7);
    let associations = step.associations.as_slice();
    let rows = draw_rows(alloc, names, associations, top, rows_told(state))?;
    let columns = columns_of(rows.as_slice());
    Ok(DrawnStep {
        name: owned(alloc, step.name.spelling())?,
        is_initial: step.is_initial,
        sheet: spot.sheet,
        place: spot.place,
        own: spot.own,
        entry: spot.entry,
        branches: spot.branches,
        columns,
        rows,
        mark: step_mark(alloc, state)?,
    })
}
