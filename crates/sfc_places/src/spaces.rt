//! The names that a text declares, space by space in the order in which loading puts them there, by the tree.

use crate::chart_text::ChartText;
use crate::declared::{Declared, Kind};
use crate::enclosing::token_of;
use crate::marks::spelling_at;
use sfc_base::case::is_same_word;
use sfc_base::location::Location;
use sfc_base::name::Name;
use sfc_text::tree::{Declaration, Element, Program, Source, VariableBlock};
use sfc_tokens::placed::Placed;
use std::alloc::{AllocError, Global};

/// A variable of the image, with its location if it has one.
#[derive(Clone, Copy)]
pub struct Lying<'a> {
    pub declared: Declared,
    pub location: Option<&'a Location>,
}

// The name as it is declared.
fn declared(chart: &ChartText<'_>, name: &Placed<Name>, kind: Kind) -> Declared {
    Declared {
        kind,
        token: token_of(chart, name),
    }
}

/// The first of these that is this word.
pub fn first_of(chart: &ChartText<'_>, names: &[Declared], word: &[u8]) -> Option<Declared> {
    for name in names {
        if is_same_word(spelling_at(chart.tokens, name.token), word) {
            return Some(*name);
        }
    }
    None
}

// Puts the names, which are declared as this, last.
fn add_names(
    chart: &ChartText<'_>,
    names: &[Placed<Name>],
    kind: Kind,
    space: &mut Vec<Declared>,
) -> Result<(), AllocError> {
    for name in names {
        space.push(declared(chart, name, kind))?;
    }
    Ok(())
}

/// The global variables. The one error is that memory was refused.
pub fn globals_of(
    alloc: Global,
    chart: &ChartText<'_>,
    source: &Source,
) -> Result<Vec<Declared>, AllocError> {
    let mut space = Vec::new(alloc);
    for declaration in source.configuration.globals.as_slice() {
        let written = declaration.value();
        let kind = Kind::Global(written.var_type);
        add_names(chart, written.names.as_slice(), kind, &mut space)?;
    }
    Ok(space)
}

// Puts the variables of a block last.
fn add_block(
    chart: &ChartText<'_>,
    block: &VariableBlock,
    space: &mut Vec<Declared>,
) -> Result<(), AllocError> {
    match block {
        VariableBlock::Local(declarations) => {
            for declaration in declarations.as_slice() {
                let written = declaration.value();
                let kind = Kind::Local(written.var_type);
                add_names(chart, written.names.as_slice(), kind, space)?;
            }
        }
        VariableBlock::External(externals) => {
            for external in externals.as_slice() {
                let kind = Kind::External(external.var_type);
                add_names(chart, external.names.as_slice(), kind, space)?;
            }
        }
    }
    Ok(())
}

// Puts the names of the steps last.
fn add_steps(
    chart: &ChartText<'_>,
    elements: &[Element],
    space: &mut Vec<Declared>,
) -> Result<(), AllocError> {
    for element in elements {
        if let Element::Step(step, _) = element {
            let kind = if step.is_initial {
                Kind::InitialStep
            } else {
                Kind::Step
            };
            space.push(declared(chart, &step.name, kind))?;
        }
    }
    Ok(())
}

// Puts the names of the actions last.
fn add_actions(
    chart: &ChartText<'_>,
    elements: &[Element],
    space: &mut Vec<Declared>,
) -> Result<(), AllocError> {
    for element in elements {
        if let Element::Action(action, _) = element {
            space.push(declared(chart, &action.name, Kind::Action))?;
        }
    }
    Ok(())
}

// Puts the names of those transitions that have one last.
fn add_transitions(
    chart: &ChartText<'_>,
    elements: &[Element],
    space: &mut Vec<Declared>,
) -> Result<(), AllocError> {
    for element in elements {
        if let Element::Transition(transition, _) = element {
            if let Some(name) = &transition.name {
                space.push(declared(chart, name, Kind::Transition))?;
            }
        }
    }
    Ok(())
}

/// The variables of a program type's own, and its externals. The one error is that memory was refused.
pub fn variables_of(
    alloc: Global,
    chart: &ChartText<'_>,
    program: &Program,
) -> Result<Vec<Declared>, AllocError> {
    let mut space = Vec::new(alloc);
    for block in program.variables.as_slice() {
        add_block(chart, block, &mut space)?;
    }
    Ok(space)
}

/// The steps of a program type. The one error is that memory was refused.
pub fn steps_of(
    alloc: Global,
    chart: &ChartText<'_>,
    program: &Program,
) -> Result<Vec<Declared>, AllocError> {
    let mut space = Vec::new(alloc);
    add_steps(chart, program.elements.as_slice(), &mut space)?;
    Ok(space)
}

/// The declared actions of a program type. The one error is that memory was refused.
pub fn actions_of(
    alloc: Global,
    chart: &ChartText<'_>,
    program: &Program,
) -> Result<Vec<Declared>, AllocError> {
    let mut space = Vec::new(alloc);
    add_actions(chart, program.elements.as_slice(), &mut space)?;
    Ok(space)
}

/// The transitions of a program type that have a name. The one error is that memory was refused.
pub fn transitions_of(
    alloc: Global,
    chart: &ChartText<'_>,
    program: &Program,
) -> Result<Vec<Declared>, AllocError> {
    let mut space = Vec::new(alloc);
    add_transitions(chart, program.elements.as_slice(), &mut space)?;
    Ok(space)
}

/// The names of a program type's own: variables, steps, actions, transitions. The one error is that memory was refused.
pub fn own_of(
    alloc: Global,
    chart: &ChartText<'_>,
    program: &Program,
) -> Result<Vec<Declared>, AllocError> {
    let mut space = variables_of(alloc, chart, program)?;
    let elements = program.elements.as_slice();
    add_steps(chart, elements, &mut space)?;
    add_actions(chart, elements, &mut space)?;
    add_transitions(chart, elements, &mut space)?;
    Ok(space)
}

/// The tasks. The one error is that memory was refused.
pub fn tasks_of(
    alloc: Global,
    chart: &ChartText<'_>,
    source: &Source,
) -> Result<Vec<Declared>, AllocError> {
    let mut space = Vec::new(alloc);
    for task in source.configuration.tasks.as_slice() {
        space.push(declared(chart, &task.value().name, Kind::Task))?;
    }
    Ok(space)
}

/// The program instances. The one error is that memory was refused.
pub fn instances_of(
    alloc: Global,
    chart: &ChartText<'_>,
    source: &Source,
) -> Result<Vec<Declared>, AllocError> {
    let mut space = Vec::new(alloc);
    for instance in source.configuration.instances.as_slice() {
        space.push(declared(chart, &instance.value().name, Kind::Instance))?;
    }
    Ok(space)
}

/// The program types. The one error is that memory was refused.
pub fn programs_of(
    alloc: Global,
    chart: &ChartText<'_>,
    source: &Source,
) -> Result<Vec<Declared>, AllocError> {
    let mut space = Vec::new(alloc);
    for program in source.programs.as_slice() {
        space.push(declared(chart, &program.name, Kind::ProgramType))?;
    }
    Ok(space)
}

// Puts the variables of declarations last, which are of the image.
fn add_lying<'a>(
    chart: &ChartText<'_>,
    declarations: &'a [Placed<Declaration>],
    global: bool,
    image: &mut Vec<Lying<'a>>,
) -> Result<(), AllocError> {
    for declaration in declarations {
        let written = declaration.value();
        let kind = if global {
            Kind::Global(written.var_type)
        } else {
            Kind::Local(written.var_type)
        };
        let location = match &written.location {
            Some(location) => Some(location.value()),
            None => None,
        };
        for name in written.names.as_slice() {
            let declared = declared(chart, name, kind);
            image.push(Lying { declared, location })?;
        }
    }
    Ok(())
}

// Puts the variables of a program type that are of the image last.
fn add_locals<'a>(
    chart: &ChartText<'_>,
    program: &'a Program,
    image: &mut Vec<Lying<'a>>,
) -> Result<(), AllocError> {
    for block in program.variables.as_slice() {
        if let VariableBlock::Local(declarations) = block {
            add_lying(chart, declarations.as_slice(), false, image)?;
        }
    }
    Ok(())
}

/// The variables of the image: the globals, and the locals of each instance. The one error is that memory was refused.
pub fn image_of<'a>(
    alloc: Global,
    chart: &ChartText<'_>,
    source: &'a Source,
) -> Result<Vec<Lying<'a>>, AllocError> {
    let mut image = Vec::new(alloc);
    let globals = source.configuration.globals.as_slice();
    add_lying(chart, globals, true, &mut image)?;
    for instance in source.configuration.instances.as_slice() {
        let name = instance.value().program.spelling();
        if let Some(program) = program_named(source, name) {
            add_locals(chart, program, &mut image)?;
        }
    }
    Ok(image)
}

/// The program type with this name.
pub fn program_named<'a>(source: &'a Source, name: &[u8]) -> Option<&'a Program> {
    for program in source.programs.as_slice() {
        if is_same_word(program.name.spelling(), name) {
            return Some(program);
        }
    }
    None
}
