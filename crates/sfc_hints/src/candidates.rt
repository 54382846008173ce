//! The declared names that may be meant where one isn't found.

use sfc_places::declared::Declared;
use sfc_places::enclosing::program_with;
use sfc_places::finding::Sort;
use sfc_places::spaces::{actions_of, globals_of, programs_of, steps_of, tasks_of, variables_of};
use sfc_places::tree_text::TreeText;
use std::alloc::{AllocError, Global};

// Adds names.
fn add_all(names: &mut Vec<Declared>, more: &[Declared]) -> Result<(), AllocError> {
    for declared in more {
        names.push(*declared)?;
    }
    Ok(())
}

// The variables of the program type whose name has this place, and the globals.
fn scope_of(
    alloc: Global,
    text: &TreeText<'_>,
    program: usize,
) -> Result<Vec<Declared>, AllocError> {
    let mut names = match program_with(text, program) {
        Some(program) => variables_of(alloc, text.chart, program)?,
        None => Vec::new(alloc),
    };
    let globals = globals_of(alloc, text.chart, text.source)?;
    add_all(&mut names, &globals)?;
    Ok(names)
}

// The actions of the program type whose name has this place, its variables, and the globals.
fn targets_of(
    alloc: Global,
    text: &TreeText<'_>,
    program: usize,
) -> Result<Vec<Declared>, AllocError> {
    let mut names = match program_with(text, program) {
        Some(program) => actions_of(alloc, text.chart, program)?,
        None => Vec::new(alloc),
    };
    let scope = scope_of(alloc, text, program)?;
    add_all(&mut names, &scope)?;
    Ok(names)
}

/// The declared names of a sort, in the order in which they are looked up. The one error is that memory was refused.
pub fn candidates(
    alloc: Global,
    text: &TreeText<'_>,
    sort: Sort,
) -> Result<Vec<Declared>, AllocError> {
    let TreeText { chart, source } = *text;
    match sort {
        Sort::Variables { program } => scope_of(alloc, text, program),
        Sort::Globals => globals_of(alloc, chart, source),
        Sort::Steps { program } => match program_with(text, program) {
            Some(program) => steps_of(alloc, chart, program),
            None => Ok(Vec::new(alloc)),
        },
        Sort::Actions { program } => targets_of(alloc, text, program),
        Sort::Tasks => tasks_of(alloc, chart, source),
        Sort::ProgramTypes => programs_of(alloc, chart, source),
    }
}
