//! The name spaces of a text: those that all share, and those of a program type.

use crate::item::Item;
use crate::mention::Declared;
use crate::space::Space;
use sfc_base::case::is_same_word;
use sfc_base::name::Name;
use sfc_text::expression::Variable;
use sfc_text::tree::{Configuration, Element, Program, Source, VariableBlock};
use sfc_tokens::placed::Placed;
use std::alloc::{AllocError, Global};

/// The names that all program types and the configuration share.
#[derive(Drop)]
pub struct Shared {
    pub globals: Space,
    pub tasks: Space,
    pub types: Space,
}

/// The names of a program type's own.
#[derive(Drop)]
pub struct Own {
    locals: Space,
    steps: Space,
    actions: Space,
}

// The names of the global variables.
fn globals_of(alloc: Global, configuration: &Configuration) -> Result<Space, AllocError> {
    let mut space = Space::new(alloc);
    let mut global = 0usize;
    for declaration in configuration.globals.as_slice() {
        for name in declaration.value().names.as_slice() {
            space.add(alloc, name, Item::Global { global })?;
            global = global.saturating_add(1);
        }
    }
    Ok(space)
}

// The names of the tasks.
fn tasks_of(alloc: Global, configuration: &Configuration) -> Result<Space, AllocError> {
    let mut space = Space::new(alloc);
    let mut task = 0usize;
    for written in configuration.tasks.as_slice() {
        space.add(alloc, &written.value().name, Item::Task { task })?;
        task = task.saturating_add(1);
    }
    Ok(space)
}

// The names of the program types.
fn types_of(alloc: Global, programs: &[Program]) -> Result<Space, AllocError> {
    let mut space = Space::new(alloc);
    let mut program = 0usize;
    for written in programs {
        space.add(alloc, &written.name, Item::ProgramType { program })?;
        program = program.saturating_add(1);
    }
    Ok(space)
}

impl Shared {
    /// Those of a text. The one error is that memory was refused.
    pub fn of(alloc: Global, source: &Source) -> Result<Shared, AllocError> {
        let globals = globals_of(alloc, &source.configuration)?;
        let tasks = tasks_of(alloc, &source.configuration)?;
        let types = types_of(alloc, source.programs.as_slice())?;
        Ok(Shared {
            globals,
            tasks,
            types,
        })
    }
}

// The names of the local variables of a program type.
fn locals_of(alloc: Global, program: usize, blocks: &[VariableBlock]) -> Result<Space, AllocError> {
    let mut space = Space::new(alloc);
    let mut local = 0usize;
    for block in blocks {
        if let VariableBlock::Local(declarations) = block {
            for declaration in declarations.as_slice() {
                for name in declaration.value().names.as_slice() {
                    space.add(alloc, name, Item::Local { program, local })?;
                    local = local.saturating_add(1);
                }
            }
        }
    }
    Ok(space)
}

// The names of the steps of a program type.
fn steps_of(alloc: Global, program: usize, elements: &[Element]) -> Result<Space, AllocError> {
    let mut space = Space::new(alloc);
    let mut step = 0usize;
    for element in elements {
        if let Element::Step(written, _) = element {
            space.add(alloc, &written.name, Item::Step { program, step })?;
            step = step.saturating_add(1);
        }
    }
    Ok(space)
}

// The names of the actions of a program type.
fn actions_of(alloc: Global, program: usize, elements: &[Element]) -> Result<Space, AllocError> {
    let mut space = Space::new(alloc);
    let mut action = 0usize;
    for element in elements {
        if let Element::Action(written, _) = element {
            space.add(alloc, &written.name, Item::Action { program, action })?;
            action = action.saturating_add(1);
        }
    }
    Ok(space)
}

impl Own {
    /// Those of the program type at this place. The one error is that memory was refused.
    pub fn of(alloc: Global, program: usize, written: &Program) -> Result<Own, AllocError> {
        let locals = locals_of(alloc, program, written.variables.as_slice())?;
        let steps = steps_of(alloc, program, written.elements.as_slice())?;
        let actions = actions_of(alloc, program, written.elements.as_slice())?;
        Ok(Own {
            locals,
            steps,
            actions,
        })
    }
}

/// What the names in a program type mean.
#[derive(Clone, Copy)]
pub struct Scope<'a> {
    pub program: usize,
    pub shared: &'a Shared,
    pub own: &'a Own,
}

impl Scope<'_> {
    /// The variable of this name: a local one, else a global one (2.4.3).
    pub fn variable(&self, name: &Placed<Name>) -> Option<Declared> {
        match self.own.locals.find(name) {
            Some(local) => Some(local),
            None => self.shared.globals.find(name),
        }
    }

    /// The step of this name.
    pub fn step(&self, name: &Placed<Name>) -> Option<Declared> {
        self.own.steps.find(name)
    }

    /// What an association of this name goes to: a declared action, else a variable (2.6.4.1).
    pub fn target(&self, name: &Placed<Name>) -> Option<Declared> {
        match self.own.actions.find(name) {
            Some(action) => Some(action),
            None => self.variable(name),
        }
    }

    /// What a name in an expression means: with `.Q` behind it an action, with another part a step, else a variable (2.6.2,
    /// 2.6.4.5).
    pub fn referent(&self, written: &Variable) -> Option<Declared> {
        match &written.part {
            None => self.variable(&written.name),
            Some(part) if is_same_word(part.spelling(), b"Q") => {
                self.own.actions.find(&written.name)
            }
            Some(_) => self.step(&written.name),
        }
    }
}
