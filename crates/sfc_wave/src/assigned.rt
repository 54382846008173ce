//! Which variables the bodies of a program type assign (3.3.2.1).

use sfc_base::references::Variable;
use sfc_expr::statement::{Branch, Statement};
use sfc_flags::flags::Flags;
use sfc_plant::action::Action;
use sfc_plant::program_type::ProgramType;
use std::alloc::{AllocError, Global};

/// The variables that the bodies of a program type assign, each once.
pub struct Assigned {
    list: Vec<Variable>,
    // Which of the globals, and behind them of the locals, are listed.
    listed: Flags,
    globals: usize,
}

// By hand, so that a caller that drops one proves one call.
impl Drop for Assigned {
    fn drop(self) {
        let Assigned {
            list: _,
            listed: _,
            globals: _,
        } = self;
    }
}

// Lists what the statements assign.
#[cycle(assigned)]
fn list_statements(assigned: &mut Assigned, statements: &[Statement]) -> Result<(), AllocError> {
    for statement in statements {
        list_statement(assigned, statement)?;
    }
    Ok(())
}

// Lists what a statement assigns.
#[cycle(assigned)]
fn list_statement(assigned: &mut Assigned, statement: &Statement) -> Result<(), AllocError> {
    match statement {
        Statement::Assign { target, value: _ } => assigned.push(*target),
        Statement::If(branches) => list_branches(assigned, branches),
    }
}

// Lists what branches assign.
#[cycle(assigned)]
fn list_branches(assigned: &mut Assigned, branches: &[Branch]) -> Result<(), AllocError> {
    for branch in branches {
        match branch {
            Branch::When(_, body) => list_statements(assigned, body)?,
            Branch::Otherwise(body) => list_statements(assigned, body)?,
        }
    }
    Ok(())
}

impl Assigned {
    /// Those of a program type of a plant with so many globals. The one error is that memory was refused.
    pub fn of_type(
        alloc: Global,
        program: &ProgramType,
        globals: usize,
    ) -> Result<Assigned, AllocError> {
        let locals = program.locals.as_slice().len();
        let mut assigned = Assigned {
            list: Vec::new(alloc),
            listed: Flags::new(alloc, globals.saturating_add(locals))?,
            globals,
        };
        assigned.list_bodies(program.chart.actions.as_slice())?;
        Ok(assigned)
    }

    // Lists what the bodies assign.
    fn list_bodies(&mut self, actions: &[Action]) -> Result<(), AllocError> {
        for action in actions {
            list_statements(self, action.body.as_slice())?;
        }
        Ok(())
    }

    // One more, where it isn't listed.
    fn push(&mut self, variable: Variable) -> Result<(), AllocError> {
        let place = match variable {
            Variable::Global(global) => global.0,
            Variable::Local(local) => self.globals.saturating_add(local.0),
        };
        if place < self.listed.count() && !self.listed.get(place) {
            self.listed.set(place, true);
            self.list.push(variable)?;
        }
        Ok(())
    }

    /// All of them.
    pub fn as_slice(&self) -> &[Variable] {
        self.list.as_slice()
    }
}
