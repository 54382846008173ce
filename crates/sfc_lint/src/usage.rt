//! Who reads and writes the variables of a plant (2.4).

use crate::view::View;
use sfc_base::references::{GlobalId, Variable};
use sfc_base::ticks::Ticks;
use sfc_expr::expr::Expr;
use sfc_expr::statement::{Branch, Statement};
use sfc_flags::flags::Flags;
use sfc_outline::item::Item;
use sfc_plant::association::{Qualifier, Target, Time};
use std::alloc::{AllocError, Global};

/// A place at which a program type writes a variable.
#[derive(Clone, Copy)]
pub struct Write {
    pub variable: Variable,
    pub item: Item,
    /// Whether an action block does, and not a body.
    pub is_block: bool,
}

/// A place at which a body of a program type reads a global variable.
#[derive(Clone, Copy)]
pub struct Reading {
    pub global: GlobalId,
    pub item: Item,
}

/// Marks at the variables that a program type sees.
#[derive(Drop)]
pub struct Marks {
    globals: Flags,
    locals: Flags,
}

/// What a program type does with its variables.
#[derive(Drop)]
pub struct Usage {
    /// The variables that it names anywhere.
    pub named: Marks,
    /// Those that are its Boolean actions.
    pub blocks: Marks,
    /// Those that its bodies assign.
    pub bodies: Marks,
    // Those that its bodies read.
    read: Marks,
    /// Where it writes: of each variable the first place by an action block, and by a body.
    pub writes: Vec<Write>,
    /// Where its bodies read global variables, of each the first place.
    pub readings: Vec<Reading>,
}

// Sets a flag, where there is a place for it.
fn mark(flags: &mut Flags, place: usize) {
    if place < flags.count() {
        flags.set(place, true);
    }
}

// Whether a flag is set.
fn is_set(flags: &Flags, place: usize) -> bool {
    place < flags.count() && flags.get(place)
}

impl Marks {
    // None, for the variables that a program type sees.
    fn new(alloc: Global, view: &View<'_>) -> Result<Marks, AllocError> {
        Ok(Marks {
            globals: Flags::new(alloc, view.plant.globals().len())?,
            locals: Flags::new(alloc, view.program.locals.as_slice().len())?,
        })
    }

    // Marks a variable.
    fn put(&mut self, variable: Variable) {
        match variable {
            Variable::Global(global) => mark(&mut self.globals, global.0),
            Variable::Local(local) => mark(&mut self.locals, local.0),
        }
    }

    /// Sets the flags of the global variables that are marked.
    pub fn add_globals_to(&self, flags: &mut Flags) {
        let mut ticks = Ticks::new();
        let mut from = 0usize;
        for _ in 0..self.globals.count() {
            let Some(place) = self.globals.next_set(from, &mut ticks) else {
                return;
            };
            mark(flags, place);
            from = place.saturating_add(1);
        }
    }

    /// Whether a variable is marked.
    pub fn has(&self, variable: Variable) -> bool {
        match variable {
            Variable::Global(global) => is_set(&self.globals, global.0),
            Variable::Local(local) => is_set(&self.locals, local.0),
        }
    }
}

impl Usage {
    // All variables of an expression are named; those that a body reads are put.
    fn name_all(&mut self, expr: &Expr, body: Option<Item>) -> Result<(), AllocError> {
        match expr {
            Expr::Variable(variable) => self.take_read(*variable, body),
            Expr::Not(inner) | Expr::Minus(_, inner) => self.name_all(inner, body),
            Expr::Binary(_, _, left, right) => {
                self.name_all(left, body)?;
                self.name_all(right, body)
            }
            _ => Ok(()),
        }
    }

    // A variable is read, by a body or not.
    fn take_read(&mut self, variable: Variable, body: Option<Item>) -> Result<(), AllocError> {
        self.named.put(variable);
        let (Variable::Global(global), Some(item)) = (variable, body) else {
            return Ok(());
        };
        if self.read.has(variable) {
            return Ok(());
        }
        self.read.put(variable);
        self.readings.push(Reading { global, item })?;
        Ok(())
    }

    // A variable is written.
    fn write(&mut self, variable: Variable, item: Item, is_block: bool) -> Result<(), AllocError> {
        self.named.put(variable);
        let marks = if is_block {
            &mut self.blocks
        } else {
            &mut self.bodies
        };
        if marks.has(variable) {
            return Ok(());
        }
        marks.put(variable);
        self.writes.push(Write {
            variable,
            item,
            is_block,
        })?;
        Ok(())
    }

    // What the associations of a program type name.
    fn take_associations(&mut self, view: &View<'_>) -> Result<(), AllocError> {
        let mut number = 0usize;
        for step in view.steps() {
            for association in step.associations.as_slice() {
                let item = Item::Association {
                    program: view.number,
                    association: number,
                };
                number = number.saturating_add(1);
                self.take_association(association.target, association.qualifier, item)?;
                for indicator in association.indicators.as_slice() {
                    self.named.put(*indicator);
                }
            }
        }
        Ok(())
    }

    // What an association names but its indicators.
    fn take_association(
        &mut self,
        target: Target,
        qualifier: Qualifier,
        item: Item,
    ) -> Result<(), AllocError> {
        if let Qualifier::Timed(_, Time::Variable(time)) = qualifier {
            self.named.put(time);
        }
        match target {
            Target::Boolean(variable) => self.write(variable, item, true),
            Target::Declared(_) => Ok(()),
        }
    }

    // What the statements of an action name, of which the first has this number; the number behind them.
    #[cycle(usage)]
    fn take_statements(
        &mut self,
        program: usize,
        action: usize,
        statements: &[Statement],
        first: usize,
    ) -> Result<usize, AllocError> {
        let mut number = first;
        for statement in statements {
            number = self.take_statement(program, action, statement, number)?;
        }
        Ok(number)
    }

    // What a statement of this number names; the number behind it and those in it.
    #[cycle(usage)]
    fn take_statement(
        &mut self,
        program: usize,
        action: usize,
        statement: &Statement,
        number: usize,
    ) -> Result<usize, AllocError> {
        let item = Item::Statement {
            program,
            action,
            statement: number,
        };
        match statement {
            Statement::Assign { target, value } => {
                self.name_all(value, Some(item))?;
                self.write(*target, item, false)?;
                Ok(number.saturating_add(1))
            }
            Statement::If(branches) => self.take_if(program, action, branches, number),
        }
    }

    // What the IF of this number names; the number behind it and those in it.
    #[cycle(usage)]
    fn take_if(
        &mut self,
        program: usize,
        action: usize,
        branches: &[Branch],
        number: usize,
    ) -> Result<usize, AllocError> {
        let item = Item::Statement {
            program,
            action,
            statement: number,
        };
        let mut behind = number.saturating_add(1);
        for branch in branches {
            behind = match branch {
                Branch::When(condition, body) => {
                    self.name_all(condition, Some(item))?;
                    self.take_statements(program, action, body, behind)?
                }
                Branch::Otherwise(body) => self.take_statements(program, action, body, behind)?,
            };
        }
        Ok(behind)
    }

    /// That of a program type. The one error is that memory was refused.
    pub fn of(alloc: Global, view: &View<'_>) -> Result<Usage, AllocError> {
        let mut usage = Usage {
            named: Marks::new(alloc, view)?,
            blocks: Marks::new(alloc, view)?,
            bodies: Marks::new(alloc, view)?,
            read: Marks::new(alloc, view)?,
            writes: Vec::new(alloc),
            readings: Vec::new(alloc),
        };
        usage.take_associations(view)?;
        for transition in view.transitions() {
            usage.name_all(transition.condition.expr(), None)?;
        }
        for (place, action) in view.chart().actions.as_slice().iter().enumerate() {
            let _behind = usage.take_statements(view.number, place, action.body.as_slice(), 0)?;
        }
        Ok(usage)
    }
}
