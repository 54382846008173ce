//! What names stand for in a program type (2.4.3, 2.6.2, 2.6.4.1).

use sfc_base::case::is_same_word;
use sfc_base::limits::STEPS;
use sfc_base::references::{GlobalId, LocalId, StepId, Variable};
use sfc_base::var_type::VarType;
use sfc_check::scope::Scope;
use sfc_plant::name_table::NameTable;
use sfc_plant::variable_table::VariableTable;
use std::marker::Model;

/// A program type with these variables, steps and actions, as the conditions of its transitions see it. There are at
/// most 1,024 steps.
#[derive(Drop)]
pub struct ProgramScope<'a> {
    globals: &'a VariableTable,
    locals: &'a VariableTable,
    steps: &'a NameTable,
    actions: &'a NameTable,
}

impl<'a> Model for ProgramScope<'a> {
    ghost use Rattle.sfc_base.specs.declared.limits.TheConstants.{STEPS};
    ghost use Rattle.std.specs.Prelude.{◌≤◌, length};
    ghost use Rattle.sfc_plant.specs.Spaces.{Space};

    ghost Value = { Space };

    ghost view = { λ scope. record {
      globals = scope.globals.now;
      locals = scope.locals.now;
      steps = scope.steps.now;
      actions = scope.actions.now;
    } };

    ghost invariant = { λ scope. length scope.steps.now ≤ STEPS };
}

/// A program type, as the body of one of its actions sees it.
#[derive(Drop)]
pub struct ActionScope<'a> {
    pub program: &'a ProgramScope<'a>,
    pub own: &'a [u8],
}

ghost use Rattle.std.specs.Prelude.{◌≡◌, ◌≤◌, length, Some, None};
ghost use Rattle.sfc_base.specs.NameLists.{place_of};
ghost use Rattle.sfc_plant.specs.VariableNames.{variable_named};
ghost use Rattle.sfc_program.specs.Names.{names_in};
ghost use Rattle.sfc_program.specs.Scoping.AnyCase.{ignoring_case};

/// The variable of this name with its type: a local one, else a global one (2.4.3).
pub fn find_variable(
    globals: &VariableTable,
    locals: &VariableTable,
    name: &[u8],
) -> Option<(Variable, VarType)>
    ensures { result ≡ variable_named locals.now globals.now name.now }
{
    if let Some(place) = locals.find(name) {
        let variable = locals.as_slice().get(place)?;
        return Some((Variable::Local(LocalId(place)), variable.var_type));
    }
    let place = globals.find(name)?;
    let variable = globals.as_slice().get(place)?;
    Some((Variable::Global(GlobalId(place)), variable.var_type))
}

impl<'a> ProgramScope<'a> {
    /// A program type with these variables, steps and actions.
    pub fn new(
        globals: &'a VariableTable,
        locals: &'a VariableTable,
        steps: &'a NameTable,
        actions: &'a NameTable,
    ) -> ProgramScope<'a>
        requires { length steps.now ≤ STEPS }
        ensures { result ≡ record {
          globals = globals.now;
          locals = locals.now;
          steps = steps.now;
          actions = actions.now;
        } }
    {
        ProgramScope {
            globals,
            locals,
            steps,
            actions,
        }
    }

    /// The place of the declared action with this name.
    pub fn action(&self, name: &[u8]) -> Option<usize>
        ensures { result ≡ place_of name.now self.now.actions }
    {
        self.actions.find(name)
    }
}

impl Scope for ProgramScope<'_> {
    ghost names = { λ space. names_in space None };

    fn variable(&self, name: &[u8]) -> Option<(Variable, VarType)> {
        find_variable(self.globals, self.locals, name)
    }

    fn step(&self, name: &[u8]) -> Option<StepId> {
        let place = self.steps.find(name)?;
        Some(StepId(place as u16))
    }

    fn is_own_action(&self, _name: &[u8]) -> bool {
        false
    }

    ghost ignores_case = { ignoring_case None };
}

impl Scope for ActionScope<'_> {
    ghost names = { λ scope. names_in scope.program.now (Some scope.own.now) };

    fn variable(&self, name: &[u8]) -> Option<(Variable, VarType)> {
        self.program.variable(name)
    }

    fn step(&self, name: &[u8]) -> Option<StepId> {
        self.program.step(name)
    }

    fn is_own_action(&self, name: &[u8]) -> bool {
        is_same_word(self.own, name)
    }

    ghost ignores_case = { λ scope. ignoring_case (Some scope.own.now) scope.program.now };
}
