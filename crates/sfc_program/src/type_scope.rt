//! What names stand for in a program type that was loaded (2.4.3, 2.6.2, 2.6.4.1).

use crate::scope::find_variable;
use sfc_base::limits::STEPS;
use sfc_base::references::{StepId, Variable};
use sfc_base::var_type::VarType;
use sfc_check::scope::Scope;
use sfc_plant::program_type::ProgramType;
use sfc_plant::variable_table::VariableTable;
use std::marker::Model;

/// A program type among the global variables of its plant, as an expression sees it that stands in none of its actions:
/// a condition. It has at most 1,024 steps.
#[derive(Drop)]
pub struct TypeScope<'a> {
    globals: &'a VariableTable,
    program: &'a ProgramType,
}

impl<'a> Model for TypeScope<'a> {
    ghost use Rattle.sfc_base.specs.declared.limits.TheConstants.{STEPS};
    ghost use Rattle.std.specs.Prelude.{◌≤◌, length};
    ghost use Rattle.sfc_plant.specs.Spaces.{Space, space_in};

    ghost Value = { Space };

    ghost view = { λ scope. space_in scope.globals.now scope.program.now };

    ghost invariant = { λ scope. length scope.program.now.chart.steps ≤ STEPS };
}

ghost use Rattle.std.specs.Prelude.{◌≡◌, ◌≤◌, length, None};
ghost use Rattle.sfc_plant.specs.Spaces.{space_in};
ghost use Rattle.sfc_program.specs.Names.{names_in};
ghost use Rattle.sfc_program.specs.Scoping.AnyCase.{ignoring_case};

impl<'a> TypeScope<'a> {
    /// The program type among these global variables.
    pub fn new(globals: &'a VariableTable, program: &'a ProgramType) -> TypeScope<'a>
        requires { length program.now.chart.steps ≤ STEPS }
        ensures { result ≡ space_in globals.now program.now }
    {
        TypeScope { globals, program }
    }
}

impl Scope for TypeScope<'_> {
    ghost names = { λ space. names_in space None };

    fn variable(&self, name: &[u8]) -> Option<(Variable, VarType)> {
        find_variable(self.globals, &self.program.locals, name)
    }

    #[tactic(auto, using(crate::proofs::StepNames::step_place_among, crate::proofs::StepNames::step_place_below))]
    fn step(&self, name: &[u8]) -> Option<StepId> {
        let place = self.program.find_step(name)?;
        Some(StepId(place as u16))
    }

    fn is_own_action(&self, _name: &[u8]) -> bool {
        false
    }

    ghost ignores_case = { ignoring_case None };
}
