//! Variables that are found by name.

use crate::name_table::NameTable;
use crate::variable::Variable;
use sfc_base::items::Items;
use sfc_base::var_type::VarType;
use std::alloc::{AllocError, Global};
use std::marker::Model;

/// Variables in declared order, of which no two have one name but for case. Contracts see the list of them.
pub struct VariableTable {
    variables: Vec<Variable>,
    names: NameTable,
}

// By hand, so that a caller that drops one proves one call.
impl Drop for VariableTable {
    fn drop(self) {
        let VariableTable {
            variables: _,
            names: _,
        } = self;
    }
}

impl Model for VariableTable {
    ghost use Rattle.std.specs.Prelude.{List, ◌≡◌};
    ghost use Rattle.sfc_plant.specs.declared.variable.Variable.{Variable};
    ghost use Rattle.sfc_plant.specs.VariableNames.{names_of};

    ghost Value = { List Variable };

    ghost view = { λ table. table.variables.items };

    ghost invariant = { λ table. table.names ≡ names_of table.variables.items };
}

ghost use Rattle.std.specs.Prelude.{◌≡◌, []};
ghost use Rattle.sfc_base.specs.NameLists.{has};
ghost use Rattle.sfc_plant.specs.VariableNames.{names_of, variable_place};

impl VariableTable {
    /// A table without variables. It takes no memory yet.
    pub fn new(alloc: Global) -> VariableTable
        ensures { result ≡ [] }
    {
        VariableTable {
            variables: Vec::new(alloc),
            names: NameTable::new(alloc),
        }
    }

    /// The table of these variables and of their names.
    pub fn from_parts(variables: Vec<Variable>, names: NameTable) -> VariableTable
        requires { names ≡ names_of variables.items }
        ensures { result ≡ variables.items }
    {
        VariableTable { variables, names }
    }

    /// The variables, in declared order.
    pub fn as_slice(&self) -> &[Variable]
        ensures { result.now ≡ self.now }
    {
        self.variables.as_slice()
    }

    /// The place of the variable with this name; case is not significant. It takes no memory.
    pub fn find(&self, name: &[u8]) -> Option<usize>
        ensures { result ≡ variable_place self.now name.now }
    {
        self.names.find(name)
    }

    /// Whether a variable has this name; case is not significant. It takes no memory.
    pub fn contains(&self, name: &[u8]) -> bool
        ensures { result ≡ has (names_of self.now) name.now }
    {
        self.names.contains(name)
    }
}
