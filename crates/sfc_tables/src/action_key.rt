//! Keys by which Boolean actions are found.

use sfc_base::references::Variable;
use std::hash::{Hash, Hasher};
use std::marker::Model;

/// A variable as a key. Contracts see the variable.
#[derive(Debug)]
pub struct ActionKey {
    variable: Variable,
}

// By hand, so that a caller that drops one proves one call.
impl Drop for ActionKey {
    fn drop(self) {
        let ActionKey { variable: _ } = self;
    }
}

impl Model for ActionKey {
    ghost use Rattle.sfc_base.specs.declared.references.Variable.{Variable};

    ghost Value = { Variable };

    ghost view = { λ key. key.variable };
}

ghost use Rattle.std.specs.Prelude.{◌≡◌};
ghost use Rattle.std.specs.Hash as fed;
ghost use Rattle.sfc_tables.specs.Actions.{same_variable};
ghost use Rattle.sfc_tables.specs.Private.Hashing.{hashed};
ghost use Rattle.sfc_tables.specs.Private.SameVariables.{same_variable_equiv, same_variable_partial_equiv};
ghost use Rattle.sfc_tables.specs.Private.SameVariables.{same_variable_input};

impl ActionKey {
    /// The key of this variable.
    pub fn new(variable: Variable) -> ActionKey
        ensures { result ≡ variable }
    {
        ActionKey { variable }
    }

    /// The variable.
    pub fn variable(&self) -> Variable
        ensures { result ≡ self.now }
    {
        self.variable
    }
}

impl PartialEq for ActionKey {
    ghost eq = { same_variable };

    ghost laws = { same_variable_partial_equiv };

    fn eq(&self, other: &ActionKey) -> bool {
        match (self.variable, other.variable) {
            (Variable::Global(a), Variable::Global(b)) => a.0 == b.0,
            (Variable::Local(a), Variable::Local(b)) => a.0 == b.0,
            (Variable::Global(_), Variable::Local(_)) => false,
            (Variable::Local(_), Variable::Global(_)) => false,
        }
    }
}

impl Eq for ActionKey {
    ghost laws = { same_variable_equiv };
}

// The place of a variable among its kind.
fn hash_number(variable: Variable) -> usize
    ensures { result ≡ hashed variable }
{
    match variable {
        Variable::Global(id) => id.0,
        Variable::Local(id) => id.0,
    }
}

impl Hash for ActionKey {
    ghost hash_input = { λ key. fed.usize (hashed key) };

    ghost respects_eq = { same_variable_input };

    fn hash<H: Hasher>(&self, state: &mut H) {
        state.write_usize(hash_number(self.variable));
    }
}
