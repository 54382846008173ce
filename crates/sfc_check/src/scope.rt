//! Where expressions and statements are checked.

ghost use Rattle.std.specs.Prelude.{◌≡◌};
ghost use Rattle.sfc_check.specs.Scopes.{Names, IgnoresCase};

use sfc_base::references::{StepId, Variable};
use sfc_base::var_type::VarType;

/// What the names of a program stand for. The member `names` says it for each name as it was written; the law
/// `ignores_case` is that the case of letters is not significant (2.1.2). No finder takes memory.
pub trait Scope {
    ghost names: { Self → Names };

    /// The variable of this name, among locals and externals, then globals (2.4.3), with its type.
    fn variable(&self, name: &[u8]) -> Option<(Variable, VarType)>
        ensures { result ≡ (names self.now).variable name.now };

    /// The step of this name (2.6.2).
    fn step(&self, name: &[u8]) -> Option<StepId>
        ensures { result ≡ (names self.now).step name.now };

    /// Whether the name is that of the action in whose body the statements stand (2.6.4.5).
    fn is_own_action(&self, name: &[u8]) -> bool
        ensures { result ≡ (names self.now).is_own_action name.now };

    ghost ignores_case: { (scope : Self) → IgnoresCase (names scope) };
}
