//! What names in expressions stand for (2.4.3, 2.6.2, 2.6.4.5).

ghost use Rattle.std.specs.Prelude.{◌≡◌};
ghost use Rattle.sfc_check.specs.Scopes as scopes;
ghost use Rattle.sfc_expr.specs.Trees.{expression_of};

use crate::scope::Scope;
use sfc_base::case::is_same_word;
use sfc_base::references::{StepId, Variable};
use sfc_base::var_type::VarType;
use sfc_expr::expr::Expr;
use sfc_text::expression::Variable as Name;

/// What a name in an expression stands for.
#[derive(Clone, Copy, Debug, PartialEq, Eq)]
pub enum Referent {
    /// A variable, with its type.
    Variable(Variable, VarType),
    /// `S.X` of a step.
    StepActive(StepId),
    /// `S.T` of a step.
    StepTime(StepId),
    /// `A.Q` of the action in whose body it stands.
    ActionQ,
}

impl Referent {
    /// What a name with or without a dot stands for; none where it is not found.
    pub fn of_name<S: Scope>(name: &Name, scope: &S) -> Option<Referent>
        ensures { result ≡ scopes.referent_of (S.names scope.now) name.now }
    {
        match &name.part {
            None => {
                let (variable, var_type) = scope.variable(name.name.spelling())?;
                Some(Referent::Variable(variable, var_type))
            }
            Some(part) => part_of(name.name.spelling(), part.spelling(), scope),
        }
    }

    /// The type of its value.
    pub fn var_type(self) -> VarType
        ensures { result ≡ scopes.type_of_referent self }
    {
        match self {
            Referent::Variable(_, var_type) => var_type,
            Referent::StepActive(_) | Referent::ActionQ => VarType::Bool,
            Referent::StepTime(_) => VarType::Time,
        }
    }

    /// The expression that reads it.
    pub fn reading(self) -> Expr
        ensures { expression_of result ≡ scopes.reading_of self }
    {
        match self {
            Referent::Variable(variable, _) => Expr::Variable(variable),
            Referent::StepActive(step) => Expr::StepActive(step),
            Referent::StepTime(step) => Expr::StepTime(step),
            Referent::ActionQ => Expr::ActionQ,
        }
    }
}

/// Whether steps or actions have a part of this name (2.6.2, 2.6.4.5): X, T or Q.
pub(crate) fn is_part(part: &[u8]) -> bool {
    is_same_word(part, b"X") || is_same_word(part, b"T") || is_same_word(part, b"Q")
}

// What a name with a dot stands for.
fn part_of<S: Scope>(name: &[u8], part: &[u8], scope: &S) -> Option<Referent>
    ensures { result ≡ scopes.part_of (S.names scope.now) name.now part.now }
{
    if is_same_word(part, b"X") {
        return Some(Referent::StepActive(scope.step(name)?));
    }
    if is_same_word(part, b"T") {
        return Some(Referent::StepTime(scope.step(name)?));
    }
    if is_same_word(part, b"Q") && scope.is_own_action(name) {
        return Some(Referent::ActionQ);
    }
    None
}
