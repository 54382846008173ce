//! The types that expressions have by themselves (3.3.1).

ghost use Rattle.std.specs.Prelude.{◌≡◌};
ghost use Rattle.sfc_text.specs.Trees.{tree_of};
ghost use Rattle.sfc_check.specs.Naturals as naturals;

use crate::family::{Family, family_of, operator_of};
use crate::referent::Referent;
use crate::scope::Scope;
use sfc_base::var_type::VarType;
use sfc_text::expression::Expression;
use sfc_text::tree::Literal;

/// The natural type of an expression: none of an integer without a type, nor of a name that is not found.
pub fn natural<S: Scope>(expression: &Expression, scope: &S) -> Option<VarType>
    ensures { result ≡ naturals.natural (S.names scope.now) (tree_of expression.now) }
{
    match expression {
        Expression::Literal(literal, _) => literal_type(*literal),
        Expression::Variable(name) => Some(Referent::of_name(name, scope)?.var_type()),
        Expression::Not(_, _) => Some(VarType::Bool),
        Expression::Minus(_, operand) => natural(operand, scope),
        Expression::Binary(operator, _, left, right) => match family_of(operator_of(*operator)) {
            Family::Sum | Family::Product => match natural(left, scope) {
                Some(var_type) => Some(var_type),
                None => natural(right, scope),
            },
            Family::Logical | Family::Equality | Family::Order => Some(VarType::Bool),
        },
    }
}

/// The type that a literal was written with.
pub fn literal_type(literal: Literal) -> Option<VarType>
    ensures { result ≡ naturals.literal_type literal }
{
    match literal {
        Literal::Integer(_) => None,
        Literal::Int(_) => Some(VarType::Int),
        Literal::Dint(_) => Some(VarType::Dint),
        Literal::Bool(_) => Some(VarType::Bool),
        Literal::Time(_) => Some(VarType::Time),
    }
}
