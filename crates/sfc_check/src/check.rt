//! The types of expressions (3.3.1).

ghost use Rattle.std.specs.Prelude.{◌≡◌};
ghost use Rattle.sfc_text.specs.Trees.{tree_of};
ghost use Rattle.sfc_check.specs.Checking as checking;
ghost use Rattle.sfc_check.specs.Naturals as naturals;
ghost use Rattle.sfc_check.specs.Scopes as scopes;
ghost use Rattle.sfc_check.specs.TypeFaults.{Gives, GivesExactly};
ghost use Rattle.sfc_expr.specs.Trees.{expression_of};
ghost use Rattle.sfc_expr.specs.Types as types;

use crate::family::{Family, family_of, operator_of};
use crate::literal::{check_literal, want};
use crate::natural::natural;
use crate::placed_error::{PlacedTypeError, typed_at};
use crate::referent::Referent;
use crate::scope::Scope;
use crate::type_error::TypeError;
use sfc_base::var_type::VarType;
use sfc_expr::expr::Expr;
use sfc_text::expression::{Expression, Variable as Name};
use std::alloc::Global;

/// The typed tree of an expression that is wanted of a type, or its first type fault: an operator's own before those
/// of its operands, the left operand's before the right one's. The fault of an operator is at the operator, that of a name at
/// the name, or behind its dot where nothing has such a part.
#[cycle(check)]
pub fn check<S: Scope>(
    alloc: Global,
    expression: &Expression,
    scope: &S,
    wanted: VarType,
) -> Result<Expr, PlacedTypeError>
    ensures { Gives expression_of result (checking.checked (S.names scope.now) (tree_of expression.now) wanted) }
{
    match expression {
        Expression::Literal(literal, _) => {
            let value = typed_at(check_literal(*literal, wanted), expression, scope, wanted)?;
            Ok(Expr::Literal(value))
        }
        Expression::Variable(name) => {
            typed_at(check_name(name, scope, wanted), expression, scope, wanted)
        }
        Expression::Not(_, operand) => {
            typed_at(want(VarType::Bool, wanted), expression, scope, wanted)?;
            let operand = check_operand(alloc, operand, scope, VarType::Bool)?;
            Ok(Expr::Not(operand))
        }
        Expression::Minus(_, operand) => {
            let var_type = typed_at(integer(wanted), expression, scope, wanted)?;
            let operand = check_operand(alloc, operand, scope, var_type)?;
            Ok(Expr::Minus(var_type, operand))
        }
        Expression::Binary(written, _, left, right) => {
            let operator = operator_of(*written);
            let operands = operand_type(family_of(operator), wanted, left, right, scope);
            let var_type = typed_at(operands, expression, scope, wanted)?;
            let left = check_operand(alloc, left, scope, var_type)?;
            let right = check_operand(alloc, right, scope, var_type)?;
            Ok(Expr::Binary(operator, var_type, left, right))
        }
    }
}

// The typed tree of an operand, in memory of its own.
#[cycle(check)]
fn check_operand<S: Scope>(
    alloc: Global,
    operand: &Expression,
    scope: &S,
    wanted: VarType,
) -> Result<Box<Expr>, PlacedTypeError>
    ensures { Gives (λ b. expression_of b.value) result
        (checking.checked (S.names scope.now) (tree_of operand.now) wanted) }
{
    let operand = check(alloc, operand, scope, wanted)?;
    Ok(Box::new(alloc, operand)?)
}

// The typed tree of a name.
fn check_name<S: Scope>(name: &Name, scope: &S, wanted: VarType) -> Result<Expr, TypeError>
    ensures { GivesExactly expression_of result
        (checking.checked_name (scopes.referent_of (S.names scope.now) name.now) wanted) }
{
    match Referent::of_name(name, scope) {
        Some(referent) => {
            want(referent.var_type(), wanted)?;
            Ok(referent.reading())
        }
        None => Err(TypeError::Unknown),
    }
}

// The type of operands, where the operator is to give a wanted type.
fn operand_type<S: Scope>(
    family: Family,
    wanted: VarType,
    left: &Expression,
    right: &Expression,
    scope: &S,
) -> Result<VarType, TypeError>
    ensures { let natural : _ = naturals.natural (S.names scope.now) in
        GivesExactly (λ t. t) result
        (checking.operand_type family wanted (natural (tree_of left.now)) (natural (tree_of right.now))) }
{
    match family {
        Family::Logical => {
            want(VarType::Bool, wanted)?;
            Ok(VarType::Bool)
        }
        Family::Equality => {
            want(VarType::Bool, wanted)?;
            Ok(compared(left, right, scope))
        }
        Family::Order => {
            want(VarType::Bool, wanted)?;
            ordered(compared(left, right, scope))
        }
        Family::Sum => sum(wanted),
        Family::Product => integer(wanted),
    }
}

// The type that a comparison works on.
fn compared<S: Scope>(left: &Expression, right: &Expression, scope: &S) -> VarType
    ensures { let natural : _ = naturals.natural (S.names scope.now) in
        result ≡ checking.compared (natural (tree_of left.now)) (natural (tree_of right.now)) }
{
    match natural(left, scope) {
        Some(var_type) => var_type,
        None => natural(right, scope).unwrap_or(VarType::Dint),
    }
}

// A BOOL has no order.
fn ordered(var_type: VarType) -> Result<VarType, TypeError>
    ensures { GivesExactly (λ t. t) result (checking.ordered var_type) }
{
    match var_type {
        VarType::Bool => Err(TypeError::WrongType),
        VarType::Int | VarType::Dint | VarType::Time => Ok(var_type),
    }
}

// The type of the operands of `+` and `-`.
fn sum(wanted: VarType) -> Result<VarType, TypeError>
    ensures { GivesExactly (λ t. t) result (checking.or_wrong (types.sum_type wanted)) }
{
    match wanted {
        VarType::Int | VarType::Dint | VarType::Time => Ok(wanted),
        VarType::Bool => Err(TypeError::WrongType),
    }
}

// The type of the operands of `*`, `/`, MOD and of the operand of a minus.
fn integer(wanted: VarType) -> Result<VarType, TypeError>
    ensures { GivesExactly (λ t. t) result (checking.or_wrong (types.integer_type wanted)) }
{
    match wanted {
        VarType::Int | VarType::Dint => Ok(wanted),
        VarType::Bool | VarType::Time => Err(TypeError::WrongType),
    }
}
