//! The names in expressions.

use crate::draft::Draft;
use crate::spaces::Scope;
use sfc_text::expression::Expression;
use std::alloc::AllocError;

/// Puts the names in an expression last. The one error is that memory was refused.
pub fn mention_names(
    expression: &Expression,
    scope: &Scope<'_>,
    draft: &mut Draft,
) -> Result<(), AllocError> {
    match expression {
        Expression::Literal(_, _) => Ok(()),
        Expression::Variable(name) => draft.mention(&name.name, scope.referent(name)),
        Expression::Not(_, operand) | Expression::Minus(_, operand) => {
            mention_names(operand, scope, draft)
        }
        Expression::Binary(_, _, left, right) => {
            mention_names(left, scope, draft)?;
            mention_names(right, scope, draft)
        }
    }
}
