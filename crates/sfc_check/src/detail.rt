//! What is told of a fault beside its place.

use crate::family::{Family, family_of, operator_of};
use crate::natural::{literal_type, natural};
use crate::referent::{Referent, is_part};
use crate::scope::Scope;
use sfc_base::location::Size;
use sfc_base::var_type::VarType;
use sfc_text::expression::{Expression, Variable as Name};
use sfc_text::tree::Literal;
use sfc_tokens::span::Span;

/// Types that are wanted, or that are there.
#[derive(Clone, Copy, Debug, PartialEq, Eq)]
pub enum Types {
    One(VarType),
    /// INT or DINT.
    Integers,
    /// INT, DINT or TIME.
    Numbers,
    /// An integer without a type.
    Untyped,
}

/// What is told of a fault beside its place.
#[derive(Clone, Copy, Debug, PartialEq, Eq)]
pub enum Detail {
    Nothing,
    /// Other types are wanted than are there.
    Types { wanted: Types, found: Types },
    /// A location of another size is wanted, or none, for the type.
    Sizes { var_type: VarType, found: Size },
    /// A number isn't one of the type's.
    Range { wanted: VarType, found: i64 },
    /// There are so many, and there may be so many at most.
    Count { found: usize, most: usize },
}

impl Detail {
    /// Another type is wanted than is there.
    pub fn mismatch(wanted: VarType, found: VarType) -> Detail {
        Detail::Types {
            wanted: Types::One(wanted),
            found: Types::One(found),
        }
    }
}

// Where a name is at fault that is not found, or is of another type: behind its dot where nothing has such a part.
fn place_of_name(name: &Name) -> Span {
    match &name.part {
        Some(part) if !is_part(part.spelling()) => part.span(),
        _ => name.name.span(),
    }
}

/// Where an expression itself is at fault, apart from its operands: the literal, the name or the operator.
pub(crate) fn place_of(expression: &Expression) -> Span {
    match expression {
        Expression::Literal(_, span) => *span,
        Expression::Variable(name) => place_of_name(name),
        Expression::Not(span, _) | Expression::Minus(span, _) => *span,
        Expression::Binary(_, span, _, _) => *span,
    }
}

// The number that a literal is.
fn number_of(literal: &Literal) -> i64 {
    match literal {
        Literal::Integer(number) | Literal::Int(number) | Literal::Dint(number) => *number,
        Literal::Bool(_) => 0,
        Literal::Time(time) => time.micros(),
    }
}

// The type that a literal was written with, in words.
fn types_of(literal: &Literal) -> Types {
    match literal_type(*literal) {
        Some(var_type) => Types::One(var_type),
        None => Types::Untyped,
    }
}

/// What is told of a literal that is wanted of a type: the range of the type where an integer doesn't fit, else both types.
pub fn literal_detail(literal: &Literal, wanted: VarType) -> Detail {
    let may_fit = match literal_type(*literal) {
        Some(var_type) => var_type == wanted,
        None => true,
    };
    if may_fit && wanted != VarType::Time {
        return Detail::Range {
            wanted,
            found: number_of(literal),
        };
    }
    Detail::Types {
        wanted: Types::One(wanted),
        found: types_of(literal),
    }
}

// What a sum or a product gives: the type of its operands, where the operator is one for it.
fn given(family: Family, natural: Option<VarType>) -> Types {
    match (family, natural) {
        (Family::Sum | Family::Product, Some(VarType::Int)) => Types::One(VarType::Int),
        (Family::Sum | Family::Product, Some(VarType::Dint)) => Types::One(VarType::Dint),
        (Family::Sum, Some(VarType::Time)) => Types::One(VarType::Time),
        (Family::Sum, _) => Types::Numbers,
        (Family::Product, _) => Types::Integers,
        (Family::Logical | Family::Equality | Family::Order, _) => Types::One(VarType::Bool),
    }
}

// Whether an operator of the family may give the type.
fn may_give(family: Family, wanted: VarType) -> bool {
    match family {
        Family::Logical | Family::Equality | Family::Order => wanted == VarType::Bool,
        Family::Sum => wanted != VarType::Bool,
        Family::Product => wanted == VarType::Int || wanted == VarType::Dint,
    }
}

// What is told of an operator, whose operands have such a type, and which is wanted to give a type: that it gives another
// one, or that it has no BOOL operands.
fn operator_detail(family: Family, wanted: VarType, natural: Option<VarType>) -> Detail {
    if may_give(family, wanted) {
        return Detail::Types {
            wanted: Types::Numbers,
            found: Types::One(VarType::Bool),
        };
    }
    Detail::Types {
        wanted: Types::One(wanted),
        found: given(family, natural),
    }
}

/// What is told of an expression that is itself at fault, apart from its operands, where it is wanted of a type.
pub(crate) fn detail_of<S: Scope>(expression: &Expression, scope: &S, wanted: VarType) -> Detail {
    match expression {
        Expression::Literal(literal, _) => literal_detail(literal, wanted),
        Expression::Variable(name) => match Referent::of_name(name, scope) {
            Some(referent) => Detail::mismatch(wanted, referent.var_type()),
            None => Detail::Nothing,
        },
        Expression::Not(_, _) => Detail::mismatch(wanted, VarType::Bool),
        Expression::Minus(_, operand) => {
            operator_detail(Family::Product, wanted, natural(operand, scope))
        }
        Expression::Binary(written, _, left, right) => {
            let operands = match natural(left, scope) {
                Some(var_type) => Some(var_type),
                None => natural(right, scope),
            };
            operator_detail(family_of(operator_of(*written)), wanted, operands)
        }
    }
}
