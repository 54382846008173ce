//! Expressions (3.3.1).

use crate::tree::Literal;
use sfc_base::name::Name;
use sfc_tokens::placed::Placed;
use sfc_tokens::span::Span;

/// A name, with what stands behind its dot: a variable, or what a step or an action has (2.6.2, 2.6.4.5).
#[derive(Debug)]
pub struct Variable {
    pub name: Placed<Name>,
    pub part: Option<Placed<Name>>,
}

// By hand, so that a caller that drops one proves one call.
impl Drop for Variable {
    fn drop(self) {
        let Variable { name: _, part: _ } = self;
    }
}

/// The operators of two operands (3.3.1).
#[derive(Clone, Copy, Debug, PartialEq, Eq)]
pub enum Operator {
    Or,
    Xor,
    And,
    Equal,
    NotEqual,
    Less,
    Greater,
    LessOrEqual,
    GreaterOrEqual,
    Add,
    Subtract,
    Multiply,
    Divide,
    Modulo,
}

/// An expression. The sign of an integer without a type belongs to its literal; each other minus is an operator. Literals and
/// operators have their bytes.
#[derive(Debug)]
pub enum Expression {
    Literal(Literal, Span),
    Variable(Variable),
    Not(Span, Box<Expression>),
    Minus(Span, Box<Expression>),
    Binary(Operator, Span, Box<Expression>, Box<Expression>),
}

// By hand, so that a caller that drops one proves one call.
impl Drop for Expression {
    fn drop(self) {
        match self {
            Expression::Literal(_, _) => {}
            Expression::Variable(_) => {}
            Expression::Not(_, _) => {}
            Expression::Minus(_, _) => {}
            Expression::Binary(_, _, _, _) => {}
        }
    }
}
