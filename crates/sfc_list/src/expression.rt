//! The text of expressions (3.3.1, Table 52).

ghost use Rattle.std.specs.Prelude.{◌≡◌, ◌≤◌};
ghost use Rattle.sfc_expr.specs.Trees.{expression_of};
ghost use Rattle.sfc_list.specs.Expressions as text;
ghost use Rattle.sfc_list.specs.Private.Sinking.{Puts};

use crate::sink::Sink;
use crate::value::put_literal;
use sfc_expr::expr::Expr;
use sfc_expr::operator::Operator;
use sfc_plant::names::Names;
use std::io::Write;

/// The level of NOT and minus, above all binary operators.
const PREFIX_LEVEL: usize = 7;

// The text of an operator.
fn operator_word(operator: Operator) -> &'static [u8]
    ensures { result.now ≡ text.operator_text operator }
{
    match operator {
        Operator::Or => b"OR",
        Operator::Xor => b"XOR",
        Operator::And => b"AND",
        Operator::Equal => b"=",
        Operator::NotEqual => b"<>",
        Operator::Less => b"<",
        Operator::Greater => b">",
        Operator::LessOrEqual => b"<=",
        Operator::GreaterOrEqual => b">=",
        Operator::Add => b"+",
        Operator::Subtract => b"-",
        Operator::Multiply => b"*",
        Operator::Divide => b"/",
        Operator::Modulo => b"MOD",
    }
}

// How tightly an operator binds.
fn level(operator: Operator) -> usize
    ensures value { result ≡ text.level operator }
    ensures below { result ≤ 6 }
{
    match operator {
        Operator::Or => 0,
        Operator::Xor => 1,
        Operator::And => 2,
        Operator::Equal | Operator::NotEqual => 3,
        Operator::Less | Operator::Greater | Operator::LessOrEqual | Operator::GreaterOrEqual => 4,
        Operator::Add | Operator::Subtract => 5,
        Operator::Multiply | Operator::Divide | Operator::Modulo => 6,
    }
}

// How tightly an expression binds.
fn level_of(expr: &Expr) -> usize
    ensures { result ≡ text.level_of (expression_of expr.now) }
{
    match expr {
        Expr::Binary(operator, ..) => level(*operator),
        _ => PREFIX_LEVEL,
    }
}

// Writes an operand that has to bind as tightly as this level, in parentheses where it does not.
#[cycle(expression)]
#[tactic(auto, using(crate::proofs::Sunk::puts_then))]
fn put_operand<W: Write>(
    names: &Names,
    own: &[u8],
    wanted: usize,
    expr: &Expr,
    out: &mut Sink<'_, W>,
)
    ensures { let e : _ = expression_of expr.now in
        Puts W.contents out.old out.new (text.operand wanted e (text.expression_text names.now own.now e)) }
{
    if level_of(expr) < wanted {
        out.put(b"(");
        put_expression(names, own, expr, out);
        out.put(b")");
    } else {
        put_expression(names, own, expr, out);
    }
}

/// Writes an expression that stands in the body of the action of this name, or in a condition.
#[cycle(expression)]
#[tactic(auto, using(crate::proofs::Sunk::puts_then))]
pub fn put_expression<W: Write>(names: &Names, own: &[u8], expr: &Expr, out: &mut Sink<'_, W>)
    ensures { Puts W.contents out.old out.new (text.expression_text names.now own.now (expression_of expr.now)) }
{
    match expr {
        Expr::Literal(value) => put_literal(*value, out),
        Expr::Variable(variable) => out.put(names.variable(*variable)),
        Expr::StepActive(step) => out.put_parts(&[names.step(*step), b".X"]),
        Expr::StepTime(step) => out.put_parts(&[names.step(*step), b".T"]),
        Expr::ActionQ => out.put_parts(&[own, b".Q"]),
        Expr::Not(operand) => {
            out.put(b"NOT ");
            put_operand(names, own, PREFIX_LEVEL, operand, out);
        }
        Expr::Minus(_, negated) => {
            out.put(b"-");
            put_operand(names, own, PREFIX_LEVEL, negated, out);
        }
        Expr::Binary(operator, _, left, right) => {
            put_operand(names, own, level(*operator), left, out);
            out.put(b" ");
            out.put(operator_word(*operator));
            out.put(b" ");
            put_operand(names, own, level(*operator) + 1, right, out);
        }
    }
}
