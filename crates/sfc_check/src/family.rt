//! The operators that a text writes, and which of them share a rule for types (3.3.1).

ghost use Rattle.std.specs.Prelude.{◌≡◌};
ghost use Rattle.sfc_check.specs.Families as families;

use sfc_expr::operator::Operator;
use sfc_text::expression::Operator as Written;

/// Operators with one rule for types.
#[derive(Clone, Copy, Debug, PartialEq, Eq)]
pub enum Family {
    /// `OR`, `XOR` and `AND`.
    Logical,
    /// `=` and `<>`.
    Equality,
    /// `<`, `>`, `<=` and `>=`.
    Order,
    /// `+` and `-`.
    Sum,
    /// `*`, `/` and `MOD`.
    Product,
}

/// The operator that was written.
pub fn operator_of(written: Written) -> Operator
    ensures { result ≡ families.operator_of written }
{
    match written {
        Written::Or => Operator::Or,
        Written::Xor => Operator::Xor,
        Written::And => Operator::And,
        Written::Equal => Operator::Equal,
        Written::NotEqual => Operator::NotEqual,
        Written::Less => Operator::Less,
        Written::Greater => Operator::Greater,
        Written::LessOrEqual => Operator::LessOrEqual,
        Written::GreaterOrEqual => Operator::GreaterOrEqual,
        Written::Add => Operator::Add,
        Written::Subtract => Operator::Subtract,
        Written::Multiply => Operator::Multiply,
        Written::Divide => Operator::Divide,
        Written::Modulo => Operator::Modulo,
    }
}

/// The operators that share the rule for types of this one.
pub fn family_of(operator: Operator) -> Family
    ensures { result ≡ families.family_of operator }
{
    match operator {
        Operator::Or | Operator::Xor | Operator::And => Family::Logical,
        Operator::Equal | Operator::NotEqual => Family::Equality,
        Operator::Less | Operator::Greater | Operator::LessOrEqual | Operator::GreaterOrEqual =>
            Family::Order,
        Operator::Add | Operator::Subtract => Family::Sum,
        Operator::Multiply | Operator::Divide | Operator::Modulo => Family::Product,
    }
}
