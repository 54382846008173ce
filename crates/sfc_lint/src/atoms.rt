//! What conditions are made of: BOOLs that are read, and comparisons (3.3.1).

use crate::view::View;
use sfc_base::var_type::VarType;
use sfc_expr::expr::Expr;
use sfc_expr::operator::Operator;
use std::alloc::{AllocError, Global};

/// The most atoms of two conditions together.
pub const MOST: usize = 16;

/// A part of a condition that is TRUE or FALSE by itself. The comparisons `<`, `>=` are one atom, which is TRUE for `<`; so are `>`, `<=`,
/// and `=`, `<>`.
#[derive(Drop)]
pub struct Atom {
    /// Its text, and of a comparison that of its left side.
    pub text: Vec<u8>,
    /// Of a comparison with a number: what it says.
    pub bound: Option<Bound>,
}

/// A comparison with a number.
#[derive(Clone, Copy, Debug, PartialEq, Eq)]
pub struct Bound {
    /// `<`, `>` or `=`.
    pub operator: Operator,
    /// The number; of a TIME in microseconds.
    pub number: i64,
    /// Whether it is a TIME.
    pub is_time: bool,
}

/// Where a condition reads an atom.
#[derive(Clone, Copy, Debug, PartialEq, Eq)]
pub struct Leaf {
    // The place of the atom.
    place: usize,
    // Whether it is the opposite of the atom.
    is_opposite: bool,
}

/// The atoms of conditions, each once.
#[derive(Drop)]
pub struct Atoms {
    pub list: Vec<Atom>,
    /// Whether there are more than 16.
    pub is_full: bool,
}

// The atom's operator, and whether the comparison is its opposite.
fn as_atom(operator: Operator) -> Option<(Operator, bool)> {
    match operator {
        Operator::Less => Some((Operator::Less, false)),
        Operator::GreaterOrEqual => Some((Operator::Less, true)),
        Operator::Greater => Some((Operator::Greater, false)),
        Operator::LessOrEqual => Some((Operator::Greater, true)),
        Operator::Equal => Some((Operator::Equal, false)),
        Operator::NotEqual => Some((Operator::Equal, true)),
        _ => None,
    }
}

// The number that a literal is.
fn literal(expr: &Expr) -> Option<i64> {
    match expr {
        Expr::Literal(value) => Some(value.number()),
        _ => None,
    }
}

impl Atoms {
    /// None.
    pub fn new(alloc: Global) -> Atoms {
        Atoms {
            list: Vec::new(alloc),
            is_full: false,
        }
    }

    // The place of an atom.
    fn find(&self, wanted: &Atom) -> Option<usize> {
        self.list.iter().position(|atom| atom.bound == wanted.bound
            && atom.text.as_slice() == wanted.text.as_slice())
    }

    // Puts an atom, where it isn't there; its place, which none has where there are too many.
    fn put(&mut self, atom: Atom) -> Result<usize, AllocError> {
        if let Some(place) = self.find(&atom) {
            return Ok(place);
        }
        let place = self.list.len();
        if place >= MOST {
            self.is_full = true;
            return Ok(usize::MAX);
        }
        self.list.push(atom)?;
        Ok(place)
    }

    // Puts the atom that an expression is, and where it is read.
    fn take_atom(
        &mut self,
        alloc: Global,
        view: &View<'_>,
        expr: &Expr,
        leaves: &mut Vec<Leaf>,
    ) -> Result<(), AllocError> {
        let place = match atom_in(alloc, view, expr)? {
            Some(atom) => self.put(atom)?,
            None => usize::MAX,
        };
        leaves.push(Leaf {
            place,
            is_opposite: is_opposite(expr),
        })?;
        Ok(())
    }

    /// Puts the atoms of an expression, and where it reads them, from left to right. The one error is that memory was refused.
    pub fn take(
        &mut self,
        alloc: Global,
        view: &View<'_>,
        expr: &Expr,
        leaves: &mut Vec<Leaf>,
    ) -> Result<(), AllocError> {
        match expr {
            Expr::Literal(_) => Ok(()),
            Expr::Not(inner) => self.take(alloc, view, inner, leaves),
            Expr::Binary(_, VarType::Bool, left, right) => {
                self.take(alloc, view, left, leaves)?;
                self.take(alloc, view, right, leaves)
            }
            _ => self.take_atom(alloc, view, expr, leaves),
        }
    }
}

/// What an expression gives that reads these atoms, where they are as the bits say; and those that are left.
pub fn value<'a>(expr: &Expr, leaves: &'a [Leaf], bits: u32) -> (bool, &'a [Leaf]) {
    match expr {
        Expr::Literal(value) => (value.is_true(), leaves),
        Expr::Not(inner) => {
            let (inner, rest) = value(inner, leaves, bits);
            (!inner, rest)
        }
        Expr::Binary(operator, VarType::Bool, left, right) => {
            let (left, rest) = value(left, leaves, bits);
            let (right, rest) = value(right, rest, bits);
            (joined(*operator, left, right), rest)
        }
        _ => match leaves.split_first() {
            Some((leaf, rest)) => (is_on(bits, leaf.place) != leaf.is_opposite, rest),
            None => (false, leaves),
        },
    }
}

/// Whether the bit at this place is set.
pub fn is_on(bits: u32, place: usize) -> bool {
    let mut rest = bits;
    for _ in 0..place.min(32) {
        rest /= 2;
    }
    rest % 2 == 1
}

// Whether a comparison is the opposite of its atom.
fn is_opposite(expr: &Expr) -> bool {
    match expr {
        Expr::Binary(operator, _, _, _) => matches!(as_atom(*operator), Some((_, true))),
        _ => false,
    }
}

// What an operator on two BOOLs gives.
fn joined(operator: Operator, left: bool, right: bool) -> bool {
    match operator {
        Operator::And => left && right,
        Operator::Or => left || right,
        Operator::Xor | Operator::NotEqual => left != right,
        Operator::Equal => left == right,
        _ => false,
    }
}

// The atom that an expression is.
fn atom_in(alloc: Global, view: &View<'_>, expr: &Expr) -> Result<Option<Atom>, AllocError> {
    if let Expr::Binary(operator, var_type, left, right) = expr {
        if let (Some((operator, _)), Some(number)) = (as_atom(*operator), literal(right)) {
            let is_time = *var_type == VarType::Time;
            let bound = Bound {
                operator,
                number,
                is_time,
            };
            return atom_of(alloc, view, left, Some(bound));
        }
    }
    atom_of(alloc, view, expr, None)
}

// An atom with the text of an expression.
fn atom_of(
    alloc: Global,
    view: &View<'_>,
    expr: &Expr,
    bound: Option<Bound>,
) -> Result<Option<Atom>, AllocError> {
    match view.expression(alloc, expr)? {
        Some(text) => Ok(Some(Atom { text, bound })),
        None => Ok(None),
    }
}
