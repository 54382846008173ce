//! The names that the expressions may use.

ghost use Rattle.std.specs.Prelude.{◌≡◌};
ghost use Rattle.expressions.specs.Names as names;
ghost use Rattle.expressions.specs.Letters.{ignoring_case};

use sfc_base::references::{GlobalId, StepId, Variable};
use sfc_base::var_type::VarType;
use sfc_check::scope::Scope;

/// The fixed scope: ten global variables, the steps S and R, and the own action A.
#[derive(Clone, Copy)]
pub struct FixedScope;

// The capital of a name of one letter, 0 of any other name.
fn letter_of(name: &[u8]) -> u8
    ensures { result ≡ names.letter_of name.now }
{
    match name {
        [letter] => letter.to_ascii_uppercase(),
        _ => 0,
    }
}

// The global variable at a place, with its type.
fn global(place: usize, var_type: VarType) -> Option<(Variable, VarType)>
    ensures { result ≡ names.global place var_type }
{
    Some((Variable::Global(GlobalId(place)), var_type))
}

// A variable of type BOOL or INT.
fn short_variable(letter: u8) -> Option<(Variable, VarType)>
    ensures { result ≡ names.short_variable letter }
{
    match letter {
        b'B' => global(0, VarType::Bool),
        b'C' => global(1, VarType::Bool),
        b'I' => global(2, VarType::Int),
        b'J' => global(3, VarType::Int),
        b'M' => global(4, VarType::Int),
        _ => None,
    }
}

// A variable of type DINT or TIME.
fn long_variable(letter: u8) -> Option<(Variable, VarType)>
    ensures { result ≡ names.long_variable letter }
{
    match letter {
        b'D' => global(5, VarType::Dint),
        b'E' => global(6, VarType::Dint),
        b'T' => global(7, VarType::Time),
        b'U' => global(8, VarType::Time),
        b'W' => global(9, VarType::Time),
        _ => None,
    }
}

impl Scope for FixedScope {
    ghost names = { λ _. names.names };

    fn variable(&self, name: &[u8]) -> Option<(Variable, VarType)> {
        let letter = letter_of(name);
        match short_variable(letter) {
            Some(variable) => Some(variable),
            None => long_variable(letter),
        }
    }

    fn step(&self, name: &[u8]) -> Option<StepId> {
        match letter_of(name) {
            b'S' => Some(StepId(0)),
            b'R' => Some(StepId(1)),
            _ => None,
        }
    }

    fn is_own_action(&self, name: &[u8]) -> bool {
        letter_of(name) == b'A'
    }

    ghost ignores_case = { λ _. ignoring_case };
}
