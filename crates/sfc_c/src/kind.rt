//! What has a name.

ghost use Rattle.std.specs.Prelude.{◌≡◌};
ghost use Rattle.sfc_c.specs.Names as names;

/// A kind of what has a name.
#[derive(Clone, Copy, Debug, PartialEq, Eq)]
pub enum Kind {
    /// The steps of a program instance's chart.
    Step,
    /// Its transitions.
    Transition,
    /// Its actions, each variable that is one by itself among them.
    Action,
    /// The variables: the global ones, and then those of each program instance.
    Variable,
    /// The tasks.
    Task,
    /// The program instances.
    Program,
}

/// The kind with this number, from 0; None for any above 5.
pub fn kind_of(number: u8) -> Option<Kind>
    ensures { result ≡ names.kind_of number }
{
    match number {
        0 => Some(Kind::Step),
        1 => Some(Kind::Transition),
        2 => Some(Kind::Action),
        3 => Some(Kind::Variable),
        4 => Some(Kind::Task),
        5 => Some(Kind::Program),
        _ => None,
    }
}
