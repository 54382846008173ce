//! Names where they are declared.

use sfc_base::var_type::VarType;

/// What a name is declared as.
#[derive(Clone, Copy, PartialEq, Eq)]
pub enum Kind {
    /// A variable of a VAR_GLOBAL block.
    Global(VarType),
    /// A variable of a VAR block.
    Local(VarType),
    /// A variable of a VAR_EXTERNAL block.
    External(VarType),
    Step,
    InitialStep,
    Transition,
    Action,
    Task,
    ProgramType,
    Instance,
}

/// A name where it is declared.
#[derive(Clone, Copy, PartialEq, Eq)]
pub struct Declared {
    pub kind: Kind,
    /// The place of the name among the tokens.
    pub token: usize,
}
