//! What names a variable or a step in a typed tree. Instances of one program type share its trees.

/// A global variable, by its place among the globals.
#[derive(Clone, Copy, Debug, PartialEq, Eq, Hash)]
pub struct GlobalId(pub usize);

/// A local variable, by its place among the locals of its program type.
#[derive(Clone, Copy, Debug, PartialEq, Eq, Hash)]
pub struct LocalId(pub usize);

/// A step, by its place among the steps of its program type.
#[derive(Clone, Copy, Debug, PartialEq, Eq)]
pub struct StepId(pub u16);

/// A variable (2.4).
#[derive(Clone, Copy, Debug, PartialEq, Eq, Hash)]
pub enum Variable {
    /// One that all programs share.
    Global(GlobalId),
    /// One of the program's own.
    Local(LocalId),
}
