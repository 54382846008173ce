//! Numbers that stand for what a chart names. Each counts from 0, in text order.

/// A variable of the plant: the globals first, and then the locals of each instance.
#[derive(Clone, Copy, Debug, PartialEq, Eq)]
pub struct VarId(pub u16);

/// A task.
#[derive(Clone, Copy, Debug, PartialEq, Eq)]
pub struct TaskId(pub u8);

/// A program instance.
#[derive(Clone, Copy, Debug, PartialEq, Eq)]
pub struct ProgId(pub u8);

/// A program type.
#[derive(Clone, Copy, Debug, PartialEq, Eq)]
pub struct TypeId(pub usize);

/// A transition, by its place among those of its chart (2.6.3).
#[derive(Clone, Copy, Debug, PartialEq, Eq)]
pub struct TransitionId(pub u16);

/// An action, by its place among all actions of its chart: the Boolean ones, and then the declared ones (2.6.4.1).
#[derive(Clone, Copy, Debug, PartialEq, Eq)]
pub struct ActionNumber(pub usize);

/// A declared action, by its place among those of its chart.
#[derive(Clone, Copy, Debug, PartialEq, Eq)]
pub struct ActionId(pub usize);

/// An association of a step with an action, by its place in the text (2.6.4.3).
#[derive(Clone, Copy, Debug, PartialEq, Eq)]
pub struct AssociationNumber(pub u16);
