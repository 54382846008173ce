//! Program instances (2.7.2).

use sfc_base::ids::{TaskId, TypeId};
use sfc_base::name::Name;

/// A program instance: its task, and its program type.
#[derive(Debug, Drop)]
pub struct Instance {
    pub name: Name,
    pub task: TaskId,
    pub program: TypeId,
}
