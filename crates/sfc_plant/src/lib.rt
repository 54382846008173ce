//! Plants: a configuration with its program types, their charts, variables and instances (IEC 61131-3:2003, 2.4 to 2.7).
//!
//! - `action`: actions with a body; `association`: which action a step is associated with, and how.
//! - `chart`: one chart, its steps, transitions and actions in text order.
//! - `image`: the variables of a plant by number; `image_variable`: what each of them is.
//! - `name_key`: keys by which names are found; `name_table`: the names of one name space.
//! - `names`: the names of what stands in a program type as a number.
//! - `plant`: a plant; `titles`, `declarations`, `parts`: what it is made of.
//! - `program_type`: program types; `instance`: their instances; `task`: tasks.
//! - `typed`: conditions and bodies that contracts compare by their trees.
//! - `variable`: declared variables; `variable_table`: variables that are found by name.
#![tactic(auto)]

pub mod action;
pub mod association;
pub mod chart;
pub mod declarations;
pub mod image;
pub mod image_variable;
pub mod instance;
pub mod name_key;
pub mod name_table;
pub mod names;
pub mod parts;
pub mod plant;
pub mod program_type;
pub mod task;
pub mod titles;
pub mod typed;
pub mod variable;
pub mod variable_table;
