//! The global variables, the tasks and the program types of a plant (2.4.3, 2.5.3, 2.7.2).

use crate::name_table::NameTable;
use crate::program_type::ProgramType;
use crate::task::Task;
use crate::variable_table::VariableTable;
use sfc_base::items::Items;

/// What stands before the program instances, with the tables of names.
pub struct Declarations {
    pub globals: VariableTable,
    pub tasks: Items<Task>,
    pub task_names: NameTable,
    pub types: Items<ProgramType>,
    pub type_names: NameTable,
}

// By hand, so that a caller that drops one proves one call.
impl Drop for Declarations {
    fn drop(self) {
        let Declarations {
            globals: _,
            tasks: _,
            task_names: _,
            types: _,
            type_names: _,
        } = self;
    }
}
