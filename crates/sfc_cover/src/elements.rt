//! What the program types of a plant have that may be reached.

ghost use Rattle.std.specs.Prelude.{ℕ, All};
ghost use Rattle.sfc_plant.specs.Sound.{IsProgram};

use crate::arms::Arms;
use crate::sfc_tables::tables::Tables;
use sfc_plant::plant::Plant;
use sfc_plant::program_type::ProgramType;
use std::alloc::{AllocError, Global};

/// Of each program type the tables of its chart, and the branches of the IFs in its bodies.
pub struct Elements {
    tables: Vec<Tables>,
    arms: Vec<Arms>,
}

// By hand, so that a caller that drops one proves one call.
impl Drop for Elements {
    fn drop(self) {
        let Elements { tables: _, arms: _ } = self;
    }
}

// The tables of the chart of each type.
fn tables_of(alloc: Global, types: &[ProgramType]) -> Result<Vec<Tables>, AllocError>
    requires { (globals : ℕ) × All (IsProgram globals) types.now }
{
    let mut tables = Vec::new(alloc);
    for k in 0..types.len() {
        tables.push(Tables::build(alloc, &types[k].chart)?)?;
    }
    Ok(tables)
}

// The branches of the IFs in the bodies of each type.
fn arms_of(alloc: Global, types: &[ProgramType]) -> Result<Vec<Arms>, AllocError> {
    let mut arms = Vec::new(alloc);
    for program in types {
        arms.push(Arms::of_chart(alloc, &program.chart)?)?;
    }
    Ok(arms)
}

impl Elements {
    /// Those of a plant. The one error is that memory was refused.
    pub fn of_plant(alloc: Global, plant: &Plant) -> Result<Elements, AllocError> {
        Ok(Elements {
            tables: tables_of(alloc, plant.types())?,
            arms: arms_of(alloc, plant.types())?,
        })
    }

    /// The tables of the chart of each program type.
    pub fn tables(&self) -> &[Tables] {
        self.tables.as_slice()
    }

    /// The tables of the chart of the program type with this number, if there is one.
    pub fn tables_at(&self, program: usize) -> Option<&Tables> {
        self.tables.get(program)
    }

    /// The branches of the IFs of the program type with this number, if there is one.
    pub fn arms_at(&self, program: usize) -> Option<&Arms> {
        self.arms.get(program)
    }
}
