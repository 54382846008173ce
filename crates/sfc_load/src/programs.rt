//! Program types (2.5.3).

ghost use Rattle.std.specs.Prelude.{◌≡◌, ◌++◌, ◌∷◌, [], map, OnOk, IfOk};
ghost use Rattle.sfc_text.specs.Trees as trees;
ghost use Rattle.sfc_program.specs.sfc_variables.Checks.{Loads};
ghost use Rattle.sfc_program.specs.Built.{program_of};
ghost use Rattle.sfc_load.specs.Loading.{program_names, named_program_check, programs_check};

use crate::sfc_check::placed_error::PlacedLoadError;
use sfc_events::load_error::LoadError;
use sfc_plant::name_table::NameTable;
use sfc_plant::program_type::ProgramType;
use sfc_plant::variable_table::VariableTable;
use sfc_program::load::load_program;
use sfc_text::tree::Program;
use std::alloc::Global;

fn load_named(
    alloc: Global,
    program: &Program,
    globals: &VariableTable,
    names: &mut NameTable,
) -> Result<ProgramType, PlacedLoadError>
    ensures loads { let program : _ = trees.program_of program.now in
        Loads (λ loaded. loaded) result (named_program_check globals.now names.old program) (program_of globals.now program) }
    ensures named { OnOk result (names.new ≡ names.old ++ program.now.name ∷ []) }
{
    if !names.add(alloc, program.name.spelling())? {
        let place = program.name.span();
        return Err(PlacedLoadError::new(LoadError::Duplicate, place));
    }
    load_program(alloc, program, globals)
}

/// The program types, and the table of their names.
#[tactic(auto, unfolding(crate::specs::Loading::programs_check))]
pub(crate) fn load_programs(
    alloc: Global,
    programs: &[Program],
    globals: &VariableTable,
) -> Result<(Vec<ProgramType>, NameTable), PlacedLoadError>
    ensures loads { let written : _ = map trees.program_of programs.now in
        Loads (λ loaded. loaded.0.items) result (programs_check globals.now written) (map (program_of globals.now) written) }
    ensures named { IfOk result (λ loaded. loaded.1 ≡ program_names (map trees.program_of programs.now)) }
{
    let mut loaded = Vec::new(alloc);
    let mut names = NameTable::new(alloc);
    let mut rest = programs;
    'programs: while let Some((program, after)) = rest.split_first() {
        let program = load_named(alloc, program, globals, &mut names)?;
        loaded.push(program)?;
        rest = after;
    }
    Ok((loaded, names))
}
