//! The global variables (2.4.3, 2.7.1).

ghost use Rattle.std.specs.Prelude.{◌≡◌, ◌++◌, ◌∷◌, [], map, OnOk};
ghost use Rattle.sfc_variables.specs.Checks.{Loads, in_turn};
ghost use Rattle.sfc_variables.specs.Declarations.{declared_name, declared_as, declared_by, declared_in, variable_of, global_check, globals_check, globals_of};

use crate::declaration::new_variable;
use sfc_base::name::Name;
use sfc_check::placed_error::PlacedLoadError;
use sfc_plant::name_table::NameTable;
use sfc_plant::variable::Variable;
use sfc_plant::variable_table::VariableTable;
use sfc_text::tree::Declaration;
use sfc_tokens::placed::Placed;
use std::alloc::Global;

// The variables that were declared so far, and their names.
#[derive(Drop)]
struct Draft {
    variables: Vec<Variable>,
    names: NameTable,
}

// One more name of a declaration.
fn declare_name(
    alloc: Global,
    name: &Placed<Name>,
    declaration: &Declaration,
    draft: &mut Draft,
) -> Result<(), PlacedLoadError>
    ensures loads { let declared : _ = declared_as declaration.now name.now in
        Loads (λ u. draft.new.variables.items) result (global_check draft.old.names declared)
        (draft.old.variables.items ++ variable_of declared ∷ []) }
    ensures named { OnOk result (draft.new.names ≡ draft.old.names ++ name.now ∷ []) }
{
    let variable = new_variable(alloc, name, declaration, &mut draft.names)?;
    draft.variables.push(variable)?;
    Ok(())
}

// All names of a declaration.
fn declare(
    alloc: Global,
    declaration: &Declaration,
    draft: &mut Draft,
) -> Result<(), PlacedLoadError>
    ensures loads { Loads (λ u. draft.new.variables.items) result
        (in_turn declared_name global_check draft.old.names (declared_by declaration.now))
        (draft.old.variables.items ++ map variable_of (declared_by declaration.now)) }
    ensures named { OnOk result (draft.new.names ≡ draft.old.names ++ map declared_name (declared_by declaration.now)) }
{
    let mut rest = declaration.names.as_slice();
    'names: while let Some((name, after)) = rest.split_first() {
        declare_name(alloc, name, declaration, draft)?;
        rest = after;
    }
    Ok(())
}

// All names of a declaration, wherever it stands.
fn declare_placed(
    alloc: Global,
    declaration: &Placed<Declaration>,
    draft: &mut Draft,
) -> Result<(), PlacedLoadError>
    ensures loads { Loads (λ u. draft.new.variables.items) result
        (in_turn declared_name global_check draft.old.names (declared_by declaration.now))
        (draft.old.variables.items ++ map variable_of (declared_by declaration.now)) }
    ensures named { OnOk result (draft.new.names ≡ draft.old.names ++ map declared_name (declared_by declaration.now)) }
{
    declare(alloc, declaration.value(), draft)
}

// All names of all declarations.
#[tactic(auto, using(crate::proofs::Checks::more_checked, crate::proofs::Checks::more_fails, crate::proofs::Checks::more_built))]
fn declare_all(
    alloc: Global,
    declarations: &[Placed<Declaration>],
    draft: &mut Draft,
) -> Result<(), PlacedLoadError>
    ensures loads { Loads (λ u. draft.new.variables.items) result
        (in_turn declared_name global_check draft.old.names (declared_in declarations.now))
        (draft.old.variables.items ++ map variable_of (declared_in declarations.now)) }
    ensures named { OnOk result (draft.new.names ≡ draft.old.names ++ map declared_name (declared_in declarations.now)) }
{
    let mut rest = declarations;
    'declarations: while let Some((declaration, after)) = rest.split_first() {
        declare_placed(alloc, declaration, draft)?;
        rest = after;
    }
    Ok(())
}

/// The variables that the declarations declare, in text order, or the first fault in text order: `Duplicate` for a
/// name that stands twice, `WrongType` for a location of another size than its variable's type, and what is wrong with
/// the initial value (3.3).
#[tactic(auto, unfolding(crate::specs::Declarations::globals_check), using(crate::proofs::Named::same_names))]
pub fn load_globals(
    alloc: Global,
    declarations: &[Placed<Declaration>],
) -> Result<VariableTable, PlacedLoadError>
    ensures { Loads (λ table. table) result (globals_check declarations.now) (globals_of declarations.now) }
{
    let mut draft = Draft {
        variables: Vec::new(alloc),
        names: NameTable::new(alloc),
    };
    declare_all(alloc, declarations, &mut draft)?;
    let Draft { variables, names } = draft;
    Ok(VariableTable::from_parts(variables, names))
}
