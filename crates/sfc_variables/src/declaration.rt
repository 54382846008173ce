//! One declared name to a variable (2.4.3).

ghost use Rattle.std.specs.Prelude.{◌≡◌, ◌++◌, ◌∷◌, [], IfOk, OnOk};
ghost use Rattle.sfc_events.specs.declared.load_error.LoadError.TheVariants as fault;
ghost use Rattle.sfc_variables.specs.Checks.{Loads};
ghost use Rattle.sfc_variables.specs.Declarations as declarations;
ghost use Rattle.sfc_variables.specs.Declarations.{declared_as, declared_check, global_check, initial_check};

use crate::located::fits_location;
use sfc_base::location::Location;
use sfc_base::name::Name;
use sfc_base::value::{Value, default_value};
use sfc_base::var_type::VarType;
use sfc_check::detail::{Detail, literal_detail};
use sfc_check::literal::check_literal;
use sfc_check::placed_error::PlacedLoadError;
use sfc_events::load_error::LoadError;
use sfc_plant::name_table::NameTable;
use sfc_plant::variable::Variable;
use sfc_text::tree::{Declaration, Literal};
use sfc_tokens::placed::Placed;
use sfc_tokens::span::NOWHERE;
use std::alloc::{AllocError, Global};

// The same location once more, without its place, if there is one.
fn copy_location(
    alloc: Global,
    location: &Option<Placed<Location>>,
) -> Result<Option<Location>, AllocError>
    ensures { IfOk result (λ copy. copy ≡ location.now) }
{
    match location {
        None => Ok(None),
        Some(location) => {
            let copy = location.value().copy(alloc)?;
            Ok(Some(copy))
        }
    }
}

// The value that a variable of this type begins with.
fn initial_value(var_type: VarType, initial: &Option<Placed<Literal>>) -> Result<Value, LoadError>
    ensures { Loads (λ value. value) result (initial_check var_type initial.now) (declarations.initial_value var_type initial.now) }
{
    match initial {
        None => Ok(default_value(var_type)),
        Some(literal) => match check_literal(*literal.value(), var_type) {
            Ok(value) => Ok(value),
            Err(fault) => Err(LoadError::from(fault)),
        },
    }
}

// The fault of a location that has another size than the type.
fn wrong_location(declaration: &Declaration) -> PlacedLoadError
    ensures { result ≡ fault.WrongType }
{
    let error = LoadError::WrongType;
    match &declaration.location {
        Some(location) => {
            let var_type = declaration.var_type;
            let found = location.value().size();
            PlacedLoadError::told(error, location.span(), Detail::Sizes { var_type, found })
        }
        None => PlacedLoadError::new(error, NOWHERE),
    }
}

// The fault of an initial value.
fn wrong_initial(error: LoadError, declaration: &Declaration) -> PlacedLoadError
    ensures { result ≡ error }
{
    match &declaration.initial {
        Some(initial) => {
            let detail = literal_detail(initial.value(), declaration.var_type);
            PlacedLoadError::told(error, initial.span(), detail)
        }
        None => PlacedLoadError::new(error, NOWHERE),
    }
}

// One name of a declaration as a variable: `WrongType` where its location has another size than its type, else what is
// wrong with its initial value.
fn declared_variable(
    alloc: Global,
    name: &Placed<Name>,
    declaration: &Declaration,
) -> Result<Variable, PlacedLoadError>
    ensures { let declared : _ = declared_as declaration.now name.now in
        Loads (λ variable. variable) result (declared_check declared) (declarations.variable_of declared) }
{
    if !fits_location(declaration.var_type, &declaration.location) {
        return Err(wrong_location(declaration));
    }
    let initial = match initial_value(declaration.var_type, &declaration.initial) {
        Ok(value) => value,
        Err(error) => return Err(wrong_initial(error, declaration)),
    };
    let name = name.copy(alloc)?;
    let location = copy_location(alloc, &declaration.location)?;
    Ok(Variable {
        name,
        var_type: declaration.var_type,
        location,
        initial,
    })
}

/// One name of a declaration as a variable, and among the names before it: `Duplicate`, at the name, where it is one of
/// these, else as for `declared_variable`, at its location or its initial value.
pub(crate) fn new_variable(
    alloc: Global,
    name: &Placed<Name>,
    declaration: &Declaration,
    names: &mut NameTable,
) -> Result<Variable, PlacedLoadError>
    ensures loads { let declared : _ = declared_as declaration.now name.now in
        Loads (λ variable. variable) result (global_check names.old declared) (declarations.variable_of declared) }
    ensures named { OnOk result (names.new ≡ names.old ++ name.now ∷ []) }
{
    if !names.add(alloc, name.spelling())? {
        return Err(PlacedLoadError::new(LoadError::Duplicate, name.span()));
    }
    declared_variable(alloc, name, declaration)
}
