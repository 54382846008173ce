//! Steps with their associations (2.6.2, 2.6.4).

ghost use Rattle.std.specs.Prelude.{◌≡◌, ◌++◌, ◌∷◌, [], map, OnOk};
ghost use Rattle.sfc_text.specs.Trees.{element_of};
ghost use Rattle.sfc_variables.specs.Checks.{Loads, each};
ghost use Rattle.sfc_plant.specs.VariableNames.{variable_named};
ghost use Rattle.sfc_program.specs.Elements.{steps_of};
ghost use Rattle.sfc_program.specs.Loading.{variable_check, target_check, time_check, qualifier_check, indicator_check, association_check, step_check};
ghost use Rattle.sfc_program.specs.Built.{variable_in, target_of, time_of, qualifier_of, association_of, step_of};

use crate::scope::ProgramScope;
use sfc_base::ids::ActionId;
use sfc_base::items::Items;
use sfc_base::name::Name;
use sfc_base::references::Variable;
use sfc_base::var_type::VarType;
use sfc_check::detail::Detail;
use sfc_check::literal::check_literal;
use sfc_check::placed_error::{PlacedLoadError, checked_at};
use sfc_check::scope::Scope;
use sfc_events::load_error::LoadError;
use sfc_plant::association::{Association, Qualifier, Target, Time};
use sfc_plant::chart::Step;
use sfc_text::tree::{self, AssociationTime, Element, Literal};
use sfc_tokens::placed::Placed;
use sfc_tokens::span::NOWHERE;
use std::alloc::Global;

// The variable of this name, which has to be of a type: else the first fault where there is none, and the second where
// it has another type.
fn variable_of_type(
    name: &Placed<Name>,
    scope: &ProgramScope,
    wanted: VarType,
    missing: LoadError,
    wrong: LoadError,
) -> Result<Variable, PlacedLoadError>
    ensures { let found : _ = variable_named scope.now.locals scope.now.globals name.now in
        Loads (λ variable. variable) result (variable_check wanted missing wrong found) (variable_in scope.now name.now) }
{
    match scope.variable(name.spelling()) {
        None => Err(PlacedLoadError::new(missing, name.span())),
        Some((variable, var_type)) => {
            if var_type != wanted {
                let detail = Detail::mismatch(wanted, var_type);
                return Err(PlacedLoadError::told(wrong, name.span(), detail));
            }
            Ok(variable)
        }
    }
}

// The action of an association: a declared one, else a BOOL variable (2.6.4.1).
fn load_target(name: &Placed<Name>, scope: &ProgramScope) -> Result<Target, PlacedLoadError>
    ensures { Loads (λ target. target) result (target_check scope.now name.now) (target_of scope.now name.now) }
{
    if let Some(place) = scope.action(name.spelling()) {
        return Ok(Target::Declared(ActionId(place)));
    }
    let variable = variable_of_type(
        name,
        scope,
        VarType::Bool,
        LoadError::UnknownAction,
        LoadError::NotBool,
    )?;
    Ok(Target::Boolean(variable))
}

// The time of an association: a TIME, or a variable of that type (2.6.4.4).
#[tactic(auto, using(crate::proofs::Typing::typing))]
fn load_time(written: &AssociationTime, scope: &ProgramScope) -> Result<Time, PlacedLoadError>
    ensures { Loads (λ time. time) result (time_check scope.now written.now) (time_of scope.now written.now) }
{
    match written {
        AssociationTime::Literal(time) => {
            checked_at(check_literal(Literal::Time(*time), VarType::Time), NOWHERE)?;
            Ok(Time::Literal(time.micros()))
        }
        AssociationTime::Variable(name) => {
            let variable = variable_of_type(
                name,
                scope,
                VarType::Time,
                LoadError::Unknown,
                LoadError::NotTime,
            )?;
            Ok(Time::Variable(variable))
        }
    }
}

// The qualifier of an association (2.6.4.4).
fn load_qualifier(
    written: &tree::Qualifier,
    scope: &ProgramScope,
) -> Result<Qualifier, PlacedLoadError>
    ensures { Loads (λ qualifier. qualifier) result
        (qualifier_check scope.now written.now) (qualifier_of scope.now written.now) }
{
    match written {
        tree::Qualifier::NonStored => Ok(Qualifier::NonStored),
        tree::Qualifier::Reset => Ok(Qualifier::Reset),
        tree::Qualifier::Set => Ok(Qualifier::Set),
        tree::Qualifier::Pulse => Ok(Qualifier::Pulse),
        tree::Qualifier::RisingPulse => Ok(Qualifier::RisingPulse),
        tree::Qualifier::FallingPulse => Ok(Qualifier::FallingPulse),
        tree::Qualifier::Timed(timed, time) => Ok(Qualifier::Timed(
            *timed,
            load_time(time, scope)?,
        )),
    }
}

// Puts an indicator variable, which is of any type (2.6.4.3), last among those that are loaded.
fn add_indicator(
    name: &Placed<Name>,
    scope: &ProgramScope,
    loaded: &mut Vec<Variable>,
) -> Result<(), PlacedLoadError>
    ensures loads { Loads (λ u. u) result (indicator_check scope.now name.now) tt }
    ensures added { OnOk result (loaded.new.items ≡ loaded.old.items ++ variable_in scope.now name.now ∷ []) }
{
    let Some((variable, _)) = scope.variable(name.spelling()) else {
        return Err(PlacedLoadError::new(LoadError::Unknown, name.span()));
    };
    loaded.push(variable)?;
    Ok(())
}

// Indicator variables, in text order.
fn load_indicators(
    alloc: Global,
    names: &[Placed<Name>],
    scope: &ProgramScope,
) -> Result<Vec<Variable>, PlacedLoadError>
    ensures { Loads (λ loaded. loaded.items) result
        (each (indicator_check scope.now) names.now) (map (variable_in scope.now) names.now) }
{
    let mut loaded = Vec::new(alloc);
    let mut rest = names;
    'names: while let Some((name, after)) = rest.split_first() {
        add_indicator(name, scope, &mut loaded)?;
        rest = after;
    }
    Ok(loaded)
}

// Puts one line of an action block (2.6.4.3) last among those that are loaded.
fn add_association(
    alloc: Global,
    association: &Placed<tree::Association>,
    scope: &ProgramScope,
    loaded: &mut Vec<Association>,
) -> Result<(), PlacedLoadError>
    ensures loads { Loads (λ u. u) result (association_check scope.now association.now) tt }
    ensures added { OnOk result
        (loaded.new.items ≡ loaded.old.items ++ association_of scope.now association.now ∷ []) }
{
    let written = association.value();
    let target = load_target(&written.action, scope)?;
    let qualifier = load_qualifier(&written.qualifier, scope)?;
    let indicators = load_indicators(alloc, written.indicators.as_slice(), scope)?;
    loaded.push(Association {
        target,
        qualifier,
        indicators: Items::from_vec(indicators),
    })?;
    Ok(())
}

// The associations of a step, in text order.
fn load_associations(
    alloc: Global,
    associations: &[Placed<tree::Association>],
    scope: &ProgramScope,
) -> Result<Vec<Association>, PlacedLoadError>
    ensures { Loads (λ loaded. loaded.items) result
        (each (association_check scope.now) associations.now) (map (association_of scope.now) associations.now) }
{
    let mut loaded = Vec::new(alloc);
    let mut rest = associations;
    'associations: while let Some((association, after)) = rest.split_first() {
        add_association(alloc, association, scope, &mut loaded)?;
        rest = after;
    }
    Ok(loaded)
}

// Puts a step with its associations last among those that are loaded.
fn add_step(
    alloc: Global,
    step: &tree::Step,
    scope: &ProgramScope,
    loaded: &mut Vec<Step>,
) -> Result<(), PlacedLoadError>
    ensures loads { Loads (λ u. u) result (step_check scope.now step.now) tt }
    ensures added { OnOk result (loaded.new.items ≡ loaded.old.items ++ step_of scope.now step.now ∷ []) }
{
    let associations = load_associations(alloc, step.associations.as_slice(), scope)?;
    let name = step.name.copy(alloc)?;
    loaded.push(Step {
        name,
        is_initial: step.is_initial,
        associations: Items::from_vec(associations),
    })?;
    Ok(())
}

/// The steps of a program type, in text order, or the first fault in one of their associations.
pub fn load_steps(
    alloc: Global,
    elements: &[Element],
    scope: &ProgramScope,
) -> Result<Vec<Step>, PlacedLoadError>
    ensures { let steps : _ = steps_of (map element_of elements.now) in
        Loads (λ loaded. loaded.items) result (each (step_check scope.now) steps) (map (step_of scope.now) steps) }
{
    let mut loaded = Vec::new(alloc);
    let mut rest = elements;
    'elements: while let Some((element, after)) = rest.split_first() {
        if let Element::Step(step, _) = element {
            add_step(alloc, step, scope, &mut loaded)?;
        }
        rest = after;
    }
    Ok(loaded)
}
