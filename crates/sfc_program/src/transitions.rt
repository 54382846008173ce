//! Transitions (2.6.3).

ghost use Rattle.std.specs.Prelude.{◌≡◌, ◌++◌, ◌∷◌, [], false, map, None, OnOk, IfOk};
ghost use Rattle.sfc_base.specs.declared.var_type.VarType.TheVariants as types;
ghost use Rattle.sfc_text.specs.Trees as trees;
ghost use Rattle.sfc_text.specs.Trees.{element_of, tree_of};
ghost use Rattle.sfc_base.specs.declared.value.Value.TheVariants as value;
ghost use Rattle.sfc_check.specs.Checking.{checked};
ghost use Rattle.sfc_expr.specs.Trees.{Literal};
ghost use Rattle.sfc_variables.specs.Checks.{Loads, each, typed, checked_or};
ghost use Rattle.sfc_program.specs.Elements.{transitions_of};
ghost use Rattle.sfc_program.specs.Names.{names_in};
ghost use Rattle.sfc_program.specs.Loading.{side_check, side_step_check, transition_check};
ghost use Rattle.sfc_program.specs.Built.{step_id, step_ids, transition_of};

use crate::scope::ProgramScope;
use sfc_base::items::Items;
use sfc_base::name::Name;
use sfc_base::references::StepId;
use sfc_base::var_type::VarType;
use sfc_check::check::check;
use sfc_check::placed_error::PlacedLoadError;
use sfc_check::scope::Scope;
use sfc_events::load_error::LoadError;
use sfc_plant::chart::Transition;
use sfc_plant::name_table::NameTable;
use sfc_plant::typed::Condition;
use sfc_text::expression::Expression;
use sfc_text::tree::{self, Element};
use sfc_tokens::placed::Placed;
use std::alloc::{AllocError, Global};

// Puts a step that a transition names, and hasn't named on the same side before, last among those of the side.
fn add_side_step(
    alloc: Global,
    name: &Placed<Name>,
    scope: &ProgramScope,
    seen: &mut NameTable,
    loaded: &mut Vec<StepId>,
) -> Result<(), PlacedLoadError>
    ensures loads { Loads (λ u. u) result (side_step_check scope.now.steps seen.old name.now) tt }
    ensures named { OnOk result (seen.new ≡ seen.old ++ name.now ∷ []) }
    ensures added { OnOk result (loaded.new.items ≡ loaded.old.items ++ step_id scope.now.steps name.now ∷ []) }
{
    let Some(step) = scope.step(name.spelling()) else {
        return Err(PlacedLoadError::new(LoadError::UnknownStep, name.span()));
    };
    if !seen.add(alloc, name.spelling())? {
        return Err(PlacedLoadError::new(LoadError::Duplicate, name.span()));
    }
    loaded.push(step)?;
    Ok(())
}

// The steps that a transition names on one side, in text order.
fn load_side(
    alloc: Global,
    names: &[Placed<Name>],
    scope: &ProgramScope,
) -> Result<Vec<StepId>, PlacedLoadError>
    ensures { Loads (λ loaded. loaded.items) result
        (side_check scope.now.steps names.now) (step_ids scope.now.steps names.now) }
{
    let mut seen = NameTable::new(alloc);
    let mut loaded = Vec::new(alloc);
    let mut rest = names;
    'names: while let Some((name, after)) = rest.split_first() {
        add_side_step(alloc, name, scope, &mut seen, &mut loaded)?;
        rest = after;
    }
    Ok(loaded)
}

// The condition of a transition, which is BOOL.
#[tactic(auto, using(crate::proofs::Typing::typing))]
fn load_condition(
    alloc: Global,
    condition: &Expression,
    scope: &ProgramScope,
) -> Result<Condition, PlacedLoadError>
    ensures { let outcome : _ = checked (names_in scope.now None) (tree_of condition.now) types.Bool in
        Loads (λ loaded. loaded) result (typed outcome) (checked_or (Literal (value.Bool false)) outcome) }
{
    let expr = check(alloc, condition, scope, VarType::Bool)?;
    Ok(Condition::new(expr))
}

// The same name once more, without its place, if there is one.
fn copy_some_name(alloc: Global, name: &Option<Placed<Name>>) -> Result<Option<Name>, AllocError>
    ensures { IfOk result (λ copy. copy ≡ name.now) }
{
    match name {
        None => Ok(None),
        Some(name) => {
            let copy = name.copy(alloc)?;
            Ok(Some(copy))
        }
    }
}

// Puts a transition with its steps and its condition last among those that are loaded.
fn add_transition(
    alloc: Global,
    transition: &tree::Transition,
    scope: &ProgramScope,
    loaded: &mut Vec<Transition>,
) -> Result<(), PlacedLoadError>
    ensures loads { Loads (λ u. u) result (transition_check scope.now (trees.transition_of transition.now)) tt }
    ensures added { OnOk result
        (loaded.new.items ≡ loaded.old.items ++ transition_of scope.now (trees.transition_of transition.now) ∷ []) }
{
    let preceding = load_side(alloc, transition.preceding.as_slice(), scope)?;
    let following = load_side(alloc, transition.following.as_slice(), scope)?;
    let condition = load_condition(alloc, &transition.condition, scope)?;
    let name = copy_some_name(alloc, &transition.name)?;
    loaded.push(Transition {
        name,
        priority: transition.priority,
        preceding: Items::from_vec(preceding),
        following: Items::from_vec(following),
        condition,
    })?;
    Ok(())
}

/// The transitions of a program type, in text order, or the first fault in one of them.
pub fn load_transitions(
    alloc: Global,
    elements: &[Element],
    scope: &ProgramScope,
) -> Result<Vec<Transition>, PlacedLoadError>
    ensures { let transitions : _ = transitions_of (map element_of elements.now) in
        Loads (λ loaded. loaded.items) result
        (each (transition_check scope.now) transitions) (map (transition_of scope.now) transitions) }
{
    let mut loaded = Vec::new(alloc);
    let mut rest = elements;
    'elements: while let Some((element, after)) = rest.split_first() {
        if let Element::Transition(transition, _) = element {
            add_transition(alloc, transition, scope, &mut loaded)?;
        }
        rest = after;
    }
    Ok(loaded)
}
