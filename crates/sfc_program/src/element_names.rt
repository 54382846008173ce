//! The names of steps, actions and transitions, which share one name space with the variables (2.6.2, 2.6.3, 2.6.4.1).

ghost use Rattle.std.specs.Prelude.{◌≡◌, ◌++◌, ◌∷◌, [], false, map, OnOk, IfOk};
ghost use Rattle.std.specs.List.{list_any};
ghost use Rattle.sfc_text.specs.Trees.{element_of};
ghost use Rattle.sfc_base.specs.NameLists.{has};
ghost use Rattle.sfc_variables.specs.Checks.{Loads};
ghost use Rattle.sfc_program.specs.Elements.{steps_of, step_names, action_names, transition_names};
ghost use Rattle.sfc_program.specs.Loading.{name_check, distinct_check, element_names, initial_check};

use sfc_base::name::Name;
use sfc_check::placed_error::PlacedLoadError;
use sfc_events::load_error::LoadError;
use sfc_plant::name_table::NameTable;
use sfc_text::tree::Element;
use sfc_tokens::placed::Placed;
use std::alloc::Global;

/// The names of the steps and of the declared actions of a program type, each in text order.
pub struct ElementNames {
    pub steps: NameTable,
    pub actions: NameTable,
}

// By hand, so that a caller that drops one proves one call.
impl Drop for ElementNames {
    fn drop(self) {
        let ElementNames {
            steps: _,
            actions: _,
        } = self;
    }
}

// Puts a name last in the name space, if it isn't there.
fn add_name(
    alloc: Global,
    name: &Placed<Name>,
    space: &mut NameTable,
) -> Result<(), PlacedLoadError>
    ensures loads { Loads (λ u. u) result (name_check space.old name.now) tt }
    ensures named { OnOk result (space.new ≡ space.old ++ name.now ∷ []) }
{
    if !space.add(alloc, name.spelling())? {
        return Err(PlacedLoadError::new(LoadError::Duplicate, name.span()));
    }
    Ok(())
}

// Puts a name last in the name space and among the names of its kind, if it isn't in the name space.
fn add_to_kind(
    alloc: Global,
    name: &Placed<Name>,
    space: &mut NameTable,
    kind: &mut NameTable,
) -> Result<(), PlacedLoadError>
    requires { has space.old name.now ≡ false → has kind.old name.now ≡ false }
    ensures loads { Loads (λ u. u) result (name_check space.old name.now) tt }
    ensures named { OnOk result (space.new ≡ space.old ++ name.now ∷ []) }
    ensures of_kind { OnOk result (kind.new ≡ kind.old ++ name.now ∷ []) }
{
    add_name(alloc, name, space)?;
    kind.add(alloc, name.spelling())?;
    Ok(())
}

// Puts the names of the steps last in the name space, and answers the table of them.
fn add_steps(
    alloc: Global,
    elements: &[Element],
    space: &mut NameTable,
) -> Result<NameTable, PlacedLoadError>
    ensures loads { let steps : _ = step_names (map element_of elements.now) in
        Loads (λ table. table) result (distinct_check space.old steps) steps }
    ensures named { OnOk result (space.new ≡ space.old ++ step_names (map element_of elements.now)) }
{
    let mut steps = NameTable::new(alloc);
    let mut rest = elements;
    'elements: while let Some((element, after)) = rest.split_first() {
        if let Element::Step(step, _) = element {
            add_to_kind(alloc, &step.name, space, &mut steps)?;
        }
        rest = after;
    }
    Ok(steps)
}

// Puts the names of the actions last in the name space, and answers the table of them.
fn add_actions(
    alloc: Global,
    elements: &[Element],
    space: &mut NameTable,
) -> Result<NameTable, PlacedLoadError>
    ensures loads { let actions : _ = action_names (map element_of elements.now) in
        Loads (λ table. table) result (distinct_check space.old actions) actions }
    ensures named { OnOk result (space.new ≡ space.old ++ action_names (map element_of elements.now)) }
{
    let mut actions = NameTable::new(alloc);
    let mut rest = elements;
    'elements: while let Some((element, after)) = rest.split_first() {
        if let Element::Action(action, _) = element {
            add_to_kind(alloc, &action.name, space, &mut actions)?;
        }
        rest = after;
    }
    Ok(actions)
}

// Puts the names of those transitions that have one last in the name space.
fn add_transitions(
    alloc: Global,
    elements: &[Element],
    space: &mut NameTable,
) -> Result<(), PlacedLoadError>
    ensures { Loads (λ u. u) result (distinct_check space.old (transition_names (map element_of elements.now))) tt }
{
    let mut rest = elements;
    'elements: while let Some((element, after)) = rest.split_first() {
        if let Element::Transition(transition, _) = element {
            if let Some(name) = &transition.name {
                add_name(alloc, name, space)?;
            }
        }
        rest = after;
    }
    Ok(())
}

// Puts the names of the actions and then of the transitions last in the name space, and answers the table of the first.
fn add_others(
    alloc: Global,
    elements: &[Element],
    space: &mut NameTable,
) -> Result<NameTable, PlacedLoadError>
    ensures { let trees : _ = map element_of elements.now in
        Loads (λ table. table) result
        (distinct_check space.old (action_names trees ++ transition_names trees)) (action_names trees) }
{
    let actions = add_actions(alloc, elements, space)?;
    add_transitions(alloc, elements, space)?;
    Ok(actions)
}

/// The names of the steps and actions, where no name of a step, an action or a transition stands twice, nor is in the
/// name space already. Whatever it answers, names may have been put into the name space.
#[tactic(auto, using(crate::proofs::Distinct::steps_first))]
pub fn load_element_names(
    alloc: Global,
    elements: &[Element],
    space: &mut NameTable,
) -> Result<ElementNames, PlacedLoadError>
    ensures loads { let trees : _ = map element_of elements.now in
        Loads (λ names. names.steps) result (distinct_check space.old (element_names trees)) (step_names trees) }
    ensures actions { IfOk result (λ names. names.actions ≡ action_names (map element_of elements.now)) }
{
    let steps = add_steps(alloc, elements, space)?;
    let actions = add_others(alloc, elements, space)?;
    Ok(ElementNames { steps, actions })
}

// Whether one of the steps is initial.
fn has_initial(elements: &[Element]) -> bool
    ensures { result ≡ list_any (λ s. s.is_initial) (steps_of (map element_of elements.now)) }
{
    let mut rest = elements;
    'elements: while let Some((element, after)) = rest.split_first() {
        if let Element::Step(step, _) = element {
            if step.is_initial {
                return true;
            }
        }
        rest = after;
    }
    false
}

/// Refuses a program type without an initial step (2.6.2).
pub fn check_initial(elements: &[Element]) -> Result<(), LoadError>
    ensures { Loads (λ u. u) result (initial_check (map element_of elements.now)) tt }
{
    if !has_initial(elements) {
        return Err(LoadError::NoInitial);
    }
    Ok(())
}
