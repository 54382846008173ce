//! Declared actions (2.6.4.1).

ghost use Rattle.std.specs.Prelude.{◌≡◌, ◌++◌, ◌∷◌, [], map, Some, OnOk};
ghost use Rattle.sfc_text.specs.Trees as trees;
ghost use Rattle.sfc_text.specs.Trees.{element_of, block_of};
ghost use Rattle.sfc_check.specs.Checking.{checked_body};
ghost use Rattle.sfc_expr.specs.Trees.{Nothing};
ghost use Rattle.sfc_variables.specs.Checks.{Loads, each, typed, checked_or};
ghost use Rattle.sfc_program.specs.Elements.{actions_of};
ghost use Rattle.sfc_program.specs.Names.{names_in};
ghost use Rattle.sfc_program.specs.Loading.{action_check};
ghost use Rattle.sfc_program.specs.Built.{action_of};

use crate::scope::{ActionScope, ProgramScope};
use sfc_check::check_body::check_body;
use sfc_check::placed_error::PlacedLoadError;
use sfc_plant::action::Action;
use sfc_plant::typed::Statements;
use sfc_text::tree::{self, Element};
use std::alloc::Global;

// The body of an action.
#[tactic(auto, using(crate::proofs::Typing::typing))]
fn load_body(
    alloc: Global,
    action: &tree::Action,
    scope: &ProgramScope,
) -> Result<Statements, PlacedLoadError>
    ensures { let outcome : _ =
        checked_body (names_in scope.now (Some action.now.name)) (block_of action.now.body.items) in
        Loads (λ loaded. loaded) result (typed outcome) (checked_or Nothing outcome) }
{
    let inside = ActionScope {
        program: scope,
        own: action.name.spelling(),
    };
    let statements = check_body(alloc, action.body.as_slice(), &inside)?;
    Ok(Statements::new(statements))
}

// Puts an action with its body last among those that are loaded.
fn add_action(
    alloc: Global,
    action: &tree::Action,
    scope: &ProgramScope,
    loaded: &mut Vec<Action>,
) -> Result<(), PlacedLoadError>
    ensures loads { Loads (λ u. u) result (action_check scope.now (trees.action_of action.now)) tt }
    ensures added { OnOk result
        (loaded.new.items ≡ loaded.old.items ++ action_of scope.now (trees.action_of action.now) ∷ []) }
{
    let body = load_body(alloc, action, scope)?;
    let name = action.name.copy(alloc)?;
    loaded.push(Action { name, body })?;
    Ok(())
}

/// The declared actions of a program type, in text order, or the first fault in one of their bodies.
pub fn load_actions(
    alloc: Global,
    elements: &[Element],
    scope: &ProgramScope,
) -> Result<Vec<Action>, PlacedLoadError>
    ensures { let actions : _ = actions_of (map element_of elements.now) in
        Loads (λ loaded. loaded.items) result
        (each (action_check scope.now) actions) (map (action_of scope.now) actions) }
{
    let mut loaded = Vec::new(alloc);
    let mut rest = elements;
    'elements: while let Some((element, after)) = rest.split_first() {
        if let Element::Action(action, _) = element {
            add_action(alloc, action, scope, &mut loaded)?;
        }
        rest = after;
    }
    Ok(loaded)
}
