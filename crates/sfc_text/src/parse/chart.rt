//! Transitions, actions and the elements of charts (B.1.6).

ghost use Rattle.std.specs.Prelude.{◌≡◌, ◌∷◌, [], IfOk, false, map, refl};
ghost use Rattle.sfc_tokens.specs.Tokens.{kinds};
ghost use Rattle.sfc_text.specs.Building as make;
ghost use Rattle.sfc_text.specs.Grammar as grammar;
ghost use Rattle.sfc_text.specs.Lists.{is_empty};
ghost use Rattle.sfc_text.specs.Parsing.Depth.{reads};
ghost use Rattle.sfc_text.specs.Parsing.Reading.{Gives, view, view_by};
ghost use Rattle.sfc_text.specs.Parsing.Takes.{element_takes};
ghost use Rattle.sfc_text.specs.Parsing.Views.{elements_more};
ghost use Rattle.sfc_text.specs.Rules as rules;
ghost use Rattle.sfc_text.specs.Terms as terms;
ghost use Rattle.sfc_text.specs.Terms.{maybe, ◌▸◌, ◌◂◌};
ghost use Rattle.sfc_text.specs.Trees.{ElementTree, action_of, block_of, element_of, transition_of, tree_of};
ghost use Rattle.sfc_base.specs.declared.delimiter.Delimiter.TheVariants as delimiter;

use crate::expression::Expression;
use crate::parse::expression::{MOST_LEVELS, expression};
use crate::parse::fault::ParseFault;
use crate::parse::list::Item;
use crate::parse::place::span_between;
use crate::parse::statement::body;
use crate::parse::step::step;
use crate::parse::terminal::{
    begins_name, begins_sign, begins_word, integer, name, named, sign, word,
};
use crate::parse::variables::names;
use crate::statement::Statement;
use crate::tree::{Action, Element, Transition};
use sfc_base::delimiter::Delimiter;
use sfc_base::items::Items;
use sfc_base::keyword::Keyword;
use sfc_base::name::Name;
use sfc_tokens::placed::Placed;
use sfc_tokens::span::Span;
use sfc_tokens::token::Token;
use std::alloc::Global;

// The name of a transition, where there is one.
fn maybe_name(
    alloc: Global,
    tokens: &[Token],
) -> Result<(Option<Placed<Name>>, &[Token]), ParseFault>
    ensures { Gives view result (reads (maybe grammar.name) (kinds tokens.now)) }
{
    if begins_name(tokens) {
        let (name, tokens) = name(alloc, tokens)?;
        Ok((Some(name), tokens))
    } else {
        Ok((None, tokens))
    }
}

// The priority of a transition.
#[tactic(auto, unfolding(crate::specs::Grammar::priority))]
fn priority(tokens: &[Token]) -> Result<(u32, &[Token]), ParseFault>
    ensures { Gives view result (reads grammar.priority (kinds tokens.now)) }
{
    let tokens = sign(tokens, Delimiter::Open)?;
    let tokens = named(tokens, b"PRIORITY")?;
    let tokens = sign(tokens, Delimiter::Assign)?;
    let (priority, tokens) = integer(tokens)?;
    let tokens = sign(tokens, Delimiter::Close)?;
    Ok((priority, tokens))
}

// The priority of a transition, where there is one.
#[tactic(auto, unfolding(crate::specs::Grammar::priority))]
fn maybe_priority(tokens: &[Token]) -> Result<(Option<u32>, &[Token]), ParseFault>
    ensures { Gives view result (reads (maybe grammar.priority) (kinds tokens.now)) }
{
    if begins_sign(tokens, Delimiter::Open) {
        let (priority, tokens) = priority(tokens)?;
        Ok((Some(priority), tokens))
    } else {
        Ok((None, tokens))
    }
}

// One step, without parentheses.
fn one_step(alloc: Global, tokens: &[Token]) -> Result<(Items<Placed<Name>>, &[Token]), ParseFault>
    ensures value { Gives view result (reads (rules.map (λ step. step ∷ []) grammar.name) (kinds tokens.now)) }
    ensures some { IfOk result (λ x. is_empty x.0 ≡ false) }
{
    let (step, tokens) = name(alloc, tokens)?;
    let steps = Items::one(alloc, step)?;
    Ok((steps, tokens))
}

// Steps in parentheses, one at least.
fn listed_steps(
    alloc: Global,
    tokens: &[Token],
) -> Result<(Items<Placed<Name>>, &[Token]), ParseFault>
    ensures value { Gives view result (reads (terms.sign delimiter.Open ▸ grammar.names ◂ terms.sign delimiter.Close) (kinds tokens.now)) }
    ensures some { IfOk result (λ x. is_empty x.0 ≡ false) }
{
    let tokens = sign(tokens, Delimiter::Open)?;
    let (steps, tokens) = names(alloc, tokens)?;
    let tokens = sign(tokens, Delimiter::Close)?;
    Ok((steps, tokens))
}

// The steps on one side of a transition, one at least.
#[tactic(auto, unfolding(crate::specs::Grammar::steps))]
fn steps(alloc: Global, tokens: &[Token]) -> Result<(Items<Placed<Name>>, &[Token]), ParseFault>
    ensures value { Gives view result (reads grammar.steps (kinds tokens.now)) }
    ensures some { IfOk result (λ x. is_empty x.0 ≡ false) }
{
    if begins_name(tokens) {
        one_step(alloc, tokens)
    } else {
        listed_steps(alloc, tokens)
    }
}

// The condition of a transition.
fn condition(alloc: Global, tokens: &[Token]) -> Result<(Expression, &[Token]), ParseFault>
    ensures { Gives (view_by tree_of) result (reads grammar.expression (kinds tokens.now)) }
{
    expression(alloc, tokens, MOST_LEVELS)
}

// The statements of an action.
fn statements(alloc: Global, tokens: &[Token]) -> Result<(Vec<Statement>, &[Token]), ParseFault>
    ensures { Gives (view_by (λ v. block_of v.items)) result (reads grammar.body (kinds tokens.now)) }
{
    body(alloc, tokens, MOST_LEVELS)
}

// What stands before FROM in a transition.
struct Front {
    name: Option<Placed<Name>>,
    priority: Option<u32>,
}

// By hand, so that a caller that drops one proves one call.
impl Drop for Front {
    fn drop(self) {
        let Front {
            name: _,
            priority: _,
        } = self;
    }
}

impl Front {
    // The name and the priority.
    fn into_parts(self) -> (Option<Placed<Name>>, Option<u32>)
        ensures { result ≡ (self.name, self.priority) }
    {
        let Front { name, priority } = self;
        (name, priority)
    }
}

// What stands before the condition of a transition.
struct Sides {
    front: Front,
    preceding: Items<Placed<Name>>,
    following: Items<Placed<Name>>,
    ghost some_preceding: { is_empty preceding ≡ false },
    ghost some_following: { is_empty following ≡ false },
}

// By hand, so that a caller that drops one proves one call.
impl Drop for Sides {
    fn drop(self) {
        let Sides {
            front: _,
            preceding: _,
            following: _,
        } = self;
    }
}

impl Sides {
    // The transition with this condition, which has these bytes.
    fn with_condition(self, condition: Expression, condition_span: Span) -> Transition
        ensures { transition_of result ≡ make.a_transition ((((self.front.name, self.front.priority), self.preceding), self.following), tree_of condition) }
    {
        let Sides {
            front,
            preceding,
            following,
        } = self;
        let (name, priority) = front.into_parts();
        Transition {
            name,
            priority,
            preceding,
            following,
            condition,
            condition_span,
        }
    }
}

// A transition up to FROM.
#[tactic(auto, unfolding(crate::specs::Grammar::before_from))]
fn before_from(alloc: Global, tokens: &[Token]) -> Result<(Front, &[Token]), ParseFault>
    ensures { Gives (view_by (λ front. (front.name, front.priority))) result (reads grammar.before_from (kinds tokens.now)) }
{
    let tokens = word(tokens, Keyword::Transition)?;
    let (name, tokens) = maybe_name(alloc, tokens)?;
    let (priority, tokens) = maybe_priority(tokens)?;
    Ok((Front { name, priority }, tokens))
}

// A transition up to its condition.
#[tactic(auto, unfolding(crate::specs::Grammar::before_condition))]
fn before_condition(alloc: Global, tokens: &[Token]) -> Result<(Sides, &[Token]), ParseFault>
    ensures { Gives (view_by (λ sides. (((sides.front.name, sides.front.priority), sides.preceding), sides.following))) result (reads grammar.before_condition (kinds tokens.now)) }
{
    let (front, tokens) = before_from(alloc, tokens)?;
    let tokens = word(tokens, Keyword::From)?;
    let (preceding, tokens) = steps(alloc, tokens)?;
    let tokens = word(tokens, Keyword::To)?;
    let (following, tokens) = steps(alloc, tokens)?;
    let sides = Sides {
        front,
        preceding,
        following,
    };
    Ok((sides, tokens))
}

// A transition.
#[tactic(auto, unfolding(crate::specs::Grammar::transition))]
fn transition(alloc: Global, tokens: &[Token]) -> Result<(Transition, &[Token]), ParseFault>
    ensures { Gives (view_by transition_of) result (reads grammar.transition (kinds tokens.now)) }
{
    let (sides, tokens) = before_condition(alloc, tokens)?;
    let tokens = sign(tokens, Delimiter::Assign)?;
    let (condition, rest) = condition(alloc, tokens)?;
    let span = span_between(tokens, rest);
    let rest = sign(rest, Delimiter::Semicolon)?;
    let rest = word(rest, Keyword::EndTransition)?;
    Ok((sides.with_condition(condition, span), rest))
}

// An action with its body.
#[tactic(auto, unfolding(crate::specs::Grammar::action))]
fn action(alloc: Global, tokens: &[Token]) -> Result<(Action, &[Token]), ParseFault>
    ensures { Gives (view_by action_of) result (reads grammar.action (kinds tokens.now)) }
{
    let tokens = word(tokens, Keyword::Action)?;
    let (name, tokens) = name(alloc, tokens)?;
    let tokens = sign(tokens, Delimiter::Colon)?;
    let (body, tokens) = statements(alloc, tokens)?;
    let tokens = word(tokens, Keyword::EndAction)?;
    Ok((Action { name, body }, tokens))
}

impl Item for Element {
    ghost Tree = { ElementTree };

    ghost tree = { element_of };

    ghost trees = { map element_of };

    ghost rule = { grammar.element };

    #[tactic(auto, unfolding(crate::specs::Grammar::element, crate::specs::Grammar::step, crate::specs::Grammar::before_from, crate::specs::Grammar::before_condition, crate::specs::Grammar::transition, crate::specs::Grammar::action))]
    fn begins(tokens: &[Token]) -> bool {
        begins_word(tokens, Keyword::InitialStep)
            || begins_word(tokens, Keyword::Step)
            || begins_word(tokens, Keyword::Transition)
            || begins_word(tokens, Keyword::Action)
    }

    #[tactic(auto, unfolding(crate::specs::Grammar::element, crate::specs::Grammar::step, crate::specs::Grammar::before_from, crate::specs::Grammar::before_condition, crate::specs::Grammar::transition))]
    fn read(alloc: Global, tokens: &[Token]) -> Result<(Element, &[Token]), ParseFault> {
        if begins_word(tokens, Keyword::InitialStep) {
            let (step, rest) = step(alloc, true, Keyword::InitialStep, tokens)?;
            return Ok((Element::Step(step, span_between(tokens, rest)), rest));
        }
        if begins_word(tokens, Keyword::Step) {
            let (step, rest) = step(alloc, false, Keyword::Step, tokens)?;
            return Ok((Element::Step(step, span_between(tokens, rest)), rest));
        }
        if begins_word(tokens, Keyword::Transition) {
            let (transition, rest) = transition(alloc, tokens)?;
            let span = span_between(tokens, rest);
            return Ok((Element::Transition(transition, span), rest));
        }
        let (action, rest) = action(alloc, tokens)?;
        Ok((Element::Action(action, span_between(tokens, rest)), rest))
    }

    ghost takes_a_token = { element_takes };

    ghost no_trees = { refl };

    ghost one_more = { elements_more };
}
