//! Expressions (B.3.1).

ghost use Rattle.std.specs.Prelude.{◌≡◌, ◌≤◌, ◌<◌, ◌-◌, ◌+◌, IfOk};
ghost use Rattle.sfc_tokens.specs.Tokens.{kinds};
ghost use Rattle.sfc_text.specs.Grammar as grammar;
ghost use Rattle.sfc_text.specs.Parsing.Counting.{Counts, CountsPair};
ghost use Rattle.sfc_text.specs.Parsing.Depth.{at, inside, reads};
ghost use Rattle.sfc_text.specs.Parsing.Reading.{Gives, ended, pair, view, view_by};
ghost use Rattle.sfc_text.specs.Sorts.{AnExpression, AnOperand};
ghost use Rattle.sfc_text.specs.Terms as terms;
ghost use Rattle.sfc_text.specs.Terms.{maybe, ◌▸◌};
ghost use Rattle.sfc_text.specs.Trees.{Binary, tree_of, operators};
ghost use Rattle.sfc_base.specs.declared.delimiter.Delimiter.TheVariants as delimiter;

use crate::expression::{Expression, Operator, Variable};
use crate::parse::fault::ParseFault;
use crate::parse::operator::{begins_operator, operator};
use crate::parse::place::{first_span, span_between};
use crate::parse::terminal::{
    begins_name, begins_sign, literal, name, sign, signed, syntax, too_deep, word,
};
use sfc_base::delimiter::Delimiter;
use sfc_base::keyword::Keyword;
use sfc_base::name::Name;
use sfc_tokens::placed::Placed;
use sfc_tokens::span::Span;
use sfc_tokens::token::{Token, TokenKind};
use std::alloc::{AllocError, Global};

/// How deep parentheses, prefix operators and IF statements may nest (our choice).
pub const MOST_LEVELS: u8 = 64;

/// How many operators one expression has at most (our choice).
const MOST_OPERATORS: u16 = 256;

/// An expression, and how many operators it has.
#[derive(Drop)]
struct Counted {
    tree: Expression,
    operators: u16,
}

/// How many levels may still open, and how many operators may still come.
#[derive(Clone, Copy)]
struct Budget {
    levels: u8,
    operators: u16,
}

impl Budget {
    // The budget that is left behind so many operators.
    fn after_operators(self, count: u16) -> Budget
        requires { count ≤ self.operators }
        ensures levels { result.levels ≡ self.levels }
        ensures operators { result.operators ≡ self.operators - count }
    {
        Budget {
            levels: self.levels,
            operators: self.operators - count,
        }
    }
}

// What of a step or an action is meant, where something is.
fn maybe_part(
    alloc: Global,
    tokens: &[Token],
) -> Result<(Option<Placed<Name>>, &[Token]), ParseFault>
    ensures { Gives view result (reads (maybe (terms.sign delimiter.Dot ▸ grammar.name)) (kinds tokens.now)) }
{
    if begins_sign(tokens, Delimiter::Dot) {
        let tokens = sign(tokens, Delimiter::Dot)?;
        let (part, tokens) = name(alloc, tokens)?;
        Ok((Some(part), tokens))
    } else {
        Ok((None, tokens))
    }
}

/// A variable, or what a step or an action has, and what follows it.
#[tactic(auto, unfolding(crate::specs::Grammar::variable))]
pub fn variable(alloc: Global, tokens: &[Token]) -> Result<(Variable, &[Token]), ParseFault>
    ensures { Gives view result (reads grammar.variable (kinds tokens.now)) }
{
    let (name, tokens) = name(alloc, tokens)?;
    let (part, tokens) = maybe_part(alloc, tokens)?;
    Ok((Variable { name, part }, tokens))
}

// An expression in parentheses, one level of nesting further in.
#[cycle(expression)]
#[tactic(auto, unfolding(crate::specs::Parsing::Depth::inside))]
fn nested_expression(
    alloc: Global,
    tokens: &[Token],
    budget: Budget,
) -> Result<(Counted, &[Token]), ParseFault>
    ensures { Counts budget.operators result (inside 256 budget.levels AnExpression (kinds tokens.now)) }
{
    if budget.levels == 0 {
        return Err(too_deep(tokens));
    }
    let inner = Budget {
        levels: budget.levels - 1,
        operators: budget.operators,
    };
    joined(alloc, tokens, 7, inner)
}

// The operand of a prefix operator, one level of nesting further in.
#[cycle(expression)]
#[tactic(auto, unfolding(crate::specs::Parsing::Depth::inside))]
fn nested_operand(
    alloc: Global,
    tokens: &[Token],
    budget: Budget,
) -> Result<(Counted, &[Token]), ParseFault>
    ensures { Counts budget.operators result (inside 256 budget.levels AnOperand (kinds tokens.now)) }
{
    if budget.levels == 0 {
        return Err(too_deep(tokens));
    }
    let inner = Budget {
        levels: budget.levels - 1,
        operators: budget.operators,
    };
    unary(alloc, tokens, inner)
}

// An expression in parentheses.
#[cycle(expression)]
#[tactic(auto, unfolding(crate::specs::Grammar::parenthesized))]
fn parenthesized(
    alloc: Global,
    tokens: &[Token],
    budget: Budget,
) -> Result<(Counted, &[Token]), ParseFault>
    ensures { Counts budget.operators result (at budget.levels grammar.parenthesized (kinds tokens.now)) }
{
    let tokens = sign(tokens, Delimiter::Open)?;
    let (inner, tokens) = nested_expression(alloc, tokens, budget)?;
    let tokens = sign(tokens, Delimiter::Close)?;
    Ok((inner, tokens))
}

// An operand without prefix operators.
#[cycle(expression)]
#[tactic(auto, unfolding(crate::specs::Grammar::primary, crate::specs::Grammar::literal, crate::specs::Grammar::variable, crate::specs::Grammar::parenthesized))]
fn primary(
    alloc: Global,
    tokens: &[Token],
    budget: Budget,
) -> Result<(Counted, &[Token]), ParseFault>
    ensures { Counts budget.operators result (at budget.levels grammar.primary (kinds tokens.now)) }
{
    if begins_sign(tokens, Delimiter::Open) {
        return parenthesized(alloc, tokens, budget);
    }
    if begins_name(tokens) {
        let (variable, tokens) = variable(alloc, tokens)?;
        let tree = Expression::Variable(variable);
        return Ok((Counted { tree, operators: 0 }, tokens));
    }
    match literal(tokens) {
        Ok((literal, rest)) => {
            let tree = Expression::Literal(literal, first_span(tokens));
            Ok((Counted { tree, operators: 0 }, rest))
        }
        Err(fault) => Err(fault),
    }
}

// An operand with a minus before it.
#[cycle(expression)]
#[tactic(auto, unfolding(crate::specs::Grammar::opposite))]
fn opposite(
    alloc: Global,
    tokens: &[Token],
    budget: Budget,
) -> Result<(Counted, &[Token]), ParseFault>
    ensures { Counts budget.operators result (at budget.levels grammar.opposite (kinds tokens.now)) }
{
    let rest = sign(tokens, Delimiter::Minus)?;
    if budget.operators == 0 {
        return Err(too_deep(tokens));
    }
    let (inner, rest) = nested_operand(alloc, rest, budget.after_operators(1))?;
    let Counted { tree, operators } = inner;
    let counted = Counted {
        tree: Expression::Minus(first_span(tokens), Box::new(alloc, tree)?),
        operators: operators + 1,
    };
    Ok((counted, rest))
}

// An operand with NOT before it.
#[cycle(expression)]
#[tactic(auto, unfolding(crate::specs::Grammar::negation))]
fn negation(
    alloc: Global,
    tokens: &[Token],
    budget: Budget,
) -> Result<(Counted, &[Token]), ParseFault>
    ensures { Counts budget.operators result (at budget.levels grammar.negation (kinds tokens.now)) }
{
    let rest = word(tokens, Keyword::Not)?;
    if budget.operators == 0 {
        return Err(too_deep(tokens));
    }
    let (inner, rest) = nested_operand(alloc, rest, budget.after_operators(1))?;
    let Counted { tree, operators } = inner;
    let counted = Counted {
        tree: Expression::Not(first_span(tokens), Box::new(alloc, tree)?),
        operators: operators + 1,
    };
    Ok((counted, rest))
}

// An operand with its prefix operators.
#[cycle(expression)]
#[tactic(auto, unfolding(crate::specs::Grammar::unary, crate::specs::Grammar::opposite, crate::specs::Grammar::negation, crate::specs::Grammar::signed))]
fn unary(alloc: Global, tokens: &[Token], budget: Budget) -> Result<(Counted, &[Token]), ParseFault>
    ensures { Counts budget.operators result (at budget.levels grammar.unary (kinds tokens.now)) }
{
    match tokens {
        [
            Token {
                kind: TokenKind::Delimiter(Delimiter::Minus),
                ..
            },
            Token {
                kind: TokenKind::Integer(_),
                ..
            },
            ..
        ] => match signed(tokens) {
            Ok((literal, rest)) => {
                let tree = Expression::Literal(literal, span_between(tokens, rest));
                Ok((Counted { tree, operators: 0 }, rest))
            }
            Err(fault) => Err(fault),
        },
        [
            Token {
                kind: TokenKind::Delimiter(Delimiter::Minus),
                ..
            },
            ..
        ] => opposite(alloc, tokens, budget),
        [
            Token {
                kind: TokenKind::Keyword(Keyword::Not),
                ..
            },
            ..
        ] => negation(alloc, tokens, budget),
        _ => primary(alloc, tokens, budget),
    }
}

// Two expressions with an operator between them, which has these bytes.
fn binary(
    alloc: Global,
    operator: Operator,
    span: Span,
    left: Expression,
    right: Expression,
) -> Result<Expression, AllocError>
    ensures { IfOk result (λ tree. tree_of tree ≡ Binary operator (tree_of left) (tree_of right)) }
{
    let left = Box::new(alloc, left)?;
    let right = Box::new(alloc, right)?;
    Ok(Expression::Binary(operator, span, left, right))
}

// An operator of the level and its right operand, which are counted.
#[cycle(expression)]
fn operand(
    alloc: Global,
    tokens: &[Token],
    level: u8,
    budget: Budget,
) -> Result<(Operator, Counted, &[Token]), ParseFault>
    requires some { 1 ≤ level }
    requires most { level ≤ 7 }
    ensures { CountsPair budget.operators result (pair (at budget.levels (grammar.operator level)) (at budget.levels (grammar.joined (level - 1))) (kinds tokens.now)) }
{
    let (operator, tokens) = operator(tokens, level)?;
    let (operand, tokens) = joined(alloc, tokens, level - 1, budget)?;
    Ok((operator, operand, tokens))
}

// An expression without looser operators than those of the level.
#[cycle(expression)]
#[tactic(auto, unfolding(crate::specs::Grammar::joined))]
fn joined(
    alloc: Global,
    tokens: &[Token],
    level: u8,
    budget: Budget,
) -> Result<(Counted, &[Token]), ParseFault>
    requires { level ≤ 7 }
    ensures { Counts budget.operators result (at budget.levels (grammar.joined level) (kinds tokens.now)) }
{
    if level == 0 {
        return unary(alloc, tokens, budget);
    }
    let (first, mut rest) = joined(alloc, tokens, level - 1, budget)?;
    let Counted {
        mut tree,
        mut operators,
    } = first;
    'operands: while begins_operator(rest, level) {
        if operators >= budget.operators {
            return Err(too_deep(rest));
        }
        let (operator, second, behind) = operand(
            alloc,
            rest,
            level,
            budget.after_operators(operators + 1),
        )?;
        tree = binary(alloc, operator, first_span(rest), tree, second.tree)?;
        operators += second.operators + 1;
        rest = behind;
    }
    Ok((Counted { tree, operators }, rest))
}

/// An expression, with so many levels of nesting at most, and what follows it.
#[tactic(auto, unfolding(crate::specs::Grammar::expression))]
pub fn expression(
    alloc: Global,
    tokens: &[Token],
    levels: u8,
) -> Result<(Expression, &[Token]), ParseFault>
    ensures { Gives (view_by tree_of) result (at levels grammar.expression (kinds tokens.now)) }
{
    let budget = Budget {
        levels,
        operators: MOST_OPERATORS,
    };
    let (Counted { tree, .. }, tokens) = joined(alloc, tokens, 7, budget)?;
    Ok((tree, tokens))
}

/// The expression that all tokens are.
pub fn whole_expression(alloc: Global, tokens: &[Token]) -> Result<Expression, ParseFault>
    ensures { Gives tree_of result (ended (reads grammar.expression (kinds tokens.now))) }
{
    let (tree, rest) = expression(alloc, tokens, MOST_LEVELS)?;
    match rest {
        [] => Ok(tree),
        [_, ..] => Err(syntax(rest)),
    }
}
