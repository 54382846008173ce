//! Statements (B.3.2).

ghost use Rattle.std.specs.Prelude.{◌≡◌};
ghost use Rattle.sfc_tokens.specs.Tokens.{kinds};
ghost use Rattle.sfc_text.specs.Grammar as grammar;
ghost use Rattle.sfc_text.specs.Parsing.Depth.{at, inside};
ghost use Rattle.sfc_text.specs.Parsing.Lookahead.{begins, first};
ghost use Rattle.sfc_text.specs.Parsing.Reading.{Gives, made, view_by};
ghost use Rattle.sfc_text.specs.Sorts.{Branches};
ghost use Rattle.sfc_text.specs.Terms.{else_given};
ghost use Rattle.sfc_text.specs.Trees.{Nothing, If, When, Otherwise, append, before, beside, block_of, branches_of, tree_of};

use crate::expression::Expression;
use crate::parse::expression::{expression, variable};
use crate::parse::fault::ParseFault;
use crate::parse::place::span_between;
use crate::parse::terminal::{begins_name, begins_sign, begins_word, sign, too_deep, word};
use crate::statement::{Branch, Statement};
use sfc_base::delimiter::Delimiter;
use sfc_base::keyword::Keyword;
use sfc_tokens::span::Span;
use sfc_tokens::token::Token;
use std::alloc::Global;

// An IF statement of these branches, which has these bytes.
fn if_of(branches: Vec<Branch>, span: Span) -> Statement
    ensures { before result Nothing ≡ If (branches_of branches.items) Nothing }
{
    Statement::If(branches, span)
}

// A branch with a condition.
fn when_of(condition: Expression, body: Vec<Statement>) -> Branch
    ensures { beside result Nothing ≡ When (tree_of condition) (block_of body.items) Nothing }
{
    Branch::When(condition, body)
}

// An ELSE branch.
fn otherwise_of(body: Vec<Statement>) -> Branch
    ensures { beside result Nothing ≡ Otherwise (block_of body.items) Nothing }
{
    Branch::Otherwise(body)
}

// An assignment.
#[tactic(auto, unfolding(crate::specs::Grammar::assignment, crate::specs::Grammar::variable))]
fn assignment(
    alloc: Global,
    tokens: &[Token],
    left: u8,
) -> Result<(Statement, &[Token]), ParseFault>
    ensures { Gives (view_by (λ s. before s Nothing)) result (at left grammar.assignment (kinds tokens.now)) }
{
    let (target, rest) = variable(alloc, tokens)?;
    let rest = sign(rest, Delimiter::Assign)?;
    let (value, rest) = expression(alloc, rest, left)?;
    let span = span_between(tokens, rest);
    Ok((Statement::Assign(target, value, span), rest))
}

// What stands between IF and the end of END_IF, one level of nesting further in.
#[cycle(statement)]
#[tactic(auto, unfolding(crate::specs::Parsing::Depth::inside))]
fn nested_branches(
    alloc: Global,
    tokens: &[Token],
    left: u8,
) -> Result<(Vec<Branch>, &[Token]), ParseFault>
    ensures { Gives (view_by (λ v. branches_of v.items)) result (inside 256 left Branches (kinds tokens.now)) }
{
    if left == 0 {
        return Err(too_deep(tokens));
    }
    branches(alloc, tokens, left - 1)
}

// The branches of an IF statement, and END_IF.
#[cycle(statement)]
#[tactic(auto, unfolding(crate::specs::Grammar::branches))]
fn branches(
    alloc: Global,
    tokens: &[Token],
    left: u8,
) -> Result<(Vec<Branch>, &[Token]), ParseFault>
    ensures { Gives (view_by (λ v. branches_of v.items)) result (at left grammar.branches (kinds tokens.now)) }
{
    let (first, tokens) = branch(alloc, tokens, left)?;
    let mut found = Vec::new(alloc);
    found.push(first)?;
    let (found, tokens) = other_branches(alloc, found, tokens, left)?;
    let (found, tokens) = maybe_else(alloc, found, tokens, left)?;
    let tokens = word(tokens, Keyword::EndIf)?;
    Ok((found, tokens))
}

// A condition, and the statements behind THEN.
#[cycle(statement)]
#[tactic(auto, unfolding(crate::specs::Grammar::branch))]
fn branch(alloc: Global, tokens: &[Token], left: u8) -> Result<(Branch, &[Token]), ParseFault>
    ensures { Gives (view_by (λ b. beside b Nothing)) result (at left grammar.branch (kinds tokens.now)) }
{
    let (condition, tokens) = expression(alloc, tokens, left)?;
    let tokens = word(tokens, Keyword::Then)?;
    let (body, tokens) = body(alloc, tokens, left)?;
    Ok((when_of(condition, body), tokens))
}

// An ELSIF branch, behind those found.
#[cycle(statement)]
#[tactic(auto, using(crate::proofs::Blocks::branches_push), unfolding(crate::specs::Grammar::other_branch))]
fn other_branch(
    alloc: Global,
    found: Vec<Branch>,
    tokens: &[Token],
    left: u8,
) -> Result<(Vec<Branch>, &[Token]), ParseFault>
    ensures { Gives (view_by (λ v. branches_of v.items)) result (made (append (branches_of found.items)) (at left grammar.other_branch (kinds tokens.now))) }
{
    let mut found = found;
    let tokens = word(tokens, Keyword::Elsif)?;
    let (branch, tokens) = branch(alloc, tokens, left)?;
    found.push(branch)?;
    Ok((found, tokens))
}

// ELSIF branches, behind those found.
#[cycle(statement)]
fn other_branches(
    alloc: Global,
    found: Vec<Branch>,
    tokens: &[Token],
    left: u8,
) -> Result<(Vec<Branch>, &[Token]), ParseFault>
    ensures { Gives (view_by (λ v. branches_of v.items)) result (made (append (branches_of found.items)) (at left grammar.other_branches (kinds tokens.now))) }
{
    let mut found = found;
    let mut rest = tokens;
    'branches: while begins_word(rest, Keyword::Elsif) {
        let (longer, behind) = other_branch(alloc, found, rest, left)?;
        found = longer;
        rest = behind;
    }
    Ok((found, rest))
}

// An ELSE branch, where there is one, behind those found.
#[cycle(statement)]
#[tactic(auto, using(crate::proofs::Blocks::branches_push, crate::proofs::Blocks::append_nothing), unfolding(crate::specs::Grammar::else_branch))]
fn maybe_else(
    alloc: Global,
    found: Vec<Branch>,
    tokens: &[Token],
    left: u8,
) -> Result<(Vec<Branch>, &[Token]), ParseFault>
    ensures { Gives (view_by (λ v. branches_of v.items)) result (made (append (branches_of found.items)) (at left (else_given Nothing grammar.else_branch) (kinds tokens.now))) }
{
    if !begins_word(tokens, Keyword::Else) {
        return Ok((found, tokens));
    }
    let mut found = found;
    let tokens = word(tokens, Keyword::Else)?;
    let (body, tokens) = body(alloc, tokens, left)?;
    found.push(otherwise_of(body))?;
    Ok((found, tokens))
}

// Whether a statement begins there.
#[tactic(auto, unfolding(crate::specs::Grammar::statement, crate::specs::Grammar::conditional, crate::specs::Grammar::assignment, crate::specs::Grammar::variable))]
fn begins_statement(tokens: &[Token]) -> bool
    ensures { result ≡ begins (first grammar.statement) (kinds tokens.now) }
{
    begins_name(tokens) || begins_word(tokens, Keyword::If)
}

// A statement.
#[cycle(statement)]
#[tactic(auto, unfolding(crate::specs::Grammar::statement, crate::specs::Grammar::conditional, crate::specs::Grammar::assignment, crate::specs::Grammar::variable))]
fn statement(alloc: Global, tokens: &[Token], left: u8) -> Result<(Statement, &[Token]), ParseFault>
    ensures { Gives (view_by (λ s. before s Nothing)) result (at left grammar.statement (kinds tokens.now)) }
{
    if begins_name(tokens) {
        return assignment(alloc, tokens, left);
    }
    let rest = word(tokens, Keyword::If)?;
    let (branches, rest) = nested_branches(alloc, rest, left)?;
    Ok((if_of(branches, span_between(tokens, rest)), rest))
}

// A statement or none and a semicolon, behind those found.
#[cycle(statement)]
#[tactic(auto, using(crate::proofs::Blocks::block_push, crate::proofs::Blocks::append_nothing), unfolding(crate::specs::Grammar::entry))]
fn entry(
    alloc: Global,
    found: Vec<Statement>,
    tokens: &[Token],
    left: u8,
) -> Result<(Vec<Statement>, &[Token]), ParseFault>
    ensures { Gives (view_by (λ v. block_of v.items)) result (made (append (block_of found.items)) (at left grammar.entry (kinds tokens.now))) }
{
    if !begins_statement(tokens) {
        let tokens = sign(tokens, Delimiter::Semicolon)?;
        return Ok((found, tokens));
    }
    let mut found = found;
    let (statement, tokens) = statement(alloc, tokens, left)?;
    let tokens = sign(tokens, Delimiter::Semicolon)?;
    found.push(statement)?;
    Ok((found, tokens))
}

// Whether a statement or a semicolon begins there.
#[tactic(auto, unfolding(crate::specs::Grammar::entry, crate::specs::Grammar::statement, crate::specs::Grammar::conditional, crate::specs::Grammar::assignment, crate::specs::Grammar::variable))]
fn begins_entry(tokens: &[Token]) -> bool
    ensures { result ≡ begins (first grammar.entry) (kinds tokens.now) }
{
    begins_statement(tokens) || begins_sign(tokens, Delimiter::Semicolon)
}

/// Statements with semicolons, as long as one begins, with so many levels of nesting at most, and what follows them.
#[cycle(statement)]
pub fn body(
    alloc: Global,
    tokens: &[Token],
    left: u8,
) -> Result<(Vec<Statement>, &[Token]), ParseFault>
    ensures { Gives (view_by (λ v. block_of v.items)) result (at left grammar.body (kinds tokens.now)) }
{
    let mut found = Vec::new(alloc);
    let mut rest = tokens;
    'entries: while begins_entry(rest) {
        let (longer, behind) = entry(alloc, found, rest, left)?;
        found = longer;
        rest = behind;
    }
    Ok((found, rest))
}
