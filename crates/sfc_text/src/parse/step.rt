//! Steps and their associations (B.1.6).

ghost use Rattle.std.specs.Prelude.{◌≡◌, refl};
ghost use Rattle.sfc_tokens.specs.Tokens.{kinds};
ghost use Rattle.sfc_text.specs.declared.tree.Association.{Association as Value};
ghost use Rattle.sfc_text.specs.declared.tree.Qualifier.TheVariants.{NonStored, Timed};
ghost use Rattle.sfc_text.specs.Building as make;
ghost use Rattle.sfc_text.specs.Grammar as grammar;
ghost use Rattle.sfc_text.specs.Parsing.Depth.{reads};
ghost use Rattle.sfc_text.specs.Parsing.Lookahead.{begins, first};
ghost use Rattle.sfc_text.specs.Parsing.Reading.{Gives, view};
ghost use Rattle.sfc_text.specs.Parsing.Takes.{association_takes};
ghost use Rattle.sfc_text.specs.Rules.{both};
ghost use Rattle.sfc_text.specs.Terms as terms;
ghost use Rattle.sfc_text.specs.Terms.{else_given, ◌◂◌};
ghost use Rattle.sfc_base.specs.declared.delimiter.Delimiter.TheVariants as delimiter;

use crate::parse::fault::ParseFault;
use crate::parse::list::{Item, list};
use crate::parse::place::span_between;
use crate::parse::terminal::{begins_name, duration, name, sign, syntax, word};
use crate::tree::{Association, AssociationTime, Qualifier, Step};
use sfc_base::case::is_same_word;
use sfc_base::delimiter::Delimiter;
use sfc_base::keyword::Keyword;
use sfc_base::qualifier::TimedQualifier;
use sfc_tokens::placed::Placed;
use sfc_tokens::token::{Token, TokenKind};
use std::alloc::Global;

// The qualifier without a time that the word is.
fn plain_qualifier(word: &[u8]) -> Option<Qualifier>
    ensures { result ≡ make.plain_qualifier word.now }
{
    if is_same_word(word, b"N") {
        Some(Qualifier::NonStored)
    } else if is_same_word(word, b"R") {
        Some(Qualifier::Reset)
    } else if is_same_word(word, b"S") {
        Some(Qualifier::Set)
    } else if is_same_word(word, b"P") {
        Some(Qualifier::Pulse)
    } else if is_same_word(word, b"P0") {
        Some(Qualifier::FallingPulse)
    } else if is_same_word(word, b"P1") {
        Some(Qualifier::RisingPulse)
    } else {
        None
    }
}

// The qualifier with a time that the word is.
fn timed_qualifier(word: &[u8]) -> Option<TimedQualifier>
    ensures { result ≡ make.timed_qualifier word.now }
{
    if is_same_word(word, b"L") {
        Some(TimedQualifier::Limited)
    } else if is_same_word(word, b"D") {
        Some(TimedQualifier::Delayed)
    } else if is_same_word(word, b"SD") {
        Some(TimedQualifier::StoredDelayed)
    } else if is_same_word(word, b"DS") {
        Some(TimedQualifier::DelayedStored)
    } else if is_same_word(word, b"SL") {
        Some(TimedQualifier::StoredLimited)
    } else {
        None
    }
}

// The time of an association.
#[tactic(auto, unfolding(crate::specs::Grammar::association_time))]
fn association_time(
    alloc: Global,
    tokens: &[Token],
) -> Result<(AssociationTime, &[Token]), ParseFault>
    ensures { Gives view result (reads grammar.association_time (kinds tokens.now)) }
{
    if begins_name(tokens) {
        let (variable, tokens) = name(alloc, tokens)?;
        return Ok((AssociationTime::Variable(variable), tokens));
    }
    match duration(tokens) {
        Ok((time, tokens)) => Ok((AssociationTime::Literal(time), tokens)),
        Err(fault) => Err(fault),
    }
}

// A qualifier without a time.
#[tactic(auto, unfolding(crate::specs::Grammar::plain))]
fn plain(tokens: &[Token]) -> Result<(Qualifier, &[Token]), ParseFault>
    ensures { Gives view result (reads grammar.plain (kinds tokens.now)) }
{
    match tokens {
        [
            Token {
                kind: TokenKind::Name(found),
                ..
            },
            rest @ ..,
        ] => match plain_qualifier(found.spelling()) {
            Some(qualifier) => Ok((qualifier, rest)),
            None => Err(syntax(tokens)),
        },
        _ => Err(syntax(tokens)),
    }
}

// The word of a qualifier with a time.
#[tactic(auto, unfolding(crate::specs::Grammar::timed))]
fn timed(tokens: &[Token]) -> Result<(TimedQualifier, &[Token]), ParseFault>
    ensures { Gives view result (reads grammar.timed (kinds tokens.now)) }
{
    match tokens {
        [
            Token {
                kind: TokenKind::Name(found),
                ..
            },
            rest @ ..,
        ] => match timed_qualifier(found.spelling()) {
            Some(qualifier) => Ok((qualifier, rest)),
            None => Err(syntax(tokens)),
        },
        _ => Err(syntax(tokens)),
    }
}

// A qualifier with its time.
fn with_time(alloc: Global, tokens: &[Token]) -> Result<(Qualifier, &[Token]), ParseFault>
    ensures { Gives view result (reads (both Timed (grammar.timed ◂ terms.sign delimiter.Comma) grammar.association_time) (kinds tokens.now)) }
{
    let (timed, tokens) = timed(tokens)?;
    let tokens = sign(tokens, Delimiter::Comma)?;
    let (time, tokens) = association_time(alloc, tokens)?;
    Ok((Qualifier::Timed(timed, time), tokens))
}

// Whether a qualifier without a time stands first.
#[tactic(auto, unfolding(crate::specs::Grammar::plain))]
fn begins_plain(tokens: &[Token]) -> bool
    ensures { result ≡ begins (first grammar.plain) (kinds tokens.now) }
{
    match tokens {
        [
            Token {
                kind: TokenKind::Name(found),
                ..
            },
            ..
        ] => plain_qualifier(found.spelling()).is_some(),
        _ => false,
    }
}

// Whether a qualifier with a time stands first.
#[tactic(auto, unfolding(crate::specs::Grammar::timed))]
fn begins_timed(tokens: &[Token]) -> bool
    ensures { result ≡ begins (first grammar.timed) (kinds tokens.now) }
{
    match tokens {
        [
            Token {
                kind: TokenKind::Name(found),
                ..
            },
            ..
        ] => timed_qualifier(found.spelling()).is_some(),
        _ => false,
    }
}

// A qualifier, with its time where it has one.
#[tactic(auto, unfolding(crate::specs::Grammar::qualifier))]
fn qualifier(alloc: Global, tokens: &[Token]) -> Result<(Qualifier, &[Token]), ParseFault>
    ensures { Gives view result (reads grammar.qualifier (kinds tokens.now)) }
{
    if begins_plain(tokens) {
        plain(tokens)
    } else {
        with_time(alloc, tokens)
    }
}

// Whether a qualifier stands first.
#[tactic(auto, unfolding(crate::specs::Grammar::qualifier, crate::specs::Grammar::plain, crate::specs::Grammar::timed))]
fn begins_qualifier(tokens: &[Token]) -> bool
    ensures { result ≡ begins (first grammar.qualifier) (kinds tokens.now) }
{
    begins_plain(tokens) || begins_timed(tokens)
}

// A qualifier, or N where it is left out.
fn maybe_qualifier(alloc: Global, tokens: &[Token]) -> Result<(Qualifier, &[Token]), ParseFault>
    ensures { Gives view result (reads (else_given NonStored grammar.qualifier) (kinds tokens.now)) }
{
    if begins_qualifier(tokens) {
        qualifier(alloc, tokens)
    } else {
        Ok((Qualifier::NonStored, tokens))
    }
}

// An association.
#[tactic(auto, unfolding(crate::specs::Grammar::association, crate::specs::Grammar::further_names))]
fn association(alloc: Global, tokens: &[Token]) -> Result<(Association, &[Token]), ParseFault>
    ensures { Gives view result (reads grammar.association (kinds tokens.now)) }
{
    let (action, tokens) = name(alloc, tokens)?;
    let tokens = sign(tokens, Delimiter::Open)?;
    let (qualifier, tokens) = maybe_qualifier(alloc, tokens)?;
    let (indicators, tokens) = list(alloc, tokens)?;
    let tokens = sign(tokens, Delimiter::Close)?;
    let association = Association {
        action,
        qualifier,
        indicators,
    };
    Ok((association, tokens))
}

impl Item for Placed<Association> {
    ghost Tree = { Value };

    ghost tree = { λ association. association };

    ghost trees = { λ associations. associations };

    ghost rule = { grammar.association_line };

    #[tactic(auto, unfolding(crate::specs::Grammar::association_line, crate::specs::Grammar::association))]
    fn begins(tokens: &[Token]) -> bool {
        begins_name(tokens)
    }

    #[tactic(auto, unfolding(crate::specs::Grammar::association_line))]
    fn read(
        alloc: Global,
        tokens: &[Token],
    ) -> Result<(Placed<Association>, &[Token]), ParseFault> {
        let (association, rest) = association(alloc, tokens)?;
        let rest = sign(rest, Delimiter::Semicolon)?;
        Ok((Placed::new(association, span_between(tokens, rest)), rest))
    }

    ghost takes_a_token = { association_takes };

    ghost no_trees = { refl };

    ghost one_more = { λ found item. refl };
}

/// A step, initial or not, whose first word is given.
#[tactic(auto, unfolding(crate::specs::Grammar::step))]
pub fn step(
    alloc: Global,
    is_initial: bool,
    first: Keyword,
    tokens: &[Token],
) -> Result<(Step, &[Token]), ParseFault>
    ensures { Gives view result (reads (grammar.step is_initial first) (kinds tokens.now)) }
{
    let tokens = word(tokens, first)?;
    let (name, tokens) = name(alloc, tokens)?;
    let tokens = sign(tokens, Delimiter::Colon)?;
    let (associations, tokens) = list(alloc, tokens)?;
    let tokens = word(tokens, Keyword::EndStep)?;
    let step = Step {
        is_initial,
        name,
        associations,
    };
    Ok((step, tokens))
}
