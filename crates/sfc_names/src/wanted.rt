//! Which names may stand behind the front of a chart.

use crate::qualifiers::is_timed;
use crate::reading::{is_sign, keyword_of};
use sfc_base::delimiter::Delimiter;
use sfc_base::keyword::Keyword;
use sfc_tokens::token::{Token, TokenKind};

/// Which names may stand at a place.
#[derive(Clone, Copy, Debug, PartialEq, Eq)]
pub enum Wanted {
    /// Names that are declared there, or none.
    Nothing,
    /// What an association names: an action or a variable.
    Action,
    Qualifier,
    /// The time of a qualifier: a variable of type TIME.
    Time,
    /// A variable.
    Variable,
    /// What an expression names: a variable, or a step with its part.
    Operand,
    Step,
    /// The part of a step or an action.
    Part,
    Global,
    Task,
    ProgramType,
}

// Whether the word begins something in which names are wanted in ways of its own.
fn is_head(word: Keyword) -> bool {
    matches!(
        word,
        Keyword::Program
            | Keyword::Step
            | Keyword::InitialStep
            | Keyword::Transition
            | Keyword::Action
            | Keyword::Task
            | Keyword::Var
            | Keyword::VarExternal
            | Keyword::VarGlobal
            | Keyword::Resource
            | Keyword::EndStep
            | Keyword::EndTransition
            | Keyword::EndAction
            | Keyword::EndVar
            | Keyword::EndProgram
    )
}

// The last word that begins something, and the tokens behind it.
fn last_head(tokens: &[Token]) -> Option<(Keyword, &[Token])> {
    let place = tokens.iter().rposition(|token| match keyword_of(token) {
        Some(word) => is_head(word),
        None => false,
    })?;
    let word = keyword_of(tokens.get(place)?)?;
    Some((word, tokens.get(place..)?))
}

// Whether the token ends what stands before a statement or an association.
fn is_before_statement(token: &Token) -> bool {
    match &token.kind {
        TokenKind::Delimiter(sign) => *sign == Delimiter::Colon || *sign == Delimiter::Semicolon,
        TokenKind::Keyword(word) => *word == Keyword::Then || *word == Keyword::Else,
        _ => false,
    }
}

// Whether the first of what stands in the last parentheses is a qualifier with a time.
fn has_timed_qualifier(inner: &[Token]) -> bool {
    match inner {
        [.., open, qualifier, _] if is_sign(Some(open), Delimiter::Open) => {
            match &qualifier.kind {
                TokenKind::Name(name) => is_timed(name.spelling()),
                _ => false,
            }
        }
        _ => false,
    }
}

// What is wanted in a step.
fn wanted_in_step(inner: &[Token], last: &Token) -> Wanted {
    if is_before_statement(last) {
        Wanted::Action
    } else if is_sign(Some(last), Delimiter::Open) {
        Wanted::Qualifier
    } else if is_sign(Some(last), Delimiter::Comma) && has_timed_qualifier(inner) {
        Wanted::Time
    } else if is_sign(Some(last), Delimiter::Comma) {
        Wanted::Variable
    } else {
        Wanted::Nothing
    }
}

// What is wanted in a transition.
fn wanted_in_transition(inner: &[Token]) -> Wanted {
    let place = inner.iter().rposition(|token| matches!(
        keyword_of(token),
        Some(Keyword::From | Keyword::To)
    ));
    let Some(place) = place else {
        return Wanted::Nothing;
    };
    let behind = inner.get(place..).unwrap_or(&[]);
    let is_condition = behind
        .iter()
        .any(|token| is_sign(Some(token), Delimiter::Assign));
    if is_condition {
        Wanted::Operand
    } else {
        Wanted::Step
    }
}

// What is wanted in a task.
fn wanted_in_task(inner: &[Token]) -> Wanted {
    match inner
        .iter()
        .rposition(|token| is_sign(Some(token), Delimiter::Comma))
    {
        Some(_) => Wanted::Nothing,
        None => Wanted::Global,
    }
}

// What is wanted behind the head of something, where this token is the last one.
fn wanted_behind(word: Keyword, inner: &[Token], last: &Token) -> Wanted {
    match word {
        Keyword::Step | Keyword::InitialStep => wanted_in_step(inner, last),
        Keyword::Transition => wanted_in_transition(inner),
        Keyword::Action if is_before_statement(last) => Wanted::Variable,
        Keyword::Action => Wanted::Operand,
        Keyword::Task => wanted_in_task(inner),
        Keyword::VarExternal => Wanted::Global,
        Keyword::Program if is_sign(Some(last), Delimiter::Colon) => Wanted::ProgramType,
        _ => Wanted::Nothing,
    }
}

/// Which names may stand behind these tokens of a chart.
pub fn wanted_behind_tokens(tokens: &[Token]) -> Wanted {
    let Some(last) = tokens.last() else {
        return Wanted::Nothing;
    };
    if is_sign(Some(last), Delimiter::Dot) {
        return Wanted::Part;
    }
    match keyword_of(last) {
        Some(Keyword::With) => return Wanted::Task,
        Some(Keyword::From | Keyword::To) => return Wanted::Step,
        _ => {}
    }
    match last_head(tokens) {
        Some((word, inner)) => wanted_behind(word, inner, last),
        None => Wanted::Nothing,
    }
}

/// The place of the name of the program type in which the end of these tokens stands.
pub fn program_around(tokens: &[Token]) -> Option<usize> {
    let place = tokens
        .iter()
        .rposition(|token| keyword_of(token) == Some(Keyword::Program))?;
    let behind = tokens.get(place..)?;
    let has_ended = behind
        .iter()
        .any(|token| keyword_of(token) == Some(Keyword::EndProgram));
    if has_ended {
        None
    } else {
        place.checked_add(1)
    }
}
