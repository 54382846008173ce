//! Pieces of a chart by its tokens: the smallest one round a token without which the rest can be read.

use crate::sfc_places::chart_text::ChartText;
use crate::sfc_places::marks::{Mark, behind, is_at, keyword_at};
use crate::sfc_places::span::Span;
use sfc_base::delimiter::Delimiter;
use sfc_base::keyword::Keyword;
use sfc_tokens::token::Token;

/// The tokens from one place up to another one.
#[derive(Clone, Copy, PartialEq, Eq)]
pub struct Piece {
    pub from: usize,
    pub to: usize,
}

// Whether the word begins an element, a block of variables, a task or a program instance.
fn begins(word: Keyword) -> bool {
    matches!(
        word,
        Keyword::Var
            | Keyword::VarExternal
            | Keyword::VarGlobal
            | Keyword::Step
            | Keyword::InitialStep
            | Keyword::Transition
            | Keyword::Action
            | Keyword::Task
            | Keyword::Program
    )
}

// Whether the word ends an element or a block of variables.
fn ends(word: Keyword) -> bool {
    matches!(
        word,
        Keyword::EndVar | Keyword::EndStep | Keyword::EndTransition | Keyword::EndAction
    )
}

// Whether the word begins or ends what elements stand in.
fn is_outer(word: Keyword) -> bool {
    matches!(
        word,
        Keyword::Configuration
            | Keyword::Resource
            | Keyword::EndProgram
            | Keyword::EndResource
            | Keyword::EndConfiguration
    )
}

// What stands before a token: in what it is, behind which place that begins, and the element that is open.
#[derive(Clone, Copy)]
struct Before {
    is_inside: bool,
    in_configuration: bool,
    // Behind the head of a program type, a configuration or a resource.
    head: usize,
    open: Option<usize>,
}

impl Before {
    // What begins by a word at a place.
    fn begin(self, word: Keyword, at: usize) -> Before {
        match word {
            Keyword::Program if !self.in_configuration => self.inside(behind(at, 2), false),
            Keyword::Configuration => self.inside(behind(at, 2), true),
            Keyword::Resource => self.inside(behind(at, 4), true),
            Keyword::EndProgram | Keyword::EndConfiguration => Before {
                is_inside: false,
                in_configuration: false,
                open: None,
                ..self
            },
            _ if begins(word) => Before {
                open: Some(at),
                ..self
            },
            _ if ends(word) || word == Keyword::EndResource => self.closed(),
            _ => self,
        }
    }

    // Inside of what has its head up to a place.
    fn inside(self, head: usize, in_configuration: bool) -> Before {
        Before {
            is_inside: true,
            in_configuration,
            head,
            open: None,
        }
    }

    // Behind the end of an element.
    fn closed(self) -> Before {
        Before { open: None, ..self }
    }

    // Goes on by the token at a place.
    fn pass(self, tokens: &[Token], at: usize) -> Before {
        if let Some(word) = keyword_at(tokens, at) {
            return self.begin(word, at);
        }
        let is_line = match self.open {
            Some(open) => matches!(
                keyword_at(tokens, open),
                Some(Keyword::Task | Keyword::Program)
            ),
            None => false,
        };
        if is_line && is_at(tokens, at, Mark::Sign(Delimiter::Semicolon)) {
            return self.closed();
        }
        self
    }
}

// What stands before a token.
fn standing_before(tokens: &[Token], index: usize) -> Before {
    let mut found = Before {
        is_inside: false,
        in_configuration: false,
        head: 0,
        open: None,
    };
    for at in 0..index {
        found = found.pass(tokens, at);
    }
    found
}

// Where an element ends that is open before a place: behind its last word, or before the word that begins another one.
fn end_from(tokens: &[Token], open: usize, from: usize) -> usize {
    let is_line = matches!(
        keyword_at(tokens, open),
        Some(Keyword::Task | Keyword::Program)
    );
    for at in from..tokens.len() {
        match keyword_at(tokens, at) {
            Some(word) if ends(word) => return behind(at, 1),
            Some(word) if begins(word) || is_outer(word) => return at,
            _ if is_line && is_at(tokens, at, Mark::Sign(Delimiter::Semicolon)) => {
                return behind(at, 1);
            }
            _ => {}
        }
    }
    tokens.len()
}

// The place of the first word from a place on that begins an element, or begins or ends what elements stand in.
fn next_element(tokens: &[Token], from: usize) -> usize {
    for at in from..tokens.len() {
        if matches!(keyword_at(tokens, at), Some(word) if begins(word) || is_outer(word)) {
            return at;
        }
    }
    tokens.len()
}

/// Whether a word at the place begins an element.
pub fn begins_at(tokens: &[Token], at: usize) -> bool {
    matches!(keyword_at(tokens, at), Some(word) if begins(word))
}

// The piece between elements round a token.
fn between(tokens: &[Token], index: usize) -> Piece {
    let to = if begins_at(tokens, index) {
        end_from(tokens, index, behind(index, 1))
    } else {
        next_element(tokens, index)
    };
    Piece { from: index, to }
}

/// The element, block, task or instance in which a token is that can't stand there, or what stands between them; None where it stands
/// outside, or in the head of a program type or of the configuration.
pub fn element_round(tokens: &[Token], index: usize) -> Option<Piece> {
    let found = standing_before(tokens, index);
    let piece = match found.open {
        Some(open) if begins_at(tokens, index) => Piece {
            from: open,
            to: index,
        },
        Some(open) => Piece {
            from: open,
            to: end_from(tokens, open, index),
        },
        None if found.is_inside && index >= found.head => between(tokens, index),
        None => return None,
    };
    if piece.from >= piece.to {
        return None;
    }
    Some(piece)
}

// The place behind the last sign of these before a place, from another one on.
fn behind_sign(tokens: &[Token], first: usize, index: usize) -> usize {
    for at in (first..index).rev() {
        if is_at(tokens, at, Mark::Sign(Delimiter::Semicolon)) {
            return behind(at, 1);
        }
    }
    first
}

// The place behind the first semicolon from a place on; the last one where none stands before it.
fn behind_semicolon(tokens: &[Token], from: usize, last: usize) -> usize {
    for at in from..last {
        if is_at(tokens, at, Mark::Sign(Delimiter::Semicolon)) {
            return behind(at, 1);
        }
    }
    last
}

/// The line that a token is in, between semicolons, of what stands from a place up to another one.
pub fn line_round(tokens: &[Token], first: usize, index: usize, last: usize) -> Piece {
    Piece {
        from: behind_sign(tokens, first, index),
        to: behind_semicolon(tokens, index, last),
    }
}

// Whether the name and the colon of an element stand behind its first word, before a token.
fn has_head(tokens: &[Token], from: usize, index: usize) -> bool {
    is_at(tokens, behind(from, 1), Mark::Name)
        && is_at(tokens, behind(from, 2), Mark::Sign(Delimiter::Colon))
        && index > behind(from, 2)
}

// The statement of a body round a token, where it is no IF and stands before no word of one; else the body.
fn statement_in(tokens: &[Token], body: Piece, index: usize) -> Piece {
    let line = line_round(tokens, body.from, index, body.to);
    let is_simple = (line.from..line.to).all(|at| keyword_at(tokens, at).is_none_or(is_operand));
    if is_simple { line } else { body }
}

// Whether the word may stand in an expression.
fn is_operand(word: Keyword) -> bool {
    matches!(
        word,
        Keyword::And
            | Keyword::Or
            | Keyword::Xor
            | Keyword::Not
            | Keyword::Mod
            | Keyword::True
            | Keyword::False
            | Keyword::On
    )
}

/// Of an element the part round a token without which the element can stay: a declaration, unless it is the only one, an association, a
/// statement or the body of an action; else the element.
pub fn part_round(tokens: &[Token], element: Piece, index: usize) -> Piece {
    let last = element.to.saturating_sub(1);
    let Some(word) = keyword_at(tokens, element.from) else {
        return element;
    };
    let ends_well = matches!(keyword_at(tokens, last), Some(word) if ends(word));
    if !ends_well || index >= last {
        return element;
    }
    match word {
        Keyword::Var | Keyword::VarExternal | Keyword::VarGlobal => {
            let first = behind(element.from, 1);
            let line = line_round(tokens, first, index, last);
            if line.from == first && line.to == last {
                return element;
            }
            line
        }
        Keyword::Step | Keyword::InitialStep if has_head(tokens, element.from, index) => {
            line_round(tokens, behind(element.from, 3), index, last)
        }
        Keyword::Action if has_head(tokens, element.from, index) => {
            let body = Piece {
                from: behind(element.from, 3),
                to: last,
            };
            statement_in(tokens, body, index)
        }
        _ => element,
    }
}

/// The condition of an IF or ELSIF in which a token is, or else the statement with its semicolon; and whether it is a condition.
pub fn statement_round(tokens: &[Token], index: usize) -> (Piece, bool) {
    let mut from = 0usize;
    let mut is_condition = false;
    for at in (0..behind(index, 1)).rev() {
        match keyword_at(tokens, at) {
            Some(Keyword::If | Keyword::Elsif) => {
                is_condition = true;
                from = behind(at, 1);
                break;
            }
            Some(Keyword::Then | Keyword::Else) => {
                from = behind(at, 1);
                break;
            }
            _ if is_edge(tokens, at) => {
                from = behind(at, 1);
                break;
            }
            _ => {}
        }
    }
    let to = if is_condition {
        then_from(tokens, index)
    } else {
        behind_semicolon(tokens, index, tokens.len())
    };
    (Piece { from, to }, is_condition)
}

// Whether a statement may begin behind the sign at a place.
fn is_edge(tokens: &[Token], at: usize) -> bool {
    is_at(tokens, at, Mark::Sign(Delimiter::Semicolon))
        || is_at(tokens, at, Mark::Sign(Delimiter::Colon))
}

// The place of the first THEN from a place on.
fn then_from(tokens: &[Token], from: usize) -> usize {
    for at in from..tokens.len() {
        if is_at(tokens, at, Mark::Keyword(Keyword::Then)) {
            return at;
        }
    }
    tokens.len()
}

/// The name in a list with its comma; None where it is the only one.
pub fn name_in_list(tokens: &[Token], at: usize) -> Option<Piece> {
    let comma = Mark::Sign(Delimiter::Comma);
    if is_at(tokens, behind(at, 1), comma) {
        return Some(Piece {
            from: at,
            to: behind(at, 2),
        });
    }
    let front = at.checked_sub(1)?;
    if is_at(tokens, front, comma) {
        return Some(Piece {
            from: front,
            to: behind(at, 1),
        });
    }
    None
}

/// The place of the last such token before a place; None where none is.
pub fn last_before(tokens: &[Token], index: usize, mark: Mark) -> Option<usize> {
    (0..index).rev().find(|at| is_at(tokens, *at, mark))
}

/// The bytes of a piece.
pub fn bytes_of(chart: &ChartText<'_>, piece: Piece) -> Span {
    let from = match chart.spans.get(piece.from) {
        Some(span) => span.from,
        None => chart.text.len(),
    };
    let to = match piece
        .to
        .checked_sub(1)
        .and_then(|last| chart.spans.get(last))
    {
        Some(span) => span.to,
        None => from,
    };
    Span {
        from,
        to: to.max(from),
    }
}
