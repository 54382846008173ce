//! What kind of word each token of a text is, and where its comments stand.

use crate::chart::Chart;
use crate::reading::bytes_of;
use sfc_outline::item::Item;
use sfc_tokens::span::Span;
use sfc_tokens::token::{Token, TokenKind};
use std::alloc::{AllocError, Global};

/// What kind of word it is.
#[derive(Clone, Copy, Debug, PartialEq, Eq)]
pub enum Paint {
    Keyword,
    Number,
    Operator,
    Comment,
    Variable,
    Step,
    Transition,
    Action,
    ProgramType,
    Part,
    /// A task, a program instance or the configuration.
    Other,
}

/// Bytes of one kind, in one line.
#[derive(Clone, Copy, Debug, PartialEq, Eq)]
pub struct Painted {
    pub span: Span,
    pub paint: Paint,
}

// Where a comment or a pragma ends that begins at the front of these bytes; None where none begins there.
fn comment_length(bytes: &[u8]) -> Option<usize> {
    match bytes {
        [b'(', b'*', behind @ ..] => {
            let inner = behind
                .windows(2)
                .position(|pair| matches!(pair, [b'*', b')']))?;
            inner.checked_add(4)
        }
        [b'{', behind @ ..] => {
            let inner = behind.iter().position(|byte| *byte == b'}')?;
            inner.checked_add(2)
        }
        _ => None,
    }
}

// Bytes of a text, by places that fit its greatest length.
fn span_between(from: usize, to: usize) -> Span {
    Span {
        from: u32::try_from(from).unwrap_or(u32::MAX),
        to: u32::try_from(to).unwrap_or(u32::MAX),
    }
}

// Puts the comments between two places last.
fn put_comments(
    text: &[u8],
    from: usize,
    to: usize,
    comments: &mut Vec<Span>,
) -> Result<(), AllocError> {
    let mut behind = from;
    for place in from..to {
        if place >= behind {
            if let Some(length) = comment_length(text.get(place..to).unwrap_or(b"")) {
                behind = place.saturating_add(length);
                comments.push(span_between(place, behind))?;
            }
        }
    }
    Ok(())
}

/// The comments and pragmas of a text with these tokens, in text order. The one error is that memory was refused.
pub fn comments_of(alloc: Global, text: &[u8], tokens: &[Token]) -> Result<Vec<Span>, AllocError> {
    let mut comments = Vec::new(alloc);
    let mut from = 0usize;
    for token in tokens {
        put_comments(text, from, token.span.from as usize, &mut comments)?;
        from = token.span.to as usize;
    }
    put_comments(text, from, text.len(), &mut comments)?;
    Ok(comments)
}

// The paint of a name that means this.
fn paint_of_item(item: Item) -> Paint {
    match item {
        Item::ProgramType { .. } => Paint::ProgramType,
        Item::Local { .. } | Item::External { .. } | Item::Global { .. } => Paint::Variable,
        Item::Step { .. } => Paint::Step,
        Item::Transition { .. } => Paint::Transition,
        Item::Action { .. } => Paint::Action,
        _ => Paint::Other,
    }
}

// What a name at these bytes means, by the names of a chart in text order.
fn named(names: &[Named], span: Span) -> Option<Paint> {
    let place = names.partition_point(|name| name.span.from < span.from);
    let name = names.get(place)?;
    if name.span.from == span.from {
        Some(name.paint)
    } else {
        None
    }
}

/// A name of a chart, and how it is painted.
type Named = Painted;

// The names of a chart, in text order.
fn names_of(alloc: Global, chart: &Chart) -> Result<Vec<Named>, AllocError> {
    let mut names = Vec::new(alloc);
    for entry in &chart.outline.entries {
        if let Some(span) = entry.name {
            let paint = paint_of_item(entry.item);
            names.push(Painted { span, paint })?;
        }
    }
    for mention in &chart.outline.mentions {
        if let Some(declared) = mention.declared {
            let span = mention.span;
            let paint = paint_of_item(declared.item);
            names.push(Painted { span, paint })?;
        }
    }
    names.sort_by_key(|name| name.span.from)?;
    Ok(names)
}

// The paint of a token.
fn paint_of(token: &Token, names: &[Named]) -> Option<Paint> {
    match &token.kind {
        TokenKind::Keyword(_) => Some(Paint::Keyword),
        TokenKind::Name(_) => Some(named(names, token.span).unwrap_or(Paint::Part)),
        TokenKind::Delimiter(_) => Some(Paint::Operator),
        TokenKind::Truth(_) => Some(Paint::Keyword),
        TokenKind::Integer(_)
        | TokenKind::Based(_)
        | TokenKind::Int(_)
        | TokenKind::Dint(_)
        | TokenKind::Duration(_)
        | TokenKind::Location(_) => Some(Paint::Number),
    }
}

// Puts the lines of a comment last.
fn put_lines(text: &[u8], comment: Span, painted: &mut Vec<Painted>) -> Result<(), AllocError> {
    let mut from = comment.from as usize;
    for line in bytes_of(text, comment).split(|byte| *byte == b'\n') {
        let to = from.saturating_add(line.len());
        if to > from {
            painted.push(Painted {
                span: span_between(from, to),
                paint: Paint::Comment,
            })?;
        }
        from = to.saturating_add(1);
    }
    Ok(())
}

/// The kinds of all words of a chart, in text order. The one error is that memory was refused.
pub fn painted_words(alloc: Global, chart: &Chart) -> Result<Vec<Painted>, AllocError> {
    let names = names_of(alloc, chart)?;
    let mut painted = Vec::new(alloc);
    for token in &chart.tokens {
        if let Some(paint) = paint_of(token, &names) {
            let span = token.span;
            painted.push(Painted { span, paint })?;
        }
    }
    for comment in comments_of(alloc, &chart.text, &chart.tokens)? {
        put_lines(&chart.text, comment, &mut painted)?;
    }
    painted.sort_by_key(|piece| piece.span.from)?;
    Ok(painted)
}
