//! What stands at a byte of a chart.

ghost use Rattle.std.specs.Prelude.{◌≡◌, IfSome};
ghost use Rattle.sfc_names.specs.Pieces.{IsMeaningIn, IsSameWordAt, IsSenseOf};

use crate::chart::Chart;
use crate::qualifiers::{QualifierPage, qualifier_named};
use crate::reading::{is_sign, keyword_of, token_at, token_before};
use sfc_base::case::is_same_word;
use sfc_base::delimiter::Delimiter;
use sfc_base::keyword::Keyword;
use sfc_outline::item::Item;
use sfc_outline::mention::Declared;
use sfc_tokens::span::Span;
use sfc_tokens::token::{Token, TokenKind};

/// What a word of a chart means.
#[derive(Clone, Copy)]
pub enum Sense {
    /// What a name means, or declares.
    Named(Declared),
    /// What stands behind the dot of a name that means this.
    Part(Declared),
    /// A qualifier of an association (2.6.4.4).
    Qualifier(&'static QualifierPage),
    /// The first word of something that is declared.
    Head(Item),
}

/// What a word means, and its bytes.
#[derive(Clone, Copy)]
pub struct Meaning {
    pub sense: Sense,
    pub span: Span,
}

// Whether a word begins what an outline has an entry of.
fn is_head(word: Keyword) -> bool {
    matches!(
        word,
        Keyword::Program
            | Keyword::Step
            | Keyword::InitialStep
            | Keyword::Transition
            | Keyword::Action
            | Keyword::Task
            | Keyword::Configuration
    )
}

// What the first word of something begins.
fn head_at(chart: &Chart, token: &Token) -> Option<Sense>
    ensures { IfSome result (IsSenseOf chart.now.text.items token.now.span) }
{
    match keyword_of(token) {
        Some(word) if is_head(word) => {
            let entry = chart.outline.entry_at(token.span.from)?;
            Some(Sense::Head(entry.item))
        }
        _ => None,
    }
}

// The qualifier that a word is.
fn qualifier_at(chart: &Chart, index: usize, span: Span) -> Option<&'static QualifierPage> {
    if !is_sign(token_before(&chart.tokens, index, 1), Delimiter::Open) {
        return None;
    }
    match chart.outline.entry_at(span.from)?.item {
        Item::Association { .. } => qualifier_named(chart.bytes(span)),
        _ => None,
    }
}

// What the name before the dot means, where a part stands behind it.
fn whole_of(chart: &Chart, index: usize) -> Option<Declared> {
    if !is_sign(token_before(&chart.tokens, index, 1), Delimiter::Dot) {
        return None;
    }
    let whole = token_before(&chart.tokens, index, 2)?;
    chart.outline.declared_at(whole.span.from)
}

// What the word at these bytes means that is declared by the same word.
fn declared_at(chart: &Chart, span: Span) -> Option<Declared>
    ensures { IfSome result (λ declared. IsSameWordAt chart.now.text.items declared.name span) }
{
    let declared = chart.outline.declared_at(span.from)?;
    if is_same_word(chart.bytes(declared.name), chart.bytes(span)) {
        Some(declared)
    } else {
        None
    }
}

// What a name means.
fn name_at(chart: &Chart, index: usize, span: Span) -> Option<Sense>
    ensures { IfSome result (IsSenseOf chart.now.text.items span) }
{
    if let Some(declared) = whole_of(chart, index) {
        return Some(Sense::Part(declared));
    }
    if let Some(page) = qualifier_at(chart, index, span) {
        return Some(Sense::Qualifier(page));
    }
    let declared = declared_at(chart, span)?;
    Some(Sense::Named(declared))
}

/// What the word at a byte means, or that which ends before it; None where it means nothing. Where a name is declared stands the same
/// word.
pub fn meaning_at(chart: &Chart, byte: u32) -> Option<Meaning>
    ensures { IfSome result (IsMeaningIn chart.now.text.items) }
{
    let index = token_at(&chart.tokens, byte)?;
    let token = chart.tokens.get(index)?;
    let span = token.span;
    let sense = match &token.kind {
        TokenKind::Name(_) => name_at(chart, index, span)?,
        TokenKind::Keyword(_) => head_at(chart, token)?,
        _ => return None,
    };
    Some(Meaning { sense, span })
}

impl Meaning {
    /// What it is declared as, where it is the name of something or a part of it.
    pub fn declared(self) -> Option<Declared> {
        match self.sense {
            Sense::Named(declared) | Sense::Part(declared) => Some(declared),
            Sense::Qualifier(_) | Sense::Head(_) => None,
        }
    }
}
