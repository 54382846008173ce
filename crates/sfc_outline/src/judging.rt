//! Whether a place is what it is said to be.

ghost use Rattle.std.specs.Prelude.{◌≡◌, IfSome, IsTrue};
ghost use Rattle.sfc_outline.specs.Places as places;
ghost use Rattle.sfc_outline.specs.Places.{IsEntryOf, IsMeant, IsMentionOf, IsNameAt, IsNameIn, LiesIn};

use crate::entry::Entry;
use crate::mention::{Declared, Mention};
use sfc_base::case::is_same_word;
use sfc_base::name::is_name;
use sfc_tokens::span::Span;

/// The bytes of a text from one place up to another one, where it has them and there is one.
pub(crate) fn bytes_at(text: &[u8], span: Span) -> Option<&[u8]>
    ensures lies { IfSome result (λ found. LiesIn text.now span) }
    ensures bytes { IfSome result (λ found. found.now ≡ places.bytes text.now span) }
{
    let from = span.from as usize;
    let to = span.to as usize;
    if from >= to || to > text.len() {
        return None;
    }
    let (_, behind) = text.split_at(from);
    let (found, _) = behind.split_at(to - from);
    Some(found)
}

// Whether a name stands there.
fn is_name_at(text: &[u8], span: Span) -> bool
    ensures { IsTrue result → IsNameAt text.now span }
{
    match bytes_at(text, span) {
        Some(found) => is_name(found),
        None => false,
    }
}

// Whether the name of something, if it has one, stands in it.
fn is_name_in(text: &[u8], whole: Span, name: Option<Span>) -> bool
    ensures { IsTrue result → IsNameIn text.now whole name }
{
    match name {
        Some(name) => whole.from <= name.from && name.to <= whole.to && is_name_at(text, name),
        None => true,
    }
}

/// Whether the entry is what it is said to be.
pub(crate) fn is_entry_of(text: &[u8], entry: &Entry) -> bool
    ensures { IsTrue result → IsEntryOf text.now entry.now }
{
    bytes_at(text, entry.span).is_some() && is_name_in(text, entry.span, entry.name)
}

// Whether what a name means is declared by the same word.
fn is_meant(text: &[u8], span: Span, declared: Option<Declared>) -> bool
    ensures { IsTrue result → IsMeant text.now span declared }
{
    let Some(declared) = declared else {
        return true;
    };
    let Some(name) = bytes_at(text, declared.name) else {
        return false;
    };
    match bytes_at(text, span) {
        Some(word) => is_same_word(name, word),
        None => false,
    }
}

/// Whether the mention is what it is said to be.
pub(crate) fn is_mention_of(text: &[u8], mention: &Mention) -> bool
    ensures { IsTrue result → IsMentionOf text.now mention.now }
{
    is_name_at(text, mention.span) && is_meant(text, mention.span, mention.declared)
}
