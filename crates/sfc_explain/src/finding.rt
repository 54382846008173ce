//! Explanations by number and by name.

ghost use Rattle.std.specs.Prelude.{◌≡◌, find, map, option_map, true, IfSome};
ghost use Rattle.sfc_explain.specs.Finding.{is_numbered, is_named, is_sought, sought_in};

use crate::explanation::Explanation;
use sfc_base::case::is_same_word;

/// The first of the explanations that has the number; None where none has it.
pub fn explanation_numbered(
    explanations: &'static [Explanation],
    number: u8,
) -> Option<&'static Explanation>
    ensures { option_map (λ explanation. explanation.now) result ≡ find (is_numbered number) explanations.now }
{
    let (explanation, rest) = explanations.split_first()?;
    if explanation.topic.number() == Some(number) {
        return Some(explanation);
    }
    explanation_numbered(rest, number)
}

/// The first of the explanations that has the name, in any case of its letters; None where none has it.
pub fn explanation_named(
    explanations: &'static [Explanation],
    name: &[u8],
) -> Option<&'static Explanation>
    ensures { option_map (λ explanation. explanation.now) result ≡ find (is_named name.now) explanations.now }
{
    let (explanation, rest) = explanations.split_first()?;
    if is_same_word(explanation.topic.name().as_bytes(), name) {
        return Some(explanation);
    }
    explanation_named(rest, name)
}

// The first of the explanations that has the number, or where none is given the name; None where none has it.
fn find_in(
    explanations: &'static [Explanation],
    number: Option<u8>,
    name: &[u8],
) -> Option<&'static Explanation>
    ensures found { option_map (λ explanation. explanation.now) result ≡ find (is_sought number name.now) explanations.now }
    ensures sought { IfSome result (λ explanation. is_sought number name.now explanation.now ≡ true) }
{
    match number {
        Some(number) => explanation_numbered(explanations, number),
        None => explanation_named(explanations, name),
    }
}

/// The first explanation that has the number, or where none is given the name, in any case of its letters, in these tables
/// one after the other; None where none has it.
pub fn find(
    tables: &[&'static [Explanation]],
    number: Option<u8>,
    name: &[u8],
) -> Option<&'static Explanation>
    ensures found { option_map (λ explanation. explanation.now) result ≡ sought_in number name.now (map (λ table. table.now) tables.now) }
    ensures sought { IfSome result (λ explanation. is_sought number name.now explanation.now ≡ true) }
{
    let (table, rest) = tables.split_first()?;
    match find_in(table, number, name) {
        Some(explanation) => Some(explanation),
        None => find(rest, number, name),
    }
}
