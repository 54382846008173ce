//! Lists of items, as long as one begins.

ghost use Rattle.std.specs.Prelude.{◌≡◌, false, List, [], ◌∷◌, ◌++◌};
ghost use Rattle.sfc_tokens.specs.Tokens.{kinds};
ghost use Rattle.sfc_text.specs.Parsing.Depth.{reads};
ghost use Rattle.sfc_text.specs.Parsing.Lookahead as lookahead;
ghost use Rattle.sfc_text.specs.Parsing.Lookahead.{first, empty};
ghost use Rattle.sfc_text.specs.Parsing.Reading.{Gives, behind, view_by};
ghost use Rattle.sfc_text.specs.Rules.{Rule};
ghost use Rattle.sfc_text.specs.Terms.{repeated};

use crate::parse::fault::ParseFault;
use sfc_base::items::Items;
use sfc_tokens::token::Token;
use std::alloc::Global;

/// What lists consist of: a tree that one rule reads, and that takes a token at least.
pub trait Item: Sized + Drop {
    ghost Tree: { Type 0 };

    ghost tree: { Self → Tree };

    ghost trees: { List Self → List Tree };

    ghost rule: { Rule Tree };

    /// Whether one begins there.
    fn begins(tokens: &[Token]) -> bool
        ensures { result ≡ lookahead.begins (first rule) (kinds tokens.now) };

    /// One, and what follows it.
    fn read(alloc: Global, tokens: &[Token]) -> Result<(Self, &[Token]), ParseFault>
        ensures { Gives (view_by tree) result (reads rule (kinds tokens.now)) };

    ghost takes_a_token: { empty rule ≡ false };

    ghost no_trees: { trees [] ≡ [] };

    ghost one_more: { (found : List Self) (item : Self) → trees (found ++ item ∷ []) ≡ trees found ++ tree item ∷ [] };
}

/// The items there, behind those found, and what follows them.
pub fn list_behind<T: Item>(
    alloc: Global,
    found: Vec<T>,
    tokens: &[Token],
) -> Result<(Vec<T>, &[Token]), ParseFault>
    ensures { Gives (view_by (λ v. T.trees v.items)) result (behind (T.trees found.items) (reads (repeated T.rule) (kinds tokens.now))) }
{
    let mut found = found;
    let mut rest = tokens;
    'items: while T::begins(rest) {
        let (item, behind) = T::read(alloc, rest)?;
        found.push(item)?;
        rest = behind;
    }
    Ok((found, rest))
}

/// The items there, and what follows them.
pub fn list<T: Item>(alloc: Global, tokens: &[Token]) -> Result<(Items<T>, &[Token]), ParseFault>
    ensures { Gives (view_by T.trees) result (reads (repeated T.rule) (kinds tokens.now)) }
{
    let (found, rest) = list_behind(alloc, Vec::new(alloc), tokens)?;
    Ok((Items::from_vec(found), rest))
}
