//! Declarations of variables (B.1.4.3).

ghost use Rattle.std.specs.Prelude.{◌≡◌, ◌∷◌, [], IfOk, List, ℕ, false, refl};
ghost use Rattle.sfc_tokens.specs.Tokens.{kinds};
ghost use Rattle.sfc_text.specs.declared.tree.Declaration.{Declaration as Value};
ghost use Rattle.sfc_text.specs.declared.tree.External.{External as ExternalValue};
ghost use Rattle.sfc_text.specs.declared.tree.VariableBlock.{VariableBlock as BlockValue};
ghost use Rattle.sfc_text.specs.declared.tree.VariableBlock.TheVariants as block;
ghost use Rattle.sfc_text.specs.Grammar as grammar;
ghost use Rattle.sfc_text.specs.Lists.{is_empty};
ghost use Rattle.sfc_text.specs.Parsing.Depth.{reads};
ghost use Rattle.sfc_text.specs.Parsing.Reading.{Gives, behind, made, view, view_by, with_first};
ghost use Rattle.sfc_text.specs.Parsing.Takes.{further_name_takes, declaration_takes, external_takes, variables_takes};
ghost use Rattle.sfc_text.specs.Rules.{map};
ghost use Rattle.sfc_text.specs.Terms as terms;
ghost use Rattle.sfc_text.specs.Terms.{maybe, repeated, ◌▸◌, ◌◂◌};
ghost use Rattle.sfc_base.specs.declared.delimiter.Delimiter.TheVariants as delimiter;
ghost use Rattle.sfc_base.specs.declared.keyword.Keyword.TheVariants as reserved;

use crate::parse::fault::ParseFault;
use crate::parse::list::{Item, list, list_behind};
use crate::parse::place::span_between;
use crate::parse::terminal::{
    begins_name, begins_sign, begins_word, literal, location, name, sign, signed, var_type, word,
};
use crate::tree::{Declaration, External, Literal, VariableBlock};
use sfc_base::delimiter::Delimiter;
use sfc_base::items::Items;
use sfc_base::keyword::Keyword;
use sfc_base::location::Location;
use sfc_base::name::Name;
use sfc_tokens::placed::Placed;
use sfc_tokens::token::Token;
use std::alloc::Global;

impl Item for Placed<Name> {
    ghost Tree = { List ℕ };

    ghost tree = { λ name. name };

    ghost trees = { λ names. names };

    ghost rule = { grammar.further_name };

    #[tactic(auto, unfolding(crate::specs::Grammar::further_name))]
    fn begins(tokens: &[Token]) -> bool {
        begins_sign(tokens, Delimiter::Comma)
    }

    #[tactic(auto, unfolding(crate::specs::Grammar::further_name))]
    fn read(alloc: Global, tokens: &[Token]) -> Result<(Placed<Name>, &[Token]), ParseFault> {
        let tokens = sign(tokens, Delimiter::Comma)?;
        name(alloc, tokens)
    }

    ghost takes_a_token = { further_name_takes };

    ghost no_trees = { refl };

    ghost one_more = { λ found item. refl };
}

// The names behind the first one, in one list with it.
#[tactic(auto, using(crate::proofs::Loops::behind_some), unfolding(crate::specs::Grammar::further_names))]
fn names_behind(
    alloc: Global,
    first: Placed<Name>,
    tokens: &[Token],
) -> Result<(Items<Placed<Name>>, &[Token]), ParseFault>
    ensures value { Gives view result (behind (first ∷ []) (reads grammar.further_names (kinds tokens.now))) }
    ensures some { IfOk result (λ x. is_empty x.0 ≡ false) }
{
    let mut found = Vec::new(alloc);
    found.push(first)?;
    let (found, tokens) = list_behind(alloc, found, tokens)?;
    Ok((Items::from_vec(found), tokens))
}

/// Names with commas between them, one at least.
#[tactic(auto, unfolding(crate::specs::Grammar::names))]
pub fn names(alloc: Global, tokens: &[Token]) -> Result<(Items<Placed<Name>>, &[Token]), ParseFault>
    ensures value { Gives view result (reads grammar.names (kinds tokens.now)) }
    ensures some { IfOk result (λ x. is_empty x.0 ≡ false) }
{
    let (first, tokens) = name(alloc, tokens)?;
    names_behind(alloc, first, tokens)
}

// The names of a declaration, and its location.
struct LocatedNames {
    names: Items<Placed<Name>>,
    location: Option<Placed<Location>>,
}

// The names of a declaration behind its first one, in one list with it, or its location.
#[tactic(auto, unfolding(crate::specs::Grammar::names_or_location))]
fn names_or_location(
    alloc: Global,
    first: Placed<Name>,
    tokens: &[Token],
) -> Result<(LocatedNames, &[Token]), ParseFault>
    ensures { Gives (view_by (λ located. (located.names, located.location))) result (made (with_first first) (reads grammar.names_or_location (kinds tokens.now))) }
{
    if begins_word(tokens, Keyword::At) {
        let tokens = word(tokens, Keyword::At)?;
        let (location, tokens) = location(alloc, tokens)?;
        let names = Items::one(alloc, first)?;
        let location = Some(location);
        Ok((LocatedNames { names, location }, tokens))
    } else {
        let (names, tokens) = names_behind(alloc, first, tokens)?;
        let location = None;
        Ok((LocatedNames { names, location }, tokens))
    }
}

// An initial value.
#[tactic(auto, unfolding(crate::specs::Grammar::initial_value, crate::specs::Grammar::signed, crate::specs::Grammar::literal))]
fn initial_value(tokens: &[Token]) -> Result<(Literal, &[Token]), ParseFault>
    ensures { Gives view result (reads grammar.initial_value (kinds tokens.now)) }
{
    if begins_sign(tokens, Delimiter::Minus) {
        signed(tokens)
    } else {
        literal(tokens)
    }
}

// The initial value, where there is one.
fn maybe_initial_value(tokens: &[Token]) -> Result<(Option<Placed<Literal>>, &[Token]), ParseFault>
    ensures { Gives view result (reads (maybe (terms.sign delimiter.Assign ▸ grammar.initial_value)) (kinds tokens.now)) }
{
    if !begins_sign(tokens, Delimiter::Assign) {
        return Ok((None, tokens));
    }
    let tokens = sign(tokens, Delimiter::Assign)?;
    match initial_value(tokens) {
        Ok((literal, rest)) => {
            let span = span_between(tokens, rest);
            Ok((Some(Placed::new(literal, span)), rest))
        }
        Err(fault) => Err(fault),
    }
}

impl Item for Placed<Declaration> {
    ghost Tree = { Value };

    ghost tree = { λ declaration. declaration };

    ghost trees = { λ declarations. declarations };

    ghost rule = { grammar.declaration };

    #[tactic(auto, unfolding(crate::specs::Grammar::declaration))]
    fn begins(tokens: &[Token]) -> bool {
        begins_name(tokens)
    }

    #[tactic(auto, unfolding(crate::specs::Grammar::declaration))]
    fn read(
        alloc: Global,
        tokens: &[Token],
    ) -> Result<(Placed<Declaration>, &[Token]), ParseFault> {
        let (first, rest) = name(alloc, tokens)?;
        let (LocatedNames { names, location }, rest) = names_or_location(alloc, first, rest)?;
        let rest = sign(rest, Delimiter::Colon)?;
        let (var_type, rest) = var_type(rest)?;
        match maybe_initial_value(rest) {
            Ok((initial, rest)) => {
                let rest = sign(rest, Delimiter::Semicolon)?;
                let declaration = Declaration {
                    names,
                    location,
                    var_type,
                    initial,
                };
                Ok((Placed::new(declaration, span_between(tokens, rest)), rest))
            }
            Err(fault) => Err(fault),
        }
    }

    ghost takes_a_token = { declaration_takes };

    ghost no_trees = { refl };

    ghost one_more = { λ found item. refl };
}

impl Item for External {
    ghost Tree = { ExternalValue };

    ghost tree = { λ external. external };

    ghost trees = { λ externals. externals };

    ghost rule = { grammar.external };

    #[tactic(auto, unfolding(crate::specs::Grammar::external, crate::specs::Grammar::names))]
    fn begins(tokens: &[Token]) -> bool {
        begins_name(tokens)
    }

    #[tactic(auto, unfolding(crate::specs::Grammar::external))]
    fn read(alloc: Global, tokens: &[Token]) -> Result<(External, &[Token]), ParseFault> {
        let (names, tokens) = names(alloc, tokens)?;
        let tokens = sign(tokens, Delimiter::Colon)?;
        let (var_type, tokens) = var_type(tokens)?;
        let tokens = sign(tokens, Delimiter::Semicolon)?;
        Ok((External { names, var_type }, tokens))
    }

    ghost takes_a_token = { external_takes };

    ghost no_trees = { refl };

    ghost one_more = { λ found item. refl };
}

// A block of variables of the program type itself.
fn locals(alloc: Global, tokens: &[Token]) -> Result<(VariableBlock, &[Token]), ParseFault>
    ensures { Gives view result (reads (map block.Local (terms.word reserved.Var ▸ repeated grammar.declaration ◂ terms.word reserved.EndVar)) (kinds tokens.now)) }
{
    let tokens = word(tokens, Keyword::Var)?;
    let (declarations, tokens) = list(alloc, tokens)?;
    let tokens = word(tokens, Keyword::EndVar)?;
    Ok((VariableBlock::Local(declarations), tokens))
}

// A block of global variables that the program type names.
fn externals(alloc: Global, tokens: &[Token]) -> Result<(VariableBlock, &[Token]), ParseFault>
    ensures { Gives view result (reads (map block.External (terms.word reserved.VarExternal ▸ repeated grammar.external ◂ terms.word reserved.EndVar)) (kinds tokens.now)) }
{
    let tokens = word(tokens, Keyword::VarExternal)?;
    let (externals, tokens) = list(alloc, tokens)?;
    let tokens = word(tokens, Keyword::EndVar)?;
    Ok((VariableBlock::External(externals), tokens))
}

impl Item for VariableBlock {
    ghost Tree = { BlockValue };

    ghost tree = { λ block. block };

    ghost trees = { λ blocks. blocks };

    ghost rule = { grammar.variables };

    #[tactic(auto, unfolding(crate::specs::Grammar::variables))]
    fn begins(tokens: &[Token]) -> bool {
        begins_word(tokens, Keyword::Var) || begins_word(tokens, Keyword::VarExternal)
    }

    #[tactic(auto, unfolding(crate::specs::Grammar::variables))]
    fn read(alloc: Global, tokens: &[Token]) -> Result<(VariableBlock, &[Token]), ParseFault> {
        if begins_word(tokens, Keyword::Var) {
            locals(alloc, tokens)
        } else {
            externals(alloc, tokens)
        }
    }

    ghost takes_a_token = { variables_takes };

    ghost no_trees = { refl };

    ghost one_more = { λ found item. refl };
}
