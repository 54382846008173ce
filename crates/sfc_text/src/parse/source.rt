//! Program types, and whole texts (B.1.5.3, B.1.7).

ghost use Rattle.std.specs.Prelude.{◌≡◌, map, refl};
ghost use Rattle.sfc_tokens.specs.Tokens.{kinds};
ghost use Rattle.sfc_text.specs.Grammar as grammar;
ghost use Rattle.sfc_text.specs.Parsing.Depth.{reads};
ghost use Rattle.sfc_text.specs.Parsing.Reading.{Gives, ended, view_by};
ghost use Rattle.sfc_text.specs.Parsing.Takes.{program_takes};
ghost use Rattle.sfc_text.specs.Parsing.Views.{programs_more};
ghost use Rattle.sfc_text.specs.Trees.{ProgramTree, program_of, source_of};

use crate::parse::configuration::configuration;
use crate::parse::fault::ParseFault;
use crate::parse::list::{Item, list, list_behind};
use crate::parse::place::span_between;
use crate::parse::terminal::{begins_word, name, syntax, word};
use crate::tree::{Program, Source};
use sfc_base::items::Items;
use sfc_base::keyword::Keyword;
use sfc_tokens::token::Token;
use std::alloc::Global;

impl Item for Program {
    ghost Tree = { ProgramTree };

    ghost tree = { program_of };

    ghost trees = { map program_of };

    ghost rule = { grammar.program };

    #[tactic(auto, unfolding(crate::specs::Grammar::program))]
    fn begins(tokens: &[Token]) -> bool {
        begins_word(tokens, Keyword::Program)
    }

    #[tactic(auto, unfolding(crate::specs::Grammar::program))]
    fn read(alloc: Global, tokens: &[Token]) -> Result<(Program, &[Token]), ParseFault> {
        let rest = word(tokens, Keyword::Program)?;
        let (name, rest) = name(alloc, rest)?;
        let (variables, rest) = list(alloc, rest)?;
        let (elements, rest) = list(alloc, rest)?;
        let rest = word(rest, Keyword::EndProgram)?;
        let program = Program {
            name,
            variables,
            elements,
            span: span_between(tokens, rest),
        };
        Ok((program, rest))
    }

    ghost takes_a_token = { program_takes };

    ghost no_trees = { refl };

    ghost one_more = { programs_more };
}

// Program types, a configuration, and program types again.
#[tactic(auto, unfolding(crate::specs::Grammar::source))]
fn source(alloc: Global, tokens: &[Token]) -> Result<(Source, &[Token]), ParseFault>
    ensures { Gives (view_by source_of) result (reads grammar.source (kinds tokens.now)) }
{
    let (programs, tokens) = list_behind(alloc, Vec::new(alloc), tokens)?;
    let (configuration, behind) = configuration(alloc, tokens)?;
    let configuration_span = span_between(tokens, behind);
    let (programs, rest) = list_behind(alloc, programs, behind)?;
    let source = Source {
        programs: Items::from_vec(programs),
        configuration,
        configuration_span,
    };
    Ok((source, rest))
}

/// The tree of all tokens.
pub fn whole_source(alloc: Global, tokens: &[Token]) -> Result<Source, ParseFault>
    ensures { Gives source_of result (ended (reads grammar.source (kinds tokens.now))) }
{
    let (source, rest) = source(alloc, tokens)?;
    match rest {
        [] => Ok(source),
        [_, ..] => Err(syntax(rest)),
    }
}
