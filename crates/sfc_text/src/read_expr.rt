//! Texts to expressions.

ghost use Rattle.sfc_tokens.specs.Texts.{Finds};
ghost use Rattle.sfc_text.specs.Reads.{ExpressionReads};
ghost use Rattle.sfc_text.specs.Trees.{tree_of};

use crate::expression::Expression;
use crate::parse::expression::whole_expression;
use crate::read::refusal;
use sfc_events::read_error::ReadError;
use sfc_tokens::lex::tokens_with_place;
use sfc_tokens::placed::Placed;
use std::alloc::Global;

/// The tree of a text that is one expression as `read_expr` answers it, where an error has its place too, as that of
/// `read_with_place`.
pub fn read_expr_with_place(alloc: Global, text: &[u8]) -> Result<Expression, Placed<ReadError>>
    ensures { Finds tree_of result (λ outcome. ExpressionReads text.now outcome) }
{
    let tokens = tokens_with_place(alloc, text)?;
    match whole_expression(alloc, tokens.as_slice()) {
        Ok(tree) => Ok(tree),
        Err(fault) => Err(refusal(text, tokens.as_slice(), fault)),
    }
}

/// The tree of a text that is one expression, with nothing behind it (B.3.1).
///
/// The errors are those of `tokens`; then the first of `Syntax`, at the line of a token that can't continue the
/// expression, or at the last line where the tokens end too early, and `TooDeep`, at the line of the first token that
/// stands in more than 64 open parentheses and prefix operators, or is the 257th operator (our choice); `Memory` where
/// memory was refused. `Syntax` is told only where no limits would give a tree, and `TooDeep` only where ours give
/// none.
pub fn read_expr(alloc: Global, text: &[u8]) -> Result<Expression, ReadError>
    ensures { Finds tree_of result (λ outcome. ExpressionReads text.now outcome) }
{
    match read_expr_with_place(alloc, text) {
        Ok(tree) => Ok(tree),
        Err(error) => Err(error.into_value()),
    }
}
