//! The blanks before the lines of a chart, two for each block, and none behind them.

ghost use Rattle.std.specs.Prelude.{IfOk, IfSome};
ghost use Rattle.sfc_names.specs.Sameness.{HaveSameTokens};

use crate::chart::tokens_of;
use crate::paints::comments_of;
use crate::reading::{is_sign, keyword_of};
use crate::sameness::have_same_tokens;
use sfc_base::delimiter::Delimiter;
use sfc_base::keyword::Keyword;
use sfc_page::append::append;
use sfc_tokens::span::Span;
use sfc_tokens::token::Token;
use std::alloc::{AllocError, Global};

/// How many blocks are open at most for blanks to be put.
const DEEPEST: usize = 100;

/// What a word does to the blanks before lines.
#[derive(Clone, Copy, PartialEq, Eq)]
enum Step {
    /// A block begins with it.
    Opens,
    /// A block ends with it.
    Closes,
    /// One part of a block ends with it, and another one begins.
    Parts,
    /// It begins a line of its own.
    Begins,
    Stays,
}

// What a word does.
fn step_of(word: Keyword) -> Step {
    match word {
        Keyword::Program
        | Keyword::Var
        | Keyword::VarExternal
        | Keyword::VarGlobal
        | Keyword::Step
        | Keyword::InitialStep
        | Keyword::Action
        | Keyword::If
        | Keyword::Configuration
        | Keyword::Resource => Step::Opens,
        Keyword::EndProgram
        | Keyword::EndVar
        | Keyword::EndStep
        | Keyword::EndAction
        | Keyword::EndIf
        | Keyword::EndConfiguration
        | Keyword::EndResource => Step::Closes,
        Keyword::Else | Keyword::Elsif => Step::Parts,
        Keyword::Transition | Keyword::EndTransition | Keyword::Task => Step::Begins,
        _ => Step::Stays,
    }
}

/// How the blocks stand before a token.
#[derive(Clone, Copy)]
struct Level {
    // How many are open.
    open: usize,
    is_in_resource: bool,
    // Whether a declaration, a statement or a block may begin here.
    is_at_start: bool,
}

impl Level {
    // What a token does here: PROGRAM begins no block in a resource.
    fn step(self, token: &Token) -> Step {
        match keyword_of(token) {
            Some(Keyword::Program) if self.is_in_resource => Step::Begins,
            Some(word) => step_of(word),
            None => Step::Stays,
        }
    }

    // How many blocks stand before a line that begins with this token.
    fn before(self, token: &Token) -> usize {
        match self.step(token) {
            Step::Closes | Step::Parts => self.open.saturating_sub(1),
            Step::Opens | Step::Begins => self.open,
            Step::Stays if self.is_at_start => self.open,
            Step::Stays => self.open.saturating_add(1),
        }
    }

    // How the blocks stand behind a token.
    fn behind(self, token: &Token) -> Level {
        let open = match self.step(token) {
            Step::Opens => self.open.saturating_add(1),
            Step::Closes => self.open.saturating_sub(1),
            Step::Parts | Step::Begins | Step::Stays => self.open,
        };
        let is_in_resource = match keyword_of(token) {
            Some(Keyword::Resource) => true,
            Some(Keyword::EndResource) => false,
            _ => self.is_in_resource,
        };
        Level {
            open,
            is_in_resource,
            is_at_start: ends_something(token, self.step(token)),
        }
    }
}

// Whether something ends with a token, or its head does.
fn ends_something(token: &Token, step: Step) -> bool {
    if is_sign(Some(token), Delimiter::Semicolon) || is_sign(Some(token), Delimiter::Colon) {
        return true;
    }
    match keyword_of(token) {
        Some(
            Keyword::Var
            | Keyword::VarExternal
            | Keyword::VarGlobal
            | Keyword::Then
            | Keyword::Else
            | Keyword::EndTransition,
        ) => true,
        _ => step == Step::Closes,
    }
}

/// What is known of a text while its lines are gone through.
#[derive(Drop)]
struct Indenter<'a> {
    text: &'a [u8],
    tokens: &'a [Token],
    comments: &'a [Span],
    // How many of the tokens stand before the line.
    passed: usize,
    level: Level,
    out: Vec<u8>,
}

// Whether a place lies within a comment.
fn is_within(comments: &[Span], place: usize) -> bool {
    let behind = comments.partition_point(|comment| comment.to as usize <= place);
    match comments.get(behind) {
        Some(comment) => (comment.from as usize) < place,
        None => false,
    }
}

// The bytes without blanks before them.
fn without_front(bytes: &[u8]) -> &[u8] {
    match bytes.iter().position(|byte| !matches!(*byte, b' ' | b'\t')) {
        Some(place) => bytes.get(place..).unwrap_or(bytes),
        None => b"",
    }
}

// The bytes without blanks behind them.
fn without_end(bytes: &[u8]) -> &[u8] {
    match bytes
        .iter()
        .rposition(|byte| !matches!(*byte, b' ' | b'\t'))
    {
        Some(place) => bytes.get(..place.saturating_add(1)).unwrap_or(bytes),
        None => b"",
    }
}

impl Indenter<'_> {
    // How many blocks stand before the line between these places.
    fn blocks(&self, to: usize) -> usize {
        match self.tokens.get(self.passed) {
            Some(token) if (token.span.from as usize) < to => self.level.before(token),
            _ => self.level.open,
        }
    }

    // Passes the tokens of the line that ends at a place.
    fn pass(&mut self, to: usize) {
        let behind = self.tokens.get(self.passed..).unwrap_or(&[]);
        for token in behind {
            if token.span.from as usize >= to {
                return;
            }
            self.level = self.level.behind(token);
            self.passed = self.passed.saturating_add(1);
        }
    }

    // Puts the blanks before a line.
    fn put_blanks(&mut self, blocks: usize) -> Result<(), AllocError> {
        for _ in 0..blocks.min(DEEPEST) {
            append(&mut self.out, b"  ")?;
        }
        Ok(())
    }

    // Puts what stands in a line between these places, without its end.
    fn put_line(&mut self, from: usize, to: usize) -> Result<(), AllocError> {
        let mut line = self.text.get(from..to).unwrap_or(b"");
        if !is_within(self.comments, to) {
            line = without_end(line);
        }
        if is_within(self.comments, from) {
            append(&mut self.out, line)?;
        } else {
            line = without_front(line);
            if !line.is_empty() {
                let blocks = self.blocks(to);
                self.put_blanks(blocks)?;
            }
            append(&mut self.out, line)?;
        }
        self.pass(to);
        Ok(())
    }

    // Puts all lines.
    fn put_lines(&mut self) -> Result<(), AllocError> {
        let mut from = 0usize;
        for place in 0..self.text.len() {
            if let Some(b'\n') = self.text.get(place) {
                let end = self.end_of(from, place);
                self.put_line(from, end)?;
                append(&mut self.out, self.text.get(end..place).unwrap_or(b""))?;
                append(&mut self.out, b"\n")?;
                from = place.saturating_add(1);
            }
        }
        self.put_line(from, self.text.len())
    }

    // Where a line ends whose LF stands at a place: before the CR, if there is one.
    fn end_of(&self, from: usize, place: usize) -> usize {
        let before = place.saturating_sub(1);
        if before >= from && before < place && self.text.get(before) == Some(&b'\r') {
            before
        } else {
            place
        }
    }
}

// A text with other blanks before and behind its lines.
fn indented(alloc: Global, text: &[u8], tokens: &[Token]) -> Result<Vec<u8>, AllocError> {
    let comments = comments_of(alloc, text, tokens)?;
    let mut indenter = Indenter {
        text,
        tokens,
        comments: &comments,
        passed: 0,
        level: Level {
            open: 0,
            is_in_resource: false,
            is_at_start: true,
        },
        out: Vec::new(alloc),
    };
    indenter.put_lines()?;
    let Indenter { out, .. } = indenter;
    Ok(out)
}

/// A chart with two blanks for each block before its lines, and none behind them; comments stay as they are but for the blanks before
/// their first line. None where it can't be parted into tokens, or where anything else would change. The one error is that memory was
/// refused.
pub fn indent(alloc: Global, text: &[u8]) -> Result<Option<Vec<u8>>, AllocError>
    ensures { IfOk result (λ found. IfSome found (λ other. HaveSameTokens text.now other.items)) }
{
    let Some(tokens) = tokens_of(alloc, text)? else {
        return Ok(None);
    };
    let other = indented(alloc, text, &tokens)?;
    if have_same_tokens(alloc, text, &other)? {
        Ok(Some(other))
    } else {
        Ok(None)
    }
}
