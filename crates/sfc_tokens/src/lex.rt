//! Bytes to tokens (2.1, 2.2).

ghost use Rattle.std.specs.Prelude.{◌≡◌, ◌∷◌, Option, Some, None, IfOk, IsTrue, length};
ghost use Rattle.sfc_base.specs.Classes as classes;
ghost use Rattle.sfc_tokens.specs.Lexemes as lexemes;
ghost use Rattle.sfc_base.specs.Names as names;
ghost use Rattle.sfc_base.specs.Names.{IsWord};
ghost use Rattle.sfc_tokens.specs.Lexing.Integers.{view_slice};
ghost use Rattle.sfc_tokens.specs.Lexing.Results.{Gives, Answers, kind_of};
ghost use Rattle.sfc_tokens.specs.Lexing.Tokens as lexing;
ghost use Rattle.sfc_tokens.specs.Lexing.Tokens.{view_next};
ghost use Rattle.sfc_tokens.specs.Texts as texts;
ghost use Rattle.sfc_tokens.specs.Texts.{Finds, TextLexes};
ghost use Rattle.sfc_tokens.specs.Tokens.{kinds};
ghost use Rattle.sfc_events.specs.declared.read_error.ReadErrorKind.TheVariants.{TooLong};

use crate::lex_fault::LexFault;
use crate::literal::{LiteralKind, literal};
use crate::placed::Placed;
use crate::refusal::{out_of_memory, refused};
use crate::span::{NOWHERE, span_of};
use crate::token::{Token, TokenKind};
use sfc_base::class::{Class, class_of, first_class};
use sfc_base::delimiter::Delimiter;
use sfc_base::keyword::keyword_of;
use sfc_base::name::{Name, is_spaced};
use sfc_base::run::{Alphabet, run};
use sfc_events::read_error::{ReadError, ReadErrorKind};
use std::alloc::{AllocError, Global};

/// The greatest length of a text, in bytes (our choice).
pub const LONGEST: usize = 1_048_576;

/// What stands behind a delimiter of one byte.
#[derive(Clone, Copy, Debug, PartialEq, Eq)]
enum Ahead {
    /// Another byte, which is no part of the delimiter.
    Alone,
    /// The second byte of a longer delimiter.
    Longer(Delimiter),
    /// The star that opens a comment.
    Comment,
}

// What the first two bytes are together.
fn look_ahead(first: Delimiter, second: Class) -> Ahead
    ensures { result ≡ lexemes.look_ahead first second }
{
    match (first, second) {
        (Delimiter::Open, Class::Sign(Delimiter::Star)) => Ahead::Comment,
        (Delimiter::Colon, Class::Sign(Delimiter::Equal)) => Ahead::Longer(Delimiter::Assign),
        (Delimiter::Less, Class::Sign(Delimiter::Equal)) => Ahead::Longer(Delimiter::LessOrEqual),
        (Delimiter::Less, Class::Sign(Delimiter::Greater)) => Ahead::Longer(Delimiter::NotEqual),
        (Delimiter::Greater, Class::Sign(Delimiter::Equal)) => {
            Ahead::Longer(Delimiter::GreaterOrEqual)
        }
        _ => Ahead::Alone,
    }
}

// What stands behind the end of a comment.
#[tactic(auto, unfolding(crate::specs::Lexing::Tokens::after_comment))]
fn after_comment(bytes: &[u8]) -> Option<&[u8]>
    ensures { view_slice result ≡ lexing.after_comment bytes.now }
{
    let mut rest = bytes;
    'all: while let Some((first, after)) = rest.split_first() {
        let (second, behind) = after.split_first()?;
        if *first == b'*' && *second == b')' {
            return Some(behind);
        }
        rest = after;
    }
    None
}

// What stands behind the end of a pragma.
#[tactic(auto, unfolding(crate::specs::Lexing::Tokens::after_pragma))]
fn after_pragma(bytes: &[u8]) -> Option<&[u8]>
    ensures { view_slice result ≡ lexing.after_pragma bytes.now }
{
    let mut rest = bytes;
    'all: while let Some((first, after)) = rest.split_first() {
        if *first == b'}' {
            return Some(after);
        }
        rest = after;
    }
    None
}

// The literal behind its prefix: a minus or none, and the longest run of its alphabet.
fn literal_at(
    alloc: Global,
    kind: LiteralKind,
    bytes: &[u8],
) -> Result<(Option<TokenKind>, &[u8]), LexFault>
    ensures { Gives view_next result (lexing.literal_at kind bytes.now) }
{
    let (is_negative, unsigned) = match bytes {
        [b'-', inner @ ..] => (true, inner),
        _ => (false, bytes),
    };
    let (word, rest) = run(kind.alphabet(), unsigned);
    match literal(alloc, kind, is_negative, word)? {
        Some(token) => Ok((Some(token), rest)),
        None => Err(LexFault::Wrong(kind.fault(), rest.len())),
    }
}

// The token that a word is: reserved, or a name.
fn word_token(alloc: Global, word: &[u8]) -> Result<TokenKind, AllocError>
    requires { IsWord word.now }
    ensures { IfOk result (λ token. token ≡ lexemes.word_token word.now) }
{
    if let Some(keyword) = keyword_of(word) {
        return Ok(TokenKind::Keyword(keyword));
    }
    let name = Name::new(alloc, word)?;
    Ok(TokenKind::Name(name))
}

// How many bytes are left behind a minus or none and the longest run of what a number may consist of.
fn left_behind_number(bytes: &[u8]) -> usize {
    let unsigned = match bytes {
        [b'-', inner @ ..] => inner,
        _ => bytes,
    };
    let (_, rest) = run(Alphabet::Number, unsigned);
    rest.len()
}

// The word at the front, or the literal of which it is the prefix.
fn word_at(alloc: Global, bytes: &[u8]) -> Result<(Option<TokenKind>, &[u8]), LexFault>
    requires { IsTrue (names.starts_word (classes.first_class bytes.now)) }
    ensures { Gives view_next result (lexing.word_at bytes.now) }
{
    let (word, rest) = run(Alphabet::Word, bytes);
    if let [b'#', behind @ ..] = rest {
        return match LiteralKind::of_prefix(word) {
            Some(kind) => literal_at(alloc, kind, behind),
            None => Err(LexFault::Wrong(ReadErrorKind::BadToken, left_behind_number(behind))),
        };
    }
    if !is_spaced(word) {
        return Err(LexFault::Wrong(ReadErrorKind::BadToken, rest.len()));
    }
    let token = word_token(alloc, word)?;
    Ok((Some(token), rest))
}

// The comment, or the delimiter of one or two bytes, at the front.
fn sign_at(first: Delimiter, after: &[u8]) -> Result<(Option<TokenKind>, &[u8]), LexFault>
    ensures { Gives view_next result (lexing.sign_at first after.now) }
{
    let behind = match after {
        [_, inner @ ..] => inner,
        [] => after,
    };
    match look_ahead(first, first_class(after)) {
        Ahead::Alone => Ok((Some(TokenKind::Delimiter(first)), after)),
        Ahead::Longer(delimiter) => Ok((Some(TokenKind::Delimiter(delimiter)), behind)),
        Ahead::Comment => match after_comment(behind) {
            Some(rest) => Ok((None, rest)),
            None => Err(LexFault::Wrong(ReadErrorKind::BadToken, behind.len())),
        },
    }
}

// The token at the front, or none for what is skipped, and the rest.
#[tactic(auto, unfolding(crate::specs::Lexing::Tokens::next_by))]
fn next<'a>(
    alloc: Global,
    first: u8,
    after: &'a [u8],
    bytes: &'a [u8],
) -> Result<(Option<TokenKind>, &'a [u8]), LexFault>
    requires { bytes.now ≡ first ∷ after.now }
    ensures { Gives view_next result (lexing.next_by (classes.class_of first) first after.now) }
{
    match class_of(first) {
        Class::Space => Ok((None, after)),
        Class::Letter | Class::Underscore => word_at(alloc, bytes),
        Class::Digit => literal_at(alloc, LiteralKind::Number, bytes),
        Class::Percent => literal_at(alloc, LiteralKind::Location, after),
        Class::Brace => match after_pragma(after) {
            Some(rest) => Ok((None, rest)),
            None => Err(LexFault::Wrong(ReadErrorKind::BadToken, after.len())),
        },
        Class::Sign(delimiter) => sign_at(delimiter, after),
        Class::High => Err(LexFault::Wrong(ReadErrorKind::NotAscii, after.len())),
        Class::Sharp | Class::Other => Err(LexFault::Wrong(ReadErrorKind::BadToken, after.len())),
    }
}

// The text without the bytes EF BB BF at its start.
fn without_mark(text: &[u8]) -> &[u8]
    ensures { result.now ≡ texts.without_mark text.now }
{
    match text {
        [0xef, 0xbb, 0xbf, rest @ ..] => rest,
        _ => text,
    }
}

// The refusal of a text at the bytes that begin where so many are left.
fn refusal_at(text: &[u8], left: usize, fault: LexFault) -> Placed<ReadError>
    ensures { result.kind ≡ kind_of fault }
{
    match fault {
        LexFault::Memory => out_of_memory(),
        LexFault::Wrong(kind, behind) => refused(text, kind, span_of(text, left, behind)),
    }
}

// The tokens of the last bytes of a text.
fn lex(alloc: Global, text: &[u8], bytes: &[u8]) -> Result<Vec<Token>, Placed<ReadError>>
    ensures { Answers (λ v. kinds v.items) result (lexing.lex (length bytes.now) bytes.now) }
{
    let mut tokens = Vec::new(alloc);
    let mut rest = bytes;
    'all: while let Some((first, after)) = rest.split_first() {
        let (kind, behind) = match next(alloc, *first, after, rest) {
            Ok(found) => found,
            Err(fault) => return Err(refusal_at(text, rest.len(), fault)),
        };
        if let Some(kind) = kind {
            let span = span_of(text, rest.len(), behind.len());
            tokens.push(Token { kind, span })?;
        }
        rest = behind;
    }
    Ok(tokens)
}

// The refusal of a text that is too long, whatever its bytes.
fn too_long() -> Placed<ReadError>
    ensures { result.kind ≡ TooLong }
{
    let kind = ReadErrorKind::TooLong;
    Placed::new(ReadError { kind, line: 1 }, NOWHERE)
}

/// The tokens of a text as `tokens` answers them, where an error has its place too: the bytes of what is no token, such as a
/// word, or the first byte of what is none; of a comment and a pragma that aren't closed what opens them. `TooLong` and
/// `Memory` have no bytes.
pub fn tokens_with_place(alloc: Global, text: &[u8]) -> Result<Vec<Token>, Placed<ReadError>>
    ensures { Finds (λ v. kinds v.items) result (λ outcome. TextLexes text.now outcome) }
{
    if text.len() > LONGEST {
        return Err(too_long());
    }
    lex(alloc, text, without_mark(text))
}

/// The tokens of a text, each with its bytes; white space, comments and pragmas are skipped, and the bytes EF BB BF at the
/// very start too.
///
/// The first of these is the answer where there are none: `TooLong` where the text is over 1,048,576 bytes; `NotAscii`,
/// `BadToken`, `BadDuration` or `BadNumber` for the first fault in the text, at the line of its first byte; `Memory`
/// where memory was refused.
pub fn tokens(alloc: Global, text: &[u8]) -> Result<Vec<Token>, ReadError>
    ensures { Finds (λ v. kinds v.items) result (λ outcome. TextLexes text.now outcome) }
{
    match tokens_with_place(alloc, text) {
        Ok(tokens) => Ok(tokens),
        Err(error) => Err(error.into_value()),
    }
}
