//! The tokens of a text, names, and charts with a fault at any place.

use samples::charts::mixture;
use sfc_events::read_error::ReadErrorKind;
use sfc_text::read::{read, read_with_place};
use sfc_tokens::lex::tokens;
use sfc_tokens::lines::line_at;
use sfc_tokens::span::Span;
use sfc_tokens::token::{Token, TokenKind};
use std::alloc::{AllocError, Global};
use std::process::Abort;
use std::test::Fail;

// The kind of a token and its value; of a name the spelling of its copy, of a location its copy.
fn shown(alloc: Global, token: &Token) -> Result<String, AllocError> {
    let kind = &token.kind;
    match kind {
        TokenKind::Name(name) => {
            let copy = name.copy(alloc)?;
            let spelling = copy.spelling().escape_ascii();
            format!(in alloc; "Name({spelling})")
        }
        TokenKind::Location(location) => {
            let copy = location.copy(alloc)?;
            format!(in alloc; "{copy:?}")
        }
        TokenKind::Duration(time) => {
            let micros = time.micros();
            format!(in alloc; "Duration({micros})")
        }
        _ => format!(in alloc; "{kind:?}"),
    }
}

// A text and its tokens.
type Row = (&'static [u8], &'static [&'static str]);

// The longest token is taken, literals are values, and locations are areas, sizes and numbers.
const ROWS: [Row; 3] = [
    (
        b"step Step_s2:=<=>=<>:;,().+-*/&<>==",
        &[
            "Keyword(Step)",
            "Name(Step_s2)",
            "Delimiter(Assign)",
            "Delimiter(LessOrEqual)",
            "Delimiter(GreaterOrEqual)",
            "Delimiter(NotEqual)",
            "Delimiter(Colon)",
            "Delimiter(Semicolon)",
            "Delimiter(Comma)",
            "Delimiter(Open)",
            "Delimiter(Close)",
            "Delimiter(Dot)",
            "Delimiter(Plus)",
            "Delimiter(Minus)",
            "Delimiter(Star)",
            "Delimiter(Slash)",
            "Delimiter(Ampersand)",
            "Delimiter(NotEqual)",
            "Delimiter(Equal)",
            "Delimiter(Equal)",
        ],
    ),
    (
        b"007 1_000 16#fF 2#1_0 INT#-8#17 dint#5 Bool#FALSE bool#1 t#-1.5s time#1h_61m",
        &[
            "Integer(7)",
            "Integer(1000)",
            "Based(255)",
            "Based(2)",
            "Int(-15)",
            "Dint(5)",
            "Truth(false)",
            "Truth(true)",
            "Duration(-1500000)",
            "Duration(7260000000)",
        ],
    ),
    (
        b"%qw12.0_1 %M4294967295",
        &[
            "Location { area: Output, size: Word, numbers: Items { elements: [12, 1] } }",
            "Location { area: Memory, size: Bit, numbers: Items { elements: [4294967295] } }",
        ],
    ),
];

// The rows, behind a function, so that no proof goes through them.
fn rows() -> &'static [Row] {
    &ROWS
}

// Asks for these tokens of a text.
fn check(rt: &impl Abort, alloc: Global, text: &[u8], wanted: &[&str]) -> Result<(), Fail> {
    let found = tokens(alloc, text)?;
    assert_eq!(rt; found.len(), wanted.len());
    for (token, wanted) in found.iter().zip(wanted) {
        assert_eq!(rt; shown(alloc, token)?.as_str(), *wanted);
    }
    Ok(())
}

#[test]
fn a_text_has_these_tokens(rt: HostRuntime) -> Result<(), Fail> {
    for (text, wanted) in rows() {
        check(&rt, rt.alloc(), text, wanted)?;
    }
    Ok(())
}

#[test]
fn tokens_have_the_lines_on_which_they_begin(rt: HostRuntime) -> Result<(), Fail> {
    let text = b"a (*\n*) b\r\n{\n\n}c\n\n:=\n";
    let found = tokens(rt.alloc(), text)?;
    let mut lines = Vec::new(rt.alloc());
    for token in &found {
        lines.push(line_at(text, token.span.from))?;
    }
    assert_eq!(rt; lines.as_slice(), [1, 2, 5, 7].as_slice());
    Ok(())
}

// The bytes of a text that a token or a refusal has.
fn bytes_of(text: &[u8], span: Span) -> &[u8] {
    text.get(span.from as usize..span.to as usize)
        .unwrap_or(b"none")
}

// A text with what is skipped among its tokens, and the bytes of these.
const PIECES: [&[u8]; 8] = [
    b"ab", b":=", b"<=", b"%IX1.2", b"T#1.5s", b"16#FF_F", b"-", b"INT#-7",
];

#[test]
fn tokens_have_their_bytes(rt: HostRuntime) -> Result<(), Fail> {
    let text = b"\xef\xbb\xbfab (* c *) {d} := <=%IX1.2 T#1.5s 16#FF_F\n-INT#-7";
    let found = tokens(rt.alloc(), text)?;
    assert_eq!(rt; found.len(), PIECES.len());
    for (token, wanted) in found.iter().zip(PIECES) {
        assert_eq!(rt; bytes_of(text, token.span), wanted);
    }
    Ok(())
}

// Texts with a fault, and the bytes that are refused.
const REFUSED: [(&[u8], &[u8]); 8] = [
    (b"a ~ b", b"~"),
    (b"a\nx__y z", b"x__y"),
    (b"FOO#12 z", b"FOO#12"),
    (b"a (* b", b"(*"),
    (b"a {b", b"{"),
    (b"T#1x a", b"T#1x"),
    (b"PROGRAM P PROGRAM", b"PROGRAM"),
    (b"PROGRAM P", b""),
];

#[test]
fn refusals_have_their_bytes(rt: HostRuntime) {
    for (text, wanted) in REFUSED {
        match read_with_place(rt.alloc(), text) {
            Ok(_source) => assert!(rt; false, "a text is read that is to be refused"),
            Err(error) => assert_eq!(rt; bytes_of(text, error.span()), wanted),
        }
    }
}

// Whether the text is refused, and not for want of memory.
fn is_refused(alloc: Global, text: &[u8]) -> bool {
    match read(alloc, text) {
        Ok(_) => false,
        Err(error) => error.kind != ReadErrorKind::Memory,
    }
}

#[test]
fn each_front_of_a_chart_is_refused(rt: HostRuntime) {
    let text = mixture();
    assert!(rt; !is_refused(rt.alloc(), text));
    for count in 0..text.len() {
        assert!(rt; is_refused(rt.alloc(), &text[..count]), "of {count} bytes");
    }
}

// Asks that the chart is refused with this byte at any place where another one stood.
fn check_altered(rt: &impl Abort, alloc: Global, byte: u8) -> Result<(), Fail> {
    let mut text = mixture().to_vec(alloc)?;
    for place in 0..text.len() {
        let old = text[place];
        text[place] = byte;
        assert_eq!(rt;
            is_refused(alloc, &text),
            old != byte,
            "of {byte} at {place}"
        );
        text[place] = old;
    }
    Ok(())
}

#[test]
fn a_chart_with_one_wrong_byte_is_refused(rt: HostRuntime) -> Result<(), Fail> {
    for byte in [0x00, b'(', b'{', b'#', 0xff] {
        check_altered(&rt, rt.alloc(), byte)?;
    }
    Ok(())
}
