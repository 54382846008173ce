//! The warnings that a text allows, by pragmas: `{lint: allow DeadEnd}` in front of an element (2.1).

use crate::kind::{Kind, kind_named};
use sfc_tokens::token::Token;
use std::alloc::{AllocError, Global};

/// A kind of warnings that is allowed in the element that begins at this byte.
#[derive(Clone, Copy)]
pub struct Allowed {
    pub kind: Kind,
    pub from: u32,
}

// What stands behind the first bytes that are these, where there are.
fn behind<'a>(bytes: &'a [u8], wanted: &[u8]) -> Option<&'a [u8]> {
    let mut rest = bytes;
    for _ in 0..bytes.len() {
        if let Some(found) = rest.strip_prefix(wanted) {
            return Some(found);
        }
        let (_, after) = rest.split_first()?;
        rest = after;
    }
    None
}

// Whether the byte parts words of a pragma.
fn is_between(byte: u8) -> bool {
    byte == b' ' || byte == b'\t' || byte == b'\n' || byte == b'\r' || byte == b','
}

// Puts the kinds that a pragma allows, which has these bytes between its braces.
fn put_kinds(allowed: &mut Vec<Allowed>, pragma: &[u8], from: u32) -> Result<(), AllocError> {
    let mut words = pragma
        .split(|byte| is_between(*byte))
        .filter(|word| !word.is_empty());
    if words.next() != Some(b"lint:") || words.next() != Some(b"allow") {
        return Ok(());
    }
    for word in words {
        if let Some(kind) = kind_named(word) {
            allowed.push(Allowed { kind, from })?;
        }
    }
    Ok(())
}

// Puts what the pragmas allow among these bytes, which stand between two tokens; the second begins at this byte.
fn put_between(allowed: &mut Vec<Allowed>, between: &[u8], from: u32) -> Result<(), AllocError> {
    let mut rest = between;
    for _ in 0..between.len() {
        if let Some(inner) = rest.strip_prefix(b"(*") {
            let Some(after) = behind(inner, b"*)") else {
                return Ok(());
            };
            rest = after;
        } else if let Some(inner) = rest.strip_prefix(b"{") {
            let Some(after) = behind(inner, b"}") else {
                return Ok(());
            };
            let length = inner.len().saturating_sub(after.len()).saturating_sub(1);
            put_kinds(allowed, inner.get(..length).unwrap_or(b""), from)?;
            rest = after;
        } else {
            let Some((_, after)) = rest.split_first() else {
                return Ok(());
            };
            rest = after;
        }
    }
    Ok(())
}

/// What the pragmas of a text allow, by its tokens. The one error is that memory was refused.
pub fn allowed_by(
    alloc: Global,
    text: &[u8],
    tokens: &[Token],
) -> Result<Vec<Allowed>, AllocError> {
    let mut allowed = Vec::new(alloc);
    let mut from = 0usize;
    for token in tokens {
        let between = text.get(from..token.span.from as usize).unwrap_or(b"");
        if between.contains(&b'{') {
            put_between(&mut allowed, between, token.span.from)?;
        }
        from = token.span.to as usize;
    }
    Ok(allowed)
}
