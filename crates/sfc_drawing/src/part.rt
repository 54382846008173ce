//! Parts of an SVG text.

ghost use Rattle.std.specs.Prelude.{◌≡◌, ◌++◌, [], OnOk};
ghost use Rattle.sfc_drawing.specs.Parts as text;

use sfc_page::append::{append, append_number};
use std::alloc::AllocError;

/// A part of an element.
#[derive(Clone, Copy)]
pub enum Part<'a> {
    /// As it stands.
    Markup(&'a [u8]),
    /// What the chart says, in which no byte is markup.
    Said(&'a [u8]),
    /// The same, of which at most so many characters are shown.
    Cut(usize, &'a [u8]),
    /// A number in decimal digits.
    Number(u64),
    /// A number of pixels in decimal digits.
    Pixel(u32),
}

/// The word, if so.
#[tactic(auto, unfolding(crate::specs::Parts::word_if))]
pub fn word_if(is: bool, word: &'static [u8]) -> &'static [u8]
    ensures { result.now ≡ text.word_if is word.now }
{
    if is { word } else { b"" }
}

// The name of the character, where it would be markup.
fn entity(byte: u8) -> Option<&'static [u8]>
    ensures { text.IsEntity byte result }
{
    match byte {
        b'&' => Some(b"&amp;"),
        b'<' => Some(b"&lt;"),
        b'>' => Some(b"&gt;"),
        b'"' => Some(b"&quot;"),
        _ => None,
    }
}

fn append_byte(out: &mut Vec<u8>, byte: u8) -> Result<(), AllocError>
    ensures { OnOk result (out.new.items ≡ out.old.items ++ text.escaped_byte byte) }
{
    match entity(byte) {
        Some(name) => append(out, name),
        None => append(out, &[byte]),
    }
}

#[tactic(auto, using(crate::proofs::Joins::grown))]
fn append_escaped(out: &mut Vec<u8>, said: &[u8]) -> Result<(), AllocError>
    ensures { OnOk result (out.new.items ≡ out.old.items ++ text.escaped said.now) }
{
    for byte in said {
        append_byte(out, *byte)?;
    }
    Ok(())
}

#[tactic(auto, unfolding(crate::specs::Parts::cut))]
fn append_cut(out: &mut Vec<u8>, most: usize, said: &[u8]) -> Result<(), AllocError>
    ensures { OnOk result (out.new.items ≡ out.old.items ++ text.cut most said.now) }
{
    if most < said.len() {
        append_escaped(out, &said[..most.saturating_sub(2)])?;
        append(out, b"..")
    } else {
        append_escaped(out, said)
    }
}

fn append_part(out: &mut Vec<u8>, part: &Part<'_>) -> Result<(), AllocError>
    ensures { OnOk result (out.new.items ≡ out.old.items ++ text.part_text part.now) }
{
    match part {
        Part::Markup(bytes) => append(out, bytes),
        Part::Said(bytes) => append_escaped(out, bytes),
        Part::Cut(most, bytes) => append_cut(out, *most, bytes),
        Part::Number(number) => append_number(out, *number),
        Part::Pixel(number) => append_number(out, u64::from(*number)),
    }
}

/// Puts the parts at the end, one after the other. The one error is that memory was refused; then a front of them may stand there.
pub fn append_parts(out: &mut Vec<u8>, parts: &[Part<'_>]) -> Result<(), AllocError>
    ensures { OnOk result (out.new.items ≡ out.old.items ++ text.joined [] parts.now) }
{
    for part in parts {
        append_part(out, part)?;
    }
    Ok(())
}
