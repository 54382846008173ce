//! Explanations as text.

ghost use Rattle.std.specs.Prelude.{◌≡◌, ◌++◌};
ghost use Rattle.sfc_base.specs.Writing.{Writes};
ghost use Rattle.sfc_explain.specs.Pages as text;
ghost use Rattle.sfc_explain.specs.Topics.{name_of};

use crate::explanation::{ExampleKind, Explanation, LineMark};
use sfc_base::write_fault::{WriteFault, put_all};
use sfc_page::time_text::put_decimal;
use std::io::Write;

/// What a line of an explanation says.
#[derive(Clone, Copy)]
pub enum Label {
    /// What tells it.
    From,
    /// Whether with a line.
    Line,
    /// What it means.
    Meaning,
    /// What usually leads to it.
    Cause,
}

// What stands in front of it.
#[tactic(auto, unfolding(crate::specs::Pages::label_text))]
fn label_text(label: Label) -> &'static [u8]
    ensures { result.now ≡ text.label_text label }
{
    match label {
        Label::From => b"  told by: ",
        Label::Line => b"  line: ",
        Label::Meaning => b"  meaning: ",
        Label::Cause => b"  usual cause: ",
    }
}

// How the mark is told.
fn mark_text(mark: LineMark) -> &'static [u8]
    ensures { result.now ≡ text.mark_text mark }
{
    match mark {
        LineMark::No => b"no",
        LineMark::Yes => b"yes",
        LineMark::First => b"1",
    }
}

// What stands in front of an example.
fn kind_text(kind: ExampleKind) -> &'static [u8]
    ensures { result.now ≡ text.kind_text kind }
{
    match kind {
        ExampleKind::Chart => b"  example, in a chart:\n",
        ExampleKind::Script => b"  example, in a script:\n",
        ExampleKind::Shell => b"  example, on the command line:\n",
        ExampleKind::Code => b"  example, in code, as no script leads to it:\n",
    }
}

// Writes a text and a line end.
#[tactic(auto, unfolding(crate::specs::Pages::ended), using(crate::proofs::Put::then_writes, crate::proofs::Put::front_first))]
fn put_end<W: Write>(line: &[u8], writer: &mut W) -> Result<(), WriteFault>
    ensures { Writes (W.contents writer.old) (W.contents writer.new) result (text.ended line.now) }
{
    put_all(writer, line)?;
    put_all(writer, b"\n")
}

// Writes a label and what it says.
#[tactic(auto, unfolding(crate::specs::Pages::field), using(crate::proofs::Put::then_writes, crate::proofs::Put::front_first))]
fn put_field<W: Write>(label: Label, field: &[u8], writer: &mut W) -> Result<(), WriteFault>
    ensures { Writes (W.contents writer.old) (W.contents writer.new) result (text.field label field.now) }
{
    put_all(writer, label_text(label))?;
    put_end(field, writer)
}

// Writes the number, and a blank behind it; nothing where there is none.
#[tactic(auto, using(crate::proofs::Put::then_writes, crate::proofs::Put::front_first))]
fn put_number<W: Write>(number: Option<u8>, writer: &mut W) -> Result<(), WriteFault>
    ensures { Writes (W.contents writer.old) (W.contents writer.new) result (text.number_text number) }
{
    let Some(number) = number else {
        return Ok(());
    };
    put_decimal(u64::from(number), writer)?;
    put_all(writer, b" ")
}

// Writes the number and the name as a line.
#[tactic(auto, unfolding(crate::specs::Pages::heading), using(crate::proofs::Put::then_writes, crate::proofs::Put::front_first))]
fn put_heading<W: Write>(explanation: &Explanation, writer: &mut W) -> Result<(), WriteFault>
    ensures { Writes (W.contents writer.old) (W.contents writer.new) result (text.heading explanation.now) }
{
    put_number(explanation.topic.number(), writer)?;
    put_end(explanation.topic.name().as_bytes(), writer)
}

// Writes what tells it, and whether with a line.
#[tactic(auto, unfolding(crate::specs::Pages::source), using(crate::proofs::Put::then_writes, crate::proofs::Put::front_first))]
fn put_source<W: Write>(explanation: &Explanation, writer: &mut W) -> Result<(), WriteFault>
    ensures { Writes (W.contents writer.old) (W.contents writer.new) result (text.source explanation.now) }
{
    put_field(Label::From, explanation.from.as_bytes(), writer)?;
    put_field(Label::Line, mark_text(explanation.line), writer)
}

// Writes what it means, and what usually leads to it.
#[tactic(auto, unfolding(crate::specs::Pages::sense), using(crate::proofs::Put::then_writes, crate::proofs::Put::front_first))]
fn put_sense<W: Write>(explanation: &Explanation, writer: &mut W) -> Result<(), WriteFault>
    ensures { Writes (W.contents writer.old) (W.contents writer.new) result (text.sense explanation.now) }
{
    put_field(Label::Meaning, explanation.meaning.as_bytes(), writer)?;
    put_field(Label::Cause, explanation.cause.as_bytes(), writer)
}

// Writes the example, behind what it is written in.
#[tactic(auto, unfolding(crate::specs::Pages::example), using(crate::proofs::Put::then_writes, crate::proofs::Put::front_first))]
fn put_example<W: Write>(explanation: &Explanation, writer: &mut W) -> Result<(), WriteFault>
    ensures { Writes (W.contents writer.old) (W.contents writer.new) result (text.example explanation.now) }
{
    put_all(writer, kind_text(explanation.kind))?;
    put_all(writer, explanation.example.as_bytes())
}

// Writes all but the number and the name.
#[tactic(auto, unfolding(crate::specs::Pages::body), using(crate::proofs::Put::then_writes, crate::proofs::Put::front_first))]
fn put_body<W: Write>(explanation: &Explanation, writer: &mut W) -> Result<(), WriteFault>
    ensures { Writes (W.contents writer.old) (W.contents writer.new) result (text.body explanation.now) }
{
    put_source(explanation, writer)?;
    put_sense(explanation, writer)?;
    put_example(explanation, writer)
}

/// Writes an explanation whole: its number and name as a line, what tells it, whether with a line, what it means, what
/// usually leads to it, and an example. It takes no memory.
///
/// The one error is that the writer failed or took no byte: a front of the text was then written.
#[tactic(auto, using(crate::proofs::Put::then_writes, crate::proofs::Put::front_first))]
pub fn put_page<W: Write>(explanation: &Explanation, writer: &mut W) -> Result<(), WriteFault>
    ensures { Writes (W.contents writer.old) (W.contents writer.new) result (text.page explanation.now) }
{
    put_heading(explanation, writer)?;
    put_body(explanation, writer)
}

// What stands behind a name in a list.
#[tactic(auto, unfolding(crate::specs::Pages::colon))]
fn colon() -> &'static [u8]
    ensures { result.now ≡ text.colon }
{
    b": "
}

// Writes what it means behind a colon, to the end of the line.
#[tactic(auto, using(crate::proofs::Put::then_writes, crate::proofs::Put::front_first))]
fn put_meaning<W: Write>(explanation: &Explanation, writer: &mut W) -> Result<(), WriteFault>
    ensures { Writes (W.contents writer.old) (W.contents writer.new) result (text.colon ++ text.ended explanation.now.meaning.now) }
{
    put_all(writer, colon())?;
    put_end(explanation.meaning.as_bytes(), writer)
}

// Writes the name, and what it means.
#[tactic(auto, using(crate::proofs::Put::then_writes, crate::proofs::Put::front_first))]
fn put_named<W: Write>(explanation: &Explanation, writer: &mut W) -> Result<(), WriteFault>
    ensures { Writes (W.contents writer.old) (W.contents writer.new) result
        (name_of explanation.now.topic ++ (text.colon ++ text.ended explanation.now.meaning.now)) }
{
    put_all(writer, explanation.topic.name().as_bytes())?;
    put_meaning(explanation, writer)
}

// Writes the number and the name, and what it means, as a line.
#[tactic(auto, unfolding(crate::specs::Pages::row), using(crate::proofs::Put::then_writes, crate::proofs::Put::front_first))]
fn put_row<W: Write>(explanation: &Explanation, writer: &mut W) -> Result<(), WriteFault>
    ensures { Writes (W.contents writer.old) (W.contents writer.new) result (text.row explanation.now) }
{
    put_number(explanation.topic.number(), writer)?;
    put_named(explanation, writer)
}

/// Writes the number and the name of each of the explanations, and what it means, a line each. It takes no memory.
///
/// The one error is that the writer failed or took no byte: a front of the text was then written.
#[tactic(auto, unfolding(crate::specs::Pages::rows), using(crate::proofs::Put::then_writes))]
pub fn put_list<W: Write>(explanations: &[Explanation], writer: &mut W) -> Result<(), WriteFault>
    ensures { Writes (W.contents writer.old) (W.contents writer.new) result (text.rows explanations.now) }
{
    let Some((explanation, rest)) = explanations.split_first() else {
        return Ok(());
    };
    put_row(explanation, writer)?;
    put_list(rest, writer)
}
