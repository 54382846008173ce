//! A report as text.

ghost use Rattle.std.specs.Prelude.{◌≡◌, IfSome, option_map, true};
ghost use Rattle.sfc_base.specs.Writing.{Writes};
ghost use Rattle.sfc_explain.specs.Finding.{is_numbered, is_named};
ghost use Rattle.sfc_why.specs.Pages as text;

use crate::position::Position;
use crate::report::{Fault, Report};
use sfc_base::write_fault::{WriteFault, put_all};
use sfc_events::load_error::{Limit, LoadError};
use sfc_events::refusal::Refusal;
use sfc_explain::explanation::Explanation;
use sfc_explain::finding::find;
use sfc_explain::table::{faults, of_charts, of_commands};
use sfc_page::time_text::put_decimal;
use std::io::Write;

/// What stands between the parts of a report.
#[derive(Clone, Copy)]
enum Piece {
    Blank,
    Colon,
    /// A colon and a blank.
    Behind,
    Near,
    LineEnd,
    ScriptLine,
    Warning,
    Meaning,
    Cause,
}

// What stands between parts.
#[tactic(auto, unfolding(crate::specs::Pages::piece_text))]
fn piece_text(piece: Piece) -> &'static [u8]
    ensures { result.now ≡ text.piece_text piece }
{
    match piece {
        Piece::Blank => b" ",
        Piece::Colon => b":",
        Piece::Behind => b": ",
        Piece::Near => b"; near: ",
        Piece::LineEnd => b"\n",
        Piece::ScriptLine => b"script line ",
        Piece::Warning => b"warning ",
        Piece::Meaning => b"  meaning: ",
        Piece::Cause => b"  usual cause: ",
    }
}

// Writes a number and a name.
#[tactic(auto, unfolding(crate::specs::Pages::numbered), using(crate::proofs::Put::then_writes, crate::proofs::Put::front_first))]
fn put_numbered<W: Write>(number: u8, name: &str, writer: &mut W) -> Result<(), WriteFault>
    ensures { Writes (W.contents writer.old) (W.contents writer.new) result (text.numbered number name.now) }
{
    put_decimal(u64::from(number), writer)?;
    put_all(writer, piece_text(Piece::Blank))?;
    put_all(writer, name.as_bytes())
}

// Writes which limit it is.
#[tactic(auto, unfolding(crate::specs::Pages::which), using(crate::proofs::Put::then_writes, crate::proofs::Put::front_first))]
fn put_which<W: Write>(limit: Limit, writer: &mut W) -> Result<(), WriteFault>
    ensures { Writes (W.contents writer.old) (W.contents writer.new) result (text.which limit) }
{
    put_all(writer, piece_text(Piece::Blank))?;
    put_all(writer, limit.name().as_bytes())
}

// Writes which limit it is; nothing of another refusal.
fn put_limit<W: Write>(error: LoadError, writer: &mut W) -> Result<(), WriteFault>
    ensures { Writes (W.contents writer.old) (W.contents writer.new) result (text.limit_text error) }
{
    match error {
        LoadError::Limit(limit) => put_which(limit, writer),
        _ => Ok(()),
    }
}

// Writes the number and the name of a refusal by the loader, of a limit also which one it is.
#[tactic(auto, unfolding(crate::specs::Pages::loading_text), using(crate::proofs::Put::then_writes, crate::proofs::Put::front_first))]
fn put_loading<W: Write>(error: LoadError, writer: &mut W) -> Result<(), WriteFault>
    ensures { Writes (W.contents writer.old) (W.contents writer.new) result (text.loading_text error) }
{
    put_numbered(error.number(), error.name(), writer)?;
    put_limit(error, writer)
}

// Writes the line of a script.
#[tactic(auto, unfolding(crate::specs::Pages::script_text), using(crate::proofs::Put::then_writes, crate::proofs::Put::front_first))]
fn put_script<W: Write>(line: usize, writer: &mut W) -> Result<(), WriteFault>
    ensures { Writes (W.contents writer.old) (W.contents writer.new) result (text.script_text line) }
{
    put_all(writer, piece_text(Piece::ScriptLine))?;
    put_decimal(line as u64, writer)
}

// Writes for what a command will be refused.
#[tactic(auto, unfolding(crate::specs::Pages::warning_text), using(crate::proofs::Put::then_writes, crate::proofs::Put::front_first))]
fn put_warning<W: Write>(refusal: Refusal, writer: &mut W) -> Result<(), WriteFault>
    ensures { Writes (W.contents writer.old) (W.contents writer.new) result (text.warning_text refusal) }
{
    put_all(writer, piece_text(Piece::Warning))?;
    put_numbered(refusal.number(), refusal.name(), writer)
}

// Writes what a chart or a script is refused for.
fn put_refusal<W: Write>(refusal: Fault, writer: &mut W) -> Result<(), WriteFault>
    ensures { Writes (W.contents writer.old) (W.contents writer.new) result (text.refusal_text refusal) }
{
    match refusal {
        Fault::Reading(kind) => put_numbered(kind.number(), kind.name(), writer),
        Fault::Loading(error) => put_loading(error, writer),
        Fault::Script(line) => put_script(line, writer),
        Fault::Warning(refusal) => put_warning(refusal, writer),
    }
}

// Writes a colon and a number.
#[tactic(auto, unfolding(crate::specs::Pages::counted), using(crate::proofs::Put::then_writes, crate::proofs::Put::front_first))]
fn put_counted<W: Write>(number: usize, writer: &mut W) -> Result<(), WriteFault>
    ensures { Writes (W.contents writer.old) (W.contents writer.new) result (text.counted number) }
{
    put_all(writer, piece_text(Piece::Colon))?;
    put_decimal(number as u64, writer)
}

// Writes a line and a column.
#[tactic(auto, unfolding(crate::specs::Pages::position_text), using(crate::proofs::Put::then_writes, crate::proofs::Put::front_first))]
fn put_position<W: Write>(position: Position, writer: &mut W) -> Result<(), WriteFault>
    ensures { Writes (W.contents writer.old) (W.contents writer.new) result (text.position_text position) }
{
    put_counted(position.line, writer)?;
    put_counted(position.column, writer)
}

// Writes what is refused, behind a colon.
#[tactic(auto, unfolding(crate::specs::Pages::refused), using(crate::proofs::Put::then_writes, crate::proofs::Put::front_first))]
fn put_refused<W: Write>(refusal: Fault, writer: &mut W) -> Result<(), WriteFault>
    ensures { Writes (W.contents writer.old) (W.contents writer.new) result (text.refused refusal) }
{
    put_all(writer, piece_text(Piece::Behind))?;
    put_refusal(refusal, writer)
}

// Writes what may be meant.
#[tactic(auto, unfolding(crate::specs::Pages::meant), using(crate::proofs::Put::then_writes, crate::proofs::Put::front_first))]
fn put_meant<W: Write>(near: &[u8], writer: &mut W) -> Result<(), WriteFault>
    ensures { Writes (W.contents writer.old) (W.contents writer.new) result (text.meant near.now) }
{
    put_all(writer, piece_text(Piece::Near))?;
    put_all(writer, near)
}

// Writes what may be meant, where that is known.
fn put_near<W: Write>(report: &Report, writer: &mut W) -> Result<(), WriteFault>
    ensures { Writes (W.contents writer.old) (W.contents writer.new) result (text.near_text report.now.near) }
{
    match &report.near {
        Some(near) => put_meant(near, writer),
        None => Ok(()),
    }
}

// Writes what may be meant, and the end of the line.
#[tactic(auto, unfolding(crate::specs::Pages::end_text), using(crate::proofs::Put::then_writes, crate::proofs::Put::front_first))]
fn put_end<W: Write>(report: &Report, writer: &mut W) -> Result<(), WriteFault>
    ensures { Writes (W.contents writer.old) (W.contents writer.new) result (text.end_text report.now) }
{
    put_near(report, writer)?;
    put_all(writer, piece_text(Piece::LineEnd))
}

// Writes the word behind a colon, and what may be meant.
#[tactic(auto, unfolding(crate::specs::Pages::word_text), using(crate::proofs::Put::then_writes, crate::proofs::Put::front_first))]
fn put_word<W: Write>(report: &Report, writer: &mut W) -> Result<(), WriteFault>
    ensures { Writes (W.contents writer.old) (W.contents writer.new) result (text.word_text report.now) }
{
    put_all(writer, piece_text(Piece::Behind))?;
    put_all(writer, &report.word)?;
    put_end(report, writer)
}

// Writes what stands behind the place in the first line.
#[tactic(auto, unfolding(crate::specs::Pages::told_text), using(crate::proofs::Put::then_writes, crate::proofs::Put::front_first))]
fn put_told<W: Write>(report: &Report, writer: &mut W) -> Result<(), WriteFault>
    ensures { Writes (W.contents writer.old) (W.contents writer.new) result (text.told_text report.now) }
{
    put_refused(report.refusal, writer)?;
    put_word(report, writer)
}

// Writes the first line.
#[tactic(auto, unfolding(crate::specs::Pages::heading), using(crate::proofs::Put::then_writes, crate::proofs::Put::front_first))]
fn put_heading<W: Write>(file: &[u8], report: &Report, writer: &mut W) -> Result<(), WriteFault>
    ensures { Writes (W.contents writer.old) (W.contents writer.new) result (text.heading file.now report.now) }
{
    put_all(writer, file)?;
    put_position(report.position, writer)?;
    put_told(report, writer)
}

// The explanation of a refusal of charts with this number.
fn explanation_by_number(number: u8) -> Option<&'static Explanation>
    ensures { IfSome result (λ explanation. is_numbered number explanation.now ≡ true) }
{
    find(&[of_charts()], Some(number), b"")
}

// The explanation of a refusal of commands with this number.
fn explanation_of_command(number: u8) -> Option<&'static Explanation>
    ensures { IfSome result (λ explanation. is_numbered number explanation.now ≡ true) }
{
    find(&[of_commands()], Some(number), b"")
}

// The explanation of a fault with this name.
fn explanation_by_name(name: &[u8]) -> Option<&'static Explanation>
    ensures { IfSome result (λ explanation. is_named name.now explanation.now ≡ true) }
{
    find(&[faults()], None, name)
}

/// What is explained of a refusal, in the tables of `sfcmon explain`.
pub fn explanation_of(refusal: Fault) -> Option<&'static Explanation>
    ensures { IfSome result (λ explanation. text.IsExplainedBy refusal explanation.now) }
{
    match refusal {
        Fault::Reading(kind) => explanation_by_number(kind.number()),
        Fault::Loading(error) => explanation_by_number(error.number()),
        Fault::Script(_) => explanation_by_name(b"script line"),
        Fault::Warning(refusal) => explanation_of_command(refusal.number()),
    }
}

// Writes what a refusal means.
#[tactic(auto, unfolding(crate::specs::Pages::meaning_text), using(crate::proofs::Put::then_writes, crate::proofs::Put::front_first))]
fn put_meaning<W: Write>(explanation: &Explanation, writer: &mut W) -> Result<(), WriteFault>
    ensures { Writes (W.contents writer.old) (W.contents writer.new) result (text.meaning_text explanation.now) }
{
    put_all(writer, piece_text(Piece::Meaning))?;
    put_all(writer, explanation.meaning.as_bytes())?;
    put_all(writer, piece_text(Piece::LineEnd))
}

// Writes what usually leads to a refusal.
#[tactic(auto, unfolding(crate::specs::Pages::cause_text), using(crate::proofs::Put::then_writes, crate::proofs::Put::front_first))]
fn put_cause<W: Write>(explanation: &Explanation, writer: &mut W) -> Result<(), WriteFault>
    ensures { Writes (W.contents writer.old) (W.contents writer.new) result (text.cause_text explanation.now) }
{
    put_all(writer, piece_text(Piece::Cause))?;
    put_all(writer, explanation.cause.as_bytes())?;
    put_all(writer, piece_text(Piece::LineEnd))
}

// Writes what a refusal means, and what usually leads to it.
#[tactic(auto, using(crate::proofs::Put::then_writes, crate::proofs::Put::front_first))]
fn put_sense<W: Write>(explanation: Option<&Explanation>, writer: &mut W) -> Result<(), WriteFault>
    ensures { Writes (W.contents writer.old) (W.contents writer.new) result (text.sense (option_map (λ e. e.now) explanation.entry)) }
{
    let Some(explanation) = explanation else {
        return Ok(());
    };
    put_meaning(explanation, writer)?;
    put_cause(explanation, writer)
}

/// Writes a report whole: the file, line and column, what is refused and the word at fault; the source line and what else is told; what
/// the refusal means, and what usually leads to it, where that is given. It takes no memory.
///
/// The one error is that the writer failed or took no byte: a front of the text was then written.
#[tactic(auto, using(crate::proofs::Put::then_writes, crate::proofs::Put::front_first))]
pub fn put_report<W: Write>(
    file: &[u8],
    report: &Report,
    explanation: Option<&Explanation>,
    writer: &mut W,
) -> Result<(), WriteFault>
    ensures { Writes (W.contents writer.old) (W.contents writer.new) result (text.page file.now report.now (option_map (λ e. e.now) explanation.entry)) }
{
    put_heading(file, report, writer)?;
    put_all(writer, &report.lines)?;
    put_sense(explanation, writer)
}
