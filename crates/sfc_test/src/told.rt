//! Results as text.

ghost use Rattle.std.specs.Prelude.{◌≡◌, ◌++◌, OnOk};
ghost use Rattle.sfc_test.specs.Running.{result_of};
ghost use Rattle.sfc_test.specs.Tallies as tallies;
ghost use Rattle.sfc_test.specs.Texts as text;

use crate::asked::Asked;
use crate::part::{Part, append_part};
use crate::running::Judged;
use crate::sfc_script::split::next_line;
use sfc_page::append::{append, append_number};
use std::alloc::AllocError;

/// Puts a text on a line at the end. The one error is that memory was refused.
#[tactic(auto, unfolding(crate::specs::Texts::ended))]
pub fn append_ended(out: &mut Vec<u8>, bytes: &[u8]) -> Result<(), AllocError>
    ensures { OnOk result (out.new.items ≡ out.old.items ++ text.ended bytes.now) }
{
    append(out, bytes)?;
    append_part(out, Part::LineEnd)
}

// Puts a text on a line at the end, behind what stands before it.
#[tactic(auto, unfolding(crate::specs::Texts::headed))]
fn append_headed(out: &mut Vec<u8>, front: Part, bytes: &[u8]) -> Result<(), AllocError>
    ensures { OnOk result (out.new.items ≡ out.old.items ++ text.headed front bytes.now) }
{
    append_part(out, front)?;
    append_ended(out, bytes)
}

// Puts the lines of a text at the end, each behind this.
#[tactic(auto, unfolding(crate::specs::Texts::each_headed))]
fn append_each(out: &mut Vec<u8>, front: Part, bytes: &[u8]) -> Result<(), AllocError>
    ensures { OnOk result (out.new.items ≡ out.old.items ++ text.each_headed front bytes.now) }
{
    let mut rest = bytes;
    'lines: while let Some((line, after)) = next_line(rest) {
        append_headed(out, front, line)?;
        rest = after;
    }
    Ok(())
}

// Puts a byte of a title at the end, as the Test Anything Protocol has it.
fn append_escaped_byte(out: &mut Vec<u8>, byte: u8) -> Result<(), AllocError>
    ensures { OnOk result (out.new.items ≡ out.old.items ++ text.escaped_byte byte) }
{
    if byte == b'#' || byte == b'\\' {
        out.push(b'\\')?;
    }
    out.push(byte)?;
    Ok(())
}

// Puts a title at the end, as the Test Anything Protocol has it, where a sharp sign begins a directive.
#[tactic(auto, unfolding(crate::specs::Texts::escaped))]
fn append_escaped(out: &mut Vec<u8>, title: &[u8]) -> Result<(), AllocError>
    ensures { OnOk result (out.new.items ≡ out.old.items ++ text.escaped title.now) }
{
    for byte in title {
        append_escaped_byte(out, *byte)?;
    }
    Ok(())
}

// Puts a title behind a dash at the end, on a line.
#[tactic(auto, unfolding(crate::specs::Texts::tap_title, crate::specs::Texts::ended))]
fn append_tap_title(out: &mut Vec<u8>, title: &[u8]) -> Result<(), AllocError>
    ensures { OnOk result (out.new.items ≡ out.old.items ++ text.tap_title title.now) }
{
    append_part(out, Part::TapDash)?;
    append_escaped(out, title)?;
    append_part(out, Part::LineEnd)
}

// Puts the line of a case of this number in the Test Anything Protocol at the end.
#[tactic(auto, unfolding(crate::specs::Texts::tap_line))]
fn append_tap(out: &mut Vec<u8>, word: Part, number: u64, title: &[u8]) -> Result<(), AllocError>
    ensures { OnOk result (out.new.items ≡ out.old.items ++ text.tap_line word number title.now) }
{
    append_part(out, word)?;
    append_number(out, number)?;
    append_tap_title(out, title)
}

// Puts a case that failed at the end, with what is told of it.
#[tactic(auto, unfolding(crate::specs::Texts::failed_text))]
fn append_failed(out: &mut Vec<u8>, title: &[u8], told: &[u8]) -> Result<(), AllocError>
    ensures { OnOk result (out.new.items ≡ out.old.items ++ text.failed_text title.now told.now) }
{
    append_headed(out, Part::Failed, title)?;
    append_each(out, Part::Indent, told)
}

// The same in the Test Anything Protocol, for a case of this number.
#[tactic(auto, unfolding(crate::specs::Texts::tap_failed))]
fn append_tap_failed(
    out: &mut Vec<u8>,
    number: u64,
    title: &[u8],
    told: &[u8],
) -> Result<(), AllocError>
    ensures { OnOk result (out.new.items ≡ out.old.items ++ text.tap_failed number title.now told.now) }
{
    append_tap(out, Part::TapFailed, number, title)?;
    append_each(out, Part::TapComment, told)
}

// Puts a result at the end for a reader.
fn append_result(out: &mut Vec<u8>, title: &[u8], judged: &Judged) -> Result<(), AllocError>
    ensures { OnOk result (out.new.items ≡ out.old.items ++ text.result_text (result_of title.now judged.now)) }
{
    match judged {
        Judged::Passed => append_headed(out, Part::Passed, title),
        Judged::Failed(told) => append_failed(out, title, told),
    }
}

// Puts a result of this number at the end in the Test Anything Protocol.
fn append_tap_result(
    out: &mut Vec<u8>,
    number: u64,
    title: &[u8],
    judged: &Judged,
) -> Result<(), AllocError>
    ensures { OnOk result (out.new.items ≡ out.old.items ++ text.tap_text number (result_of title.now judged.now)) }
{
    match judged {
        Judged::Passed => append_tap(out, Part::TapPassed, number, title),
        Judged::Failed(told) => append_tap_failed(out, number, title, told),
    }
}

/// Puts a result of this number at the end, as it is asked. The one error is that memory was refused.
pub fn append_told(
    out: &mut Vec<u8>,
    asked: Asked,
    number: u64,
    title: &[u8],
    judged: &Judged,
) -> Result<(), AllocError>
    ensures { OnOk result (out.new.items ≡ out.old.items ++ text.text_of asked number (result_of title.now judged.now)) }
{
    match asked {
        Asked::Tap => append_tap_result(out, number, title, judged),
        Asked::Names | Asked::Results => append_result(out, title, judged),
    }
}

// Puts how many cases have failed at the end.
#[tactic(auto, unfolding(crate::specs::Tallies::failed_count))]
fn append_failed_count(out: &mut Vec<u8>, failed: u64) -> Result<(), AllocError>
    ensures { OnOk result (out.new.items ≡ out.old.items ++ tallies.failed_count failed) }
{
    append_number(out, failed)?;
    append_part(out, Part::FailedCount)
}

/// Puts how many cases have passed and failed at the end. The one error is that memory was refused.
#[tactic(auto, unfolding(crate::specs::Tallies::counts_text))]
pub fn append_counts(out: &mut Vec<u8>, passed: u64, failed: u64) -> Result<(), AllocError>
    ensures { OnOk result (out.new.items ≡ out.old.items ++ tallies.counts_text passed failed) }
{
    append_number(out, passed)?;
    append_part(out, Part::PassedCount)?;
    append_failed_count(out, failed)
}

/// Puts how many cases there were at the end, as the Test Anything Protocol has it. The one error is that memory was refused.
#[tactic(auto, unfolding(crate::specs::Tallies::plan_text))]
pub fn append_plan(out: &mut Vec<u8>, count: u64) -> Result<(), AllocError>
    ensures { OnOk result (out.new.items ≡ out.old.items ++ tallies.plan_text count) }
{
    append_part(out, Part::TapPlan)?;
    append_number(out, count)?;
    append_part(out, Part::LineEnd)
}
