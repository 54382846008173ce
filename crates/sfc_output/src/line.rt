//! What stands in the lines of scans and of program instances, put behind a line piece by piece. The one error of each call is that
//! memory was refused; then a front of what it puts may stand there.

ghost use Rattle.std.specs.Prelude.{◌≡◌, ◌++◌, OnOk};
ghost use Rattle.std.specs.Fmt.{decimal};
ghost use Rattle.sfc_page.specs.Lines.{written};
ghost use Rattle.sfc_output.specs.Programs.{scans_text};
ghost use Rattle.sfc_output.specs.Private.ListParts.{separator};
ghost use Rattle.sfc_output.specs.Private.Pieces.{scanned_text, timed_text};

use crate::list::put_separator;
use sfc_page::digits::NUMBER;
use sfc_page::line::Line;
use sfc_page::times::TIME;
use std::alloc::AllocError;

/// Puts the head of the line of a program instance: its name, how many scans it has had, and the word before the steps.
#[tactic(auto, using(sfc_page::proofs::Lines::written_pieces), unfolding(crate::specs::Programs::scans_text))]
pub fn put_scans(
    line: &mut Line,
    out: &mut Vec<u8>,
    name: &[u8],
    scans: u64,
) -> Result<(), AllocError>
    ensures { OnOk result (written out.new.items line.new ≡ written out.old.items line.old ++ scans_text name.now scans) }
{
    line.put(out, b"  ")?;
    line.put_and_reserve(out, name, NUMBER + 8)?;
    line.push(b" ");
    line.push_number(scans);
    line.push(b" steps ");
    Ok(())
}

/// Puts a name, and before it what parts it from one before it.
#[inline(always)]
pub fn put_next(
    line: &mut Line,
    out: &mut Vec<u8>,
    is_first: bool,
    name: &[u8],
) -> Result<(), AllocError>
    ensures { OnOk result (written out.new.items line.new ≡ written out.old.items line.old ++ (separator is_first ++ name.now)) }
{
    put_separator(line, out, is_first)?;
    line.put(out, name)
}

/// Puts a number in decimal digits, and before it what parts it from one before it.
#[tactic(auto, using(sfc_page::proofs::Lines::written_pieces))]
#[inline(always)]
pub fn put_next_number(
    line: &mut Line,
    out: &mut Vec<u8>,
    is_first: bool,
    number: u64,
) -> Result<(), AllocError>
    ensures { OnOk result (written out.new.items line.new ≡ written out.old.items line.old ++ (separator is_first ++ decimal number)) }
{
    put_separator(line, out, is_first)?;
    line.reserve(out, NUMBER)?;
    line.push_number(number);
    Ok(())
}

/// Puts a name and a time, and before them what parts them from those before them.
#[tactic(auto, using(sfc_page::proofs::Lines::written_pieces), unfolding(crate::specs::Private::Pieces::timed_text))]
#[inline(always)]
pub fn put_timed(
    line: &mut Line,
    out: &mut Vec<u8>,
    is_first: bool,
    name: &[u8],
    micros: i64,
) -> Result<(), AllocError>
    ensures { OnOk result (written out.new.items line.new ≡ written out.old.items line.old ++ (separator is_first ++ timed_text name.now micros)) }
{
    put_separator(line, out, is_first)?;
    line.put_and_reserve(out, name, TIME + 1)?;
    line.push(b"=");
    line.push_time(micros);
    Ok(())
}

/// Puts the line of a scan that hit no breakpoint.
#[tactic(auto, using(sfc_page::proofs::Lines::written_pieces), unfolding(crate::specs::Private::Pieces::scanned_text))]
pub fn put_scanned(
    line: &mut Line,
    out: &mut Vec<u8>,
    micros: i64,
    task: &[u8],
    overruns: u64,
) -> Result<(), AllocError>
    ensures { OnOk result (written out.new.items line.new ≡ written out.old.items line.old ++ scanned_text micros task.now overruns) }
{
    line.reserve(out, TIME + 6)?;
    line.push_time(micros);
    line.push(b" SCAN ");
    line.put_and_reserve(out, task, NUMBER + 11)?;
    line.push(b" overruns ");
    line.push_number(overruns);
    line.push(b"\n");
    Ok(())
}
