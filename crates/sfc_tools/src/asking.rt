//! Questions at a prompt, behind a script.

ghost use Rattle.std.specs.Prelude.{◌≡◌, ◌++◌, [], ℕ, List, IfOk, IfErr, OnOk};
ghost use Rattle.sfc_prompt.specs.Desks.{IsOpened};
ghost use Rattle.sfc_prompt.specs.Walks.{IsAnswered};
ghost use Rattle.sfc_replay.specs.sfc_script.Lines.{lines_of};
ghost use Rattle.sfc_tools.specs.Answers.{AreAnswered, TellsAnswers};
ghost use Rattle.sfc_tools.specs.Told.{IsUntold};

use crate::sfc_debug::trace_mask::TraceMask;
use crate::sfc_script::split::next_line;
use crate::tool_error::ToolError;
use sfc_prompt::archive::{Archive, Kept};
use sfc_prompt::prompt::Prompt;
use sfc_replay::opening::debugger_of_text;
use sfc_session::session::Session;
use std::alloc::{AllocError, Global};

/// One that keeps nothing.
#[derive(Clone, Copy)]
struct NoArchive;

impl Archive for NoArchive {
    fn keep(&mut self, _name: &str, _script: &[u8], _may_replace: bool) -> Kept {
        Kept::Failed
    }

    fn record(&mut self, _script: &[u8]) {}
}

// A prompt at which nothing was said, on the plant that a chart is.
fn open_prompt(alloc: Global, chart: &[u8]) -> Result<Prompt, ToolError>
    ensures opened { IfOk result (IsOpened chart.now) }
    ensures refused { IfErr result (IsUntold chart.now) }
{
    let debugger = debugger_of_text(alloc, chart, 1, TraceMask(0))?;
    Ok(Prompt::new(alloc, Session::new(alloc, debugger)))
}

// What a line is answered.
fn obey(alloc: Global, prompt: &mut Prompt, line: &[u8]) -> Result<Vec<u8>, AllocError>
    ensures { IfOk result (λ text. IsAnswered prompt.old prompt.new line.now text.items) }
{
    let mut text = Vec::new(alloc);
    prompt.obey(line, &mut NoArchive, &mut text)?;
    Ok(text)
}

// Says the lines, and puts what they are answered at the end.
fn obey_all(
    alloc: Global,
    prompt: &mut Prompt,
    lines: &[u8],
    out: &mut Vec<u8>,
) -> Result<(), AllocError>
    ensures { OnOk result ((text : List ℕ) × AreAnswered (lines_of lines.now) prompt.old prompt.new text
        × (out.new.items ≡ out.old.items ++ text)) }
{
    let mut rest = lines;
    'lines: while let Some((line, after)) = next_line(rest) {
        let text = obey(alloc, prompt, line)?;
        out.extend_from_slice(&text)?;
        rest = after;
    }
    Ok(())
}

// Says the lines.
fn answers_of(alloc: Global, prompt: &mut Prompt, lines: &[u8]) -> Result<Vec<u8>, AllocError>
    ensures { IfOk result (λ text. AreAnswered (lines_of lines.now) prompt.old prompt.new text.items) }
{
    let mut text = Vec::new(alloc);
    obey_all(alloc, prompt, lines, &mut text)?;
    Ok(text)
}

/// What `sfcmon debug` answers to the lines of questions, when those of a script were said: WHY, SHOW, IMAGE, POINTS, TRACE and other words
/// of the prompt. No steps are taken that a line leaves under way, QUIT says nothing, and no file is written. The errors are that the chart
/// is refused, and that memory was.
pub fn ask(
    alloc: Global,
    chart: &[u8],
    script: &[u8],
    questions: &[u8],
) -> Result<Vec<u8>, ToolError>
    ensures { TellsAnswers chart.now script.now questions.now result }
{
    let mut prompt = open_prompt(alloc, chart)?;
    let _said = answers_of(alloc, &mut prompt, script)?;
    let text = answers_of(alloc, &mut prompt, questions)?;
    Ok(text)
}
