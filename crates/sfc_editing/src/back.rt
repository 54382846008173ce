//! A session without its last commands.

ghost use Rattle.std.specs.Prelude.{◌≡◌, [], ◌∷◌, IfOk, IfSome, MatchOption, OnOk};
ghost use Rattle.sfc_prompt.specs.Prompts.{session_in};
ghost use Rattle.sfc_prompt.specs.Transcripts.{Puts};
ghost use Rattle.sfc_session.specs.Sessions.{script_in};
ghost use Rattle.sfc_editing.specs.Edited.{IsPlayedOn};
ghost use Rattle.sfc_editing.specs.Fronts.{first_lines, lines_left};

use crate::opened::open_prompt;
use crate::saying::say_words;
use crate::sfc_script::split::next_line;
use sfc_prompt::prompt::Prompt;
use sfc_replay::replay_error::ReplayError;
use std::alloc::{AllocError, Global};

// How many lines are left behind a byte.
fn left_behind(left: usize, byte: u8) -> usize
    ensures { result ≡ lines_left left byte }
{
    if byte == b'\n' {
        left.saturating_sub(1)
    } else {
        left
    }
}

// The first byte, and what stands behind it; None where no line is left, or no byte.
#[tactic(auto, using(crate::proofs::Fronts::one_more, crate::proofs::Fronts::none_left, crate::proofs::Fronts::nothing_in))]
fn next_byte(left: usize, rest: &[u8]) -> Option<(u8, &[u8])>
    ensures { MatchOption result (first_lines left rest.now ≡ [])
        (λ r. (rest.now ≡ r.0 ∷ r.1.now) × (first_lines left rest.now ≡ r.0 ∷ first_lines (lines_left left r.0) r.1.now)) }
{
    if left == 0 {
        return None;
    }
    match rest.split_first() {
        Some((byte, behind)) => Some((*byte, behind)),
        None => None,
    }
}

/// The first lines of a text, so many of them, each with its end.
pub fn front_of(text: &[u8], count: usize) -> &[u8]
    ensures { result.now ≡ first_lines count text.now }
{
    let mut left = count;
    let mut rest = text;
    'bytes: while let Some((byte, behind)) = next_byte(left, rest) {
        left = left_behind(left, byte);
        rest = behind;
    }
    &text[..text.len() - rest.len()]
}

// Obeys lines one after the other.
fn obey_lines(prompt: &mut Prompt, lines: &[u8], out: &mut Vec<u8>) -> Result<(), AllocError>
    ensures { OnOk result (Puts (session_in prompt.old) (session_in prompt.new) out.old.items out.new.items) }
{
    let mut rest = lines;
    'lines: while let Some((line, behind)) = next_line(rest) {
        say_words(prompt, line, out)?;
        rest = behind;
    }
    Ok(())
}

// A prompt on a chart that has obeyed these lines.
fn play_lines(alloc: Global, chart: &[u8], lines: &[u8]) -> Result<Prompt, ReplayError>
    ensures { IfOk result (λ prompt. IsPlayedOn chart.now (session_in prompt)) }
{
    let mut prompt = open_prompt(alloc, chart)?;
    let mut out = Vec::new(alloc);
    obey_lines(&mut prompt, lines, &mut out)?;
    Ok(prompt)
}

/// A prompt on the text of a chart whose script is the first lines of this one, so many of them; None where that isn't so, as where the
/// script isn't one of a session on this chart. `Chart` is answered where the chart is refused, `Memory` where memory was.
pub fn play_front(
    alloc: Global,
    chart: &[u8],
    script: &[u8],
    count: usize,
) -> Result<Option<Prompt>, ReplayError>
    ensures played { IfOk result (λ back. IfSome back (λ prompt. IsPlayedOn chart.now (session_in prompt))) }
    ensures front { IfOk result (λ back. IfSome back (λ prompt. script_in (session_in prompt) ≡ first_lines count script.now)) }
{
    let front = front_of(script, count);
    let prompt = play_lines(alloc, chart, front)?;
    if prompt.session().script() == front {
        Ok(Some(prompt))
    } else {
        Ok(None)
    }
}
