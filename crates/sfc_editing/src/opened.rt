//! A prompt on a chart's text.

ghost use Rattle.std.specs.Prelude.{IfOk, IfErr, Err};
ghost use Rattle.sfc_replay.specs.Acceptance.{Accepts};
ghost use Rattle.sfc_prompt.specs.Prompts.{session_in};
ghost use Rattle.sfc_editing.specs.Edited.{IsOpenedOn};

use crate::sfc_debug::trace_mask::TraceMask;
use sfc_prompt::prompt::Prompt;
use sfc_replay::opening::debugger_of_text;
use sfc_replay::replay_error::ReplayError;
use sfc_session::session::Session;
use std::alloc::Global;

/// A prompt with a session on the plant that the bytes of a chart are, to which nothing was said. `Chart` is answered where they are
/// refused, `Memory` where memory was.
pub fn open_prompt(alloc: Global, text: &[u8]) -> Result<Prompt, ReplayError>
    ensures opened { IfOk result (λ prompt. IsOpenedOn text.now (session_in prompt)) }
    ensures refused { IfErr result (λ error. Accepts text.now (Err error)) }
{
    let debugger = debugger_of_text(alloc, text, 1, TraceMask(0))?;
    Ok(Prompt::new(alloc, Session::new(alloc, debugger)))
}
