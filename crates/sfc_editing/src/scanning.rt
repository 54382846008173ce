//! Scans, and other commands that are looked at.

ghost use Rattle.std.specs.Prelude.{OnOk};
ghost use Rattle.sfc_prompt.specs.Prompts.{session_in};
ghost use Rattle.sfc_prompt.specs.Transcripts.{Puts};

use crate::saying::say_words;
use sfc_events::command::{Answer, TraceRow};
use sfc_prompt::prompt::Prompt;
use sfc_session::session::Session;
use std::alloc::AllocError;

/// The command that was accepted last, where more were accepted than so many.
pub fn newest_row(session: &Session, before: usize) -> Option<TraceRow> {
    let rows = session.rows();
    if rows.len() <= before {
        return None;
    }
    match rows.last() {
        Some(row) => Some(*row),
        None => None,
    }
}

/// Obeys a line: what it answers, None where no command was accepted. What is told is put at the end of `out`. The one error is that memory
/// was refused; then the prompt is of no more use.
pub fn command(
    prompt: &mut Prompt,
    words: &[u8],
    out: &mut Vec<u8>,
) -> Result<Option<Answer>, AllocError>
    ensures { OnOk result (Puts (session_in prompt.old) (session_in prompt.new) out.old.items out.new.items) }
{
    let before = prompt.session().rows().len();
    say_words(prompt, words, out)?;
    match newest_row(prompt.session(), before) {
        Some(row) => Ok(Some(row.answer)),
        None => Ok(None),
    }
}
