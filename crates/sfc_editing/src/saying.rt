//! Lines that a prompt obeys.

ghost use Rattle.std.specs.Prelude.{OnOk};
ghost use Rattle.sfc_prompt.specs.Prompts.{session_in};
ghost use Rattle.sfc_prompt.specs.Transcripts.{Puts};

use crate::sfc_debug::mode::Mode;
use crate::unkept::Unkept;
use sfc_prompt::archive::Archive;
use sfc_prompt::prompt::{Flow, Prompt};
use sfc_session::session::Session;
use std::alloc::AllocError;

/// More than the steps that one line takes.
const MOST: u64 = 100_001;

// Takes the steps that are under way.
fn take_steps(prompt: &mut Prompt, out: &mut Vec<u8>) -> Result<(), AllocError>
    ensures { OnOk result (Puts (session_in prompt.old) (session_in prompt.new) out.old.items out.new.items) }
{
    'steps: for _ in 0..MOST {
        if !prompt.is_under_way() {
            break;
        }
        prompt.go_on(out)?;
    }
    Ok(())
}

/// Obeys a line, as `Prompt::obey`, and takes the steps that it begins; what is answered is put at the end of `out`. Whether the line asks
/// for more lines. The one error is that memory was refused; then the prompt is of no more use.
pub fn say<A: Archive>(
    prompt: &mut Prompt,
    line: &[u8],
    archive: &mut A,
    out: &mut Vec<u8>,
) -> Result<Flow, AllocError>
    ensures { OnOk result (Puts (session_in prompt.old) (session_in prompt.new) out.old.items out.new.items) }
{
    let flow = prompt.obey(line, archive, out)?;
    take_steps(prompt, out)?;
    Ok(flow)
}

/// The same of a line that keeps no script.
pub fn say_words(prompt: &mut Prompt, words: &[u8], out: &mut Vec<u8>) -> Result<(), AllocError>
    ensures { OnOk result (Puts (session_in prompt.old) (session_in prompt.new) out.old.items out.new.items) }
{
    let mut archive = Unkept;
    let _ = say(prompt, words, &mut archive, out)?;
    Ok(())
}

/// Whether the resource is halted.
pub fn is_halted(session: &Session) -> bool {
    session.debugger().mode() == Mode::Stopped
}

/// Lets a halted resource run on, at the instant of the last accepted command: it has been halted for no time. One that runs stays as it
/// is. The one error is that memory was refused; then the prompt is of no more use.
pub fn let_go(prompt: &mut Prompt, out: &mut Vec<u8>) -> Result<(), AllocError>
    ensures { OnOk result (Puts (session_in prompt.old) (session_in prompt.new) out.old.items out.new.items) }
{
    if is_halted(prompt.session()) {
        say_words(prompt, b"GO", out)?;
    }
    Ok(())
}
