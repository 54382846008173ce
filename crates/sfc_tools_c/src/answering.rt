//! Texts that are given to a caller's buffer.

ghost use Rattle.std.specs.Prelude.{◌≡◌};
ghost use Rattle.sfc_tools_c.specs.Texts.{Gives, GivesText};

use sfc_tools::tool_error::ToolError;

/// The caller's array is too short, and nothing was done.
const TOO_SHORT: i32 = -6;

// Writes a text to the front of the buffer, and answers 0; where the buffer is too short, nothing is written, and -6 is the answer.
// `needed` tells the text's length in both cases.
fn give_text(text: &[u8], into: &mut [u8], needed: &mut usize) -> i32
    ensures { GivesText text.now into.old into.new needed.new result }
{
    *needed = text.len();
    if text.len() > into.len() {
        return TOO_SHORT;
    }
    into[..text.len()].copy_from_slice(text);
    0
}

/// The same of a text that there is; else the code that tells why there is none, with nothing written.
pub fn give(answer: Result<Vec<u8>, ToolError>, into: &mut [u8], needed: &mut usize) -> i32
    ensures { Gives answer into.old into.new needed.new result }
{
    match answer {
        Ok(text) => give_text(&text, into, needed),
        Err(error) => {
            *needed = 0;
            error.code()
        }
    }
}
