//! The text of a run: the lines of commands and of the image.

ghost use Rattle.sfc_output.specs.Memories.{Fits};
ghost use Rattle.sfc_output.specs.sfc_debug.Steered.{Steered};

use crate::report::Report;
use crate::sfc_debug::debugger::Debugger;
use crate::sfc_debug::timed::Timed;
use sfc_events::command::Answer;
use sfc_events::refusal::Refusal;
use sfc_output::answer::put_answer;
use sfc_output::image_line::append_image;
use sfc_output::kept_lines::KeptLines;
use sfc_page::page::Page;
use std::alloc::{AllocError, Global};

/// The text of a run: the lines of each command, and at the end a line for each variable.
pub struct Text {
    // what is kept of lines, so that they need not be put together anew
    memory: KeptLines,
}

// By hand, so that a caller that drops one proves one call.
impl Drop for Text {
    fn drop(self) {
        let Text { memory: _ } = self;
    }
}

impl Text {
    /// The text of a run that begins.
    pub fn new(alloc: Global) -> Text
        ensures { (steered : Steered) → Fits steered.plant result.memory }
    {
        Text {
            memory: KeptLines::new(alloc),
        }
    }
}

impl Report for Text {
    ghost use Rattle.std.specs.Prelude.{Some, ⊤};
    ghost use Rattle.sfc_output.specs.Memories.{Fits};
    ghost use Rattle.sfc_output.specs.Output.{text_of};

    ghost lines = { λ steered. Some (text_of steered) };

    ghost fits = { λ text steered. Fits steered.plant text.memory };

    ghost agrees = { λ _ _ _. ⊤ };

    fn put_answer(
        &mut self,
        page: &mut Page,
        debugger: &Debugger,
        timed: &Timed,
        answer: &Result<Answer, Refusal>,
    ) -> Result<(), AllocError> {
        put_answer(page, &mut self.memory, debugger, &timed.command, answer)
    }

    fn append_closing(
        &mut self,
        _alloc: Global,
        out: &mut Vec<u8>,
        debugger: &Debugger,
    ) -> Result<(), AllocError> {
        append_image(out, debugger.resource())
    }
}
