//! A report that writes nothing.

ghost use Rattle.std.specs.Prelude.{[], Some, ⊤};

use crate::sfc_debug::debugger::Debugger;
use crate::sfc_debug::timed::Timed;
use sfc_events::command::Answer;
use sfc_events::refusal::Refusal;
use sfc_page::page::Page;
use sfc_replay::report::Report;
use std::alloc::{AllocError, Global};

/// Nothing is written of a run.
#[derive(Clone, Copy, Debug)]
pub struct Quiet;

impl Report for Quiet {
    ghost lines = { λ _. Some (record { command = λ _ _ _. []; closing = λ _. [] }) };

    ghost fits = { λ _ _. ⊤ };

    ghost agrees = { λ _ _ _. ⊤ };

    fn put_answer(
        &mut self,
        _page: &mut Page,
        _debugger: &Debugger,
        _timed: &Timed,
        _answer: &Result<Answer, Refusal>,
    ) -> Result<(), AllocError> {
        Ok(())
    }

    fn append_closing(
        &mut self,
        _alloc: Global,
        _out: &mut Vec<u8>,
        _debugger: &Debugger,
    ) -> Result<(), AllocError> {
        Ok(())
    }
}
