//! What is read of a run.

ghost use Rattle.std.specs.Prelude.{◌≡◌, ◌∷◌, ◌++◌, [], false, IfOk, IsSome, OnOk};
ghost use Rattle.sfc_control.specs.Tails.{coming};
ghost use Rattle.sfc_run.specs.Alarms.{Hears};
ghost use Rattle.sfc_run.specs.Printing.{Gathers, GoesOn, Reaches, line_if, steered_of};

use crate::alarms::{Alarms, Told};
use crate::draining::{Drained, Found, RowsEnded, look};
use crate::resumption::Resumption;
use crate::sfc_debug::trace_mask::TraceMask;
use crate::sfc_output::command::append_row;
use sfc_control::tail::Tail;
use sfc_events::command::TraceRow;
use std::alloc::{AllocError, Global};

/// How many rows are taken at a time, at most.
const ROWS: usize = 256;

/// What is read of a run: its feed, and what stands behind the lines and the alarms of its rows.
#[derive(Drop)]
pub struct Watch {
    /// What rows are taken from.
    pub tail: Tail,
    /// Which commands have lines.
    pub wanted: TraceMask,
    /// What stands behind the alarms.
    pub alarms: Alarms,
    /// Where the debugger that follows goes on behind lost rows.
    pub resumption: Resumption,
}

/// What rows come to.
#[derive(Drop)]
pub struct Texts {
    /// Their lines.
    pub lines: Vec<u8>,
    /// What is told, shown and recorded of them.
    pub told: Told,
}

/// What a look for rows comes to.
#[derive(Clone, Copy)]
pub struct Look {
    /// Whether there were any.
    pub some: bool,
    /// Where none is left and no more come.
    pub drained: Option<Drained>,
}

impl Watch {
    // Puts the line of a row at the end, where its command is wanted.
    fn append_line(&self, out: &mut Vec<u8>, row: TraceRow) -> Result<(), AllocError>
        ensures { OnOk result (out.new.items ≡ out.old.items ++ line_if self.now.wanted (steered_of self.now) row) }
    {
        if self.wanted.wants(row.command) {
            append_row(out, self.alarms.follower.debugger(), row)
        } else {
            Ok(())
        }
    }

    // Puts the line of a row, and what is told of it, at the end of each text; and where the run was saved behind it, all goes on from there.
    fn append_both(
        &mut self,
        alloc: Global,
        texts: &mut Texts,
        row: TraceRow,
    ) -> Result<(), AllocError>
        requires { GoesOn self.old }
        ensures ready { GoesOn self.new }
        ensures tail { self.new.tail ≡ self.old.tail }
        ensures wanted { self.new.wanted ≡ self.old.wanted }
        ensures line { OnOk result (texts.new.lines.items ≡ texts.old.lines.items ++ line_if self.old.wanted (steered_of self.old) row) }
        ensures steered { steered_of self.new ≡ steered_of self.old }
        ensures hears { OnOk result (Hears self.old.alarms self.new.alarms (row ∷ []) texts.old.told texts.new.told) }
    {
        self.append_line(&mut texts.lines, row)?;
        self.alarms.take(alloc, &mut texts.told, row)?;
        self.resumption
            .resume(alloc, &mut texts.told, &mut self.alarms)
    }

    /// Takes rows that have come, 256 at most, and puts their lines and what is told of them at the end of the texts; whether there were
    /// any, and whether all were taken that will ever come, where the word of that was known before. Where the run was saved behind the newest
    /// row, all goes on from there. The error is that memory was refused.
    pub fn append_rows(
        &mut self,
        alloc: Global,
        texts: &mut Texts,
        ended: Option<RowsEnded>,
    ) -> Result<Look, AllocError>
        requires { GoesOn self.old }
        ensures ready { GoesOn self.new }
        ensures steered { steered_of self.new ≡ steered_of self.old }
        ensures rows { Gathers self.old self.new texts.old texts.new result }
        ensures known { OnOk result (Reaches self.old.tail self.new.tail) }
        ensures rest { IfOk result (λ found. found.some ≡ false → coming self.new.tail ≡ []) }
        ensures drained { IfOk result (λ found. IsSome found.drained → coming self.new.tail ≡ []) }
    {
        self.resumption
            .resume(alloc, &mut texts.told, &mut self.alarms)?;
        'rows: for count in 0..ROWS {
            match look(&mut self.tail, ended) {
                Found::Row(row) => self.append_both(alloc, texts, row)?,
                Found::Nothing(drained) => {
                    return Ok(Look {
                        some: 0 < count,
                        drained,
                    });
                }
            }
        }
        Ok(Look {
            some: true,
            drained: None,
        })
    }
}
