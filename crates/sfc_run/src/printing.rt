//! The lines of the feed, and its alarms.

ghost use Rattle.std.specs.Prelude.{◌≡◌, ◌++◌, [], false, IfOk, IsSome, OnOk};
ghost use mathlib.Core.List.{IsPrefix};
ghost use Rattle.sfc_control.specs.Tails.{taken, coming};
ghost use Rattle.sfc_run.specs.Printing.{FollowsRun, GoesOn, Prints, Reaches, steered_of};
ghost use Rattle.sfc_run.specs.declared.printing.PrintFault.TheVariants.{Write as WriteVariant, Memory};

use crate::alarms::Told;
use crate::answering::answers_to;
use crate::asks::Asks;
use crate::draining::{Drained, RowsEnded};
use crate::pace::LONG;
use crate::recording::Recorder;
use crate::teller::Teller;
use crate::watch::{Look, Texts, Watch};
use sfc_base::write_fault::{WriteFault, put_all};
use sfc_control::controller::Controller;
use sfc_control::opened_with::OpenedWith;
use std::alloc::{AllocError, Global};
use std::io::Write;
use std::sync::Wait;
use std::time::Duration;

/// Why printing ended early.
#[derive(Clone, Copy, Debug, PartialEq, Eq)]
pub enum PrintFault {
    /// The writer failed or took no byte.
    Write,
    /// Memory was refused.
    Memory,
}

impl From<AllocError> for PrintFault {
    ghost from_gives = { λ _ fault. fault ≡ Memory };

    fn from(_error: AllocError) -> PrintFault {
        PrintFault::Memory
    }
}

impl From<WriteFault> for PrintFault {
    ghost from_gives = { λ _ fault. fault ≡ WriteVariant };

    fn from(_fault: WriteFault) -> PrintFault {
        PrintFault::Write
    }
}

/// What is read of a run, and where its lines, its alarms, what is shown and what is recorded go.
#[derive(Drop)]
pub struct Printing<W: Write, T: Write, F: Write> {
    /// What is read.
    pub watch: Watch,
    /// What lines are written to.
    pub w: W,
    /// What alarms are told to.
    pub teller: Teller<T>,
    /// What is told what is shown.
    pub shower: Teller<W>,
    /// What is told answers to lines that ask.
    pub answers: Teller<W>,
    /// What records commands.
    pub recorder: Recorder<F, T>,
}

/// What is beside the rows of a feed.
#[derive(Drop)]
pub struct Beside<'a, L: OpenedWith> {
    /// What the feed tells of, and what wakes who takes its rows.
    pub controller: &'a Controller<L>,
    /// Lines that ask how all stands.
    pub asks: &'a Asks,
}

// Records rows that have come, 256 at most, prints them, tells their alarms, and shows what has changed; what the look for them came to.
fn print_some<W: Write, T: Write, F: Write>(
    alloc: Global,
    printing: &mut Printing<W, T, F>,
    ended: Option<RowsEnded>,
) -> Result<Look, PrintFault>
    requires { GoesOn printing.old.watch }
    ensures ready { GoesOn printing.new.watch }
    ensures steered { steered_of printing.new.watch ≡ steered_of printing.old.watch }
    ensures lines { Prints W.contents T.contents F.contents printing.old printing.new result }
    ensures known { OnOk result (Reaches printing.old.watch.tail printing.new.watch.tail) }
    ensures rest { IfOk result (λ found. found.some ≡ false → coming printing.new.watch.tail ≡ []) }
    ensures drained { IfOk result (λ found. IsSome found.drained → coming printing.new.watch.tail ≡ []) }
{
    let mut texts = Texts {
        lines: Vec::new(alloc),
        told: Told {
            alarms: Vec::new(alloc),
            changes: Vec::new(alloc),
            record: Vec::new(alloc),
        },
    };
    let some = printing.watch.append_rows(alloc, &mut texts, ended)?;
    printing
        .recorder
        .write(&texts.told.record, printing.watch.alarms.recording);
    printing.teller.tell(&texts.told.alarms);
    put_all(&mut printing.w, &texts.lines)?;
    printing.shower.tell(&texts.told.changes);
    Ok(some)
}

/// Takes rows as they come and writes the line of each whose command is wanted: its number, and the line of its command. Beside it alarms
/// are told, and behind the lines it is shown what has changed; before all of that commands are recorded, where they are. It ends once it is
/// told that no more rows come, and none is left; a look that was begun behind that word is what it answers. Where none has come it waits
/// until its bell is rung, a tenth of a second at most. Lines that ask are answered behind the rows of a round. Where rows were lost, and none
/// has come, the run is saved under its lock; behind the row of the newest command that stands behind that all goes on from there.
///
/// `Write` is answered where the writer failed or took no byte, `Memory` where memory was refused; then a front of the lines was
/// written, and no more rows are taken. Faults of the writers of alarms and of what is shown are passed over; that of a record is told, and
/// then nothing more is recorded.
pub fn print_rows<L: OpenedWith, R: Wait, W: Write, T: Write, F: Write>(
    rt: &R,
    alloc: Global,
    printing: &mut Printing<W, T, F>,
    beside: &Beside<'_, L>,
) -> Result<Drained, PrintFault>
    requires { FollowsRun L.plant L.table printing.old.watch }
    ensures follows { FollowsRun L.plant L.table printing.new.watch }
    ensures lines { Prints W.contents T.contents F.contents printing.old printing.new result }
    ensures known { OnOk result (IsPrefix (taken printing.old.watch.tail ++ coming printing.old.watch.tail)
        (taken printing.new.watch.tail)) }
    ensures rest { OnOk result (coming printing.new.watch.tail ≡ []) }
{
    'rounds: for _ in rt.forever() {
        let ended = RowsEnded::of(beside.controller.bells());
        let some = print_some(alloc, printing, ended)?;
        let answers = answers_to(rt, alloc, &printing.watch.alarms, beside.asks);
        printing.answers.tell(&answers);
        if let Some(drained) = some.drained {
            return Ok(drained);
        }
        let goes_on = some.some || printing.watch.alarms.follower.is_level();
        let resumption = &mut printing.watch.resumption;
        let is_saved = resumption.catch_up(rt, beside.controller, goes_on);
        if !some.some && !is_saved {
            let bells = beside.controller.bells();
            bells.wait_for_rows(rt, Duration::from_millis(LONG));
        }
    }
    unreachable!()
}
