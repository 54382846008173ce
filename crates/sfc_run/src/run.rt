//! A chart in real time.

ghost use Rattle.std.specs.Prelude.{◌≡◌, ◌<◌, ◌≤◌, ◌+◌, [], IfSome, length};
ghost use Rattle.sfc_plant.specs.Plants.{PlantData};
ghost use Rattle.sfc_control.specs.sfc_debug.Agreement.{Agrees, plant_of, table_of, mask_of};
ghost use Rattle.sfc_control.specs.sfc_debug.Openings.{IsOpeningFor};
ghost use Rattle.sfc_control.specs.sfc_debug.Steered.{steered_by};
ghost use Rattle.sfc_run.specs.Following.{debugger_in};
ghost use Rattle.sfc_run.specs.Printing.{GoesOn};
ghost use Rattle.sfc_run.specs.Running.{IsRunStatus};
ghost use Rattle.sfc_run.specs.Screens.{before_in};

use crate::alarms::Alarms;
use crate::asks::Asks;
use crate::audit::{Returned, audit, gather, put_audit};
use crate::console::Console;
use crate::follower::Follower;
use crate::keeper::Keeper;
use crate::losses::Losses;
use crate::overruns::OverrunsTold;
use crate::picked::{PickFault, Picked, shows_of};
use crate::points::Points;
use crate::printing::{PrintFault, Printing};
use crate::real_time::RealTime;
use crate::recording::Recorder;
use crate::resumption::Resumption;
use crate::run_faults::RunFaults;
use crate::run_opening::{RunDebuggers, open_run, posts_of};
use crate::run_threads::{Left, Seated, run_threads};
use crate::screen::{Screen, Shows};
use crate::session::Desk;
use crate::sfc_debug::debugger::Debugger;
use crate::sfc_debug::opening::DebugOpening;
use crate::stopwatch::{Stopwatch, append_longest, stopwatches};
use crate::streams::{Asked, Streams};
use crate::teller::Teller;
use crate::timing::Timing;
use crate::watch::Watch;
use crate::worker_ends::tell_ends;
use sfc_base::write_fault::put_all;
use sfc_control::clock::Clock;
use sfc_control::controller::Controller;
use sfc_control::opened_with::OpenedWith;
use sfc_control::tail::Tail;
use sfc_plant::plant::Plant;
use sfc_replay::replay_error::ReplayError;
use std::alloc::{AllocError, Global};
use std::io::{Read, Write};
use std::marker::Brand;
use std::sync::Wait;
use std::sync::ledger::Blank;
use std::thread::Threads;
use std::time;

/// How many rows the feed has room for.
const FEED: usize = 65_536;

// Writes the last line.
fn put_last<W: Write>(alloc: Global, accepted: u64, w: &mut W) -> RunFaults {
    match put_audit(alloc, accepted, w) {
        Ok(()) => RunFaults::none(),
        Err(PrintFault::Write) => RunFaults::of_write(),
        Err(PrintFault::Memory) => RunFaults::of_memory(),
    }
}

// The audit, and the last line, unless writing failed before.
fn close<L: OpenedWith, W: Write>(
    alloc: Global,
    controller: Controller<L>,
    returned: Returned<L>,
    w: &mut W,
    faults: RunFaults,
) -> RunFaults
    requires some { 0 < length returned.seats.items }
    requires all { length returned.seats.items ≡ L.parts }
{
    let Returned {
        seats,
        receipts,
        memory,
    } = returned;
    let faults = if memory {
        faults.with(RunFaults::of_memory())
    } else {
        faults
    };
    match audit(controller, seats, receipts) {
        None => faults.with(RunFaults::of_mismatch()),
        Some(audited) => {
            let faults = faults.with(RunFaults::of_faulted(audited.has_fault));
            if faults.write {
                return faults;
            }
            faults.with(put_last(alloc, audited.accepted, w))
        }
    }
}

// What is left of a run is put together, and closed where all of it is there.
fn finish<L: OpenedWith, C: Clock + Drop, W: Write + Drop>(
    alloc: Global,
    controller: Controller<L>,
    console: Console<L, C>,
    left: Left<L, C, W>,
) -> RunFaults
    requires { IfSome left.ends (λ ends. length ends.items + 2 ≡ L.parts) }
{
    let Left {
        keeper,
        ends,
        w,
        faults,
    } = left;
    let (Some(keeper), Some(ends), Some(mut w)) = (keeper, ends, w) else {
        return faults;
    };
    match gather(alloc, console, keeper, ends) {
        Ok(returned) => close(alloc, controller, returned, &mut w, faults),
        Err(_) => faults.with(RunFaults::of_memory()),
    }
}

// What is asked of a run, with what is shown of it.
#[derive(Drop)]
struct Ready<W: Write, T: Write, F: Write> {
    asked: Asked<W, T, F>,
    shows: Shows,
    timing: Timing,
}

// What the thread that prints begins with: two debuggers, of which the second one follows a row behind, and an opening for them.
fn printing_of<W: Write, T: Write, F: Write>(
    alloc: Global,
    tail: Tail,
    followers: (Debugger, Debugger),
    opening: DebugOpening,
    ready: Ready<W, T, F>,
) -> Printing<W, T, F>
    requires sizes { IsOpeningFor (steered_by followers.0).plant opening }
    requires alike { steered_by followers.1 ≡ steered_by followers.0 }
    ensures goes_on { GoesOn result.watch }
    ensures tail { result.watch.tail ≡ tail }
    ensures follower { debugger_in result.watch.alarms.follower ≡ followers.0 }
    ensures before { before_in result.watch.alarms.screen ≡ followers.1 }
    ensures shows { result.watch.alarms.screen.shows ≡ ready.shows }
    ensures wanted { result.watch.wanted ≡ ready.asked.wanted }
    ensures writers { (result.w ≡ ready.asked.w) × (result.teller.w ≡ ready.asked.tells) × (result.shower.w ≡ ready.asked.shower) }
    ensures recorder { (result.recorder.file.w ≡ ready.asked.record) × (result.recorder.notes.w ≡ ready.asked.notes) }
    ensures recording { result.watch.alarms.recording ≡ ready.asked.recording }
{
    let Ready {
        asked,
        shows,
        timing,
    } = ready;
    let Asked {
        w,
        tells,
        shower,
        answers,
        record,
        notes,
        recording,
        picked: _,
        timing: _,
        wanted,
        history: _,
    } = asked;
    let (follower, before) = followers;
    let alarms = Alarms {
        follower: Follower::new(follower),
        overruns: OverrunsTold::new(),
        losses: Losses::none(),
        screen: Screen::new(shows, before),
        recording,
        points: Points::none(alloc),
        timing,
    };
    Printing {
        watch: Watch {
            tail,
            wanted,
            alarms,
            resumption: Resumption::new(opening),
        },
        w,
        teller: Teller::new(tells),
        shower: Teller::new(shower),
        answers: Teller::new(answers),
        recorder: Recorder::new(record, notes),
    }
}

// Tells how long the longest scans were, where that is asked for; faults of the writer are passed over.
fn tell_longest<E: Write>(
    alloc: Global,
    plant: &Plant,
    watches: Option<&[Stopwatch]>,
    errors: &mut E,
) -> RunFaults {
    let Some(watches) = watches else {
        return RunFaults::none();
    };
    let mut text = Vec::new(alloc);
    match append_longest(&mut text, plant, watches) {
        Ok(()) => {
            let _ = put_all(errors, &text);
            RunFaults::none()
        }
        Err(_) => RunFaults::of_memory(),
    }
}

// Runs a debugger with a seat for each task, one for the session, and one for the run itself. The one error is that memory was refused
// before the threads began.
fn run_with<
    L: OpenedWith + Send + Sync,
    R: Threads + Wait + time::Clock + Sync,
    S: Read,
    W: Write + Send + Drop,
    T: Write + Send + Drop,
    F: Write + Send + Drop,
    E: Write,
>(
    rt: &R,
    alloc: Global,
    blank: Blank,
    opened: RunDebuggers,
    ready: Ready<W, T, F>,
    streams: &mut Streams<'_, S, E>,
) -> Result<RunFaults, AllocError>
    requires name { blank.name ≡ L.name }
    requires parts { blank.parts ≡ L.parts }
    requires one_each { blank.parts ≡ length (plant_of opened.debugger).tasks + 2 }
    requires plant { plant_of opened.debugger ≡ L.plant }
    requires table { table_of opened.debugger ≡ L.table }
    requires mask { mask_of opened.debugger ≡ L.mask }
    requires limit { ready.asked.history ≡ L.limit }
    requires untold { Agrees opened.debugger [] }
    requires same { steered_by opened.follower ≡ steered_by opened.debugger }
    requires alike { steered_by opened.before ≡ steered_by opened.follower }
{
    let RunDebuggers {
        debugger,
        names,
        follower,
        before,
    } = opened;
    let count = debugger.resource().plant().tasks().len() as u8 + 2;
    let limit = ready.asked.history;
    let (controller, seats, tail) = Controller::<L>::open(
        alloc, blank, debugger, count, limit, FEED,
    )?;
    let mut seats = seats;
    let Some(seat) = seats.pop() else {
        unreachable!()
    };
    let Some(own) = seats.pop() else {
        unreachable!()
    };
    let clock = RealTime::start(rt);
    let keeper = Keeper {
        console: Console::new(alloc, own, clock.another()),
        most: limit / 2,
    };
    let watches = stopwatches(alloc, names.resource().plant())?;
    let posts = posts_of(alloc, seats, &clock, controller.bells(), &watches)?;
    let mut console = Console::new(alloc, seat, clock);
    let timed = ready.asked.timing;
    let opening = DebugOpening::new(alloc, &follower)?;
    let printing = printing_of(alloc, tail, (follower, before), opening, ready);
    let asks = Asks::new(alloc)?;
    let left = {
        let desk = Desk {
            rt,
            alloc,
            controller: &controller,
            names: &names,
            asks: &asks,
        };
        let seated = Seated {
            console: &mut console,
            keeper,
        };
        run_threads(&desk, posts, seated, printing, streams)
    };
    let longest = if timed {
        Some(watches.as_slice())
    } else {
        None
    };
    let told = tell_longest(alloc, names.resource().plant(), longest, streams.errors);
    let ended = match &left.ends {
        Some(ends) => tell_ends(
            alloc,
            names.resource().plant(),
            ends.as_slice(),
            streams.errors,
        ),
        None => RunFaults::none(),
    };
    Ok(
        finish(alloc, controller, console, left)
            .with(told)
            .with(ended),
    )
}

// Tells an error, where a fault of the writer is passed over: the exit status.
fn end_with<E: Write>(alloc: Global, error: ReplayError, errors: &mut E) -> u8
    ensures { IsRunStatus result }
{
    if let Ok(text) = error.to_string(alloc) {
        if put_all(errors, text.as_bytes()).is_ok() {
            let _ = put_all(errors, b"\n");
        }
    }
    error.status()
}

// Tells what went wrong in a run, where a fault of the writer is passed over: the exit status.
fn tell_faults<E: Write>(alloc: Global, faults: RunFaults, errors: &mut E) -> u8
    ensures { IsRunStatus result }
{
    let mut text = Vec::new(alloc);
    if faults.append_text(&mut text).is_ok() {
        let _ = put_all(errors, &text);
    }
    faults.status()
}

// What measures how late scans are, where that is asked for.
fn timing_of(alloc: Global, plant: &Plant, is_asked: bool) -> Result<Timing, AllocError> {
    if is_asked {
        Timing::of(alloc, plant)
    } else {
        Ok(Timing::none(alloc))
    }
}

// Tells of names that are wrong, where a fault of the writer is passed over: the exit status.
fn tell_names<E: Write>(alloc: Global, fault: PickFault, picked: &Picked, errors: &mut E) -> u8
    ensures { IsRunStatus result }
{
    let mut text = Vec::new(alloc);
    match fault.append_text(&mut text, picked) {
        Ok(()) => {
            let _ = put_all(errors, &text);
            1
        }
        Err(_) => tell_faults(alloc, RunFaults::of_memory(), errors),
    }
}

/// Runs a chart in real time, its clock from 0: a worker for each task in a thread of its own, a session that obeys the lines of `commands`
/// as they come, and a thread that writes a line for each accepted command that is wanted: its number, and its line as `replay` writes it,
/// without lines of instances. At the end of `commands` the session sends End. Then history, receipts and seats are audited, and the last
/// line is `audit ok` and the number of accepted commands; it isn't written after a fault of the writer, where they don't agree, or where
/// memory was refused before.
///
/// Whatever is wanted, alarms are told as they happen: a scan of a program that a fault ended, and one that hit a breakpoint, by all of the
/// lines that `replay` writes; overruns by the line of their scan, at most once a second for each task; how many commands were lost in the
/// feed. What is picked is shown where it changes (`Screen::show`). What else is wrong is told on `errors`: why the chart is refused; a line that is no command, by its number; why a command is
/// refused; at the end how late scans were and how long the longest ones took, where that is asked for, a task whose scans ended before the session did, and why, and a line for each fault of the run. Faults of these
/// writers are passed over. At most 1,048,577 bytes are taken from the chart. As many commands are held as is asked, at most: where half of
/// them are, the run itself sends Epoch. The feed has room for 65,536 rows; a row that finds it full isn't written.
///
/// The answer is the exit status: 0; 1 where the chart is refused, a picked name is none or has no such value, a program stood faulted at the end, scans of a task ended early, or the
/// audit fails; 3 where a reader or the writer of lines failed; 4 where memory or a thread was refused. Of several the first of 4, 3, 1. It
/// waits for the end of `commands`, and for locks and threads.
pub fn run_chart<
    R: Threads + Wait + time::Clock + Sync,
    C: Read,
    S: Read,
    W: Write + Send + Drop,
    T: Write + Send + Drop,
    F: Write + Send + Drop,
    E: Write,
>(
    rt: &R,
    alloc: Global,
    chart: &mut C,
    asked: Asked<W, T, F>,
    streams: &mut Streams<'_, S, E>,
) -> u8
    ensures { IsRunStatus result }
{
    let opened = match open_run(alloc, chart) {
        Ok(opened) => opened,
        Err(error) => return end_with(alloc, error, streams.errors),
    };
    let shows = match shows_of(alloc, opened.names.resource(), &asked.picked) {
        Ok(shows) => shows,
        Err(fault) => return tell_names(alloc, fault, &asked.picked, streams.errors),
    };
    let Ok(timing) = timing_of(alloc, opened.names.resource().plant(), asked.timing) else {
        return tell_faults(alloc, RunFaults::of_memory(), streams.errors);
    };
    let ready = Ready {
        asked,
        shows,
        timing,
    };
    let seats = opened.debugger.resource().plant().tasks().len() as u64 + 2;
    let ran = run_with::<Brand, R, S, W, T, F, E>(
        rt,
        alloc,
        Blank::new(seats),
        opened,
        ready,
        streams,
    );
    let faults = match ran {
        Ok(faults) => faults,
        Err(_) => RunFaults::of_memory(),
    };
    tell_faults(alloc, faults, streams.errors)
}
