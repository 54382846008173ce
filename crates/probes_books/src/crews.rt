//! Workers in threads of their own at one controller, beside a seat that calls.

use crate::books::{check_taken, debugger_of};
use crate::sessions::{Call, Change, Job, Left, Place, Plan, Times, When, held};
use samples::charts::{one_step, sixteen_tasks, two_tasks};
use sfc_base::ids::VarId;
use sfc_base::value::Value;
use sfc_control::book::Book;
use sfc_control::call_error::CallError;
use sfc_control::receipt::Receipt;
use sfc_control::work::Why;
use sfc_events::command::{Answer, Command};
use sfc_events::refusal::Refusal;
use std::alloc::Global;
use std::process::Abort;
use std::sync::Wait;
use std::test::Fail;
use std::thread::Threads;
use std::time;

const READ: Command = Command::Read(VarId(0));

const DARK: Answer = Answer::Value(Value::Bool(false));

const LIT: Answer = Answer::Value(Value::Bool(true));

// A clock that stands still.
const STILL: Times = Times::Listed([0, 0, 0, 0]);

// A session over a chart, and what it has to leave: what the calls are answered, why the workers end, the indices of all receipts,
// and what closing comes to, as the number of entries or the seat and the index that are wrong.
#[derive(Clone, Copy)]
struct Case {
    chart: &'static [u8],
    plan: Plan,
    answers: &'static [Result<(u64, Answer), CallError>],
    whys: &'static [Why],
    indices: &'static [u64],
    closed: Result<usize, (u8, u64)>,
}

// What the calls were answered.
fn check_answers(
    rt: &impl Abort,
    answers: &[Result<Receipt, CallError>],
    wanted: &[Result<(u64, Answer), CallError>],
) {
    assert_eq!(rt; answers.len(), wanted.len());
    for (answer, wanted) in answers.iter().zip(wanted) {
        assert_eq!(rt;
            answer.map(|receipt| (receipt.index, receipt.answer)),
            *wanted
        );
    }
}

// The indices of the receipts.
fn check_indices(rt: &impl Abort, receipts: &[Receipt], wanted: &[u64]) {
    assert_eq!(rt; receipts.len(), wanted.len());
    for (receipt, wanted) in receipts.iter().zip(wanted) {
        assert_eq!(rt; receipt.index, *wanted);
    }
}

// What closing came to.
fn check_closed(rt: &impl Abort, left: &Left, wanted: Result<usize, (u8, u64)>) {
    let closed = match &left.closed {
        Ok(book) => Ok(book.entries().len()),
        Err(wrong) => Err((wrong.seat, wrong.index)),
    };
    assert_eq!(rt; closed, wanted);
}

// All but the rows of the feed.
fn check_left(rt: &impl Abort, left: &Left, case: &Case) {
    assert_eq!(rt; left.missed, 0);
    check_answers(rt, &left.answers, case.answers);
    assert_eq!(rt; left.whys.as_slice(), case.whys);
    check_indices(rt, &left.receipts, case.indices);
    check_closed(rt, left, case.closed);
}

// Holds the session of the case.
fn left_of<R: Threads + Wait + time::Clock + Sync + Abort>(
    rt: &R,
    alloc: Global,
    case: &Case,
) -> Result<Left, Fail> {
    assert!(rt; case.plan.jobs.len() < 24);
    Ok(held(rt, alloc, debugger_of(alloc, case.chart)?, &case.plan)?)
}

// Holds it, and asks for what it leaves.
fn check_case<R: Threads + Wait + time::Clock + Sync + Abort>(
    rt: &R,
    alloc: Global,
    case: &Case,
) -> Result<(), Fail> {
    check_left(rt, &left_of(rt, alloc, case)?, case);
    Ok(())
}

// The worker of the task of the lower priority is let on once the other has scanned, and that one once both were asked.
const TURNS: [Job; 2] = [
    Job {
        first: When::Answered(1),
        scans: 1,
        times: STILL,
    },
    Job {
        first: When::Asked(2),
        scans: 1,
        times: STILL,
    },
];

// Once both workers have closed.
const AN_INPUT: [Call; 2] = [
    (When::Closed(2), Command::Input(VarId(1), Value::Int(5))),
    (When::Now, Command::Read(VarId(1))),
];

const AN_INPUT_ANSWERED: [Result<(u64, Answer), CallError>; 2] = [
    Ok((3, Answer::Done)),
    Ok((4, Answer::Value(Value::Int(5)))),
];

const BOTH_CLOSED: [Why; 2] = [Why::Closed, Why::Closed];

// Of the calls, then of the workers.
const TURNS_INDICES: [u64; 4] = [3, 4, 2, 1];

fn turns() -> Case {
    Case {
        chart: two_tasks(),
        plan: Plan {
            limit: 100,
            room: 2,
            jobs: &TURNS,
            place: Place::Threads,
            calls: &AN_INPUT,
            times: STILL,
            changes: &[],
        },
        answers: &AN_INPUT_ANSWERED,
        whys: &BOTH_CLOSED,
        indices: &TURNS_INDICES,
        closed: Ok(4),
    }
}

#[test]
fn two_workers_take_turns_and_a_third_seat_reads(rt: HostRuntime) -> Result<(), Fail> {
    let case = turns();
    let mut left = left_of(&rt, rt.alloc(), &case)?;
    check_left(&rt, &left, &case);
    check_taken(&rt, &mut left.tail, &[1, 2]);
    Ok(())
}

// Reads one after the other.
const TWO_READS: [Call; 2] = [(When::Now, READ), (When::Now, READ)];

const ONE_READ_ANSWERED: [Result<(u64, Answer), CallError>; 2] = [
    Ok((1, DARK)),
    Err(CallError::Refused(Refusal::ClockBack)),
];

// A clock that goes back, under a seat's calls.
fn calls_go_back() -> Case {
    Case {
        chart: one_step().chart,
        plan: Plan {
            limit: 100,
            room: 16,
            jobs: &[],
            place: Place::Threads,
            calls: &TWO_READS,
            times: Times::Listed([5, 4, 4, 4]),
            changes: &[],
        },
        answers: &ONE_READ_ANSWERED,
        whys: &[],
        indices: &[1],
        closed: Ok(1),
    }
}

// A worker whose gate stays open.
const GOES_BACK: [Job; 1] = [Job {
    first: When::Now,
    scans: 10_000,
    times: Times::Listed([5, 4, 4, 4]),
}];

// The same under a worker.
fn a_worker_goes_back() -> Case {
    Case {
        chart: one_step().chart,
        plan: Plan {
            limit: 100,
            room: 16,
            jobs: &GOES_BACK,
            place: Place::Threads,
            calls: &[],
            times: STILL,
            changes: &[],
        },
        answers: &[],
        whys: &[Why::Clock],
        indices: &[1],
        closed: Ok(1),
    }
}

#[test]
fn a_clock_that_goes_back_is_refused_and_ends_a_worker(rt: HostRuntime) -> Result<(), Fail> {
    check_case(&rt, rt.alloc(), &calls_go_back())?;
    check_case(&rt, rt.alloc(), &a_worker_goes_back())
}

const ON_TIME: [Job; 1] = [Job {
    first: When::Now,
    scans: 10_000,
    times: Times::Listed([0, 10_000, 20_000, 30_000]),
}];

fn fills() -> Case {
    Case {
        chart: one_step().chart,
        plan: Plan {
            limit: 3,
            room: 16,
            jobs: &ON_TIME,
            place: Place::Threads,
            calls: &[],
            times: STILL,
            changes: &[],
        },
        answers: &[],
        whys: &[Why::Full],
        indices: &[1, 2, 3],
        closed: Ok(3),
    }
}

#[test]
fn a_full_history_ends_a_worker(rt: HostRuntime) -> Result<(), Fail> {
    check_case(&rt, rt.alloc(), &fills())
}

// Begins once the end was accepted.
const LATE: [Job; 1] = [Job {
    first: When::Answered(1),
    scans: 10_000,
    times: STILL,
}];

const THE_END: [Call; 1] = [(When::Now, Command::End)];

const THE_END_ANSWERED: [Result<(u64, Answer), CallError>; 1] = [Ok((1, Answer::Done))];

fn is_ended() -> Case {
    Case {
        chart: one_step().chart,
        plan: Plan {
            limit: 100,
            room: 16,
            jobs: &LATE,
            place: Place::Threads,
            calls: &THE_END,
            times: STILL,
            changes: &[],
        },
        answers: &THE_END_ANSWERED,
        whys: &[Why::Ended],
        indices: &[1],
        closed: Ok(1),
    }
}

#[test]
fn an_ended_history_ends_a_worker(rt: HostRuntime) -> Result<(), Fail> {
    check_case(&rt, rt.alloc(), &is_ended())
}

const THREE_READS: [Call; 3] = [(When::Now, READ), (When::Now, READ), (When::Now, READ)];

const THREE_READS_ANSWERED: [Result<(u64, Answer), CallError>; 3] = [
    Ok((1, DARK)),
    Ok((2, DARK)),
    Ok((3, DARK)),
];

// Three reads, whose receipts are changed so before the controller is closed.
fn changed(changes: &'static [(usize, Change)], closed: Result<usize, (u8, u64)>) -> Case {
    Case {
        chart: one_step().chart,
        plan: Plan {
            limit: 100,
            room: 16,
            jobs: &[],
            place: Place::Threads,
            calls: &THREE_READS,
            times: STILL,
            changes,
        },
        answers: &THREE_READS_ANSWERED,
        whys: &[],
        indices: &[1, 2, 3],
        closed,
    }
}

const OTHER_ANSWER: [(usize, Change); 1] = [(1, Change::Answer(LIT))];

const NO_INDEX: [(usize, Change); 1] = [(0, Change::Index(0))];

const PAST_THE_LAST: [(usize, Change); 1] = [(0, Change::Index(4))];

// The first in the list is told, whatever their indices.
const TWO_CHANGES: [(usize, Change); 2] = [(2, Change::Answer(LIT)), (1, Change::Index(7))];

#[test]
fn receipts_that_were_changed_are_told(rt: HostRuntime) -> Result<(), Fail> {
    let cases = [
        changed(&[], Ok(3)),
        changed(&OTHER_ANSWER, Err((0, 2))),
        changed(&NO_INDEX, Err((0, 0))),
        changed(&PAST_THE_LAST, Err((0, 4))),
        changed(&TWO_CHANGES, Err((0, 7))),
    ];
    for case in &cases {
        check_case(&rt, rt.alloc(), case)?;
    }
    Ok(())
}

// Twenty scans, for whose receipts a worker asks for more room again and again.
const TWENTY: [Job; 1] = [Job {
    first: When::Now,
    scans: 20,
    times: Times::Shared,
}];

fn twenty(place: Place) -> Case {
    Case {
        chart: one_step().chart,
        plan: Plan {
            limit: 100,
            room: 16,
            jobs: &TWENTY,
            place,
            calls: &[],
            times: STILL,
            changes: &[],
        },
        answers: &[],
        whys: &[Why::Closed],
        indices: &[],
        closed: Ok(20),
    }
}

// The worker has scanned twenty times, or memory was refused to it: either way it has the receipts of all that was accepted.
fn check_twenty(rt: &impl Abort, left: &Left) -> Result<(), Fail> {
    check_closed(rt, left, Ok(left.receipts.len()));
    if matches!(left.whys.as_slice(), [Why::Memory]) {
        return Err(Why::Memory.into());
    }
    assert_eq!(rt; left.whys.as_slice(), [Why::Closed].as_slice());
    assert_eq!(rt; left.receipts.len(), 20);
    Ok(())
}

#[test]
fn a_worker_keeps_the_receipts_of_twenty_scans(rt: HostRuntime) -> Result<(), Fail> {
    let left = left_of(&rt, rt.alloc(), &twenty(Place::Here))?;
    check_twenty(&rt, &left)
}

#[test]
fn a_crew_of_one_keeps_the_receipts_of_twenty_scans(rt: HostRuntime) -> Result<(), Fail> {
    let left = left_of(&rt, rt.alloc(), &twenty(Place::Threads))?;
    check_twenty(&rt, &left)
}

#[test]
fn want_of_memory_opens_no_controller(rt: HostRuntime) -> Result<(), Fail> {
    let mut case = changed(&[], Ok(3));
    case.plan.limit = 1 << 50;
    let debugger = debugger_of(rt.alloc(), case.chart)?;
    assert!(&rt; case.plan.jobs.len() < 24);
    assert!(&rt; held(&rt, rt.alloc(), debugger, &case.plan).is_err());
    Ok(())
}

// Each begins once all sixteen were asked.
const SIXTEEN: [Job; 16] = [Job {
    first: When::Asked(16),
    scans: 3,
    times: Times::Shared,
}; 16];

// Time goes on once a worker has seen that it stands still, or none is left.
const STOP_AND_GO: [Call; 2] = [
    (When::Asked(16), Command::Stop),
    (When::HaltedOrClosed(16), Command::Go),
];

fn stops() -> Case {
    Case {
        chart: sixteen_tasks(),
        plan: Plan {
            limit: 64,
            room: 64,
            jobs: &SIXTEEN,
            place: Place::Threads,
            calls: &STOP_AND_GO,
            times: Times::Shared,
            changes: &[],
        },
        answers: &[],
        whys: &[Why::Closed; 16],
        indices: &[],
        closed: Ok(0),
    }
}

// The index of the call that was answered at this place.
fn index_at(rt: &impl Abort, answers: &[Result<Receipt, CallError>], place: usize) -> u64 {
    match answers.get(place) {
        Some(Ok(receipt)) => receipt.index,
        _ => {
            assert!(rt; false, "call {place}");
            0
        }
    }
}

// No scan stands between the two entries.
fn check_no_scan_between(rt: &impl Abort, book: &Book, from: u64, to: u64) {
    let mut index = book.first();
    for entry in book.entries() {
        let is_scan = matches!(entry.command, Command::Scan(_));
        assert!(rt; !is_scan || index <= from || to <= index, "entry {index}");
        index = index.saturating_add(1);
    }
}

// The workers have closed, and all agree.
fn check_stopped(rt: &impl Abort, left: &Left, case: &Case) {
    assert_eq!(rt; left.missed, 0);
    assert_eq!(rt; left.whys.as_slice(), case.whys);
    let stop = index_at(rt, &left.answers, 0);
    let go = index_at(rt, &left.answers, 1);
    assert!(rt; stop < go);
    match &left.closed {
        Ok(book) => {
            assert_eq!(rt; book.entries().len(), left.receipts.len());
            check_no_scan_between(rt, book, stop, go);
        }
        Err(_) => assert!(rt; false, "receipts and entries do not agree"),
    }
}

#[test]
fn sixteen_workers_stand_still_between_stop_and_go(rt: HostRuntime) -> Result<(), Fail> {
    let case = stops();
    let left = left_of(&rt, rt.alloc(), &case)?;
    check_stopped(&rt, &left, &case);
    Ok(())
}
