//! A book in one hand: what is entered, held, dropped and published.

ghost use Rattle.std.specs.Prelude.{◌≡◌, ◌<◌, [], IfOk};
ghost use Rattle.sfc_control.specs.sfc_debug.Agreement.{Agrees};

use crate::sfc_core::resource::Resource;
use crate::sfc_debug::debugger::Debugger;
use crate::sfc_debug::trace_mask::TraceMask;
use samples::charts::{all_qualifiers, one_step, two_tasks};
use samples::loaded::plant_of;
use sfc_base::ids::{TaskId, VarId};
use sfc_base::ticks::Ticks;
use sfc_base::value::Value;
use sfc_control::book::Book;
use sfc_control::receipt::Receipt;
use sfc_control::tail::Tail;
use sfc_events::command::{Answer, Command};
use sfc_events::instance_set::InstanceSet;
use sfc_events::refusal::Refusal;
use std::alloc::Global;
use std::process::Abort;
use std::test::Fail;

// A command under a seat's number, its raw instant, and the index and the answer that its receipt has.
type Row = (u8, Command, i64, Result<(u64, Answer), Refusal>);

const SCAN: Command = Command::Scan(TaskId(0));

const SCAN_OF_THE_FIRST: Command = Command::Scan(TaskId(1));

const READ: Command = Command::Read(VarId(0));

const DARK: Answer = Answer::Value(Value::Bool(false));

const LIT: Answer = Answer::Value(Value::Bool(true));

// The task's one instance, the plant's first, ran.
const RAN: Answer = Answer::Scanned {
    ran: InstanceSet { bits: 1 },
    faulted: InstanceSet { bits: 0 },
    skipped: InstanceSet { bits: 0 },
    overruns: 0,
    hit: false,
};

// The plant's second instance ran.
const SECOND_RAN: Answer = Answer::Scanned {
    ran: InstanceSet { bits: 2 },
    faulted: InstanceSet { bits: 0 },
    skipped: InstanceSet { bits: 0 },
    overruns: 0,
    hit: false,
};

// The first ran, and served two releases at once.
const RAN_LATE: Answer = Answer::Scanned {
    ran: InstanceSet { bits: 1 },
    faulted: InstanceSet { bits: 0 },
    skipped: InstanceSet { bits: 0 },
    overruns: 1,
    hit: false,
};

/// A debugger of the chart that was told nothing, which wants a row of each command.
pub fn debugger_of(alloc: Global, chart: &[u8]) -> Result<Debugger, Fail>
    ensures { IfOk result (λ debugger. Agrees debugger []) }
{
    let resource = Resource::open(alloc, plant_of(alloc, chart)?)?;
    Ok(Debugger::new(alloc, resource, 64, TraceMask(127))?)
}

// A book over the chart that may hold so many entries, and the end of its feed, which has room for so many rows.
fn opened(alloc: Global, chart: &[u8], limit: usize, room: usize) -> Result<(Book, Tail), Fail> {
    let (mut book, tail) = Book::new(alloc, debugger_of(alloc, chart)?, room)?;
    book.reserve_events(limit)?;
    Ok((book, tail))
}

// The index and the answer of the command.
fn entered(book: &mut Book, seat: u8, command: Command, raw: i64) -> Result<(u64, Answer), Refusal>
    requires { seat < 24 }
{
    let mut ticks = Ticks::new();
    let receipt = book.apply(seat, command, raw, &mut ticks)?;
    Ok((receipt.index, receipt.answer))
}

// Enters each of the rows.
fn check_rows(rt: &impl Abort, book: &mut Book, rows: &[Row]) {
    for (seat, command, raw, wanted) in rows {
        assert!(rt; *seat < 24);
        assert_eq!(rt;
            entered(book, *seat, *command, *raw),
            *wanted,
            "{command:?} at {raw}"
        );
    }
}

// So many entries are held, of which the first has this index.
fn check_held(rt: &impl Abort, book: &Book, count: usize, first: u64) {
    assert_eq!(rt; book.entries().len(), count);
    assert_eq!(rt; book.first(), first);
}

/// The rows that come, by number, and then none.
pub fn check_taken(rt: &impl Abort, tail: &mut Tail, numbers: &[u64]) {
    for number in numbers {
        assert_eq!(rt; tail.take().map(|row| row.number), Some(*number));
    }
    assert!(rt; tail.take().is_none());
}

// The entries are those of the accepted rows, in order.
fn check_entries(rt: &impl Abort, book: &Book, rows: &[Row]) {
    let mut next = 0;
    for (seat, command, raw, wanted) in rows {
        if let Ok((_, answer)) = wanted {
            let entry = book.entries().get(next);
            assert_eq!(rt;
                entry.map(|entry| (entry.seat, entry.command, entry.raw, entry.answer)),
                Some((*seat, *command, *raw, *answer))
            );
            next += 1;
        }
    }
    assert_eq!(rt; book.entries().len(), next);
}

// The task of the higher priority goes first; a third seat sends an input and reads it.
const TWO_TURNS: [Row; 5] = [
    (0, SCAN, 0, Err(Refusal::Yield(TaskId(1)))),
    (1, SCAN_OF_THE_FIRST, 0, Ok((1, SECOND_RAN))),
    (0, SCAN, 0, Ok((2, RAN))),
    (
        2,
        Command::Input(VarId(1), Value::Int(5)),
        0,
        Ok((3, Answer::Done)),
    ),
    (
        2,
        Command::Read(VarId(1)),
        0,
        Ok((4, Answer::Value(Value::Int(5)))),
    ),
];

// One more.
const FIFTH: [Row; 1] = [(2, READ, 0, Ok((5, LIT)))];

#[test]
fn a_feed_of_two_rows_has_the_first_two_and_then_the_fifth(rt: HostRuntime) -> Result<(), Fail> {
    let (mut book, mut tail) = opened(rt.alloc(), two_tasks(), 100, 2)?;
    check_rows(&rt, &mut book, &TWO_TURNS);
    check_entries(&rt, &book, &TWO_TURNS);
    check_taken(&rt, &mut tail, &[1, 2]);
    check_rows(&rt, &mut book, &FIFTH);
    check_taken(&rt, &mut tail, &[5]);
    Ok(())
}

// Four fill the book.
const FULL: [Row; 5] = [
    (0, READ, 0, Ok((1, DARK))),
    (0, READ, 0, Ok((2, DARK))),
    (0, READ, 0, Ok((3, DARK))),
    (0, READ, 0, Ok((4, DARK))),
    (0, READ, 0, Err(Refusal::HistoryFull)),
];

// An epoch makes room for three more.
const CUT: [Row; 1] = [(0, Command::Epoch, 0, Ok((5, Answer::Done)))];

const FULL_AGAIN: [Row; 4] = [
    (0, READ, 0, Ok((6, DARK))),
    (0, READ, 0, Ok((7, DARK))),
    (0, READ, 0, Ok((8, DARK))),
    (0, READ, 0, Err(Refusal::HistoryFull)),
];

// Reads, by index and answer, and whether such a receipt stands then: what was dropped is not compared.
const STANDING: [(u64, Answer, bool); 6] = [
    (3, DARK, true),
    (3, LIT, true),
    (6, DARK, true),
    (6, LIT, false),
    (9, DARK, false),
    (0, DARK, false),
];

// Asks which receipts stand.
fn check_standing(rt: &impl Abort, book: &Book) {
    for (index, answer, stands) in STANDING {
        let receipt = Receipt {
            seat: 0,
            index,
            command: READ,
            raw: 0,
            answer,
        };
        assert_eq!(rt; book.stands(&receipt), stands, "{answer:?} at {index}");
    }
}

#[test]
fn a_full_book_takes_an_epoch_alone(rt: HostRuntime) -> Result<(), Fail> {
    let (mut book, _tail) = opened(rt.alloc(), one_step().chart, 4, 16)?;
    check_rows(&rt, &mut book, &FULL);
    check_held(&rt, &book, 4, 1);
    check_rows(&rt, &mut book, &CUT);
    check_held(&rt, &book, 1, 5);
    check_rows(&rt, &mut book, &FULL_AGAIN);
    check_held(&rt, &book, 4, 5);
    check_standing(&rt, &book);
    Ok(())
}

// No room for an epoch either.
const NO_ROOM: [Row; 2] = [
    (0, READ, 0, Err(Refusal::HistoryFull)),
    (0, Command::Epoch, 0, Err(Refusal::HistoryFull)),
];

#[test]
fn a_book_without_room_takes_no_epoch(rt: HostRuntime) -> Result<(), Fail> {
    let (mut book, _tail) = opened(rt.alloc(), one_step().chart, 0, 16)?;
    check_rows(&rt, &mut book, &NO_ROOM);
    check_held(&rt, &book, 0, 1);
    Ok(())
}

// The release at 0 waits until the scan at 10 ms, which is the task's second; then the clock goes back.
const BACK: [Row; 2] = [
    (0, SCAN, 10_000, Ok((1, RAN_LATE))),
    (0, READ, 9_999, Err(Refusal::ClockBack)),
];

#[test]
fn a_refused_command_is_not_entered(rt: HostRuntime) -> Result<(), Fail> {
    let (mut book, _tail) = opened(rt.alloc(), one_step().chart, 5, 16)?;
    check_rows(&rt, &mut book, &BACK);
    check_entries(&rt, &book, &BACK);
    Ok(())
}

const THREE_READS: [Row; 3] = [
    (0, READ, 0, Ok((1, DARK))),
    (0, READ, 0, Ok((2, DARK))),
    (0, READ, 0, Ok((3, DARK))),
];

const FOURTH: [Row; 1] = [(0, READ, 0, Ok((4, DARK)))];

#[test]
fn a_row_that_finds_the_feed_full_is_not_published(rt: HostRuntime) -> Result<(), Fail> {
    let (mut book, mut tail) = opened(rt.alloc(), one_step().chart, 5, 1)?;
    check_rows(&rt, &mut book, &THREE_READS);
    check_taken(&rt, &mut tail, &[1]);
    check_rows(&rt, &mut book, &FOURTH);
    check_taken(&rt, &mut tail, &[4]);
    Ok(())
}

#[test]
fn want_of_memory_leaves_a_book_as_it_was(rt: HostRuntime) -> Result<(), Fail> {
    let (mut book, _tail) = opened(rt.alloc(), one_step().chart, 4, 16)?;
    check_rows(&rt, &mut book, &THREE_READS);
    let too_many = 1 << 50;
    assert!(&rt; book.entries().len() <= too_many);
    assert!(&rt; book.reserve_events(too_many).is_err());
    check_entries(&rt, &book, &THREE_READS);
    check_rows(&rt, &mut book, &FOURTH);
    assert_eq!(&rt; entered(&mut book, 0, READ, 0), Err(Refusal::HistoryFull));
    Ok(())
}

#[test]
fn want_of_memory_gives_no_book(rt: HostRuntime) -> Result<(), Fail> {
    let debugger = debugger_of(rt.alloc(), one_step().chart)?;
    assert!(&rt; Book::new(rt.alloc(), debugger, 1 << 50).is_err());
    Ok(())
}

// Four scans of the chart with every qualifier fill the book.
const FOUR_SCANS: [Row; 5] = [
    (0, SCAN, 0, Ok((1, RAN))),
    (0, SCAN, 10_000, Ok((2, RAN))),
    (0, SCAN, 20_000, Ok((3, RAN))),
    (0, SCAN, 30_000, Ok((4, RAN))),
    (0, READ, 30_000, Err(Refusal::HistoryFull)),
];

// What the last of them left: bN, bS, bD, bSD and bDS are TRUE. An epoch makes room for three reads.
const READ_AFTER_FOUR: [Row; 14] = [
    (0, Command::Epoch, 30_000, Ok((5, Answer::Done))),
    (0, READ, 30_000, Ok((6, LIT))),
    (0, Command::Read(VarId(1)), 30_000, Ok((7, LIT))),
    (0, Command::Read(VarId(2)), 30_000, Ok((8, DARK))),
    (0, Command::Epoch, 30_000, Ok((9, Answer::Done))),
    (0, Command::Read(VarId(3)), 30_000, Ok((10, LIT))),
    (0, Command::Read(VarId(4)), 30_000, Ok((11, DARK))),
    (0, Command::Read(VarId(5)), 30_000, Ok((12, LIT))),
    (0, Command::Epoch, 30_000, Ok((13, Answer::Done))),
    (0, Command::Read(VarId(6)), 30_000, Ok((14, LIT))),
    (0, Command::Read(VarId(7)), 30_000, Ok((15, DARK))),
    (0, Command::Read(VarId(8)), 30_000, Ok((16, DARK))),
    (0, Command::Epoch, 30_000, Ok((17, Answer::Done))),
    (0, Command::Read(VarId(9)), 30_000, Ok((18, DARK))),
];

// `tests/refused.sh` refuses each allocation in turn: all memory is taken up to the call that makes room for the entries.
#[test]
fn four_scans_of_every_qualifier_fill_a_book(rt: HostRuntime) -> Result<(), Fail> {
    let (mut book, _tail) = opened(rt.alloc(), all_qualifiers(), 4, 16)?;
    check_rows(&rt, &mut book, &FOUR_SCANS);
    check_entries(&rt, &book, &FOUR_SCANS);
    check_rows(&rt, &mut book, &READ_AFTER_FOUR);
    check_held(&rt, &book, 2, 17);
    Ok(())
}

// What book and debugger both answer.
fn both(
    rt: &impl Abort,
    book: &mut Book,
    debugger: &mut Debugger,
    command: Command,
    raw: i64,
) -> Result<Answer, Refusal> {
    let mut ticks = Ticks::new();
    let alone = debugger.command(command, raw, &mut ticks);
    let answer = entered(book, 0, command, raw).map(|(_, answer)| answer);
    assert_eq!(rt; answer, alone, "{command:?} at {raw}");
    alone
}

// The same; a full book refuses and is cut before, of which the debugger is told nothing.
fn asked(
    rt: &impl Abort,
    book: &mut Book,
    debugger: &mut Debugger,
    command: Command,
    raw: i64,
) -> Result<Answer, Refusal> {
    if book.entries().len() == 4 {
        assert_eq!(rt; entered(book, 0, command, raw), Err(Refusal::HistoryFull));
        let epoch = entered(book, 0, Command::Epoch, raw);
        assert_eq!(rt; epoch.map(|(_, answer)| answer), Ok(Answer::Done));
    }
    both(rt, book, debugger, command, raw)
}

// The instant of a scan, and which of bN, bS, bL, bD, bP, bSD, bDS, bSL, bP1 and bP0 are TRUE after it.
const LIT_AFTER: [(i64, [bool; 10]); 6] = [
    (
        0,
        [
            true, true, true, false, true, false, false, true, false, false,
        ],
    ),
    (
        10_000,
        [
            true, true, true, false, false, false, false, true, false, false,
        ],
    ),
    (
        20_000,
        [
            true, true, false, true, false, true, true, false, false, false,
        ],
    ),
    (
        30_000,
        [
            true, true, false, true, false, true, true, false, false, false,
        ],
    ),
    (
        40_000,
        [
            false, true, false, false, false, true, true, false, false, false,
        ],
    ),
    (
        50_000,
        [
            false, true, false, false, false, true, true, false, false, false,
        ],
    ),
];

// Reads the ten variables.
fn check_lit(
    rt: &impl Abort,
    book: &mut Book,
    debugger: &mut Debugger,
    raw: i64,
    wanted: &[bool; 10],
) {
    for id in 0..10u16 {
        assert_eq!(rt;
            asked(rt, book, debugger, Command::Read(VarId(id)), raw),
            Ok(Answer::Value(Value::Bool(wanted[id as usize]))),
            "variable {id} at {raw}"
        );
    }
}

// Scans, and reads all after each scan.
fn check_qualifiers(rt: &impl Abort, book: &mut Book, debugger: &mut Debugger) {
    for (raw, wanted) in &LIT_AFTER {
        assert_eq!(rt;
            asked(rt, book, debugger, SCAN, *raw),
            Ok(RAN),
            "scan at {raw}"
        );
        check_lit(rt, book, debugger, *raw, wanted);
    }
}

#[test]
fn every_qualifier_goes_on_over_epochs(rt: HostRuntime) -> Result<(), Fail> {
    let (mut book, _tail) = opened(rt.alloc(), all_qualifiers(), 4, 16)?;
    let mut debugger = debugger_of(rt.alloc(), all_qualifiers())?;
    check_qualifiers(&rt, &mut book, &mut debugger);
    assert!(&rt; book.first() > 1);
    Ok(())
}
