//! Sessions at a controller: workers in threads of their own beside a seat that calls, and what is left of it all.

ghost use Rattle.std.specs.Prelude.{◌≡◌, ◌+◌, ◌<◌, ◌≤◌, Bool, true, false, ℤ, IfOk, length, not, []};
ghost use Rattle.std.specs.Thread.{IsSync};
ghost use Rattle.sfc_control.specs.sfc_debug.Agreement.{Agrees, plant_of, table_of, mask_of};

use crate::sfc_debug::debugger::Debugger;
use sfc_base::ids::TaskId;
use sfc_control::book::Book;
use sfc_control::call_error::CallError;
use sfc_control::clock::Clock;
use sfc_control::close::CloseError;
use sfc_control::controller::Controller;
use sfc_control::crews::crew;
use sfc_control::gate::{Gate, Turn};
use sfc_control::opened_with::OpenedWith;
use sfc_control::post::Post;
use sfc_control::receipt::Receipt;
use sfc_control::seat::Seat;
use sfc_control::tail::Tail;
use sfc_control::work::{Why, WorkerEnd, worker};
use sfc_events::command::{Answer, Command};
use std::alloc::{AllocError, Global};
use std::marker::Brand;
use std::process::Abort;
use std::sync::Wait;
use std::sync::atomic::{AtomicI64, AtomicU64, Ordering};
use std::sync::ledger::{Blank, Ledger};
use std::thread::Threads;
use std::time::Duration;
use std::{thread, time};

/// A session's plan, and what is counted over all its threads.
#[derive(Drop)]
pub struct Board {
    plan: Plan,
    // The gates that were asked for their first turn.
    asked: AtomicU64,
    // The accepted scans that gates were told of, and the accepted calls of the seat that calls.
    answered: AtomicU64,
    // How often a gate was told that the resource is halted.
    halted: AtomicU64,
    // The gates that closed.
    closed: AtomicU64,
    // What was waited for in vain.
    missed: AtomicU64,
    // What a shared clock reads next.
    clock: AtomicI64,
}

impl Board {
    fn new(plan: Plan) -> Board {
        Board {
            plan,
            asked: AtomicU64::new(0),
            answered: AtomicU64::new(0),
            halted: AtomicU64::new(0),
            closed: AtomicU64::new(0),
            missed: AtomicU64::new(0),
            clock: AtomicI64::new(0),
        }
    }
}

// The counter as it is now.
fn seen(counter: &AtomicU64) -> u64 {
    counter.load(Ordering::SeqCst)
}

// One more.
fn count(counter: &AtomicU64) {
    counter.fetch_add(1, Ordering::SeqCst);
}

/// What is waited for.
#[derive(Clone, Copy)]
pub enum When {
    /// Nothing.
    Now,
    /// So many gates were asked.
    Asked(u64),
    /// So many scans and calls were accepted.
    Answered(u64),
    /// So many gates have closed.
    Closed(u64),
    /// A gate was told that the resource is halted, or so many have closed.
    HaltedOrClosed(u64),
}

// Whether it has come.
fn has_come(board: &Board, when: When) -> bool {
    match when {
        When::Now => true,
        When::Asked(n) => n <= seen(&board.asked),
        When::Answered(n) => n <= seen(&board.answered),
        When::Closed(n) => n <= seen(&board.closed),
        When::HaltedOrClosed(n) => 0 < seen(&board.halted) || n <= seen(&board.closed),
    }
}

// Looks until it has come, 10,000 times at most and a millisecond apart. Once anything was missed, nobody waits any more.
fn wait_for<R: time::Clock>(rt: &R, board: &Board, when: When) -> bool {
    for _ in 0..10_000u32 {
        if has_come(board, when) {
            return true;
        }
        if 0 < seen(&board.missed) {
            return false;
        }
        thread::sleep(rt, Duration::from_millis(1));
    }
    count(&board.missed);
    false
}

/// Where instants come from.
#[derive(Clone, Copy)]
pub enum Times {
    /// These in turn, the last one again and again.
    Listed([i64; 4]),
    /// The session's shared clock, which goes on by a millisecond a reading.
    Shared,
}

// A clock of them.
#[derive(Clone, Copy)]
struct Hand<'a> {
    times: Times,
    next: usize,
    board: &'a Board,
}

impl<'a> Clock for Hand<'a> {
    ghost reads = { λ _ raw _. raw ≡ raw };

    fn now(&mut self) -> i64 {
        match self.times {
            Times::Listed(times) => {
                let at = self.next;
                if at < 3 {
                    self.next += 1;
                }
                if at < 4 { times[at] } else { times[3] }
            }
            Times::Shared => self.board.clock.fetch_add(1_000, Ordering::SeqCst),
        }
    }
}

/// What a worker is given. It scans the task whose number is its place among the workers.
#[derive(Clone, Copy)]
pub struct Job {
    /// What its gate waits for at its first turn.
    pub first: When,
    /// After how many accepted scans its gate closes.
    pub scans: u64,
    /// Its clock.
    pub times: Times,
}

// A worker's gate, which also closes after 10,000 turns.
#[derive(Drop)]
struct Watch<'a, R: time::Clock> {
    rt: &'a R,
    board: &'a Board,
    first: When,
    scans: u64,
    turns: u64,
    is_shut: bool,
}

impl<'a, R: time::Clock> Watch<'a, R> {
    // Whether another turn is wanted.
    fn goes_on(&mut self, last: Turn) -> bool {
        self.turns = self.turns.saturating_sub(1);
        match last {
            Turn::First => {
                count(&self.board.asked);
                return wait_for(self.rt, self.board, self.first);
            }
            Turn::Done(_) => {
                count(&self.board.answered);
                self.scans = self.scans.saturating_sub(1);
            }
            Turn::Halted => {
                count(&self.board.halted);
                thread::yield_now();
            }
            Turn::Waits(_) | Turn::Yielded(_) => thread::yield_now(),
        }
        0 < self.scans && 0 < self.turns
    }
}

impl<'a, R: time::Clock> Gate for Watch<'a, R> {
    ghost is_shut = { λ gate. gate.is_shut };

    fn turn(&mut self, last: Turn) -> bool {
        let goes_on = self.goes_on(last);
        if !goes_on {
            count(&self.board.closed);
        }
        self.is_shut = !goes_on;
        goes_on
    }

    fn shut(&self) -> bool {
        self.is_shut
    }
}

/// A call of the seat that calls, and what it waits for.
pub type Call = (When, Command);

/// How a receipt is changed before the controller is closed.
#[derive(Clone, Copy)]
pub enum Change {
    Answer(Answer),
    Index(u64),
}

/// Where workers run.
#[derive(Clone, Copy)]
pub enum Place {
    /// In threads of their own.
    Threads,
    /// One after the other, in the thread that has the session.
    Here,
}

/// A session: at most 23 workers, and a seat that calls.
#[derive(Clone, Copy)]
pub struct Plan {
    /// How many entries may be held.
    pub limit: usize,
    /// How many rows the feed has room for.
    pub room: usize,
    /// The workers.
    pub jobs: &'static [Job],
    /// Where the workers run.
    pub place: Place,
    /// What the other seat calls, beside the workers.
    pub calls: &'static [Call],
    /// Its clock.
    pub times: Times,
    /// Which receipts are changed, by their places, those of the calls first.
    pub changes: &'static [(usize, Change)],
}

/// What a session leaves.
#[derive(Drop)]
pub struct Left {
    /// What the calls were answered.
    pub answers: Vec<Result<Receipt, CallError>>,
    /// Why the workers ended.
    pub whys: Vec<Why>,
    /// The receipts, those of the calls first, as they were handed out.
    pub receipts: Vec<Receipt>,
    /// What closing came to.
    pub closed: Result<Book, CloseError>,
    /// The end of the feed.
    pub tail: Tail,
    /// How often something was waited for in vain.
    pub missed: u64,
}

// The seat that calls, and what it was answered.
#[derive(Drop)]
struct Caller<'a, L: Ledger> {
    seat: Seat<L>,
    board: &'a Board,
    answers: Vec<Result<Receipt, CallError>>,
}

// Makes each call of the plan, after what it waits for.
fn called<'a, L: OpenedWith, R: Wait + time::Clock>(
    rt: &R,
    controller: &Controller<L>,
    caller: Caller<'a, L>,
) -> Result<Caller<'a, L>, AllocError> {
    let mut caller = caller;
    let board = caller.board;
    let mut hand = Hand {
        times: board.plan.times,
        next: 0,
        board,
    };
    for (when, command) in board.plan.calls {
        wait_for(rt, board, *when);
        let answer = caller.seat.call(rt, controller, *command, &mut hand);
        if answer.is_ok() {
            count(&board.answered);
        }
        caller.answers.push(answer)?;
    }
    Ok(caller)
}

// The posts of the plan's jobs, which take their seats from the end.
fn posts_of<'a, L: Ledger, R: time::Clock>(
    rt: &'a R,
    alloc: Global,
    seats: &mut Vec<Seat<L>>,
    board: &'a Board,
) -> Result<Vec<Post<L, Watch<'a, R>, Hand<'a>>>, AllocError> {
    let mut posts = Vec::new(alloc);
    for (number, job) in board.plan.jobs.iter().enumerate() {
        let Some(seat) = seats.pop() else {
            return Ok(posts);
        };
        posts.push(Post {
            task: TaskId((number % 16) as u8),
            seat,
            gate: Watch {
                rt,
                board,
                first: job.first,
                scans: job.scans,
                turns: 10_000,
                is_shut: false,
            },
            clock: Hand {
                times: job.times,
                next: 0,
                board,
            },
        })?;
    }
    Ok(posts)
}

// A worker for each post, one after the other.
fn in_turn<L: OpenedWith, R: Wait, G: Gate + Drop, C: Clock + Drop>(
    rt: &R,
    alloc: Global,
    controller: &Controller<L>,
    posts: Vec<Post<L, G, C>>,
) -> Result<Vec<WorkerEnd<L>>, AllocError> {
    let mut ends = Vec::new(alloc);
    for post in posts {
        let Post {
            task,
            seat,
            mut gate,
            mut clock,
        } = post;
        let end = worker(rt, alloc, task, seat, controller, &mut gate, &mut clock);
        ends.push(end)?;
    }
    Ok(ends)
}

// A worker for each post in a thread of its own, and the calls in one more.
fn side_by_side<'a, L: OpenedWith + Send + Sync, R: Threads + Wait + time::Clock + Sync>(
    rt: &'a R,
    alloc: Global,
    controller: &Controller<L>,
    posts: Vec<Post<L, Watch<'a, R>, Hand<'a>>>,
    caller: Caller<'a, L>,
) -> Result<(Vec<WorkerEnd<L>>, Caller<'a, L>), AllocError> {
    thread::scope(
        thread::scope_env(),
        rt,
        |scope| -> Result<(Vec<WorkerEnd<L>>, Caller<L>), AllocError>
            requires { IsSync R.row }
        {
            let child = scope.spawn(move || called(rt, controller, caller))?;
            let ends = crew(rt, alloc, controller, posts)?;
            let caller = child.join(rt)?;
            Ok((ends, caller))
        },
    )
}

// The receipts of the calls that were accepted.
fn accepted(
    alloc: Global,
    answers: &[Result<Receipt, CallError>],
) -> Result<Vec<Receipt>, AllocError> {
    let mut receipts = Vec::new(alloc);
    for answer in answers {
        if let Ok(receipt) = answer {
            receipts.push(*receipt)?;
        }
    }
    Ok(receipts)
}

// What workers and calls leave.
#[derive(Drop)]
struct Work<L: Ledger> {
    seats: Vec<Seat<L>>,
    answers: Vec<Result<Receipt, CallError>>,
    receipts: Vec<Receipt>,
    whys: Vec<Why>,
}

impl<L: Ledger> Work<L> {
    // Puts the ends' seats, receipts and reasons behind those that are there.
    fn gather(&mut self, ends: Vec<WorkerEnd<L>>) -> Result<(), AllocError> {
        for end in ends {
            let WorkerEnd {
                seat,
                receipts,
                why,
            } = end;
            self.seats.push(seat)?;
            self.receipts.extend_from_slice(&receipts)?;
            self.whys.push(why)?;
        }
        Ok(())
    }
}

// What the calls leave, beside the seats.
fn left_by_calls<'a, L: Ledger>(
    alloc: Global,
    seats: Vec<Seat<L>>,
    caller: Caller<'a, L>,
) -> Result<Work<L>, AllocError> {
    let Caller {
        seat,
        board: _,
        answers,
    } = caller;
    let mut seats = seats;
    seats.push(seat)?;
    let receipts = accepted(alloc, &answers)?;
    Ok(Work {
        seats,
        answers,
        receipts,
        whys: Vec::new(alloc),
    })
}

// Runs the workers, in their place, beside the calls. All seats come back.
fn worked<L: OpenedWith + Send + Sync, R: Threads + Wait + time::Clock + Sync + Abort>(
    rt: &R,
    alloc: Global,
    controller: &Controller<L>,
    seats: Vec<Seat<L>>,
    board: &Board,
) -> Result<Work<L>, AllocError> {
    let mut seats = seats;
    let seat = seats.pop().expect(rt, "a seat that calls");
    let answers = Vec::new(alloc);
    let caller = Caller {
        seat,
        board,
        answers,
    };
    let posts = posts_of(rt, alloc, &mut seats, board)?;
    let (ends, caller) = match board.plan.place {
        Place::Threads => side_by_side(rt, alloc, controller, posts, caller)?,
        Place::Here => (in_turn(rt, alloc, controller, posts)?, caller),
    };
    let mut work = left_by_calls(alloc, seats, caller)?;
    work.gather(ends)?;
    Ok(work)
}

// The receipts, changed so.
fn altered(
    receipts: &Vec<Receipt>,
    changes: &[(usize, Change)],
) -> Result<Vec<Receipt>, AllocError> {
    let mut receipts = receipts.clone()?;
    for (place, change) in changes {
        if let Some(receipt) = receipts.get_mut(*place) {
            match change {
                Change::Answer(answer) => receipt.answer = *answer,
                Change::Index(index) => receipt.index = *index,
            }
        }
    }
    Ok(receipts)
}

// Opens a controller with so many seats, runs the workers beside the calls, and closes it.
fn run<L: OpenedWith + Send + Sync, R: Threads + Wait + time::Clock + Sync + Abort>(
    rt: &R,
    alloc: Global,
    blank: Blank,
    debugger: Debugger,
    count: u8,
    plan: &Plan,
) -> Result<Left, AllocError>
    requires name { blank.name ≡ L.name }
    requires parts { blank.parts ≡ L.parts }
    requires one_each { blank.parts ≡ count }
    requires some { 0 < count }
    requires few { count ≤ 24 }
    requires plant { plant_of debugger ≡ L.plant }
    requires table { table_of debugger ≡ L.table }
    requires mask { mask_of debugger ≡ L.mask }
    requires limit { plan.now.limit ≡ L.limit }
    requires untold { Agrees debugger [] }
{
    let board = Board::new(*plan);
    let (controller, seats, tail) = Controller::<L>::open(
        alloc, blank, debugger, count, plan.limit, plan.room,
    )?;
    let work = worked(rt, alloc, &controller, seats, &board)?;
    let changed = altered(&work.receipts, plan.changes)?;
    let Work {
        seats,
        answers,
        receipts,
        whys,
    } = work;
    assert!(rt; seats.len() == usize::from(count), "all seats came back");
    Ok(Left {
        answers,
        whys,
        receipts,
        closed: controller.close(seats, changed),
        tail,
        missed: seen(&board.missed),
    })
}

/// A session over the debugger, with as many seats as there are workers and one more.
pub fn held<R: Threads + Wait + time::Clock + Sync + Abort>(
    rt: &R,
    alloc: Global,
    debugger: Debugger,
    plan: &Plan,
) -> Result<Left, AllocError>
    requires few { length plan.now.jobs.now < 24 }
    requires untold { Agrees debugger [] }
{
    let seats = plan.jobs.len() as u8 + 1;
    run::<Brand, R>(
        rt,
        alloc,
        Blank::new(u64::from(seats)),
        debugger,
        seats,
        plan,
    )
}
