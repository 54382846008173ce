//! What wakes the threads that share a book.

use crate::book::Book;
use crate::call_error::CallError;
use crate::receipt::Receipt;
use crate::sfc_core::resource::Resource;
use sfc_base::ids::{TaskId, VarId};
use sfc_base::references::GlobalId;
use sfc_base::value::Value;
use sfc_debug::trace_mask::TraceMask;
use sfc_events::command::Command;
use sfc_events::refusal::Refusal;
use sfc_plant::task::Task;
use std::alloc::{AllocError, Global};
use std::sync::Wait;
use std::sync::atomic::{AtomicBool, Ordering};
use std::thread::Parker;
use std::time::Duration;

// The bell of a task, by which its worker is woken. What stands in it changes under the lock of the book alone, but for `marked`.
#[derive(Drop)]
struct Bell {
    parker: Parker,
    // A lower number goes first.
    priority: u32,
    single: Option<GlobalId>,
    // What the task's SINGLE read behind the latest accepted call.
    reads: AtomicBool,
    // Whether another task went first at its latest call.
    yielded: AtomicBool,
    // Whether it is to be rung.
    marked: AtomicBool,
}

/// A bell for each task of a plant, which its worker waits for, and one for who takes rows of the feed. They are rung behind each call that
/// concerns those who wait; who is rung for before waiting doesn't wait. A worker is rung for
///
/// - behind Go and End;
/// - where the SINGLE of its task reads otherwise than before;
/// - where another task went before its own, and it may go first now.
///
/// Who takes rows is rung for behind each command that the mask wants.
#[derive(Drop)]
pub struct Bells {
    tasks: Vec<Bell>,
    mask: TraceMask,
    rows: Parker,
    rows_marked: AtomicBool,
    rows_ended: AtomicBool,
}

// What the SINGLE reads.
fn reads(resource: &Resource, single: GlobalId) -> bool {
    if single.0 < resource.variables() {
        matches!(resource.value(VarId(single.0 as u16)), Value::Bool(true))
    } else {
        false
    }
}

impl Bell {
    fn new(task: &Task) -> Bell {
        Bell {
            parker: Parker::new(),
            priority: task.priority,
            single: task.single,
            reads: AtomicBool::new(false),
            yielded: AtomicBool::new(false),
            marked: AtomicBool::new(false),
        }
    }

    fn mark(&self) {
        self.marked.store(true, Ordering::SeqCst);
    }

    fn has_yielded(&self) -> bool {
        self.yielded.load(Ordering::SeqCst)
    }

    fn follow(&self, resource: &Resource) {
        if let Some(single) = self.single {
            let now = reads(resource, single);
            if self.reads.swap(now, Ordering::SeqCst) != now {
                self.mark();
            }
        }
    }

    fn ring_if_marked(&self) {
        if self.marked.load(Ordering::SeqCst) && self.marked.swap(false, Ordering::SeqCst) {
            self.parker.unpark();
        }
    }
}

impl Bells {
    // Bells for these tasks, where commands that the mask wants have rows. The one error is that memory was refused.
    pub(crate) fn new(alloc: Global, tasks: &[Task], mask: TraceMask) -> Result<Bells, AllocError> {
        let mut bells = Vec::with_capacity(alloc, tasks.len())?;
        'tasks: for task in tasks {
            bells.push(Bell::new(task))?;
        }
        Ok(Bells {
            tasks: bells,
            mask,
            rows: Parker::new(),
            rows_marked: AtomicBool::new(false),
            rows_ended: AtomicBool::new(false),
        })
    }

    fn of(&self, task: TaskId) -> Option<&Bell> {
        self.tasks.get(task.0 as usize)
    }

    fn mark_all(&self) {
        'tasks: for bell in &self.tasks {
            bell.mark();
        }
    }

    // Of those that have yielded, the one of the lowest priority number, and of several the first.
    fn next_yielded(&self) -> Option<&Bell> {
        let mut next: Option<&Bell> = None;
        'tasks: for bell in &self.tasks {
            let is_next = match next {
                Some(other) => bell.priority < other.priority,
                None => true,
            };
            if is_next && bell.has_yielded() {
                next = Some(bell);
            }
        }
        next
    }

    // The task was scanned: one that it went before may go now.
    fn mark_next(&self, scanned: TaskId) {
        if let Some(bell) = self.of(scanned) {
            bell.yielded.store(false, Ordering::SeqCst);
        }
        if let Some(next) = self.next_yielded() {
            next.mark();
        }
    }

    fn mark_followed(&self, resource: &Resource) {
        'tasks: for bell in &self.tasks {
            bell.follow(resource);
        }
    }

    fn mark_accepted(&self, book: &Book, command: Command) {
        match command {
            Command::Go | Command::End => self.mark_all(),
            Command::Scan(task) | Command::Single(task, _) => self.mark_next(task),
            _ => {}
        }
        self.mark_followed(book.resource());
        if self.mask.wants(command) {
            self.rows_marked.store(true, Ordering::SeqCst);
        }
    }

    // The scan of a task was refused. Where another one goes first that has yielded to a third, that one may go now.
    fn mark_refused(&self, task: TaskId, refusal: Refusal) {
        let first = match refusal {
            Refusal::Yield(first) => self.of(first),
            _ => None,
        };
        if let Some(bell) = self.of(task) {
            bell.yielded.store(first.is_some(), Ordering::SeqCst);
        }
        if let Some(first) = first {
            if first.has_yielded() {
                first.mark();
            }
        }
    }

    // Marks those whom the call concerns that was answered so. The lock of the book is held.
    pub(crate) fn mark(&self, book: &Book, command: Command, answer: &Result<Receipt, CallError>) {
        match (command, answer) {
            (_, Ok(_)) => self.mark_accepted(book, command),
            (Command::Scan(task), Err(CallError::Refused(refusal))) => {
                self.mark_refused(task, *refusal);
            }
            _ => {}
        }
    }

    // Rings for those who are marked.
    pub(crate) fn ring(&self) {
        'tasks: for bell in &self.tasks {
            bell.ring_if_marked();
        }
        if self.rows_marked.load(Ordering::SeqCst)
            && self.rows_marked.swap(false, Ordering::SeqCst)
        {
            self.rows.unpark();
        }
    }

    /// Waits until the bell of the task is rung, or so long. One thread at a time may wait for a bell.
    pub fn wait<R: Wait>(&self, rt: &R, task: TaskId, long: Duration) {
        if let Some(bell) = self.of(task) {
            bell.parker.park_timeout(rt, long);
        }
    }

    /// The same of the bell of who takes rows.
    pub fn wait_for_rows<R: Wait>(&self, rt: &R, long: Duration) {
        self.rows.park_timeout(rt, long);
    }

    /// Tells who takes rows that no more come.
    pub fn end_rows(&self) {
        self.rows_ended.store(true, Ordering::SeqCst);
        self.rows.unpark();
    }

    /// Whether that was told.
    pub fn are_rows_ended(&self) -> bool {
        self.rows_ended.load(Ordering::SeqCst)
    }
}
