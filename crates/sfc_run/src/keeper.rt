//! The epochs of a run itself.

ghost use Rattle.std.specs.Prelude.{◌≡◌};
ghost use Rattle.sfc_run.specs.Keeping.{Cuts};

use crate::console::Console;
use crate::run_faults::RunFaults;
use sfc_control::clock::Clock;
use sfc_control::controller::Controller;
use sfc_control::opened_with::OpenedWith;
use sfc_events::command::Command;
use std::sync::Wait;
use std::sync::atomic::{AtomicBool, Ordering};
use std::sync::ledger::Ledger;
use std::thread::Parker;
use std::time::Duration;

/// How many milliseconds pass between two looks, at least and at most.
const SHORT: usize = 10;

const LONG: usize = 100;

/// More commands than a run accepts in a millisecond.
const PACE: usize = 2_600;

/// Whether a run is over.
#[derive(Drop)]
pub struct Over {
    told: AtomicBool,
    bell: Parker,
}

impl Over {
    /// It isn't.
    pub fn new() -> Over {
        Over {
            told: AtomicBool::new(false),
            bell: Parker::new(),
        }
    }

    /// It is from now on; who waits for it is woken.
    pub fn tell(&self) {
        self.told.store(true, Ordering::SeqCst);
        self.bell.unpark();
    }

    // Waits until it is told, or so many milliseconds.
    fn wait<R: Wait>(&self, rt: &R, millis: u64) {
        self.bell.park_timeout(rt, Duration::from_millis(millis));
    }

    // Whether it is.
    fn is_told(&self) -> bool {
        self.told.load(Ordering::SeqCst)
    }
}

/// What keeps the history of a run short.
#[derive(Drop)]
pub struct Keeper<L: Ledger, C: Clock> {
    /// The seat from which epochs come.
    pub console: Console<L, C>,
    /// From how many commands on that are held the history is cut.
    pub most: usize,
}

impl<L: OpenedWith, C: Clock> Keeper<L, C> {
    // Sends Epoch where so many commands are held. What it is refused for is passed over: behind End nothing is to be cut any more.
    fn cut<R: Wait>(&mut self, rt: &R, controller: &Controller<L>) -> RunFaults
        ensures most { self.new.most ≡ self.old.most }
        ensures cuts { Cuts self.old.console self.new.console }
    {
        if controller.held(rt) < self.most {
            return RunFaults::none();
        }
        match self.console.call(rt, controller, Command::Epoch) {
            Ok(_) => RunFaults::none(),
            Err(_) => RunFaults::of_memory(),
        }
    }

    // How many milliseconds pass between two looks: fewer than it takes to accept as many commands as may be held before a cut.
    fn pause(&self) -> u64 {
        (self.most / PACE).max(SHORT).min(LONG) as u64
    }

    /// Looks every ten to a hundred milliseconds how many commands are held, and where they are too many sends Epoch, until it is told that
    /// the run is over. So scans never end for want of room, and what a run holds in memory stays as it is; by the law on epochs no later answer
    /// changes. Where memory was refused for a receipt that is told, and it goes on.
    pub fn keep<R: Wait>(&mut self, rt: &R, controller: &Controller<L>, over: &Over) -> RunFaults
        ensures cuts { Cuts self.old.console self.new.console }
    {
        let mut faults = RunFaults::none();
        'looks: for _ in rt.forever() {
            if over.is_told() {
                return faults;
            }
            faults = faults.with(self.cut(rt, controller));
            over.wait(rt, self.pause());
        }
        unreachable!()
    }
}
