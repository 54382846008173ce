//! What is watched while a case runs.

ghost use Rattle.std.specs.Prelude.{◌≡◌, ◌||◌, [], not, true, IfOk};
ghost use Rattle.sfc_judge.specs.Holding as holding;
ghost use Rattle.sfc_judge.specs.Moments.{Moment, reads};
ghost use Rattle.sfc_judge.specs.Running.Benches.{Stands, steered_in};
ghost use Rattle.sfc_judge.specs.Running.Watching.{Begins, Looks, LooksAt, as_held, held_in};

use crate::bench::Bench;
use sfc_cases::instant::Instant;
use sfc_cases::line::Line;
use sfc_cases::watch::{End, Response, Steady, Watch};
use std::alloc::{AllocError, Global};

/// Something that is watched.
struct Watched<'a> {
    // The line that says so, and what it says.
    line: &'a Line,
    watch: &'a Watch,
    // Where the clock stood when it began.
    from: i64,
    is_over: bool,
    // Of a response whether its cause was TRUE at the last moment, and by when its effect has to be.
    was: bool,
    due: Option<i64>,
}

// By hand, so that a caller that drops one proves one call.
impl Drop for Watched<'_> {
    fn drop(self) {
        let Watched {
            line: _,
            watch: _,
            from: _,
            is_over: _,
            was: _,
            due: _,
        } = self;
    }
}

// Whether that is over which began at this instant.
fn has_ended(bench: &Bench, from: i64, end: &End) -> bool
    ensures { (m : Moment) → Stands bench.now m → result ≡ holding.is_over (steered_in bench.now) from end.now m }
{
    match end {
        End::CaseEnds => false,
        End::When(condition) => bench.reads(true, condition),
        End::After(micros) => Instant::Later(*micros).after(from) < bench.clock(),
    }
}

// Whether an effect had to be TRUE before this instant.
fn is_late(due: Option<i64>, clock: i64) -> bool
    ensures { result ≡ holding.is_late due clock }
{
    match due {
        Some(due) => due < clock,
        None => false,
    }
}

// By when the effect of a response has to be TRUE, which isn't, if by an instant.
fn due_from(bench: &Bench, response: &Response, was: bool, due: Option<i64>) -> Option<i64>
    ensures { (m : Moment) → Stands bench.now m → result ≡ holding.due_from (steered_in bench.now) response.now was due m }
{
    if due.is_some() {
        return due;
    }
    if !was && bench.reads(true, &response.cause) {
        Some(Instant::Later(response.within).after(bench.clock()))
    } else {
        None
    }
}

// The same where the effect may be TRUE.
fn due_behind(bench: &Bench, response: &Response, was: bool, due: Option<i64>) -> Option<i64>
    ensures { (m : Moment) → Stands bench.now m → result ≡ holding.due_behind (steered_in bench.now) response.now was due m }
{
    if bench.reads(true, &response.effect) {
        return None;
    }
    due_from(bench, response, was, due)
}

impl Watched<'_> {
    // Whether a condition holds now, or is over from now on or before.
    fn look_at(&mut self, bench: &Bench, steady: &Steady) -> bool
        ensures same { self.new ≡ record self.old { is_over = self.new.is_over } }
        ensures over { (m : Moment) → Stands bench.now m → self.new.is_over
            ≡ (self.old.is_over || holding.is_over (steered_in bench.now) self.old.from steady.now.end m) }
        ensures result { (m : Moment) → Stands bench.now m → result
            ≡ (self.new.is_over || reads (steered_in bench.now) m steady.now.wanted steady.now.condition) }
    {
        self.is_over = self.is_over || has_ended(bench, self.from, &steady.end);
        self.is_over || bench.reads(steady.wanted, &steady.condition)
    }

    // Whether the effect of a response isn't late.
    fn look_for(&mut self, bench: &Bench, response: &Response) -> bool
        ensures same { self.new ≡ record self.old { was = self.new.was; due = self.new.due } }
        ensures was { (m : Moment) → Stands bench.now m → self.new.was ≡ reads (steered_in bench.now) m true response.now.cause }
        ensures due { (m : Moment) → Stands bench.now m →
            self.new.due ≡ holding.due_behind (steered_in bench.now) response.now self.old.was self.old.due m }
        ensures result { (m : Moment) → Stands bench.now m → result ≡ not (holding.is_late self.old.due m.clock) }
    {
        let in_time = !is_late(self.due, bench.clock());
        self.due = due_behind(bench, response, self.was, self.due);
        self.was = bench.reads(true, &response.cause);
        in_time
    }

    // Whether it holds now, or is over from now on or before.
    fn look(&mut self, bench: &Bench) -> bool
        ensures line { self.new.line ≡ self.old.line }
        ensures looks { (m : Moment) → Stands bench.now m →
            LooksAt (steered_in bench.now) m (as_held self.old) (as_held self.new) result }
    {
        let watch = self.watch;
        match watch {
            Watch::Stays(steady) => self.look_at(bench, steady),
            Watch::Responds(response) => self.look_for(bench, response),
        }
    }
}

/// What is watched.
pub struct Pending<'a> {
    watched: Vec<Watched<'a>>,
}

// By hand, so that a caller that drops one proves one call.
impl Drop for Pending<'_> {
    fn drop(self) {
        let Pending { watched: _ } = self;
    }
}

#[tactic(auto, unfolding(crate::specs::Running::Watching::held_in))]
impl<'a> Pending<'a> {
    /// None.
    pub fn new(alloc: Global) -> Pending<'a>
        ensures { held_in result ≡ [] }
    {
        Pending {
            watched: Vec::new(alloc),
        }
    }

    /// One more, of this line, from now on: whether it holds as the bench stands. The one error is that memory was refused.
    pub fn begin(
        &mut self,
        bench: &Bench,
        line: &'a Line,
        watch: &'a Watch,
    ) -> Result<bool, AllocError>
        ensures { (m : Moment) → Stands bench.now m → IfOk result (λ holds.
            Begins (steered_in bench.now) m watch.now (held_in self.old) (held_in self.new) holds) }
    {
        let mut watched = Watched {
            line,
            watch,
            from: bench.clock(),
            is_over: false,
            was: false,
            due: None,
        };
        let holds = watched.look(bench);
        self.watched.push(watched)?;
        Ok(holds)
    }

    /// Looks at all of them as the bench stands: the line of the first that doesn't hold, if there is one.
    pub fn look(&mut self, bench: &Bench) -> Option<&'a Line>
        ensures { (m : Moment) → Stands bench.now m → Looks (steered_in bench.now) m (held_in self.old) (held_in self.new) result }
    {
        'watched: for watched in self.watched.iter_mut() {
            if !watched.look(bench) {
                return Some(watched.line);
            }
        }
        None
    }
}
