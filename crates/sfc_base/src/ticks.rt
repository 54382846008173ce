//! Counted work: a bound on it bounds what a scan costs.

ghost use Rattle.std.specs.Prelude.{◌≡◌, ℕ, ◌+◌};
ghost use Rattle.std.specs.Borrow.{ftrue};

use std::marker::Model;

/// How many things were handled: steps, transitions, links of a transition to a step, associations, actions, nodes of
/// expressions, statements, variables, and slots of the task table. Clauses read it as `count`; when the program runs
/// it takes no bytes and costs nothing.
///
/// What the count means rests on `new` and `tick` being the only functions that make one.
#[derive(Drop)]
pub struct Ticks {
    pub ghost count: { ℕ },
}

impl Model for Ticks {
    ghost also_owns = { λ _. ftrue };
}

impl Ticks {
    /// Nothing is handled yet.
    pub fn new() -> Ticks
        ensures { result.count ≡ 0 }
    {
        Ticks {}
    }

    // One more.
    fn next(&self) -> Ticks
        ensures { result.count ≡ self.now.count + 1 }
    {
        Ticks {}
    }

    /// One thing more is handled.
    pub fn tick(&mut self)
        ensures { self.new.count ≡ self.old.count + 1 }
    {
        *self = self.next();
    }

    /// So many things more are handled.
    pub fn tick_all(&mut self, count: usize)
        ensures { self.new.count ≡ self.old.count + count }
    {
        for _k in 0..count {
            self.tick();
        }
    }
}
