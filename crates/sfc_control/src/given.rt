//! The accepted calls of a seat, in a list that proofs alone read.

ghost use Rattle.std.specs.Prelude.{◌≡◌, List, [], ◌∷◌, ◌++◌};
ghost use Rattle.std.specs.Borrow.{ftrue};
ghost use Rattle.sfc_control.specs.declared.given.AcceptedCall.{AcceptedCall};

use crate::receipt::Receipt;
use std::marker::Model;

/// An accepted call of a seat.
#[derive(Clone, Copy)]
pub struct AcceptedCall {
    /// Its receipt.
    pub receipt: Receipt,
    /// The index of the first entry that was held behind it.
    pub cut: u64,
}

/// Every accepted call of a seat, the oldest first. When the program runs it takes no bytes and costs nothing.
///
/// What the list means rests on `new` and `with` being the only functions that make one.
#[derive(Drop)]
pub struct Given {
    pub ghost calls: { List AcceptedCall },
}

impl Model for Given {
    ghost also_owns = { λ _. ftrue };
}

// It owns nothing.
unsafe impl Send for Given {}

impl Given {
    /// No call was accepted.
    pub fn new() -> Given
        ensures { result.calls ≡ [] }
    {
        Given {}
    }

    // With one call more.
    fn with(&self, call: &AcceptedCall) -> Given
        ensures { result.calls ≡ self.now.calls ++ call.now ∷ [] }
    {
        Given {}
    }

    /// One call more was accepted.
    pub fn push(&mut self, call: &AcceptedCall)
        ensures { self.new.calls ≡ self.old.calls ++ call.now ∷ [] }
    {
        *self = self.with(call);
    }
}
