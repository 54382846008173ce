//! Where alarms go.

ghost use Rattle.std.specs.Prelude.{◌≡◌, false};
ghost use Rattle.sfc_run.specs.Printing.{Passes};

use sfc_base::write_fault::put_all;
use std::io::Write;

/// A writer that is told texts until it fails; its faults are passed over.
#[derive(Drop)]
pub struct Teller<T: Write> {
    /// The writer.
    pub w: T,
    /// Whether it has failed.
    pub has_failed: bool,
}

impl<T: Write> Teller<T> {
    /// It has not failed yet.
    pub fn new(w: T) -> Teller<T>
        ensures writer { result.w ≡ w }
        ensures failed { result.has_failed ≡ false }
    {
        Teller {
            w,
            has_failed: false,
        }
    }

    /// Tells a text, where the writer has not failed.
    pub fn tell(&mut self, text: &[u8])
        ensures { Passes self.new.has_failed self.old.has_failed (T.contents self.old.w) (T.contents self.new.w) text.now }
    {
        if !self.has_failed {
            self.has_failed = put_all(&mut self.w, text).is_err();
        }
    }
}
