//! What came of the cases so far.

ghost use Rattle.std.specs.Prelude.{◌≡◌, ◌++◌, IfOk, OnOk};
ghost use Rattle.sfc_test.specs.Running as running;
ghost use Rattle.sfc_test.specs.Running.{result_of, tally_of};
ghost use Rattle.sfc_test.specs.Tallies as tallies;

use crate::asked::Asked;
use crate::junit::{append_document, append_failed, append_passed};
use crate::running::Judged;
use crate::told::{append_counts, append_plan};
use std::alloc::{AllocError, Global};

/// How many cases have passed and failed, and an element of XML of each, the first first.
pub struct Results {
    passed: u64,
    failed: u64,
    elements: Vec<u8>,
}

// By hand, so that a caller that drops one proves one call.
impl Drop for Results {
    fn drop(self) {
        let Results {
            passed: _,
            failed: _,
            elements: _,
        } = self;
    }
}

impl Results {
    /// Those of no case.
    pub fn new(alloc: Global) -> Results
        ensures { tally_of result ≡ tallies.no_cases }
    {
        Results {
            passed: 0,
            failed: 0,
            elements: Vec::new(alloc),
        }
    }

    /// How many have failed.
    pub fn failed(&self) -> u64
        ensures { result ≡ (tally_of self.now).failed }
    {
        self.failed
    }

    /// How many there were, as far as 64 bits go.
    pub fn total(&self) -> u64
        ensures { result ≡ tallies.total (tally_of self.now) }
    {
        self.passed.saturating_add(self.failed)
    }

    /// Counts a case of a file of this name, as far as 64 bits go, and adds its element. The one error is that memory was refused.
    pub fn add(&mut self, file: &[u8], title: &[u8], judged: &Judged) -> Result<(), AllocError>
        ensures { OnOk result (tally_of self.new ≡ tallies.behind_one file.now (tally_of self.old) (result_of title.now judged.now)) }
    {
        match judged {
            Judged::Passed => {
                self.passed = self.passed.saturating_add(1);
                append_passed(&mut self.elements, file, title)
            }
            Judged::Failed(told) => {
                self.failed = self.failed.saturating_add(1);
                append_failed(&mut self.elements, file, title, told)
            }
        }
    }

    /// Puts at the end of a text what stands behind the cases, as it is asked: how many have passed and failed, or how many there were;
    /// nothing behind titles. The one error is that memory was refused.
    pub fn append_ending(&self, asked: Asked, out: &mut Vec<u8>) -> Result<(), AllocError>
        ensures { OnOk result (out.new.items ≡ out.old.items ++ tallies.ending_text asked (tally_of self.now)) }
    {
        match asked {
            Asked::Names => Ok(()),
            Asked::Results => append_counts(out, self.passed, self.failed),
            Asked::Tap => append_plan(out, self.total()),
        }
    }

    /// The document of a chart of this name. The one error is that memory was refused.
    pub fn document(&self, alloc: Global, chart: &[u8]) -> Result<Vec<u8>, AllocError>
        ensures { IfOk result (λ text. text.items ≡ tallies.document_text chart.now (tally_of self.now)) }
    {
        let mut out = Vec::new(alloc);
        append_document(&mut out, chart, self.total(), self.failed, &self.elements)?;
        Ok(out)
    }
}
