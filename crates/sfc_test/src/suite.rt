//! A chart and its tests, from bytes to bytes.

ghost use Rattle.std.specs.Prelude.{◌≡◌, ◌∷◌, [], ℕ, List, IfOk};
ghost use Rattle.sfc_judge.specs.Running.Benches.{IsReady, steered_in};
ghost use Rattle.sfc_cases.specs.Answers.{text_in};
ghost use Rattle.sfc_test.specs.Answers.{Opens, Puts, Tests, TestsFrom, chart_in, tally_in, wish};
ghost use Rattle.sfc_test.specs.Cases.{titled as titled_cases};
ghost use Rattle.sfc_test.specs.Running.{Runs, case_in};
ghost use Rattle.sfc_test.specs.Taking.{Takes, TellsWanted, wish_of};
ghost use Rattle.sfc_test.specs.Tallies as tallies;
ghost use Rattle.sfc_test.specs.Texts.{ended};

use crate::asked::{Asked, Choice, has_word};
use crate::desk::{Desk, NoDesk};
use crate::input::read_tests_to_end;
use crate::opened::{File, Opened, open_tests};
use crate::results::Results;
use crate::running::run;
use crate::telling::Source;
use crate::titled::{Titled, Titles};
use crate::told::{append_ended, append_told};
use sfc_base::write_fault::put_all;
use sfc_cases::sources::Sources;
use sfc_judge::bench::Bench;
use sfc_replay::chart::plant_of_text;
use sfc_replay::input::read_to_end;
use sfc_replay::replay_error::ReplayError;
use std::alloc::{AllocError, Global};
use std::io::{Read, Write};

/// The tests of a file, and what is wanted of them.
#[derive(Clone, Copy)]
struct Job<'a> {
    source: Source<'a>,
    choice: Choice<'a>,
}

// A title on a line.
fn title_line(alloc: Global, title: &[u8]) -> Result<Vec<u8>, AllocError>
    ensures { IfOk result (λ text. text.items ≡ ended title.now) }
{
    let mut text = Vec::new(alloc);
    append_ended(&mut text, title)?;
    Ok(text)
}

/// A chart, and what came of its cases so far.
pub struct Suite {
    alloc: Global,
    chart: Vec<u8>,
    results: Results,
}

// By hand, so that a caller that drops one proves one call.
impl Drop for Suite {
    fn drop(self) {
        let Suite {
            alloc: _,
            chart: _,
            results: _,
        } = self;
    }
}

#[tactic(auto, unfolding(crate::specs::Answers::chart_in, crate::specs::Answers::tally_in))]
impl Suite {
    /// The chart that a reader gives. At most 1,048,577 bytes are taken from it. `Chart` is answered where the chart is refused, `Read`
    /// where the reader failed, `Memory` where memory was refused.
    pub fn of_chart<C: Read>(alloc: Global, reader: &mut C) -> Result<Suite, ReplayError>
        ensures { Opens (C.remaining reader.old, C.remaining reader.new) result }
    {
        let chart = read_to_end(alloc, reader)?;
        let _plant = plant_of_text(alloc, &chart)?;
        Ok(Suite {
            alloc,
            chart,
            results: Results::new(alloc),
        })
    }

    /// How many cases have failed, as far as 64 bits go.
    pub fn failed(&self) -> u64
        ensures { result ≡ (tally_in self.now).failed }
    {
        self.results.failed()
    }

    // Runs a case: what is told of it.
    fn tell_run<D: Desk>(
        &mut self,
        bench: &mut Bench,
        job: Job<'_>,
        titled: Titled<'_>,
        desk: &mut D,
    ) -> Result<Vec<u8>, AllocError>
        requires ready { IsReady bench.old }
        ensures ready { IsReady bench.new }
        ensures steered { steered_in bench.new ≡ steered_in bench.old }
        ensures chart { chart_in self.new ≡ chart_in self.old }
        ensures told { IfOk result (λ text. Runs (steered_in bench.old) job.entry.source.file.name.now job.entry.choice.asked
            (case_in titled.entry) (tally_in self.old) (tally_in self.new) text.items) }
    {
        let judged = run(self.alloc, bench, job.source, titled.case, desk)?;
        self.results
            .add(job.source.file.name, titled.title, &judged)?;
        let mut text = Vec::new(self.alloc);
        append_told(
            &mut text,
            job.choice.asked,
            self.results.total(),
            titled.title,
            &judged,
        )?;
        Ok(text)
    }

    // What is told of a case: nothing of one that isn't wanted, its title, or what comes of it.
    fn tell_case<D: Desk>(
        &mut self,
        bench: &mut Bench,
        job: Job<'_>,
        titled: Titled<'_>,
        desk: &mut D,
    ) -> Result<Vec<u8>, AllocError>
        requires ready { IsReady bench.old }
        ensures ready { IsReady bench.new }
        ensures steered { steered_in bench.new ≡ steered_in bench.old }
        ensures chart { chart_in self.new ≡ chart_in self.old }
        ensures told { IfOk result (λ text. TellsWanted (wish_of job.entry) (steered_in bench.old) (case_in titled.entry ∷ [])
            (tally_in self.old) (tally_in self.new) text.items) }
    {
        if !has_word(titled.title, job.choice.filter) {
            return Ok(Vec::new(self.alloc));
        }
        match job.choice.asked {
            Asked::Names => title_line(self.alloc, titled.title),
            Asked::Results | Asked::Tap => {
                let text = self.tell_run(bench, job, titled, desk)?;
                Ok(text)
            }
        }
    }

    // Takes the cases of a file in turn.
    fn take_cases<W: Write, D: Desk>(
        &mut self,
        bench: &mut Bench,
        job: Job<'_>,
        desk: &mut D,
        w: &mut W,
    ) -> Result<(), ReplayError>
        requires ready { IsReady bench.old }
        ensures chart { chart_in self.new ≡ chart_in self.old }
        ensures takes { Takes (wish_of job.entry) (steered_in bench.old)
            (titled_cases job.entry.source.file.name.now job.entry.source.lines.now) (tally_in self.old) (tally_in self.new) (W.contents w.old, W.contents w.new) result }
    {
        let mut rest = Titles::of_file(job.source.file.name, job.source.lines);
        'cases: while let Some((titled, others)) = rest.split_first() {
            let text = self.tell_case(bench, job, titled, desk)?;
            put_all(w, &text)?;
            rest = others;
        }
        Ok(())
    }

    // Runs the cases of a file.
    fn test_file<W: Write, D: Desk>(
        &mut self,
        file: File<'_>,
        choice: Choice<'_>,
        desk: &mut D,
        w: &mut W,
    ) -> Result<(), ReplayError>
        ensures chart { chart_in self.new ≡ chart_in self.old }
        ensures tests { Tests (chart_in self.old) file.entry.text.now (wish file.entry.name.now choice.entry)
            (tally_in self.old) (tally_in self.new) (W.contents w.old, W.contents w.new) result }
    {
        let Opened {
            mut bench,
            lines,
            places,
        } = open_tests(self.alloc, &self.chart, file.text)?;
        let source = Source {
            file,
            lines: &lines,
            places: &places,
        };
        self.take_cases(&mut bench, Job { source, choice }, desk, w)
    }

    /// Runs the cases of a file, with those that it includes, that are chosen, and writes of each `ok` or `FAILED` and its title, with what
    /// is wrong; or lists them. What stands before the first TEST is done before each; a file without TEST is one case of the file's name.
    /// All of them are run whatever fails. The commands of cases go to the desk.
    ///
    /// `Script` is answered where a line can't be read, a line of the whole text, and nothing was written; `Memory` where memory was
    /// refused, `Write` where the writer failed or took no byte. The chart stays.
    pub fn test_sources<W: Write, D: Desk>(
        &mut self,
        sources: &Sources,
        choice: Choice<'_>,
        desk: &mut D,
        w: &mut W,
    ) -> Result<(), ReplayError>
        ensures chart { chart_in self.new ≡ chart_in self.old }
        ensures tests { (name : List ℕ) × Tests (chart_in self.old) (text_in sources.now) (wish name choice.entry)
            (tally_in self.old) (tally_in self.new) (W.contents w.old, W.contents w.new) result }
    {
        let file = File {
            name: sources.name(),
            text: sources.text(),
            sources,
        };
        self.test_file(file, choice, desk, w)
    }

    /// Runs the cases of a file that includes no other, as `test_sources` does. At most 67,108,865 bytes are taken from the reader; `Read`
    /// is answered where it failed.
    pub fn test<S: Read, W: Write>(
        &mut self,
        name: &str,
        reader: &mut S,
        choice: Choice<'_>,
        w: &mut W,
    ) -> Result<(), ReplayError>
        ensures chart { chart_in self.new ≡ chart_in self.old }
        ensures tests { TestsFrom (S.remaining reader.old, S.remaining reader.new) (chart_in self.old) (wish name.now choice.entry)
            (tally_in self.old) (tally_in self.new) (W.contents w.old, W.contents w.new) result }
    {
        let text = read_tests_to_end(self.alloc, reader)?;
        // Of these it is asked alone in which file a line stands.
        let sources = Sources::of_one(self.alloc, name.as_bytes(), Vec::new(self.alloc))?;
        let file = File {
            name: name.as_bytes(),
            text: &text,
            sources: &sources,
        };
        self.test_file(file, choice, &mut NoDesk, w)
    }

    /// The results as the XML of JUnit, for a chart of this name. The one error is that memory was refused.
    pub fn junit(&self, chart: &str) -> Result<Vec<u8>, AllocError>
        ensures { IfOk result (λ text. text.items ≡ tallies.document_text chart.now (tally_in self.now)) }
    {
        self.results.document(self.alloc, chart.as_bytes())
    }

    /// Writes what stands at the end: how many cases have passed and failed, or how many there were; nothing behind titles. The errors are
    /// `Write` and `Memory`.
    pub fn put_counts<W: Write>(&self, asked: Asked, w: &mut W) -> Result<(), ReplayError>
        ensures { Puts (tallies.ending_text asked (tally_in self.now)) (W.contents w.old, W.contents w.new) result }
    {
        let mut out = Vec::new(self.alloc);
        self.results.append_ending(asked, &mut out)?;
        put_all(w, &out)?;
        Ok(())
    }
}
