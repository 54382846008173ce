//! A case: what is run, and how it is to end.

use crate::covering::{Scripts, covered};
use crate::debugged::debugged;
use crate::ending::Ending;
use crate::frame::Frame;
use crate::tested::tested;
use anyhow::{Result, bail};
use sfc_plant::plant::Plant;
use sfc_replay::check::{check_chart, list_chart};
use sfc_replay::replay::replay;
use sfc_why_tests::sfc_cases::sources::Sources;
use sfc_why_tests::sfc_why::all::explain_all;
use sfc_why_tests::sfc_why::chart::{Told, explain_chart};
use sfc_why_tests::sfc_why::page::{explanation_of, put_report};
use sfc_why_tests::sfc_why::report::Report;
use sfc_why_tests::sfc_why::script::{ScriptTold, explain_script};
use sfc_why_tests::tests::{TestFault, TestsTold, explain_tests};
use std::alloc::{AllocError, Global};

/// A command of `sfcmon`.
#[derive(Clone, Copy)]
enum Command {
    /// A chart is checked.
    Check,
    /// A chart is listed.
    List,
    /// A script is played on a chart.
    Replay,
    /// The first fault of a chart, or else of a script, is told.
    Why,
    /// All faults of a chart are told, or else the first one of a script.
    WhyAll,
    /// The first fault of a chart, or else the faults of a file of tests, are told.
    WhyTests,
    /// What scripts on a chart reach together is told.
    Cover,
    /// A chart is stepped by hand, by the lines of the script.
    Debug,
    /// Tests are run on a chart, which are the script.
    Test,
}

/// What is run, and how it is to end. The chart is the whole of `chart`, or where there is none that of `frame`. `second` and `least` are for
/// what scripts reach together: a second script, and how many percents are wanted.
#[derive(Clone)]
pub struct Case {
    pub title: String,
    command: Command,
    chart: Option<Vec<u8>>,
    frame: Frame,
    script: Vec<u8>,
    second: Option<Vec<u8>>,
    pub least: u8,
    pub wanted: Ending,
}

// By hand, so that a caller that drops one proves one call.
impl Drop for Case {
    fn drop(self) {
        let Case {
            title: _,
            command: _,
            chart: _,
            frame: _,
            script: _,
            second: _,
            least: _,
            wanted: _,
        } = self;
    }
}

// Adds the bytes to a text that may not have begun.
fn add_to(alloc: Global, text: &mut Option<Vec<u8>>, bytes: &[u8]) -> Result<(), AllocError> {
    let mut whole = match text.take() {
        Some(begun) => begun,
        None => Vec::new(alloc),
    };
    whole.extend_from_slice(bytes)?;
    *text = Some(whole);
    Ok(())
}

// Adds a report of a fault of this file to the output.
fn tell(ending: &mut Ending, file: &[u8], report: &Report) -> Result<(), AllocError> {
    ending.status = 1;
    let explanation = explanation_of(report.refusal);
    match put_report(file, report, explanation, &mut ending.output) {
        Ok(()) => Ok(()),
        Err(_) => Err(AllocError),
    }
}

// Adds a report of a script's fault to the output, if it has one, or else warnings.
fn tell_script(ending: &mut Ending, told: &ScriptTold) -> Result<(), AllocError> {
    match told {
        ScriptTold::Fault(report) => tell(ending, b"script", report),
        ScriptTold::NoFault(warnings) => {
            for warning in warnings {
                tell(ending, b"script", warning)?;
            }
            ending.status = 0;
            ending.output.extend_from_slice(b"no fault\n")
        }
    }
}

// Adds a report of a line of tests to the output.
fn tell_test(ending: &mut Ending, fault: &TestFault) -> Result<(), AllocError> {
    ending.status = 1;
    match put_report(b"script", &fault.report, None, &mut ending.output) {
        Ok(()) => Ok(()),
        Err(_) => Err(AllocError),
    }
}

// Adds reports of the faults of tests on a chart's text, which is this plant, to the output.
fn explain_tests_of(
    alloc: Global,
    (chart, plant): (&[u8], Plant),
    tests: &[u8],
    ending: &mut Ending,
) -> Result<(), AllocError> {
    let sources = Sources::of_one(alloc, b"script", Vec::from_slice(alloc, tests)?)?;
    match explain_tests(alloc, chart, plant, &sources)? {
        TestsTold::Fault(fault) => tell_test(ending, &fault)?,
        TestsTold::NoFault(faults) if faults.is_empty() => {
            ending.output.extend_from_slice(b"no fault\n")?
        }
        TestsTold::NoFault(faults) => {
            for fault in &faults {
                tell_test(ending, fault)?;
            }
        }
    }
    Ok(())
}

impl Case {
    /// A case with this title, of which nothing else is said: a replay of an empty frame and an empty script that is to
    /// write nothing and to leave status 0.
    pub fn new(alloc: Global, title: &str) -> Result<Case, AllocError> {
        Ok(Case {
            title: String::from_str(alloc, title)?,
            command: Command::Replay,
            chart: None,
            frame: Frame::new(alloc),
            script: Vec::new(alloc),
            second: None,
            least: 0,
            wanted: Ending::new(alloc),
        })
    }

    /// The case with more of a title.
    pub fn titled(&self, title: &str) -> Result<Case, AllocError> {
        let mut case = self.clone()?;
        case.title.push_str(": ")?;
        case.title.push_str(title)?;
        Ok(case)
    }

    /// Sets the command by its name.
    pub fn set_command(&mut self, name: &str) -> Result<()> {
        match name {
            "check" => self.command = Command::Check,
            "list" => self.command = Command::List,
            "replay" => self.command = Command::Replay,
            "why" => self.command = Command::Why,
            "why --all" => self.command = Command::WhyAll,
            "why tests" => self.command = Command::WhyTests,
            "cover" => self.command = Command::Cover,
            "debug" => self.command = Command::Debug,
            "test" => self.command = Command::Test,
            _ => bail!("there is no command {name}"),
        }
        Ok(())
    }

    /// Adds bytes to one of the texts, by its name.
    pub fn add(&mut self, alloc: Global, text: &str, bytes: &[u8]) -> Result<()> {
        match text {
            "chart" => add_to(alloc, &mut self.chart, bytes)?,
            "globals" => self.frame.globals.extend_from_slice(bytes)?,
            "body" => self.frame.body.extend_from_slice(bytes)?,
            "task" => self.frame.task.extend_from_slice(bytes)?,
            "script" => self.script.extend_from_slice(bytes)?,
            "second" => add_to(alloc, &mut self.second, bytes)?,
            "output" => self.wanted.output.extend_from_slice(bytes)?,
            _ => bail!("a case has no text {text}"),
        }
        Ok(())
    }

    // Checks the chart.
    fn checked(&self, alloc: Global, chart: &[u8]) -> Result<Ending, AllocError> {
        let mut chart = chart;
        let mut ending = Ending::new(alloc);
        if let Err(error) = check_chart(alloc, &mut chart, &mut ending.output) {
            ending.fault = format!(in alloc; "{error}")?;
            ending.status = error.status();
        }
        Ok(ending)
    }

    // Lists the chart.
    fn listed(&self, alloc: Global, chart: &[u8]) -> Result<Ending, AllocError> {
        let mut chart = chart;
        let mut ending = Ending::new(alloc);
        if let Err(error) = list_chart(alloc, &mut chart, &mut ending.output) {
            ending.fault = format!(in alloc; "{error}")?;
            ending.status = error.status();
        }
        Ok(ending)
    }

    // Whether the listing of the chart, if it has one, lists the same again.
    fn lists_alike(&self, alloc: Global, chart: &[u8]) -> Result<bool, AllocError> {
        let once = self.listed(alloc, chart)?;
        if once.status != 0 {
            return Ok(true);
        }
        let again = self.listed(alloc, &once.output)?;
        Ok(again.status == 0 && again.output.as_slice() == once.output.as_slice())
    }

    // Plays the script on the chart.
    fn replayed(&self, alloc: Global, chart: &[u8]) -> Result<Ending, AllocError> {
        let mut chart = chart;
        let mut script = self.script.as_slice();
        let mut ending = Ending::new(alloc);
        if let Err(error) = replay(alloc, &mut chart, &mut script, &mut ending.output) {
            ending.fault = format!(in alloc; "{error}")?;
            ending.status = error.status();
        }
        Ok(ending)
    }

    // Tells the first fault of the script on the plant that the chart is.
    fn explain_script(
        &self,
        alloc: Global,
        chart: &[u8],
        plant: Plant,
        ending: &mut Ending,
    ) -> Result<(), AllocError> {
        let told = explain_script(alloc, chart, plant, &self.script)?;
        tell_script(ending, &told)
    }

    // Tells the first fault of the chart, or else of the script.
    fn explained(&self, alloc: Global, chart: &[u8]) -> Result<Ending, AllocError> {
        let mut ending = Ending::new(alloc);
        match explain_chart(alloc, chart)? {
            Told::Fault(report) => tell(&mut ending, b"chart", &report)?,
            Told::NoFault(plant) => self.explain_script(alloc, chart, plant, &mut ending)?,
        }
        Ok(ending)
    }

    // Tells all faults of the chart, or else the first one of the script.
    fn all_explained(&self, alloc: Global, chart: &[u8]) -> Result<Ending, AllocError> {
        let reports = explain_all(alloc, chart)?;
        if reports.is_empty() {
            return self.explained(alloc, chart);
        }
        let mut ending = Ending::new(alloc);
        for report in &reports {
            tell(&mut ending, b"chart", report)?;
        }
        Ok(ending)
    }

    // Tells the first fault of the chart, or else the faults of the tests.
    fn tests_explained(&self, alloc: Global, chart: &[u8]) -> Result<Ending, AllocError> {
        let mut ending = Ending::new(alloc);
        match explain_chart(alloc, chart)? {
            Told::Fault(report) => tell(&mut ending, b"chart", &report)?,
            Told::NoFault(plant) => {
                explain_tests_of(alloc, (chart, plant), &self.script, &mut ending)?
            }
        }
        Ok(ending)
    }

    // What the scripts reach on the chart.
    fn covered(&self, alloc: Global, chart: &[u8]) -> Result<Ending, AllocError> {
        let scripts = Scripts {
            first: self.script.as_slice(),
            second: match &self.second {
                Some(second) => Some(second.as_slice()),
                None => None,
            },
            least: self.least,
        };
        let mut ending = Ending::new(alloc);
        covered(alloc, chart, scripts, &mut ending)?;
        Ok(ending)
    }

    // Runs the command on a chart. A listing that doesn't list the same again is told as a fault.
    fn ending_on(&self, alloc: Global, chart: &[u8]) -> Result<Ending, AllocError> {
        let mut ending = match self.command {
            Command::Check => self.checked(alloc, chart)?,
            Command::List => self.listed(alloc, chart)?,
            Command::Replay => self.replayed(alloc, chart)?,
            Command::Why => self.explained(alloc, chart)?,
            Command::WhyAll => self.all_explained(alloc, chart)?,
            Command::WhyTests => self.tests_explained(alloc, chart)?,
            Command::Cover => self.covered(alloc, chart)?,
            Command::Debug => debugged(alloc, chart, &self.script)?,
            Command::Test => tested(alloc, chart, &self.script)?,
        };
        if !self.lists_alike(alloc, chart)? {
            ending
                .fault
                .push_str(" (and its listing lists another text)")?;
        }
        Ok(ending)
    }

    /// How the command ends.
    pub fn ending(&self, alloc: Global) -> Result<Ending, AllocError> {
        match &self.chart {
            Some(chart) => self.ending_on(alloc, chart),
            None => {
                let chart = self.frame.chart(alloc)?;
                self.ending_on(alloc, &chart)
            }
        }
    }
}
