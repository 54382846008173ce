//! Runs the cases of the folder in which it is started, and tells of each whether it ends as is wanted.
//!
//! - `case`: what is run, and how it is to end; `ending`: how a command ends.
//! - `case_file`, `folder`: the files with cases; `recipe`: the text that a line of a case stands for.
//! - `covering`: what scripts on a chart reach together.
//! - `debugged`: sessions in which a chart is stepped by hand.
//! - `frame`: a chart of which only some parts are given.
//! - `report`: what is printed of a case.
//! - `tested`: tests of a chart.
#![tactic(auto)]

mod case;
mod case_file;
mod covering;
mod debugged;
mod ending;
mod folder;
mod frame;
mod recipe;
mod report;
mod tested;

use report::Counts;
use std::process::ExitCode;

// Runs the cases of the file.
fn run_file(rt: &HostRuntime, name: &str, counts: &mut Counts) -> anyhow::Result<()> {
    for case in &case_file::cases_of(rt, name)? {
        counts.add(report::judge(rt, case)?);
    }
    Ok(())
}

// Runs the cases of all files.
fn run(rt: &HostRuntime) -> anyhow::Result<Counts> {
    let mut counts = Counts::new();
    for name in &folder::case_files(rt)? {
        run_file(rt, name.as_str(), &mut counts)?;
    }
    Ok(counts)
}

fn main(rt: HostRuntime) -> anyhow::Result<ExitCode> {
    let Counts { passed, failed } = run(&rt)?;
    println!(rt; "{passed} passed, {failed} failed")?;
    Ok(ExitCode::from(if failed == 0 { 0 } else { 1 }))
}
