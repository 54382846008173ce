//! Judges the expressions and bodies in the tables of the folder in which it is started.
//!
//! - `ending`: why a text has no value or effect.
//! - `finding`: what is found of a row, in the form in which a table has it.
//! - `folder`: the tables.
//! - `names`: the names that the texts may use; `values`: their values.
//! - `report`: what is printed of a row.
//! - `row`: a line of a table.
//! - `tree`: a text to its tree.
#![tactic(auto)]

mod ending;
mod finding;
mod folder;
mod names;
mod report;
mod row;
mod tree;
mod values;

use anyhow::Context;
use report::Counts;
use row::Row;
use std::fs;
use std::process::ExitCode;

// Judges the rows of the table.
fn run_table(rt: &HostRuntime, name: &str, counts: &mut Counts) -> anyhow::Result<()> {
    let text = fs::read_to_string(rt, name)?;
    for (index, line) in text.lines().enumerate() {
        let number = index.wrapping_add(1);
        let row = Row::of_line(line).context(format_args!("{name} line {number}"))?;
        if let Some(row) = row {
            let found = finding::found(rt.alloc(), &row).context(format_args!(
                "{name} line {number}"
            ))?;
            counts.add(report::judge(rt, name, number, &row, &found)?);
        }
    }
    Ok(())
}

// Judges the rows of all tables.
fn run(rt: &HostRuntime) -> anyhow::Result<Counts> {
    let mut counts = Counts::new();
    for name in &folder::tables(rt)? {
        run_table(rt, name.as_str(), &mut counts)?;
    }
    Ok(counts)
}

fn main(rt: HostRuntime) -> anyhow::Result<ExitCode> {
    let Counts { passed, failed } = run(&rt)?;
    println!(rt; "{passed} passed, {failed} failed")?;
    Ok(ExitCode::from(if failed == 0 { 0 } else { 1 }))
}
