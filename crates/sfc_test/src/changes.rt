//! What has changed behind the last commands of a case.

ghost use Rattle.std.specs.Prelude.{◌≡◌};
ghost use Rattle.sfc_judge.specs.Running.Benches.{IsReady, steered_in};

use crate::operands::append_joint;
use crate::sfc_debug::timed::Timed;
use crate::sfc_output::command::append_command;
use sfc_base::ids::ProgId;
use sfc_base::location::Area;
use sfc_base::references::{GlobalId, StepId, Variable};
use sfc_base::value::Value;
use sfc_events::command::Answer;
use sfc_expr::view::View;
use sfc_judge::bench::Bench;
use sfc_page::append::{append, append_time, append_value};
use sfc_plant::names::instance_name;
use std::alloc::{AllocError, Global};

/// The most lines that are told.
const MOST: usize = 10;

/// How a step or a variable stands that is looked at.
#[derive(Clone, Copy, Debug, PartialEq, Eq)]
enum Seen {
    Active(ProgId, StepId, bool),
    Reads(GlobalId, Value),
}

// Adds which steps of a program instance are active.
fn add_steps(found: &mut Vec<Seen>, bench: &Bench, program: ProgId) -> Result<(), AllocError> {
    let Some(view) = bench.view(program) else {
        return Ok(());
    };
    for number in 0..view.steps() {
        let step = StepId(number.min(65_535) as u16);
        found.push(Seen::Active(program, step, view.active(step)))?;
    }
    Ok(())
}

// Adds what the global variables read that aren't inputs.
fn add_variables(found: &mut Vec<Seen>, bench: &Bench) -> Result<(), AllocError> {
    let Some(view) = bench.view(ProgId(0)) else {
        return Ok(());
    };
    let globals = bench.resource().plant().globals();
    for number in 0..globals.len() {
        let id = GlobalId(number);
        let is_input = match globals.get(number) {
            Some(global) => match &global.location {
                Some(location) => location.area() == Area::Input,
                None => false,
            },
            None => true,
        };
        if !is_input {
            found.push(Seen::Reads(id, view.value_at(Variable::Global(id))))?;
        }
    }
    Ok(())
}

// How all stands.
fn how_it_stands(alloc: Global, bench: &Bench) -> Result<Vec<Seen>, AllocError> {
    let mut found = Vec::new(alloc);
    for number in 0..bench.resource().plant().instances().len() {
        add_steps(&mut found, bench, ProgId(number.min(255) as u8))?;
    }
    add_variables(&mut found, bench)?;
    Ok(found)
}

// A step or a variable, and how it stands.
fn append_seen(out: &mut Vec<u8>, bench: &Bench, one: Seen) -> Result<(), AllocError> {
    let plant = bench.resource().plant();
    match one {
        Seen::Active(program, step, is_active) => {
            if plant.instances().len() > 1 {
                append(
                    out,
                    instance_name(plant.instances(), usize::from(program.0)),
                )?;
                append(out, b".")?;
            }
            append(out, plant.names(program).step(step))?;
            append(out, b".X ")?;
            append_value(out, Value::Bool(is_active))
        }
        Seen::Reads(id, value) => {
            append(out, plant.names(ProgId(0)).variable(Variable::Global(id)))?;
            append(out, b" ")?;
            append_value(out, value)
        }
    }
}

// A line of what stands otherwise than before, behind the instant; nothing where all stands as it did.
fn append_changes(
    out: &mut Vec<u8>,
    bench: &Bench,
    instant: i64,
    before: &[Seen],
    now: &[Seen],
) -> Result<(), AllocError> {
    let mut begin = 0;
    for (old, new) in before.iter().zip(now) {
        if old != new {
            if begin == 0 {
                append(out, b"changed ")?;
                append_time(out, instant)?;
                append(out, b": ")?;
                begin = out.len();
            }
            append_joint(out, begin)?;
            append_seen(out, bench, *new)?;
        }
    }
    Ok(())
}

/// Gives these commands to the bench from its opening on, and puts lines at the end that tell behind which of the last of them steps and
/// global variables that aren't inputs changed, and how; at most ten. The bench stands behind them then. The one error is that memory was
/// refused.
pub fn append_last_changes(
    alloc: Global,
    out: &mut Vec<u8>,
    bench: &mut Bench,
    commands: &[Timed],
) -> Result<(), AllocError>
    ensures ready { IsReady bench.old → IsReady bench.new }
    ensures steered { steered_in bench.new ≡ steered_in bench.old }
{
    let mut lines: Vec<Vec<u8>> = Vec::new(alloc);
    let mut before = how_it_stands(alloc, bench)?;
    'commands: for timed in commands {
        bench.repeat(*timed);
        let now = how_it_stands(alloc, bench)?;
        let mut line = Vec::new(alloc);
        append_changes(&mut line, bench, timed.raw, &before, &now)?;
        before = now;
        if !line.is_empty() {
            if lines.len() >= MOST {
                let _first = lines.remove(0);
            }
            lines.push(line)?;
        }
    }
    for line in &lines {
        append(out, line)?;
        append(out, b"\n")?;
    }
    Ok(())
}

/// Puts these commands at the end as a script. The one error is that memory was refused.
pub fn append_script(
    out: &mut Vec<u8>,
    bench: &Bench,
    commands: &[Timed],
) -> Result<(), AllocError> {
    for timed in commands {
        append_command(
            out,
            bench.debugger(),
            timed.command,
            timed.raw,
            Answer::Done,
        )?;
    }
    Ok(())
}
