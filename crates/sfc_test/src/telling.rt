//! What is told of a failure.

use crate::opened::File;
use crate::operands::{append_joint, append_none, append_operands};
use crate::sfc_script::split::next_line;
use sfc_base::ids::{ProgId, TaskId};
use sfc_base::references::StepId;
use sfc_cases::deed::Deed;
use sfc_cases::line::Line;
use sfc_cases::watch::Watch;
use sfc_cases::words::from_word;
use sfc_events::refusal::Refusal;
use sfc_judge::bench::Bench;
use sfc_judge::complaint::Complaint;
use sfc_judge::judge::Failure;
use sfc_page::append::{append, append_number, append_time};
use sfc_plant::names::{instance_name, task_name};
use std::alloc::{AllocError, Global};

/// Tests: the file's name, their text and in which files its lines stand, its lines that do something, and the bytes at which they begin.
#[derive(Clone, Copy)]
pub struct Source<'a> {
    pub file: File<'a>,
    pub lines: &'a [Line],
    pub places: &'a [usize],
}

// The text of a line of this number, without its end; nothing where no such line does something.
fn text_of<'a>(source: Source<'a>, number: usize) -> &'a [u8] {
    let index = source.lines.partition_point(|line| line.number < number);
    let Some(place) = source.places.get(index) else {
        return b"";
    };
    let text = source.file.text;
    if *place > text.len() {
        return b"";
    }
    let (_, bytes) = text.split_at(*place);
    match next_line(bytes) {
        Some((line, _)) => line,
        None => b"",
    }
}

// How many stimuli these lines begin.
fn count_stimuli(lines: &[Line]) -> usize {
    let mut count = 0usize;
    for line in lines {
        if let Deed::Stirs(_) = line.deed {
            count = count.saturating_add(1);
        }
    }
    count
}

// The line of these that begins the stimulus of a place, counted from 0.
fn stirring_line(lines: &[Line], place: usize) -> Option<&Line> {
    let mut left = place;
    'lines: for line in lines {
        if let Deed::Stirs(_) = line.deed {
            if left == 0 {
                return Some(line);
            }
            left = left.saturating_sub(1);
        }
    }
    None
}

// The line that begins the stimulus of a place among those of the case that stands at a line: those of the lines before the first TEST come
// first.
fn stimulus_line<'a>(lines: &'a [Line], at: &Line, place: usize) -> Option<&'a Line> {
    let first = lines
        .iter()
        .position(Line::begins_case)
        .unwrap_or(lines.len());
    let (front, cases) = lines.split_at(first.min(lines.len()));
    let before = count_stimuli(front);
    if place < before {
        return stirring_line(front, place);
    }
    let done = cases.partition_point(|line| line.number <= at.number);
    let (done, _) = cases.split_at(done.min(cases.len()));
    let begins = done.iter().rposition(Line::begins_case).unwrap_or(0);
    let (_, own) = done.split_at(begins.min(done.len()));
    stirring_line(own, place.saturating_sub(before))
}

// A line with the file, the number and the text of a line, and at which of its bytes that begins, counted from 1.
fn append_place(out: &mut Vec<u8>, source: Source<'_>, line: &Line) -> Result<(), AllocError> {
    let (name, number) = source.file.sources.place(line.number);
    let whole = text_of(source, line.number);
    let text = from_word(whole);
    let column = whole.len().saturating_sub(text.len()).saturating_add(1);
    append(out, name)?;
    append(out, b":")?;
    append_number(out, number as u64)?;
    append(out, b":")?;
    append_number(out, column as u64)?;
    append(out, b": ")?;
    append(out, text)?;
    append(out, b"\n")
}

// The name of a program instance.
fn append_program(out: &mut Vec<u8>, bench: &Bench, program: ProgId) -> Result<(), AllocError> {
    let instances = bench.resource().plant().instances();
    append(out, instance_name(instances, usize::from(program.0)))
}

// A program instance, and its fault.
fn append_fault(out: &mut Vec<u8>, bench: &Bench, program: ProgId) -> Result<(), AllocError> {
    append_program(out, bench, program)?;
    match bench.fault(program) {
        Some(fault) => {
            append(out, b" fault ")?;
            append(out, fault.name())
        }
        None => append(out, b" has no fault"),
    }
}

// A task, and its overruns.
fn append_overruns(out: &mut Vec<u8>, bench: &Bench, task: TaskId) -> Result<(), AllocError> {
    let tasks = bench.resource().plant().tasks();
    append(out, task_name(tasks, usize::from(task.0)))?;
    append(out, b" overruns ")?;
    append_number(out, bench.overruns(task))
}

// The steps of a program instance that are active.
fn append_active(out: &mut Vec<u8>, bench: &Bench, program: ProgId) -> Result<(), AllocError> {
    append(out, b"active ")?;
    let Some(view) = bench.view(program) else {
        return Ok(());
    };
    let names = bench.resource().plant().names(program);
    let begin = out.len();
    for number in 0..view.steps() {
        let step = StepId(number.min(65_535) as u16);
        if view.active(step) {
            append_joint(out, begin)?;
            append(out, names.step(step))?;
        }
    }
    append_none(out, begin)
}

// A refusal, by number and name.
fn append_refusal(out: &mut Vec<u8>, refusal: Refusal) -> Result<(), AllocError> {
    append(out, b"refused ")?;
    append_number(out, u64::from(refusal.number()))?;
    append(out, b" ")?;
    append(out, refusal.name().as_bytes())
}

// How that stands of which a line says something.
fn append_state(
    alloc: Global,
    out: &mut Vec<u8>,
    bench: &Bench,
    line: &Line,
) -> Result<(), AllocError> {
    match &line.deed {
        Deed::Expects(condition) | Deed::Runs(Some(condition), _) => {
            append_operands(alloc, out, bench, condition)
        }
        Deed::Watches(Watch::Stays(steady)) => append_operands(
            alloc,
            out,
            bench,
            &steady.condition,
        ),
        Deed::Watches(Watch::Responds(response)) => {
            append(out, b"late, ")?;
            append_operands(alloc, out, bench, &response.effect)
        }
        Deed::Active(program, _) => append_active(out, bench, *program),
        Deed::Faulted(_, program) => append_fault(out, bench, *program),
        Deed::Overran(_, task) => append_overruns(out, bench, *task),
        _ => Ok(()),
    }
}

// The instant, and the line at which a condition was looked at that another line watches, or the command of a stimulus was given.
fn append_moment(
    out: &mut Vec<u8>,
    source: Source<'_>,
    bench: &Bench,
    failure: Failure<'_>,
) -> Result<(), AllocError> {
    append_time(out, bench.clock())?;
    if let Complaint::Broken(_) | Complaint::Unstirred(_, _) = failure.complaint {
        let (_, number) = source.file.sources.place(failure.line.number);
        append(out, b", line ")?;
        append_number(out, number as u64)?;
    }
    append(out, b": ")
}

// What is wrong.
fn append_complaint(
    alloc: Global,
    out: &mut Vec<u8>,
    bench: &Bench,
    failure: Failure<'_>,
) -> Result<(), AllocError> {
    match failure.complaint {
        Complaint::Refused(refusal) | Complaint::Unstirred(_, refusal) => {
            append_refusal(out, refusal)
        }
        Complaint::Accepted => append(out, b"accepted"),
        Complaint::Faulted(program) => append_fault(out, bench, program),
        Complaint::Overran(task) => append_overruns(out, bench, task),
        Complaint::TooMany => append(out, b"more than 100000000 commands"),
        Complaint::NotYet | Complaint::Differs => append_state(alloc, out, bench, failure.line),
        Complaint::Broken(line) => append_state(alloc, out, bench, line),
    }
}

// The line that isn't right: that which watches a condition, or which begins a stimulus, or the one at which the case failed.
fn line_of<'a>(lines: &'a [Line], failure: Failure<'a>) -> &'a Line {
    match failure.complaint {
        Complaint::Broken(line) => line,
        Complaint::Unstirred(place, _) => {
            stimulus_line(lines, failure.line, place).unwrap_or(failure.line)
        }
        _ => failure.line,
    }
}

/// Puts at the end what is told of a failure: a line with the file, the number, the column and the text of the line that isn't right; and
/// one with the instant of the test's clock, and what it reads, how that stands, or the refusal. The one error is that memory was refused.
pub fn append_failure(
    alloc: Global,
    out: &mut Vec<u8>,
    source: Source<'_>,
    bench: &Bench,
    failure: Failure<'_>,
) -> Result<(), AllocError> {
    append_place(out, source, line_of(source.lines, failure))?;
    append_moment(out, source, bench, failure)?;
    append_complaint(alloc, out, bench, failure)?;
    append(out, b"\n")
}
