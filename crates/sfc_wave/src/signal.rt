//! What a waveform shows, one signal each.

use crate::sfc_core::resource::Resource;
use crate::sfc_debug::debugger::Debugger;
use crate::sfc_debug::mode::Mode;
use crate::sfc_instance::program_view::ProgramView;
use sfc_base::ids::{ActionNumber, ProgId, TaskId, VarId};
use sfc_base::references::StepId;
use sfc_base::value::Value;
use sfc_base::var_type::VarType;

/// Something that a waveform shows. A number that names nothing in a resource reads 0.
#[derive(Clone, Copy, Debug, PartialEq, Eq)]
pub enum Signal {
    /// Whether the debugger is in the mode Running.
    Running,
    /// A scan of a task: up at its instant, down a microsecond later. It is not read but raised.
    Scan(TaskId),
    /// The overruns of a task since the opening.
    Overruns(TaskId),
    /// What a variable reads.
    Variable(VarId, VarType),
    /// Whether a variable is forced.
    Forced(VarId),
    /// X of a step of an instance (2.6.2).
    Active(ProgId, StepId),
    /// T of a step, in microseconds, as of the latest scan.
    Elapsed(ProgId, StepId),
    /// Q of an action (2.6.4.5).
    Q(ProgId, ActionNumber),
    /// A of an action: whether the latest scan executed it.
    Executed(ProgId, ActionNumber),
    /// The names of the active steps of an instance. It is a text, and has no bits.
    Steps(ProgId),
}

/// A bit.
pub fn bit(is_set: bool) -> u64 {
    if is_set { 1 } else { 0 }
}

/// The bits of a value, a negative number as its two's complement.
pub fn bits_of(value: Value) -> u64 {
    match value {
        Value::Bool(is_set) => bit(is_set),
        number => number.number().cast_unsigned(),
    }
}

/// How many bits a value has.
pub fn width_of(var_type: VarType) -> u32 {
    match var_type {
        VarType::Bool => 1,
        VarType::Int => 16,
        VarType::Dint => 32,
        VarType::Time => 64,
    }
}

// The bits of what a variable reads.
fn variable_bits(resource: &Resource, variable: VarId) -> u64 {
    if usize::from(variable.0) < resource.variables() {
        bits_of(resource.value(variable))
    } else {
        0
    }
}

// Whether a variable is forced.
fn is_forced(resource: &Resource, variable: VarId) -> bool {
    usize::from(variable.0) < resource.variables() && resource.forced(variable).is_some()
}

/// The overruns of a task.
pub fn overruns_of(resource: &Resource, task: TaskId) -> u64 {
    if usize::from(task.0) < resource.plant().tasks().len() {
        resource.overruns(task)
    } else {
        0
    }
}

// What a signal of an instance reads, where its step or action is there.
fn bits_in(view: &ProgramView<'_>, signal: Signal) -> u64 {
    match signal {
        Signal::Active(_, step) if usize::from(step.0) < view.steps() => bit(view.active(step)),
        Signal::Elapsed(_, step) if usize::from(step.0) < view.steps() => {
            view.elapsed(step).cast_unsigned()
        }
        Signal::Q(_, action) if action.0 < view.actions() => bit(view.q(action)),
        Signal::Executed(_, action) if action.0 < view.actions() => bit(view.executed(action)),
        _ => 0,
    }
}

// What a signal of an instance reads.
fn instance_bits(resource: &Resource, program: ProgId, signal: Signal) -> u64 {
    if usize::from(program.0) < resource.plant().instances().len() {
        bits_in(&resource.program(program), signal)
    } else {
        0
    }
}

impl Signal {
    /// What it reads: a bit, or a number as 64 bits in two's complement.
    pub fn bits(self, debugger: &Debugger) -> u64 {
        let resource = debugger.resource();
        match self {
            Signal::Running => bit(debugger.mode() == Mode::Running),
            Signal::Scan(_) | Signal::Steps(_) => 0,
            Signal::Overruns(task) => overruns_of(resource, task),
            Signal::Variable(variable, _) => variable_bits(resource, variable),
            Signal::Forced(variable) => bit(is_forced(resource, variable)),
            Signal::Active(program, _)
            | Signal::Elapsed(program, _)
            | Signal::Q(program, _)
            | Signal::Executed(program, _) => instance_bits(resource, program, self),
        }
    }

    /// How many bits it has.
    pub fn width(self) -> u32 {
        match self {
            Signal::Overruns(_) | Signal::Elapsed(_, _) => 64,
            Signal::Variable(_, var_type) => width_of(var_type),
            _ => 1,
        }
    }

    /// Whether it is a text.
    pub fn is_text(self) -> bool {
        matches!(self, Signal::Steps(_))
    }
}
