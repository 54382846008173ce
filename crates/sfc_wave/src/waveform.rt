//! A waveform as it goes on: which signals changed, and when.

use crate::asked::{Asked, Form};
use crate::declared::Declared;
use crate::due::{Due, output_of};
use crate::dump::Dump;
use crate::instance::{put_actions, put_steps, say_active};
use crate::picked::pick;
use crate::sfc_core::resource::Resource;
use crate::sfc_debug::debugger::Debugger;
use crate::sfc_debug::mode::Mode;
use crate::sfc_instance::program_view::ProgramView;
use crate::shown::Shown;
use crate::signal::{Signal, bits_of, overruns_of, width_of};
use crate::signals::Signals;
use crate::wave_error::WaveError;
use sfc_base::ids::{ProgId, TaskId, VarId};
use sfc_events::command::{Answer, Command};
use sfc_events::instance_set::InstanceSet;
use sfc_page::append::append;
use std::alloc::{AllocError, Global};

/// The signal of the mode.
const RUNNING: usize = 0;

/// Where the signal of the first task's scans stands, and how many stand between those of two tasks.
const FIRST_SCAN: usize = 1;

const STRIDE: usize = 2;

/// The most tasks, and the most instances.
const TASKS: usize = 16;

const INSTANCES: usize = 64;

/// How many bits a count of overruns has.
const COUNT: u32 = 64;

/// A waveform, whose text waits to be written.
pub struct Waveform {
    alloc: Global,
    /// The signals that there are.
    pub signals: Signals,
    // Which variables are looked at behind a scan.
    due: Due,
    // Of each instance what was shown last.
    shown: Vec<Shown>,
    // Whether a scan's signal is up.
    is_raised: bool,
    // The names of steps that were said last.
    said: Vec<u8>,
    /// What was put so far.
    pub dump: Dump,
}

// By hand, so that a caller that drops one proves one call.
impl Drop for Waveform {
    fn drop(self) {
        let Waveform {
            alloc: _,
            signals: _,
            due: _,
            shown: _,
            is_raised: _,
            said: _,
            dump: _,
        } = self;
    }
}

// The task that a command scans.
fn scanned_task(command: Command) -> Option<TaskId> {
    match command {
        Command::Scan(task) => Some(task),
        Command::Single(task, _) => Some(task),
        _ => None,
    }
}

// The number of the signal of a task's scans.
fn scan_of(task: TaskId) -> usize {
    FIRST_SCAN + STRIDE * usize::from(task.0)
}

// The window on an instance, if there is such an instance.
fn view_of(resource: &Resource, number: usize) -> Option<ProgramView<'_>> {
    if number < resource.plant().instances().len() {
        Some(resource.program(ProgId(number as u8)))
    } else {
        None
    }
}

// Of each instance what it shows.
fn shown_of(alloc: Global, resource: &Resource) -> Result<Vec<Shown>, AllocError> {
    let mut shown = Vec::new(alloc);
    for number in 0..resource.plant().instances().len() {
        shown.push(Shown::of_view(alloc, &resource.program(ProgId(number as u8)))?)?;
    }
    Ok(shown)
}

impl Waveform {
    /// That of a debugger, with its declarations, and what each signal that is wanted reads at instant 0. The errors are that a name leads to
    /// no signal, and that memory was refused.
    pub fn new(
        alloc: Global,
        debugger: &Debugger,
        asked: Asked<'_>,
    ) -> Result<Waveform, WaveError> {
        let resource = debugger.resource();
        let signals = Signals::of_resource(alloc, resource)?;
        let picked = pick(alloc, resource, &signals, asked.only)?;
        let due = Due::of_resource(alloc, resource, &signals)?;
        let shown = shown_of(alloc, resource)?;
        let mut waveform = Waveform {
            alloc,
            signals,
            due,
            shown,
            is_raised: false,
            said: Vec::new(alloc),
            dump: Dump::new(alloc, picked, asked.form == Form::Picture),
        };
        waveform.begin(debugger)?;
        Ok(waveform)
    }

    // Puts the declarations and what each signal reads.
    fn begin(&mut self, debugger: &Debugger) -> Result<(), AllocError> {
        let declared = Declared {
            resource: debugger.resource(),
            signals: &self.signals,
            picked: self.dump.picked(),
        };
        let mut head = Vec::new(self.alloc);
        declared.append(&mut head)?;
        append(&mut head, b"#0\n$dumpvars\n")?;
        if self.dump.kept().is_none() {
            self.dump.text = head;
        }
        for number in 0..self.signals.list.len() {
            self.put_first(debugger, number)?;
        }
        self.dump.finish()?;
        if self.dump.kept().is_none() {
            append(&mut self.dump.text, b"$end\n")?;
        }
        Ok(())
    }

    /// The allocator.
    pub fn alloc(&self) -> Global {
        self.alloc
    }

    // Puts what the next signal reads first.
    fn put_first(&mut self, debugger: &Debugger, number: usize) -> Result<(), AllocError> {
        match self.signals.list.get(number).copied() {
            None => Ok(()),
            Some(Signal::Steps(program)) => {
                self.say(debugger.resource(), usize::from(program.0))?;
                self.dump.put_first_text(&self.said)
            }
            Some(signal) => self.dump.put_first(signal.width(), signal.bits(debugger)),
        }
    }

    // Says the names of the active steps of an instance.
    fn say(&mut self, resource: &Resource, number: usize) -> Result<(), AllocError> {
        match view_of(resource, number) {
            Some(view) => say_active(&mut self.said, &view),
            None => Ok(()),
        }
    }

    // Puts the names of the active steps of an instance.
    fn put_names(&mut self, resource: &Resource, number: usize) -> Result<(), AllocError> {
        self.say(resource, number)?;
        self.dump
            .put_text(self.signals.names_of(number), &self.said)
    }

    // Puts what a signal reads, if there is such a signal.
    fn put_signal(&mut self, debugger: &Debugger, number: usize) -> Result<(), AllocError> {
        match self.signals.list.get(number) {
            None => Ok(()),
            Some(signal) => self.dump.put(number, signal.width(), signal.bits(debugger)),
        }
    }

    // Puts the value of a variable and its force.
    fn put_forced(&mut self, debugger: &Debugger, variable: VarId) -> Result<(), AllocError> {
        let Some(number) = self.signals.value_of(variable) else {
            return Ok(());
        };
        self.put_signal(debugger, number)?;
        self.put_signal(debugger, number.saturating_add(1))
    }

    // Puts an instance that begins a new life.
    fn put_reset(&mut self, debugger: &Debugger, program: ProgId) -> Result<(), AllocError> {
        let number = usize::from(program.0);
        let end = self.signals.begin_of(number.saturating_add(1));
        for signal in self.signals.begin_of(number)..end {
            self.put_signal(debugger, signal)?;
        }
        self.put_names(debugger.resource(), number)?;
        if let Some(view) = view_of(debugger.resource(), number) {
            self.keep(&view, number);
        }
        Ok(())
    }

    // An instance is shown as it stands.
    fn keep(&mut self, view: &ProgramView<'_>, number: usize) {
        if let Some(shown) = self.shown.get_mut(number) {
            shown.keep(view);
        }
    }

    // Puts what a variable reads.
    fn put_value(
        &mut self,
        resource: &Resource,
        signal: usize,
        variable: usize,
    ) -> Result<(), AllocError> {
        if variable >= resource.variables() {
            return Ok(());
        }
        let value = resource.value(VarId(variable as u16));
        let width = width_of(value.var_type());
        self.dump.put(signal, width, bits_of(value))
    }

    // Puts what the marked variables of a group read.
    fn put_values(&mut self, resource: &Resource, number: usize) -> Result<(), AllocError> {
        let Some(group) = self.signals.groups.get(number) else {
            return Ok(());
        };
        let group = *group;
        let mut from = group.variable;
        for _ in 0..group.count {
            let Some(variable) = self.due.next(from) else {
                break;
            };
            if variable >= group.end() {
                break;
            }
            self.put_value(resource, group.value_of(variable), variable)?;
            from = variable.saturating_add(1);
        }
        Ok(())
    }

    // Marks the variables to which the latest scan of an instance may have given another Q. It answers whether the scan executed a body.
    fn mark_outputs(&mut self, resource: &Resource, number: usize) -> bool {
        let (Some(view), Some(shown)) = (view_of(resource, number), self.shown.get(number)) else {
            return false;
        };
        let mut from = 0;
        for _ in 0..view.actions() {
            let Some(action) = shown.next_output(&view, from) else {
                break;
            };
            if let Some(variable) = output_of(&view, &self.signals, number, action) {
                self.due.mark(variable);
            }
            from = action.saturating_add(1);
        }
        shown.has_body(&view)
    }

    // Marks the variables that the scans of these instances may have changed.
    fn mark_values(&mut self, resource: &Resource, ran: InstanceSet) {
        self.due.begin();
        let mut has_body = false;
        let mut rest = ran;
        for _ in 0..INSTANCES {
            let Some((instance, others)) = rest.split_first() else {
                break;
            };
            has_body |= self.mark_outputs(resource, usize::from(instance.0));
            rest = others;
        }
        if has_body {
            self.due.mark_assigned();
        }
    }

    // Puts an instance whose scan ran.
    fn put_instance(&mut self, resource: &Resource, number: usize) -> Result<(), AllocError> {
        self.put_values(resource, number.saturating_add(1))?;
        let Some(view) = view_of(resource, number) else {
            return Ok(());
        };
        let steps = self.signals.steps_of(number);
        let actions = steps.saturating_add(view.steps().saturating_mul(2));
        let Some(shown) = self.shown.get_mut(number) else {
            return Ok(());
        };
        let is_other = put_steps(&mut self.dump, &view, shown, steps)?;
        put_actions(&mut self.dump, &view, shown, actions)?;
        shown.settle();
        if is_other {
            self.put_names(resource, number)?;
        }
        Ok(())
    }

    // Puts the instances whose scans ran.
    fn put_instances(&mut self, resource: &Resource, ran: InstanceSet) -> Result<(), AllocError> {
        let mut rest = ran;
        for _ in 0..INSTANCES {
            let Some((instance, others)) = rest.split_first() else {
                break;
            };
            self.put_instance(resource, usize::from(instance.0))?;
            rest = others;
        }
        Ok(())
    }

    // Puts whether the resource runs.
    fn put_mode(&mut self, debugger: &Debugger) -> Result<(), AllocError> {
        self.dump.put_bit(RUNNING, debugger.mode() == Mode::Running)
    }

    // Puts what a scan of a task changes: its signal is up; the mode, where it hit; overruns; variables; and the instances whose scans ran.
    fn put_scanned(
        &mut self,
        debugger: &Debugger,
        task: TaskId,
        ran: InstanceSet,
    ) -> Result<(), AllocError> {
        let resource = debugger.resource();
        let scan = scan_of(task);
        self.is_raised = true;
        self.dump.put_bit(scan, true)?;
        self.put_mode(debugger)?;
        let overruns = overruns_of(resource, task);
        self.dump.put(scan.saturating_add(1), COUNT, overruns)?;
        self.mark_values(resource, ran);
        self.put_values(resource, 0)?;
        self.put_instances(resource, ran)
    }

    // Puts down the signals of scans, a microsecond behind the last mark.
    fn lower(&mut self) -> Result<(), AllocError> {
        self.is_raised = false;
        self.dump.go_on(self.dump.marked().saturating_add(1));
        let mut number = FIRST_SCAN;
        for _ in 0..TASKS {
            if number >= self.signals.end_of_tasks() {
                break;
            }
            self.dump.put_bit(number, false)?;
            number = number.saturating_add(STRIDE);
        }
        Ok(())
    }

    // Puts what a command changes that is no scan.
    fn put_command(&mut self, debugger: &Debugger, command: Command) -> Result<(), AllocError> {
        match command {
            Command::Input(variable, _)
            | Command::Force(variable, _)
            | Command::Release(variable) => self.put_forced(debugger, variable),
            Command::Reset(program) => self.put_reset(debugger, program),
            Command::Stop | Command::Go | Command::End => self.put_mode(debugger),
            _ => Ok(()),
        }
    }

    /// Puts what an accepted command has changed at this instant, in microseconds, which is no earlier than the one before. The one error is
    /// that memory was refused.
    pub fn follow(
        &mut self,
        debugger: &Debugger,
        instant: i64,
        command: Command,
        answer: Answer,
    ) -> Result<(), AllocError> {
        if self.is_raised && instant > self.dump.marked() {
            self.lower()?;
        }
        self.dump.go_on(instant);
        match (scanned_task(command), answer) {
            (Some(task), Answer::Scanned { ran, .. }) => self.put_scanned(debugger, task, ran),
            _ => self.put_command(debugger, command),
        }
    }

    /// Puts down what is up at the end. The one error is that memory was refused.
    pub fn end(&mut self) -> Result<(), AllocError> {
        if self.is_raised {
            self.lower()?;
        }
        self.dump.finish()
    }
}
