//! The declarations of a waveform: scopes and signals with their names.

use crate::named::{append_name, append_name_in};
use crate::picked::Picked;
use crate::piece::{append_code, append_scope};
use crate::sfc_core::resource::Resource;
use crate::sfc_instance::program_view::ProgramView;
use crate::signal::Signal;
use crate::signals::Signals;
use sfc_base::ids::ProgId;
use sfc_page::append::{append, append_number};
use std::alloc::AllocError;

// How the declaration of a signal of its kind begins: a bit, a number, or a text.
fn kind_of(signal: Signal) -> &'static [u8] {
    if signal.is_text() {
        b"$var string "
    } else if signal.width() == 1 {
        b"$var wire "
    } else {
        b"$var integer "
    }
}

/// What is declared: of a resource the signals that are wanted.
#[derive(Clone, Copy)]
pub struct Declared<'a> {
    /// The resource.
    pub resource: &'a Resource,
    /// All its signals.
    pub signals: &'a Signals,
    /// Those that are wanted.
    pub picked: &'a Picked,
}

// How the declaration of a signal begins, until its name.
fn append_begin(out: &mut Vec<u8>, number: usize, signal: Signal) -> Result<(), AllocError> {
    append(out, kind_of(signal))?;
    append_number(out, u64::from(signal.width()))?;
    append(out, b" ")?;
    append_code(out, number)?;
    append(out, b" ")
}

impl<'a> Declared<'a> {
    // The signal with this number, if it is wanted.
    fn wanted(self, number: usize) -> Option<Signal> {
        if self.picked.has(number) {
            self.signals.list.get(number).copied()
        } else {
            None
        }
    }

    // The signals of the resource.
    fn append_resource(self, out: &mut Vec<u8>) -> Result<(), AllocError> {
        for number in 0..self.signals.begin_of(0) {
            if let Some(signal) = self.wanted(number) {
                append_begin(out, number, signal)?;
                append_name(out, self.resource.plant(), signal)?;
                append(out, b" $end\n")?;
            }
        }
        Ok(())
    }

    // The signals of an instance.
    fn append_signals(
        self,
        out: &mut Vec<u8>,
        view: &ProgramView<'_>,
        instance: ProgId,
    ) -> Result<(), AllocError> {
        let names = self.resource.plant().names(instance);
        let place = usize::from(instance.0);
        let end = self.signals.begin_of(place.saturating_add(1));
        for number in self.signals.begin_of(place)..end {
            if let Some(signal) = self.wanted(number) {
                append_begin(out, number, signal)?;
                append_name_in(out, view, &names, signal)?;
                append(out, b" $end\n")?;
            }
        }
        Ok(())
    }

    // The scope of an instance.
    fn append_instance(self, out: &mut Vec<u8>, number: usize) -> Result<(), AllocError> {
        let Some(named) = self.resource.plant().instances().get(number) else {
            return Ok(());
        };
        append_scope(out, named.name.spelling())?;
        let instance = ProgId(number as u8);
        self.append_signals(out, &self.resource.program(instance), instance)?;
        append(out, b"$upscope $end\n")
    }

    // The scopes of all instances.
    fn append_instances(self, out: &mut Vec<u8>) -> Result<(), AllocError> {
        for number in 0..self.resource.plant().instances().len() {
            self.append_instance(out, number)?;
        }
        Ok(())
    }

    /// Puts the declarations: those of the resource and of global variables in its scope, and in it a scope for each program instance.
    /// Instants are microseconds. The one error is that memory was refused; then a front of it may stand there.
    pub fn append(self, out: &mut Vec<u8>) -> Result<(), AllocError> {
        append(out, b"$version sfcmon $end\n$timescale 1 us $end\n")?;
        append_scope(out, self.resource.plant().resource().spelling())?;
        self.append_resource(out)?;
        self.append_instances(out)?;
        append(out, b"$upscope $end\n$enddefinitions $end\n")
    }
}
