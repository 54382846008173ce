//! What of a run is shown, by names.

ghost use Rattle.std.specs.Prelude.{◌≡◌, ◌++◌, IfOk, IfSome, OnOk};
ghost use Rattle.sfc_control.specs.sfc_core.Agreement.{plant_of};
ghost use Rattle.sfc_run.specs.Picking as rules;
ghost use Rattle.sfc_run.specs.declared.picked.PickFault.TheVariants.{Memory};

use crate::screen::Shows;
use crate::sfc_core::resource::Resource;
use crate::sfc_output::naming::append_image_name;
use crate::sfc_script::session_line::{SessionLine, read_session_line};
use sfc_base::ids::VarId;
use sfc_base::value::Value;
use sfc_events::command::Command;
use sfc_page::append::{append, append_value};
use sfc_panel::panel::Panel;
use sfc_panel::watched::{WatchError, shown_variables};
use sfc_plant::plant::Plant;
use std::alloc::{AllocError, Global};

/// What of a run is shown, by names: `NAME` is a global variable, `INSTANCE.NAME` a local of a program instance.
#[derive(Drop)]
pub struct Picked {
    /// Whether lines of programs, and all outputs, are shown where they change.
    pub changes: bool,
    /// The names of variables that are shown where they change.
    pub watched: Vec<Vec<u8>>,
    /// Names with values, as `Pump=FALSE`, that are shown where a fault ends the scan of a program, and at the end.
    pub at_end: Vec<Vec<u8>>,
}

/// Why names aren't shown.
#[derive(Clone, Copy, Debug, PartialEq, Eq)]
pub enum PickFault {
    /// Of the names that are shown where they change, the one in this place, counted from 0, is that of no variable.
    NoVariable(usize),
    /// Of the names with values, the one in this place is that of no variable, or its value is none of the variable's type.
    NoValue(usize),
    /// Memory was refused.
    Memory,
}

impl From<AllocError> for PickFault {
    ghost from_gives = { λ _ fault. fault ≡ Memory };

    fn from(_error: AllocError) -> PickFault {
        PickFault::Memory
    }
}

impl From<WatchError> for PickFault {
    ghost from_gives = { λ error fault. fault ≡ rules.fault_of error };

    fn from(error: WatchError) -> PickFault {
        match error {
            WatchError::NoVariable(place) => PickFault::NoVariable(place),
            WatchError::Memory => PickFault::Memory,
        }
    }
}

// The word in this place, and what is wrong with it.
fn append_wrong(
    out: &mut Vec<u8>,
    words: &[Vec<u8>],
    place: usize,
    text: &[u8],
) -> Result<(), AllocError> {
    append(out, text)?;
    if let Some(word) = words.get(place) {
        append(out, word)?;
    }
    append(out, b"\n")
}

impl PickFault {
    /// Puts at the end what is wrong, with the word: a line. The one error is that memory was refused; then a front of it may stand there.
    pub fn append_text(self, out: &mut Vec<u8>, picked: &Picked) -> Result<(), AllocError> {
        match self {
            PickFault::NoVariable(place) => append_wrong(
                out,
                &picked.watched,
                place,
                b"there is no variable to be watched of this name: ",
            ),
            PickFault::NoValue(place) => append_wrong(
                out,
                &picked.at_end,
                place,
                b"there is no such variable and value of its type, as Pump=FALSE: ",
            ),
            PickFault::Memory => Err(AllocError),
        }
    }
}

// A name and what stands behind the first `=`.
fn split(word: &[u8]) -> Option<(&[u8], &[u8])> {
    let at = word.iter().position(|byte| *byte == b'=')?;
    Some((&word[..at], &word[at + 1..]))
}

// The line that forces the variable of a name to the value that a word is.
fn force_line(alloc: Global, name: &[u8], word: &[u8]) -> Result<Vec<u8>, AllocError>
    ensures { IfOk result (λ line. line.items ≡ rules.force_line name.now word.now) }
{
    let mut line = Vec::new(alloc);
    append(&mut line, b"FORCE ")?;
    append(&mut line, name)?;
    append(&mut line, b" ")?;
    append(&mut line, word)?;
    Ok(line)
}

// The variable and the value of a line that forces it, where the value is of its type.
fn forced(resource: &Resource, line: &[u8]) -> Option<(VarId, Value)>
    ensures { IfSome result (λ pair. rules.Forces (plant_of resource.now) line.now pair.0 pair.1) }
{
    let SessionLine::Says(Command::Force(id, value)) = read_session_line(resource, line) else {
        return None;
    };
    let variable = resource.plant().variable(id)?;
    if value.var_type() == variable.var_type {
        Some((id, value))
    } else {
        None
    }
}

// The line of a variable and its value.
fn append_valued(
    out: &mut Vec<u8>,
    plant: &Plant,
    id: VarId,
    value: Value,
) -> Result<(), AllocError>
    ensures { OnOk result (out.new.items ≡ out.old.items ++ rules.valued_line plant.now id value) }
{
    append_image_name(out, plant, id)?;
    append(out, b" ")?;
    append_value(out, value)?;
    append(out, b"\n")
}

// The line of a name with a value, as `Pump=FALSE`; whether it is one.
fn append_word(
    alloc: Global,
    out: &mut Vec<u8>,
    resource: &Resource,
    word: &[u8],
) -> Result<bool, AllocError> {
    let Some((name, value)) = split(word) else {
        return Ok(false);
    };
    let line = force_line(alloc, name, value)?;
    let Some((id, value)) = forced(resource, &line) else {
        return Ok(false);
    };
    append_valued(out, resource.plant(), id, value)?;
    Ok(true)
}

// The lines of names with values.
fn lines_of(alloc: Global, resource: &Resource, words: &[Vec<u8>]) -> Result<Vec<u8>, PickFault> {
    let mut lines = Vec::new(alloc);
    for (place, word) in words.iter().enumerate() {
        if !append_word(alloc, &mut lines, resource, word)? {
            return Err(PickFault::NoValue(place));
        }
    }
    Ok(lines)
}

/// What of a run is shown: lines of programs and outputs where they are wanted, and the variables that are named. `NoVariable` and
/// `NoValue` tell of the first name that is wrong, `Memory` that memory was refused.
pub fn shows_of(alloc: Global, resource: &Resource, picked: &Picked) -> Result<Shows, PickFault>
    ensures shown { IfOk result (λ shows. rules.Picks (plant_of resource.now) picked.now shows) }
{
    let variables = shown_variables(alloc, resource, picked.changes, &picked.watched)?;
    let at_end = lines_of(alloc, resource, &picked.at_end)?;
    Ok(Shows {
        is_on: picked.changes || !picked.watched.is_empty(),
        panel: Panel {
            programs: picked.changes,
            variables,
        },
        at_end,
    })
}
