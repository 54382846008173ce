//! Lines of scripts, and the image as a script's end tells it.

ghost use Rattle.std.specs.Prelude.{◌≡◌, None, Ok, OnOk};
ghost use Rattle.sfc_replay.specs.sfc_core.PlantState.{state_of};
ghost use Rattle.sfc_replay.specs.sfc_debug.Agreement.{Agrees, plant_of};
ghost use Rattle.sfc_replay.specs.sfc_debug.Histories.{CommandHistory};
ghost use Rattle.sfc_replay.specs.sfc_output.ImageLines.{image_lines};
ghost use Rattle.sfc_replay.specs.sfc_debug.Steered.{Steered, steered_by};
ghost use Rattle.sfc_c.specs.declared.asked.Asked.{Asked as AskedData};
ghost use Rattle.sfc_c.specs.Codes as codes;
ghost use Rattle.sfc_c.specs.Handles.{Holds, events_of};
ghost use Rattle.sfc_c.specs.Lines as lines;
ghost use Rattle.sfc_c.specs.Resources.{slots_of};
ghost use Rattle.sfc_c.specs.Texts.{GivesOr, IsNone, Tells};

use crate::giving::give_or;
use crate::handle::Handle;
use crate::obeying::obey_line;
use crate::sfc_debug::debugger::Debugger;
use crate::sfc_output::image_line::append_image;
use crate::status::{CLOSED, NO_MEMORY};
use std::alloc::Global;

/// Obeys a line of a script, at the instant that it has, and writes the lines that `sfcmon replay` prints for it.
///
/// It answers 0, or the number of the command's refusal, and then its lines are written. Else nothing has happened, and nothing is
/// written: -3 where a breakpoint waits for a condition that is none of the opening's, -4 where memory was refused, -5 where the line is
/// no command or the text has more than one, -6 where the buffer is too short, and `needed` tells how long the lines are. A line without
/// a command answers 0 and has no lines.
#[unsafe(no_mangle)]
pub extern "C" fn sfc_command(
    alloc: Global,
    plc: &mut Handle,
    line: &[u8],
    into: &mut [u8],
    needed: &mut usize,
) -> i32
    ensures does { (s : Steered) (h : CommandHistory) → Holds plc.old.value s h → (asked : AskedData) × lines.Asks s line.now asked
        × lines.Does s h asked into.old into.new needed.new plc.new.value result }
    ensures slots { slots_of plc.new.value ≡ slots_of plc.old.value }
    ensures closed { plc.old.value ≡ None → IsNone codes.closed into.old into.new needed.new result }
{
    match plc.take(alloc) {
        None => {
            *needed = 0;
            CLOSED
        }
        Some(mut held) => {
            let code = obey_line(alloc, &mut held, line, into, needed);
            plc.put(held, alloc);
            code
        }
    }
}

// The lines of the image; -4 where memory was refused.
fn image_in(alloc: Global, debugger: &Debugger) -> Result<Vec<u8>, i32>
    ensures { (h : CommandHistory) → Agrees debugger.now h → Tells (λ text. text.items)
        (Ok (image_lines (plant_of debugger.now) (state_of (plant_of debugger.now) (events_of (steered_by debugger.now) h)))) result }
{
    let mut text = Vec::new(alloc);
    match append_image(&mut text, debugger.resource()) {
        Ok(()) => Ok(text),
        Err(_) => Err(NO_MEMORY),
    }
}

/// The lines of the image, one for each variable, as `sfcmon replay` prints them at its end. -4 where memory was refused, -6 where the
/// buffer is too short; `needed` tells the length.
#[unsafe(no_mangle)]
pub extern "C" fn sfc_image_text(
    alloc: Global,
    plc: &mut Handle,
    into: &mut [u8],
    needed: &mut usize,
) -> i32
    ensures text { (s : Steered) (h : CommandHistory) → Holds plc.old.value s h →
        GivesOr (Ok (image_lines s.plant (state_of s.plant (events_of s h)))) into.old into.new needed.new result }
    ensures kept { plc.new.value ≡ plc.old.value }
    ensures closed { plc.old.value ≡ None → IsNone codes.closed into.old into.new needed.new result }
{
    let text = plc.read(alloc, |debugger| image_in(alloc, debugger));
    give_or(text.unwrap_or(Err(CLOSED)), into, needed)
}
