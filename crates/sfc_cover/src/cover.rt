//! What scripts on a chart reach together, from bytes to bytes.

use crate::watch::Watch;
use sfc_plant::plant::Plant;

/// A chart, and what the scripts that were played on it reached together.
pub struct Cover {
    text: Vec<u8>,
    plant: Plant,
    watch: Watch,
}

// By hand, so that a caller that drops one proves one call.
impl Drop for Cover {
    fn drop(self) {
        let Cover {
            text: _,
            plant: _,
            watch: _,
        } = self;
    }
}

ghost use Rattle.std.specs.Prelude.{◌≡◌, IfOk, option_map};
ghost use Rattle.sfc_cover.specs.Unreached as unreached;
ghost use Rattle.sfc_cover.specs.Unreached.{IsCovered};

use crate::drawing::drawing_of;
use crate::follow::{Beside, follow_all};
use crate::page::{report_of, total_of};
use crate::share::Share;
use sfc_base::ids::TypeId;
use sfc_base::write_fault::put_all;
use sfc_drawing::drawing_error::DrawingError;
use sfc_replay::chart::plant_of_text;
use sfc_replay::input::read_to_end;
use sfc_replay::opening::{Opened, open_both};
use sfc_replay::replay_error::ReplayError;
use std::alloc::Global;
use std::io::{Read, Write};

// What was reached, and what a script reaches that was opened.
fn played(alloc: Global, opened: Opened, reached: &Watch) -> Result<Watch, ReplayError> {
    let Opened {
        mut debugger,
        commands,
    } = opened;
    let watch = reached.turned_to(alloc, debugger.resource().plant())?;
    let mut beside = Beside::open(alloc, &debugger, watch)?;
    follow_all(alloc, &mut debugger, &mut beside, &commands)?;
    let Beside {
        instances: _,
        watch,
    } = beside;
    Ok(watch)
}

// The program type of this name, where one is named.
fn wanted_type(plant: &Plant, name: Option<&[u8]>) -> Option<TypeId>
    ensures { result ≡ unreached.wanted_of plant.now (option_map (λ name. name.now) name.entry) }
{
    match name {
        None => None,
        Some(name) => plant.find_type(name),
    }
}

// Whether a name is wanted that no program type has.
fn is_missing(plant: &Plant, name: Option<&[u8]>) -> bool
    ensures { result ≡ unreached.is_missing plant.now (option_map (λ name. name.now) name.entry) }
{
    match name {
        None => false,
        Some(name) => plant.find_type(name).is_none(),
    }
}

impl Cover {
    // The chart with this text, of which nothing was reached.
    fn of_text(alloc: Global, text: Vec<u8>) -> Result<Cover, ReplayError> {
        let plant = plant_of_text(alloc, &text)?;
        let watch = Watch::new(alloc, &plant)?;
        Ok(Cover { text, plant, watch })
    }

    /// A chart on which no script was played. At most 1,048,577 bytes are taken from the reader. `Chart` is answered where the chart is
    /// refused, `Read` where the reader failed, `Memory` where memory was refused.
    pub fn of_chart<C: Read>(alloc: Global, chart: &mut C) -> Result<Cover, ReplayError> {
        let text = read_to_end(alloc, chart)?;
        Cover::of_text(alloc, text)
    }

    /// Plays a script on the chart as `replay` does, from the opening of its resource on, and adds what it reaches. A command that is refused
    /// changes nothing, and is passed over. At most 1,048,577 bytes are taken from the reader. `Script` is answered where the script is
    /// refused, `Read` where the reader failed, `Memory` where memory was refused; then nothing is added.
    pub fn play<S: Read>(&mut self, alloc: Global, script: &mut S) -> Result<(), ReplayError> {
        let bytes = read_to_end(alloc, script)?;
        let opened = open_both(alloc, &self.text, &bytes)?;
        self.watch = played(alloc, opened, &self.watch)?;
        Ok(())
    }

    /// The drawing of the program instances as SVG: of all, or of those of the program type with this name, each with what was never reached
    /// of it. `None` is answered where no program type has the name. The errors are that it would be too large, or that memory was refused.
    pub fn drawing(
        &self,
        alloc: Global,
        name: Option<&[u8]>,
    ) -> Result<Option<Vec<u8>>, DrawingError>
        ensures { IfOk result (λ drawn. IsCovered self.now.plant self.now.watch.reaches.items (option_map (λ name. name.now) name.entry)
            (option_map (λ text. text.items) drawn)) }
    {
        if is_missing(&self.plant, name) {
            return Ok(None);
        }
        let wanted = wanted_type(&self.plant, name);
        let text = drawing_of(alloc, &self.plant, self.watch.reaches(), wanted)?;
        Ok(Some(text))
    }

    /// How much was reached of all program instances: steps that were active, transitions that were cleared, actions that were executed, and
    /// branches of IFs that were taken.
    pub fn total(&self) -> Share {
        total_of(&self.watch)
    }

    /// Writes the report. `Write` is answered where the writer failed or took no byte, and a front of the report was written; `Memory` where
    /// memory was refused, and nothing was written.
    pub fn put_report<W: Write>(&self, alloc: Global, w: &mut W) -> Result<(), ReplayError> {
        let report = report_of(alloc, &self.plant, &self.watch)?;
        put_all(w, &report)?;
        Ok(())
    }
}
