//! What is kept of the lines of scans and of program instances.

ghost use Rattle.std.specs.Prelude.{◌≡◌, ◌<◌, ℕ, length, IfSome, IfOk, OnOk};
ghost use Rattle.sfc_plant.specs.Finding.{chart_of};
ghost use Rattle.sfc_plant.specs.InstanceSpaces.{space_of};
ghost use Rattle.sfc_plant.specs.Plants.{PlantData};
ghost use Rattle.sfc_plant.specs.Spaces.{Space};
ghost use Rattle.sfc_debug.specs.sfc_tables.Tables.{Tabled, tables_of};
ghost use Rattle.sfc_output.specs.Memories.{AllRight, AreRight, Fits, HasScans, HeadsRight, IsHead, IsKept, IsRight, TasksRight, effects_text, plain_scan_text};
ghost use Rattle.sfc_plant.specs.PlantNames.{instance_name as program_name};

use crate::effects::{Effects, Sets};
use crate::kept_head::KeptHead;
use crate::kept_text::KeptText;
use sfc_base::ids::{ProgId, TaskId};
use sfc_page::append::{append, append_number};
use sfc_plant::names;
use sfc_plant::plant::Plant;
use std::alloc::{AllocError, Global};

// What scans of a program instance did, each at a place of its own.
struct ProgramMemory {
    effects: Vec<Effects>,
}

// By hand, so that a caller that drops one proves one call.
impl Drop for ProgramMemory {
    fn drop(self) {
        let ProgramMemory { effects: _ } = self;
    }
}

impl ProgramMemory {
    // Nothing.
    fn new(alloc: Global) -> ProgramMemory
        ensures { (space : Space) (tables : Tabled) → AreRight space tables result.effects.items }
    {
        ProgramMemory {
            effects: Vec::new(alloc),
        }
    }

    // What is kept at this place.
    #[inline(always)]
    fn at(&self, place: usize) -> Option<&Effects>
        ensures { (space : Space) (tables : Tabled) → AreRight space tables self.now.effects.items →
            IfSome result (λ effects. IsRight space tables effects.now) }
    {
        if place < self.effects.len() {
            Some(&self.effects[place])
        } else {
            None
        }
    }

    // How many places this one and those before it take that aren't there yet.
    fn places_to_add(&self, place: usize) -> usize {
        place.saturating_add(1).saturating_sub(self.effects.len())
    }

    // Has this place. The one error is that memory was refused.
    fn grow(&mut self, alloc: Global, place: usize) -> Result<(), AllocError>
        ensures has { OnOk result (place < length self.new.effects.items) }
        ensures right { (space : Space) (tables : Tabled) → AreRight space tables self.old.effects.items → AreRight space tables self.new.effects.items }
    {
        'places: while self.effects.len() <= place {
            self.effects.push(Effects::new(alloc)?)?;
        }
        Ok(())
    }

    // Keeps what a scan did at this place. The one error is that memory was refused.
    fn keep(
        &mut self,
        alloc: Global,
        place: usize,
        sets: &Sets<'_>,
        text: &[u8],
    ) -> Result<(), AllocError>
        ensures { (space : Space) (tables : Tabled) → text.now ≡ effects_text space tables sets.now.cleared.now sets.now.executed.now →
            AreRight space tables self.old.effects.items → AreRight space tables self.new.effects.items }
    {
        self.grow(alloc, place)?;
        self.effects[place].keep(alloc, sets, text)
    }
}

// How many places there are at the most, of all instances.
const PLACES_IN_ALL: usize = 16_384;

// What is kept, where memory for more comes from, and how many places more there may be.
struct Kept {
    alloc: Global,
    left: usize,
    tasks: Vec<KeptText>,
    heads: Vec<KeptHead>,
    programs: Vec<ProgramMemory>,
}

// What is written of a scan of this task behind its instant, where it has no overruns and no breakpoint was hit. The one error is that
// memory was refused.
#[tactic(auto, unfolding(crate::specs::Memories::plain_scan_text))]
fn text_of_scan(alloc: Global, plant: &Plant, task: usize) -> Result<KeptText, AllocError>
    ensures { IfOk result (λ kept. IsKept (plain_scan_text plant.now task) kept) }
{
    let mut text = Vec::new(alloc);
    append(&mut text, b" SCAN ")?;
    append(&mut text, names::task_name(plant.tasks(), task))?;
    append(&mut text, b" overruns ")?;
    append_number(&mut text, 0)?;
    append(&mut text, b"\n")?;
    Ok(KeptText::of(&text))
}

// By hand, so that a caller that drops one proves one call.
impl Drop for Kept {
    fn drop(self) {
        let Kept {
            alloc: _,
            left: _,
            tasks: _,
            heads: _,
            programs: _,
        } = self;
    }
}

impl Kept {
    // What is kept of a task.
    #[inline(always)]
    fn task(&self, task: usize) -> Option<&KeptText>
        ensures { (plant : PlantData) → TasksRight plant self.now.tasks.items →
            IfSome result (λ kept. IsKept (plain_scan_text plant task) kept.now) }
    {
        if task < self.tasks.len() {
            Some(&self.tasks[task])
        } else {
            None
        }
    }

    // Keeps what is written of scans of the tasks up to this one. The one error is that memory was refused.
    fn keep_tasks(&mut self, plant: &Plant, task: usize) -> Result<(), AllocError>
        ensures right { TasksRight plant.now self.old.tasks.items → TasksRight plant.now self.new.tasks.items }
        ensures heads { self.new.heads ≡ self.old.heads }
        ensures programs { self.new.programs ≡ self.old.programs }
    {
        let alloc = self.alloc;
        'tasks: while self.tasks.len() <= task {
            let text = text_of_scan(alloc, plant, self.tasks.len())?;
            self.tasks.push(text)?;
        }
        Ok(())
    }

    // What is kept of the head of an instance, if it is that with this number of scans.
    #[inline(always)]
    fn head(&self, program: usize, scans: u64) -> Option<&KeptHead>
        ensures scans { IfSome result (λ head. HasScans head.now scans) }
        ensures right { (plant : PlantData) → HeadsRight plant self.now.heads.items →
            IfSome result (λ head. IsHead (program_name plant (record { 0 = program })) head.now) }
    {
        if program < self.heads.len() && self.heads[program].has(scans) {
            Some(&self.heads[program])
        } else {
            None
        }
    }

    // Keeps the head of an instance. The one error is that memory was refused.
    fn keep_head(&mut self, program: usize, head: KeptHead) -> Result<(), AllocError>
        ensures tasks { self.new.tasks ≡ self.old.tasks }
        ensures programs { self.new.programs ≡ self.old.programs }
        ensures right { (plant : PlantData) → IsHead (program_name plant (record { 0 = program })) head →
            HeadsRight plant self.old.heads.items → HeadsRight plant self.new.heads.items }
    {
        'heads: while self.heads.len() <= program {
            self.heads.push(KeptHead::none())?;
        }
        self.heads[program] = head;
        Ok(())
    }

    // What is kept of an instance at this place.
    #[inline(always)]
    fn at(&self, program: usize, place: usize) -> Option<&Effects>
        ensures { (space : ℕ → Space) (tables : ℕ → Tabled) → AllRight space tables self.now.programs.items →
            IfSome result (λ effects. IsRight (space program) (tables program) effects.now) }
    {
        if program < self.programs.len() {
            self.programs[program].at(place)
        } else {
            None
        }
    }

    // Has a place for this instance. The one error is that memory was refused.
    fn grow(&mut self, program: usize) -> Result<(), AllocError>
        ensures has { OnOk result (program < length self.new.programs.items) }
        ensures tasks { self.new.tasks ≡ self.old.tasks }
        ensures heads { self.new.heads ≡ self.old.heads }
        ensures right { (space : ℕ → Space) (tables : ℕ → Tabled) → AllRight space tables self.old.programs.items →
            AllRight space tables self.new.programs.items }
    {
        let alloc = self.alloc;
        'programs: while self.programs.len() <= program {
            self.programs.push(ProgramMemory::new(alloc))?;
        }
        Ok(())
    }

    // Keeps what a scan of an instance did at this place, as long as there may be so many places. The one error is that memory was refused.
    fn keep(&mut self, at: (usize, usize), sets: &Sets<'_>, text: &[u8]) -> Result<(), AllocError>
        ensures tasks { self.new.tasks ≡ self.old.tasks }
        ensures heads { self.new.heads ≡ self.old.heads }
        ensures right { (space : ℕ → Space) (tables : ℕ → Tabled) →
            text.now ≡ effects_text (space at.0) (tables at.0) sets.now.cleared.now sets.now.executed.now →
            AllRight space tables self.old.programs.items → AllRight space tables self.new.programs.items }
    {
        let (program, place) = at;
        self.grow(program)?;
        let places = self.programs[program].places_to_add(place);
        if places > self.left {
            return Ok(());
        }
        self.left -= places;
        self.programs[program].keep(self.alloc, place, sets, text)
    }
}

/// What is written of scans of the tasks of a plant, and what scans of its program instances did, with the texts of that, so that these
/// need not be put together again; or nothing, and no more is kept.
pub struct KeptLines {
    kept: Option<Kept>,
}

// By hand, so that a caller that drops one proves one call.
impl Drop for KeptLines {
    fn drop(self) {
        let KeptLines { kept: _ } = self;
    }
}

#[tactic(auto, unfolding(crate::specs::Memories::Fits))]
impl KeptLines {
    /// Nothing is kept yet.
    pub fn new(alloc: Global) -> KeptLines
        ensures { (plant : PlantData) → Fits plant result }
    {
        KeptLines {
            kept: Some(Kept {
                alloc,
                left: PLACES_IN_ALL,
                tasks: Vec::new(alloc),
                heads: Vec::new(alloc),
                programs: Vec::new(alloc),
            }),
        }
    }

    /// Nothing is kept, nor will be.
    #[inline(always)]
    pub fn none() -> KeptLines
        ensures { (plant : PlantData) → Fits plant result }
    {
        KeptLines { kept: None }
    }

    /// What is kept of a task: what is written of a scan behind its instant, where it has no overruns and no breakpoint was hit.
    #[inline(always)]
    pub(crate) fn task(&self, task: TaskId) -> Option<&KeptText>
        ensures { (plant : PlantData) → Fits plant self.now →
            IfSome result (λ kept. IsKept (plain_scan_text plant task.0) kept.now) }
    {
        match &self.kept {
            Some(kept) => kept.task(task.0 as usize),
            None => None,
        }
    }

    /// Keeps that of the tasks up to this one. The one error is that memory was refused.
    pub(crate) fn keep_tasks(&mut self, plant: &Plant, task: TaskId) -> Result<(), AllocError>
        ensures { Fits plant.now self.old → Fits plant.now self.new }
    {
        match &mut self.kept {
            Some(kept) => kept.keep_tasks(plant, task.0 as usize),
            None => Ok(()),
        }
    }

    /// What is kept of the head of an instance, if it is that with this number of scans.
    #[inline(always)]
    pub(crate) fn head(&self, instance: ProgId, scans: u64) -> Option<&KeptHead>
        ensures scans { IfSome result (λ head. HasScans head.now scans) }
        ensures right { (plant : PlantData) → Fits plant self.now → IfSome result (λ head. IsHead (program_name plant instance) head.now) }
    {
        match &self.kept {
            Some(kept) => kept.head(instance.0 as usize, scans),
            None => None,
        }
    }

    /// Keeps the head of an instance. The one error is that memory was refused.
    pub(crate) fn keep_head(&mut self, instance: ProgId, head: KeptHead) -> Result<(), AllocError>
        ensures { (plant : PlantData) → IsHead (program_name plant instance) head → Fits plant self.old → Fits plant self.new }
    {
        match &mut self.kept {
            Some(kept) => kept.keep_head(instance.0 as usize, head),
            None => Ok(()),
        }
    }

    /// What is kept of an instance at this place.
    #[inline(always)]
    pub(crate) fn effects(&self, instance: ProgId, place: usize) -> Option<&Effects>
        ensures { (plant : PlantData) → Fits plant self.now → IfSome result (λ effects. IsRight (space_of plant instance)
            (tables_of (chart_of plant instance)) effects.now) }
    {
        match &self.kept {
            Some(kept) => kept.at(instance.0 as usize, place),
            None => None,
        }
    }

    /// Keeps what a scan of an instance did at this place. The one error is that memory was refused.
    pub(crate) fn keep(
        &mut self,
        at: (ProgId, usize),
        sets: &Sets<'_>,
        text: &[u8],
    ) -> Result<(), AllocError>
        ensures { (plant : PlantData) →
            text.now ≡ effects_text (space_of plant at.0) (tables_of (chart_of plant at.0)) sets.now.cleared.now sets.now.executed.now →
            Fits plant self.old → Fits plant self.new }
    {
        match &mut self.kept {
            Some(kept) => kept.keep((at.0.0 as usize, at.1), sets, text),
            None => Ok(()),
        }
    }
}
