//! A chart that a client debugs.

use crate::launch::Launch;
use crate::marks::Marks;
use sfc_base::ids::ProgId;
use sfc_editing::burst::Filters;
use sfc_editing::played::Played;
use sfc_prompt::prompt::Prompt;
use sfc_showing::chart::Chart;
use sfc_showing::frames::Stand;
use sfc_showing::watches::Watches;
use std::alloc::{AllocError, Global};

/// What a number of a frame stands for.
#[derive(Clone, Copy)]
pub struct FramePlace {
    pub program: ProgId,
    /// What the frame is; None of a line of the script.
    pub stand: Option<Stand>,
}

/// A chart that a client debugs.
#[derive(Drop)]
pub struct Debuggee {
    pub launch: Launch,
    pub prompt: Prompt,
    pub chart: Chart,
    /// The script whose lines are played, if there is one.
    pub played: Option<Played>,
    /// The lines of the script before which it is halted.
    pub script_lines: Vec<u32>,
    pub marks: Marks,
    pub watches: Watches,
    pub filters: Filters,
    /// Whether the client's own breakpoints alone have halted it.
    pub owes_go: bool,
    /// What the numbers of frames stand for, from 1 on.
    pub frames: Vec<FramePlace>,
}

impl Debuggee {
    /// One that has just been opened.
    pub fn new(
        alloc: Global,
        launch: Launch,
        prompt: Prompt,
        chart: Chart,
        played: Option<Played>,
    ) -> Debuggee {
        Debuggee {
            launch,
            prompt,
            chart,
            played,
            script_lines: Vec::new(alloc),
            marks: Marks::new(alloc),
            watches: Watches::new(alloc),
            filters: Filters {
                fault: true,
                refused: false,
                overrun: false,
            },
            owes_go: false,
            frames: Vec::new(alloc),
        }
    }

    /// How many commands were accepted.
    pub fn accepted(&self) -> usize {
        self.prompt.session().rows().len()
    }

    /// The number of a frame more. The one error is that memory was refused.
    pub fn frame_number(&mut self, place: FramePlace) -> Result<u64, AllocError> {
        self.frames.push(place)?;
        Ok(self.frames.len() as u64)
    }

    /// What the frame with this number is.
    pub fn frame(&self, number: u64) -> Option<FramePlace> {
        let place = usize::try_from(number).ok()?.checked_sub(1)?;
        self.frames.get(place).copied()
    }

    /// The number of the line of the script that is played next, counted from 1; None where there is none.
    pub fn upcoming(&mut self) -> Option<u32> {
        match &mut self.played {
            Some(played) => played.upcoming(),
            None => None,
        }
    }
}
