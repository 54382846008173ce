//! What lines of a test do.

use crate::instant::Instant;
use crate::joined::Condition;
use crate::sfc_instance::scan_fault::ScanFault;
use crate::stimulus::Stimulus;
use crate::watch::Watch;
use sfc_base::ids::{ProgId, TaskId};
use sfc_base::items::Items;
use sfc_base::references::StepId;
use sfc_events::command::Command;

/// What a line of a test does.
#[derive(Drop)]
pub enum Deed {
    /// A case of this name begins.
    Begins(Items<u8>),
    /// A command is given.
    Gives(Command),
    /// A command is given, which has to be refused for the reason of this number.
    Refuses(u8, Command),
    /// All tasks are scanned at each of their releases in turn, up to an instant; or until the condition is TRUE, which it has to be by then.
    Runs(Option<Condition>, Instant),
    /// The condition has to be TRUE.
    Expects(Condition),
    /// Just these steps of the program instance have to be active.
    Active(ProgId, Items<StepId>),
    /// The program instance has to stand with this fault.
    Faulted(ScanFault, ProgId),
    /// The task has to have so many overruns.
    Overran(u64, TaskId),
    /// This is watched from here on.
    Watches(Watch),
    /// This is given from here on beside RUN and UNTIL.
    Stirs(Stimulus),
}
