//! Program instances beside a debugger: what it is told, they are told too.

ghost use Rattle.std.specs.Prelude.{◌≡◌, ◌∷◌, [], ℤ, IfOk, IsOk, OnOk};
ghost use Rattle.sfc_replay.specs.sfc_instances.Agreement.{AreInstancesOf, InstancesAgree};
ghost use Rattle.sfc_replay.specs.sfc_core.PlantState.{state_of};
ghost use Rattle.sfc_replay.specs.sfc_debug.Agreement.{Agrees, plant_of, table_of};
ghost use Rattle.sfc_replay.specs.sfc_debug.Histories.{CommandHistory};
ghost use Rattle.sfc_replay.specs.sfc_debug.States.{erasure};
ghost use Rattle.sfc_replay.specs.sfc_debug.Steered.{steered_by};
ghost use Rattle.sfc_replay.specs.sfc_debug.Verdict.{verdict};
ghost use Rattle.sfc_replay.specs.sfc_output.Output.{debugger_of, session_after};
ghost use Rattle.sfc_cover.specs.Beside.{Fits, StandBeside};
ghost use Rattle.sfc_cover.specs.Stages.{IsWatchOf};

use crate::sfc_debug::debugger::Debugger;
use crate::sfc_debug::timed::Timed;
use crate::sfc_instances::instances::Instances;
use crate::shadow::follow_event;
use crate::watch::Watch;
use sfc_events::command::{Answer, Command};
use sfc_events::refusal::Refusal;
use sfc_page::page::Page;
use sfc_replay::play::play;
use sfc_replay::replay_error::ReplayError;
use sfc_replay::report::Report;
use std::alloc::{AllocError, Global};

/// Program instances beside a debugger, and what is watched of them: a report of its commands that writes nothing.
#[derive(Drop)]
pub struct Beside {
    /// The instances of the plant that the debugger steers.
    pub instances: Instances,
    /// What is watched of them.
    pub watch: Watch,
}

// Tells the instances the event of the command that the debugger accepted last, if it is one.
fn tell(debugger: &Debugger, instances: &mut Instances, command: Command, watch: &mut Watch)
    requires sizes { AreInstancesOf (plant_of debugger.now) instances.old }
    requires watch { IsWatchOf (plant_of debugger.now) watch.old }
    ensures sizes { AreInstancesOf (plant_of debugger.now) instances.new }
    ensures watch { IsWatchOf (plant_of debugger.now) watch.new }
    ensures agrees { (h : CommandHistory) (raw : ℤ) → Agrees debugger.now ((command, raw) ∷ h) →
        IsOk (verdict (plant_of debugger.now) (table_of debugger.now) h command raw) →
        InstancesAgree (plant_of debugger.now) instances.old (state_of (plant_of debugger.now) (erasure (plant_of debugger.now) (table_of debugger.now) h)) →
        InstancesAgree (plant_of debugger.now) instances.new
        (state_of (plant_of debugger.now) (erasure (plant_of debugger.now) (table_of debugger.now) ((command, raw) ∷ h))) }
{
    let t = debugger.run_instant();
    if let Some(event) = command.event() {
        follow_event(instances, debugger.resource().plant(), event, t, watch);
    }
}

impl Beside {
    /// The program instances of the plant that a debugger steers, before any command. The one error is that memory was refused, and then the
    /// watch is given up.
    pub fn open(alloc: Global, debugger: &Debugger, watch: Watch) -> Result<Beside, AllocError>
        ensures fits { IsWatchOf (plant_of debugger.now) watch → IfOk result (λ beside. Fits beside (steered_by debugger.now)) }
        ensures beside { Agrees debugger.now [] → IfOk result (λ beside. StandBeside debugger.now beside.instances []) }
    {
        let instances = Instances::new(alloc, debugger.resource().plant())?;
        Ok(Beside { instances, watch })
    }
}

impl Report for Beside {
    ghost use Rattle.std.specs.Prelude.{[], Some};
    ghost use Rattle.sfc_cover.specs.Beside.{Fits, StandAs};

    ghost lines = { λ _. Some (record { command = λ _ _ _. []; closing = λ _. [] }) };

    ghost fits = { Fits };

    ghost agrees = { λ beside steered h. StandAs steered beside.instances h };

    /// Where a command was accepted the instances are told its event at its run instant, each scan one instance after the other, and each
    /// instance is watched before and behind its scan.
    fn put_answer(
        &mut self,
        _page: &mut Page,
        debugger: &Debugger,
        timed: &Timed,
        answer: &Result<Answer, Refusal>,
    ) -> Result<(), AllocError> {
        match answer {
            Err(_) => {}
            Ok(_) => tell(
                debugger,
                &mut self.instances,
                timed.command,
                &mut self.watch,
            ),
        }
        Ok(())
    }

    fn append_closing(
        &mut self,
        _alloc: Global,
        _out: &mut Vec<u8>,
        _debugger: &Debugger,
    ) -> Result<(), AllocError> {
        Ok(())
    }
}

/// Gives all commands to the debugger by `play`, each at its raw instant in microseconds, and goes on behind one that is refused. The one
/// error is that memory was refused.
pub fn follow_all(
    alloc: Global,
    debugger: &mut Debugger,
    beside: &mut Beside,
    commands: &[Timed],
) -> Result<(), ReplayError>
    requires fits { Fits beside.old (steered_by debugger.old) }
    ensures steered { steered_by debugger.new ≡ steered_by debugger.old }
    ensures fits { Fits beside.new (steered_by debugger.old) }
    ensures beside { (h : CommandHistory) → StandBeside debugger.old beside.old.instances h → OnOk result
        (StandBeside debugger.new beside.new.instances (session_after (debugger_of (steered_by debugger.old)) h commands.now)) }
{
    let mut nothing = Vec::new(alloc);
    play(alloc, beside, debugger, commands, &mut nothing)?;
    Ok(())
}
