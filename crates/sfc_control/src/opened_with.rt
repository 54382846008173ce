//! What a controller is opened with, as a type names it.

ghost use Rattle.std.specs.Prelude.{ℕ, List, []};
ghost use Rattle.sfc_plant.specs.Plants.{PlantData};
ghost use Rattle.sfc_debug.specs.declared.break_condition.BreakCondition.{BreakCondition};
ghost use Rattle.sfc_debug.specs.declared.trace_mask.TraceMask.{TraceMask};

use std::marker::Brand;
use std::sync::ledger::Ledger;

/// A ledger, with what the book under the lock was opened with. A caller is generic over one, and picks each value by what it hands
/// to `Controller::open`.
pub trait OpenedWith: Ledger {
    /// The plant that the debugger steers.
    ghost plant: { PlantData };

    /// Its conditions of breakpoints.
    ghost table: { List BreakCondition };

    /// Which commands have rows in the feed.
    ghost mask: { TraceMask };

    /// How many entries may be held.
    ghost limit: { ℕ };
}

impl OpenedWith for Brand {
    ghost plant = { record { configuration = []; resource = []; processor = []; globals = []; tasks = []; types = []; instances = [] } };

    ghost table = { [] };

    ghost mask = { record { 0 = 0 } };

    ghost limit = { 0 };
}
