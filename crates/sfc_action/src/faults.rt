//! The first fault of a scan.

ghost use Rattle.std.specs.Prelude.{◌≡◌, ◌<◌, ℕ, All, None, true, length};
ghost use Rattle.sfc_base.specs.Ticks.{Within};
ghost use Rattle.sfc_action.specs.ActionControl.{first_in};
ghost use Rattle.sfc_action.specs.Private.Marking.{AreSized};
ghost use Rattle.sfc_action.specs.Private.Storing.{AreStores};
ghost use Rattle.sfc_action.specs.Private.Failing.{fault_at};

use crate::fault::{ActionFault, ControlFault};
use crate::inputs::Inputs;
use crate::stores::Stores;
use sfc_base::qualifier::TimedQualifier;
use sfc_base::ticks::Ticks;
use sfc_tables::step_action::StepAction;

// The fault of this action.
fn fault_of(inputs: &Inputs, stores: &Stores, action: usize) -> Option<ControlFault>
    requires inputs { AreSized (length inputs.now.any_time) inputs.now }
    requires stores { AreStores (length inputs.now.any_time) stores.now }
    requires action { action < length inputs.now.any_time }
    ensures { result ≡ fault_at inputs.now stores.now action }
{
    if inputs.has_more_times(action) {
        Some(ControlFault::TwoTimed)
    } else if inputs.has_timed(TimedQualifier::StoredDelayed, action)
        && stores.has_stored_limited(action)
    {
        Some(ControlFault::SdWhileSl)
    } else if inputs.has_timed(TimedQualifier::StoredLimited, action)
        && stores.has_stored_delayed(action)
    {
        Some(ControlFault::SlWhileSd)
    } else {
        None
    }
}

// The fault of the first of these associations whose action has one, and that action.
fn search(
    inputs: &Inputs,
    stores: &Stores,
    associations: &[StepAction],
    ticks: &mut Ticks,
) -> Option<ActionFault>
    requires inputs { AreSized (length inputs.now.any_time) inputs.now }
    requires stores { AreStores (length inputs.now.any_time) stores.now }
    requires actions { All (λ x. x.action.0 < length inputs.now.any_time) associations.now }
    ensures fault { result ≡ first_in (fault_at inputs.now stores.now) associations.now }
    ensures ticks { Within (length associations.now) ticks.old ticks.new }
{
    for association in associations {
        ticks.tick();
        let action = association.action;
        if let Some(fault) = fault_of(inputs, stores, action.0) {
            return Some(ActionFault { action, fault });
        }
    }
    None
}

/// The fault of the first of these associations whose action has one, and that action. Where `is_faultless`, no action has one.
pub fn first_fault(
    is_faultless: bool,
    inputs: &Inputs,
    stores: &Stores,
    associations: &[StepAction],
    ticks: &mut Ticks,
) -> Option<ActionFault>
    requires inputs { AreSized (length inputs.now.any_time) inputs.now }
    requires stores { AreStores (length inputs.now.any_time) stores.now }
    requires actions { All (λ x. x.action.0 < length inputs.now.any_time) associations.now }
    requires faultless { is_faultless ≡ true → (a : ℕ) → fault_at inputs.now stores.now a ≡ None }
    ensures fault { result ≡ first_in (fault_at inputs.now stores.now) associations.now }
    ensures ticks { Within (length associations.now) ticks.old ticks.new }
{
    if is_faultless {
        return None;
    }
    search(inputs, stores, associations, ticks)
}
