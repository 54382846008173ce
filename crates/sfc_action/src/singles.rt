//! Whether actions have more than one association by SD or SL.

ghost use Rattle.std.specs.Prelude.{◌≡◌, ◌<◌, All, true, IfOk};
ghost use Rattle.sfc_action.specs.Private.Singles.{is_stored, AreSingle};

use sfc_base::qualifier::TimedQualifier;
use sfc_flags::flags::Flags;
use sfc_plant::association::Qualifier;
use sfc_tables::step_action::StepAction;
use std::alloc::{AllocError, Global};

// Whether it is SD or SL.
fn is_stored(qualifier: Qualifier) -> bool
    ensures { result ≡ is_stored qualifier }
{
    match qualifier {
        Qualifier::Timed(TimedQualifier::StoredDelayed, _)
        | Qualifier::Timed(TimedQualifier::StoredLimited, _) => true,
        Qualifier::Timed(TimedQualifier::Limited, _)
        | Qualifier::Timed(TimedQualifier::Delayed, _)
        | Qualifier::Timed(TimedQualifier::DelayedStored, _)
        | Qualifier::NonStored
        | Qualifier::Reset
        | Qualifier::Set
        | Qualifier::Pulse
        | Qualifier::RisingPulse
        | Qualifier::FallingPulse => false,
    }
}

/// Whether no action has two of these associations by SD or SL: where it answers no, one may have. The one error is that memory was
/// refused.
pub fn are_single(
    alloc: Global,
    actions: usize,
    associations: &[StepAction],
) -> Result<bool, AllocError>
    requires { All (λ x. x.action.0 < actions) associations.now }
    ensures { IfOk result (λ is_single. is_single ≡ true → AreSingle associations.now) }
{
    let mut seen = Flags::new(alloc, actions)?;
    for association in associations {
        if is_stored(association.qualifier) {
            if seen.get(association.action.0) {
                return Ok(false);
            }
            seen.set(association.action.0, true);
        }
    }
    Ok(true)
}
