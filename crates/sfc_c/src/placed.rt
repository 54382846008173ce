//! Where the fault of a scan is, as the numbers that C has for it.

ghost use Rattle.std.specs.Prelude.{◌≡◌, length};
ghost use Rattle.sfc_plant.specs.declared.association.Target.TheVariants.{Declared};
ghost use Rattle.sfc_plant.specs.Finding.{chart_of};
ghost use Rattle.sfc_replay.specs.sfc_instance.Views.{instance_in, plant_in, tables_in};
ghost use Rattle.sfc_replay.specs.sfc_tables.Actions.{number_of};
ghost use Rattle.sfc_c.specs.Readings as readings;

use crate::number::place_number;
use crate::sfc_instance::fault_place::FaultPlace;
use crate::sfc_instance::program_view::ProgramView;
use sfc_base::ids::ActionId;

/// In what it is: 1 in the condition of a transition, 2 in the control block of an action, 3 in a statement of a body; 0 where there is
/// none.
pub fn place_kind(place: Option<FaultPlace>) -> i32
    ensures { result ≡ readings.place_kind place }
{
    match place {
        None => 0,
        Some(FaultPlace::Transition(_)) => 1,
        Some(FaultPlace::Action(_)) => 2,
        Some(FaultPlace::Statement { .. }) => 3,
    }
}

// How many actions the chart declares.
fn declared_in(view: &ProgramView<'_>) -> usize
    ensures { result ≡ length (chart_of (plant_in view.now) (instance_in view.now)).actions }
{
    match view.plant().type_of(view.instance()) {
        Some(program_type) => program_type.chart.actions.len(),
        None => 0,
    }
}

// The number of a declared action among all actions of the chart: the Boolean ones go first.
fn number_of_declared(view: &ProgramView<'_>, action: ActionId) -> usize
    ensures { result ≡ (number_of (tables_in view.now).actions (Declared action)).0 }
{
    let declared = declared_in(view);
    let among = if action.0 < declared {
        action.0
    } else {
        declared
    };
    view.actions() - declared + among
}

/// The number of the transition or the action in which it is; -1 where there is none, and -3 for a number above 65,535.
pub fn number_in(view: &ProgramView<'_>, place: Option<FaultPlace>) -> i32
    ensures { result ≡ readings.place_number (tables_in view.now) place }
{
    match place {
        None => -1,
        Some(FaultPlace::Transition(transition)) => i32::from(transition.0),
        Some(FaultPlace::Action(action)) => place_number(Some(action.0)),
        Some(FaultPlace::Statement { action, .. }) => {
            place_number(Some(number_of_declared(view, action)))
        }
    }
}

// Counted from 1; at most 2^31 - 1.
fn counted(k: usize) -> i32
    ensures { result ≡ readings.counted k }
{
    if k < 2_147_483_647 {
        (k + 1) as i32
    } else {
        2_147_483_647
    }
}

/// The statement of a body in which it is, counted from 1, at most 2^31 - 1; 0 where it is in none.
pub fn statement_in(place: Option<FaultPlace>) -> i32
    ensures { result ≡ readings.place_statement place }
{
    match place {
        Some(FaultPlace::Statement { statement, .. }) => counted(statement),
        _ => 0,
    }
}
