//! What holds of the output itself. Each law is a function whose contract is the law; a body, where there is one, cites
//! another law.

ghost use Rattle.std.specs.Prelude.{◌≡◌, ℕ, List, [], None};
ghost use Rattle.sfc_base.specs.declared.ids.VarId.{VarId};
ghost use Rattle.sfc_text.specs.Trees.{SourceTree};
ghost use Rattle.sfc_expr.specs.Types.{IsOf};
ghost use Rattle.sfc_events.specs.History.{TimedEvent};
ghost use Rattle.sfc_plant.specs.Plants.{PlantData};
ghost use Rattle.sfc_script.specs.sfc_load.Built.{source_check, plant_of};
ghost use Rattle.sfc_script.specs.sfc_load.Accepted.{IsAccepted};
ghost use Rattle.sfc_output.specs.sfc_image.Values.{type_of_variable};
ghost use Rattle.sfc_output.specs.sfc_instances.Types.{IsTypedPlant};
ghost use Rattle.sfc_output.specs.sfc_core.Answers.{value_of};
ghost use Rattle.sfc_output.specs.sfc_core.Types.{GiveInRange};
ghost use Rattle.sfc_output.specs.sfc_core.Verdict.{after_all};
ghost use Rattle.sfc_replay.specs.Replay.{IsOutput};

use crate::sfc_core::laws::types;
use sfc_script::laws::one_script;
use sfc_text::laws::one_reading;

/// A chart and a script have one output.
pub fn one_output()
    ensures { (text script output other : List ℕ) → IsOutput text script output → IsOutput text script other → output ≡ other }
{
    one_reading();
    one_script();
}

/// The plant that a text is, where no check of loading fails, is typed: each variable begins with a value of its type, an
/// action that is a variable by itself is a BOOL, and the bodies of the declared actions have types (2.4.2, 2.4.3, 2.6.4.1,
/// 3.3.2).
pub fn loaded_plants_are_typed()
    ensures { (s : SourceTree) → source_check s ≡ None → IsTypedPlant (plant_of s) }
{}

/// What a variable of a chart that is loaded reads is of its type, whatever events come, where the values that they give lie
/// in the ranges of their types (2.4.2, 2.4.3, 3.3.2).
pub fn loaded_variables_keep_their_types()
    ensures { (text : List ℕ) (plant : PlantData) (events : List TimedEvent) (id : VarId) → IsAccepted text plant →
        GiveInRange events → IsOf (type_of_variable plant id.0) (value_of plant (after_all plant [] events) id) }
{
    loaded_plants_are_typed();
    types();
}
