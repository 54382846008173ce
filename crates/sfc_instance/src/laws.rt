//! What the definitions mean: each law is a function with an empty body, whose contract is the law.

ghost use Rattle.std.specs.Prelude.{◌≡◌, ◌<◌, ◌≤◌, ℕ, ℤ, false, List, All, length, is_some, None, Some};
ghost use Rattle.sfc_base.specs.declared.ids.ProgId.{ProgId};
ghost use Rattle.sfc_plant.specs.declared.chart.Chart.{Chart};
ghost use Rattle.sfc_tables.specs.Tables.{Tabled, tables_of};
ghost use Rattle.sfc_plant.specs.Finding.{chart_of};
ghost use Rattle.sfc_plant.specs.Sound.{IsPlant};
ghost use Rattle.sfc_image.specs.Past.{image_past};
ghost use Rattle.sfc_instance.specs.declared.program.Program.{Program};
ghost use Rattle.sfc_instance.specs.declared.program_moment.ProgramMoment.{ProgramMoment};
ghost use Rattle.sfc_instance.specs.declared.program_view.ProgramView.{ProgramView};
ghost use Rattle.sfc_instance.specs.Views.{Shows, plant_in, instance_in, environment_in, view_of, instant_of, environment_at};
ghost use Rattle.sfc_evolve.specs.Clearing.{step_count};
ghost use Rattle.sfc_instance.specs.Agreement.{ProgramAgrees};
ghost use Rattle.sfc_instance.specs.Answers.{scan_count, is_step_active, step_elapsed, is_step_activated};
ghost use Rattle.sfc_instance.specs.Answers.{is_transition_cleared, action_q, is_action_executed};
ghost use Rattle.sfc_instance.specs.Past.{instance_past, past_in};
ghost use Rattle.sfc_plant.specs.Plants.{PlantData};
ghost use Rattle.sfc_image.specs.Changes.{Change};
ghost use Rattle.sfc_instance.specs.declared.scan_fault.ScanFault.{ScanFault};
ghost use Rattle.sfc_instance.specs.declared.fault_place.FaultPlace.{FaultPlace};
ghost use Rattle.sfc_instance.specs.FaultPlaces.{IsFoundAt};
ghost use Rattle.sfc_instance.specs.Life.{InstanceState, fresh, latest_instant};
ghost use Rattle.sfc_image.specs.Types.{BeginsTyped, GivesType};
ghost use Rattle.sfc_instance.specs.ProgramScan.{after_scan, environment};
ghost use Rattle.sfc_instance.specs.Types.{IsTypedInstance, IsInstant, AreInstants};
ghost use Rattle.sfc_instance.specs.Work.{good_work, good_limit, scan_work, scan_limit};

/// A scan that a fault ends, and one that is passed over because of an earlier fault, leave the life of the instance and
/// the variables as they were (our choice).
pub fn nothing_stays_of_a_fault()
    ensures life { (plant : PlantData) (p : ProgId) (instance_state : InstanceState) (changes : List Change) (t : ℤ) (f : ScanFault) →
        (after_scan plant p instance_state changes t).instance_state.fault ≡ Some f →
        (after_scan plant p instance_state changes t).instance_state.life ≡ instance_state.life }
    ensures variables { (plant : PlantData) (p : ProgId) (instance_state : InstanceState) (changes : List Change) (t : ℤ) (f : ScanFault) →
        (after_scan plant p instance_state changes t).instance_state.fault ≡ Some f →
        (after_scan plant p instance_state changes t).changes ≡ changes }
{}

/// A place stands exactly where a fault does: at the opening and after a reset, and after a scan where it did before it.
pub fn placed()
    ensures fresh { is_some fresh.place ≡ is_some fresh.fault }
    ensures scan { (plant : PlantData) (p : ProgId) (instance_state : InstanceState) (changes : List Change) (t : ℤ) →
        is_some instance_state.place ≡ is_some instance_state.fault →
        is_some (after_scan plant p instance_state changes t).instance_state.place
        ≡ is_some (after_scan plant p instance_state changes t).instance_state.fault }
{}

/// At the place of a scan's fault that fault is found again: in the condition of an enabled transition, in the control block of an
/// action, or in a statement of a body that is executed over what the actions before it left (2.6.3, 2.6.4.1, 2.6.4.5).
pub fn found_again()
    ensures { (plant : PlantData) (p : ProgId) (instance_state : InstanceState) (changes : List Change) (t : ℤ) (f : ScanFault) →
        instance_state.fault ≡ None → (after_scan plant p instance_state changes t).instance_state.fault ≡ Some f →
        (there : FaultPlace) × ((after_scan plant p instance_state changes t).instance_state.place ≡ Some there)
        × IsFoundAt plant p instance_state.life changes t there f }
{}

/// A scan gives each variable that it writes a value of its type, where all that was given before was so, the actions
/// of the instance have types, and each scan is at an instant, from 0 to 2^62 (2.4.2, 2.6.4.1, 3.3.2).
pub fn types()
    ensures given { (plant : PlantData) (p : ProgId) (instance_state : InstanceState) (changes : List Change) (t : ℤ) →
        BeginsTyped plant → IsTypedInstance plant p → AreInstants instance_state.life → IsInstant t →
        All (GivesType plant) changes → All (GivesType plant) (after_scan plant p instance_state changes t).changes }
    ensures instants { (plant : PlantData) (p : ProgId) (instance_state : InstanceState) (changes : List Change)
        (t : ℤ) → AreInstants instance_state.life → IsInstant t →
        AreInstants (after_scan plant p instance_state changes t).instance_state.life }
{}

/// After a fault the instance is passed over, and how it stands is as it was, until its reset (our choice).
pub fn faulted_instance_stays()
    ensures { (plant : PlantData) (p : ProgId) (instance_state : InstanceState) (changes : List Change) (t : ℤ) (f : ScanFault) →
        instance_state.fault ≡ Some f → (after_scan plant p instance_state changes t).instance_state ≡ instance_state }
{}

/// A scan handles at most eight times the steps, transitions, links, associations and actions of the chart, twice the variables of the
/// plant, and each node of its conditions and bodies once, whatever came before it; one that the fault of a body ends handles at most
/// each action twice and each node of a body once more.
pub fn bounded_scan()
    ensures good { (chart : Chart) (variables : ℕ) → good_work (tables_of chart) chart variables ≤ good_limit chart variables }
    ensures all { (chart : Chart) (variables : ℕ) → scan_work (tables_of chart) chart variables ≤ scan_limit chart variables }
{}

/// What a condition reads over a window is what it reads before a scan at the instant of the latest one (2.6.2, 3.3.1).
pub fn window()
    ensures { (view : ProgramView) (changes : List Change) (instance_state : InstanceState) → Shows view changes instance_state →
        environment_in view ≡ environment (plant_in view) (instance_in view) instance_state.life changes
        (latest_instant instance_state.life) false }
{}

/// What a condition reads at a moment is what it reads before a scan at its instant (2.6.2, 3.3.1).
pub fn moment()
    ensures { (moment : ProgramMoment) (changes : List Change) (instance_state : InstanceState) →
        Shows (view_of moment) changes instance_state →
        environment_at moment ≡ environment (plant_in (view_of moment)) (instance_in (view_of moment)) instance_state.life changes
        (instant_of moment) false }
{}

/// What is kept is the past of how the instance stands: all that later answers need, and for all that stand with this past
/// the same.
pub fn kept_past()
    ensures kept { (tables : Tabled) (program : Program) (instance_state : InstanceState) → ProgramAgrees tables program instance_state →
        past_in tables program ≡ instance_past tables instance_state }
    ensures same { (tables : Tabled) (program : Program) (instance_state other : InstanceState) → ProgramAgrees tables program instance_state →
        instance_past tables instance_state ≡ instance_past tables other → ProgramAgrees tables program other }
{}

/// What came before may be replaced by its past: over the same pasts of the instance and of the variables a scan leaves the same
/// pasts.
pub fn cut()
    ensures instance_state { (plant : PlantData) (p : ProgId) (instance_state other : InstanceState) (changes others : List Change) (t : ℤ) →
        IsPlant plant → p.0 < length plant.instances →
        instance_past (tables_of (chart_of plant p)) instance_state ≡ instance_past (tables_of (chart_of plant p)) other →
        image_past plant changes ≡ image_past plant others →
        instance_past (tables_of (chart_of plant p)) (after_scan plant p instance_state changes t).instance_state
        ≡ instance_past (tables_of (chart_of plant p)) (after_scan plant p other others t).instance_state }
    ensures changes { (plant : PlantData) (p : ProgId) (instance_state other : InstanceState) (changes others : List Change) (t : ℤ) →
        IsPlant plant → p.0 < length plant.instances →
        instance_past (tables_of (chart_of plant p)) instance_state ≡ instance_past (tables_of (chart_of plant p)) other →
        image_past plant changes ≡ image_past plant others →
        image_past plant (after_scan plant p instance_state changes t).changes
        ≡ image_past plant (after_scan plant p other others t).changes }
{}

/// The past gives how a scan ends, and all that an instance shows.
pub fn past_answers()
    ensures scan_end { (plant : PlantData) (p : ProgId) (instance_state other : InstanceState) (changes others : List Change) (t : ℤ) →
        IsPlant plant → p.0 < length plant.instances →
        instance_past (tables_of (chart_of plant p)) instance_state ≡ instance_past (tables_of (chart_of plant p)) other →
        image_past plant changes ≡ image_past plant others →
        (after_scan plant p instance_state changes t).scan_end ≡ (after_scan plant p other others t).scan_end }
    ensures active { (tables : Tabled) (instance_state other : InstanceState) (s : ℕ) → s < step_count tables →
        instance_past tables instance_state ≡ instance_past tables other →
        is_step_active tables instance_state s ≡ is_step_active tables other s }
    ensures elapsed { (tables : Tabled) (instance_state other : InstanceState) (s : ℕ) → s < step_count tables →
        instance_past tables instance_state ≡ instance_past tables other →
        step_elapsed tables instance_state s ≡ step_elapsed tables other s }
    ensures activated { (tables : Tabled) (instance_state other : InstanceState) (s : ℕ) → s < step_count tables →
        instance_past tables instance_state ≡ instance_past tables other →
        is_step_activated tables instance_state s ≡ is_step_activated tables other s }
    ensures cleared { (tables : Tabled) (instance_state other : InstanceState) (tr : ℕ) →
        instance_past tables instance_state ≡ instance_past tables other →
        is_transition_cleared tables instance_state tr ≡ is_transition_cleared tables other tr }
    ensures q { (tables : Tabled) (instance_state other : InstanceState) (a : ℕ) → a < length tables.actions →
        instance_past tables instance_state ≡ instance_past tables other →
        action_q tables instance_state a ≡ action_q tables other a }
    ensures executed { (tables : Tabled) (instance_state other : InstanceState) (a : ℕ) → a < length tables.actions →
        instance_past tables instance_state ≡ instance_past tables other →
        is_action_executed tables instance_state a ≡ is_action_executed tables other a }
    ensures scans { (tables : Tabled) (instance_state other : InstanceState) →
        instance_past tables instance_state ≡ instance_past tables other → scan_count instance_state ≡ scan_count other }
    ensures fault { (tables : Tabled) (instance_state other : InstanceState) →
        instance_past tables instance_state ≡ instance_past tables other → instance_state.fault ≡ other.fault }
    ensures place { (tables : Tabled) (instance_state other : InstanceState) →
        instance_past tables instance_state ≡ instance_past tables other → instance_state.place ≡ other.place }
{}
