//! What the definitions mean: each law is a function with an empty body, whose contract is the law.

ghost use Rattle.std.specs.Prelude.{◌≡◌, ◌≢◌, ◌↔◌, ◌⊎◌, Contains, ◌∷◌, [], ℤ, List, Ok, Err, Some, None, Option, slice_get, true, false, ◌++◌, All};
ghost use Rattle.std.specs.Prelude.{◌<◌, ◌≤◌, ◌+◌, ◌<ℤ◌, length, count_by, AllPairs, IfSome, is_some};
ghost use Rattle.sfc_plant.specs.Sound.{IsPlant};
ghost use Rattle.sfc_core.specs.declared.resource.Resource.{Resource};
ghost use Rattle.sfc_core.specs.Agreement.{Agrees, plant_of};
ghost use Rattle.sfc_core.specs.Past.{history_past, past_in};
ghost use Rattle.sfc_base.specs.declared.value.Value.{Value};
ghost use Rattle.sfc_base.specs.declared.ids.ProgId.{ProgId};
ghost use Rattle.sfc_base.specs.declared.ids.TaskId.{TaskId};
ghost use Rattle.sfc_base.specs.declared.ids.VarId.{VarId};
ghost use Rattle.sfc_plant.specs.declared.instance.Instance.{Instance};
ghost use Rattle.sfc_plant.specs.Plants.{PlantData};
ghost use Rattle.sfc_instances.specs.sfc_image.Changes.{Change, Stored};
ghost use Rattle.sfc_instances.specs.sfc_image.Events as image;
ghost use Rattle.sfc_instances.specs.sfc_image.Values.{stored_value, initial_of, type_of_variable, is_local_of, variable_count};
ghost use Rattle.sfc_instances.specs.sfc_instance.declared.scan_fault.ScanFault.{ScanFault};
ghost use Rattle.sfc_instances.specs.sfc_instance.Life.{fresh};
ghost use Rattle.sfc_instances.specs.Types.{IsTypedPlant};
ghost use Rattle.sfc_expr.specs.Types.{IsOf};
ghost use Rattle.sfc_instances.specs.sfc_instance.Past.{instance_past};
ghost use Rattle.sfc_instances.specs.sfc_tables.Tables.{tables_of};
ghost use Rattle.sfc_plant.specs.Finding.{chart_of};
ghost use Rattle.sfc_tasks.specs.Calls.{Call};
ghost use Rattle.sfc_tasks.specs.Releases.{waits_since, waiting, capped, interval_of};
ghost use Rattle.sfc_tasks.specs.Pick.{picked, IsPicked};
ghost use Rattle.sfc_tasks.specs.Meaning as tasks;
ghost use Rattle.sfc_tasks.specs.Stretches.{AreStretches, releases_in, beyond_firsts, serving_scans, multiples_in};
ghost use Rattle.sfc_events.specs.declared.event.Event.{Event};
ghost use Rattle.sfc_events.specs.declared.event.Event.TheVariants.{Scan, ForcedScan, Input, Force, Release, Reset};
ghost use Rattle.sfc_events.specs.declared.event.Outcome.{Outcome};
ghost use Rattle.sfc_events.specs.declared.refusal.Refusal.{Refusal};
ghost use Rattle.sfc_events.specs.declared.refusal.Refusal.TheVariants.{NotDue, Yield};
ghost use Rattle.sfc_events.specs.History.{TimedEvent, History, last_instant};
ghost use Rattle.sfc_core.specs.PlantState.{state_of};
ghost use Rattle.sfc_core.specs.Due.{calls_of, calls_at, is_scan_of};
ghost use Rattle.sfc_core.specs.Releases.{single_after, IsUnserved, IsMultipleUntil};
ghost use Rattle.sfc_tasks.specs.Multiples.{next_release};
ghost use Rattle.sfc_core.specs.Answers.{value_of, forced_of, instance_state_of, overruns_of};
ghost use Rattle.sfc_core.specs.Verdict.{instant_refusal, answer, verdict, after, after_all};
ghost use Rattle.sfc_core.specs.Forcing.{turns};
ghost use Rattle.sfc_core.specs.Order.{AreInOrder};
ghost use Rattle.sfc_core.specs.Types.{GiveInRange};
ghost use Rattle.sfc_core.specs.Work.{event_work, task_limit};

/// What is accepted is the latest event of the history, and what is refused changes nothing.
pub fn histories()
    ensures accepted { (plant : PlantData) (h : History) (event : Event) (t : ℤ) (outcome : Outcome) →
        verdict plant h event t ≡ Ok outcome → after plant h (event, t) ≡ (event, t) ∷ h }
    ensures refused { (plant : PlantData) (h : History) (event : Event) (t : ℤ) (refusal : Refusal) →
        verdict plant h event t ≡ Err refusal → after plant h (event, t) ≡ h }
{}

/// Whatever events come, those that are accepted are at instants and in their order.
pub fn accepted_events()
    ensures { (plant : PlantData) (events : List TimedEvent) → AreInOrder (after_all plant [] events) }
{}

/// Where each variable begins with a value of its type, and the actions of each instance have types, whatever events
/// come: what is stored in a variable, what it is forced to, and what it reads are of its type (2.4.2, 2.4.3, 3.3.2).
pub fn types()
    ensures stored { (plant : PlantData) (events : List TimedEvent) (id : VarId) → IsTypedPlant plant →
        GiveInRange events →
        IsOf (type_of_variable plant id.0) (stored_value plant (state_of plant (after_all plant [] events)).changes id.0) }
    ensures reads { (plant : PlantData) (events : List TimedEvent) (id : VarId) → IsTypedPlant plant →
        GiveInRange events → IsOf (type_of_variable plant id.0) (value_of plant (after_all plant [] events) id) }
    ensures forced { (plant : PlantData) (events : List TimedEvent) (id : VarId) → IsTypedPlant plant →
        GiveInRange events →
        IfSome (forced_of plant (after_all plant [] events) id) (IsOf (type_of_variable plant id.0)) }
{}

/// What the tasks are told by such events is in order, so that of the releases that wait the first is the earliest (2.7.2).
pub fn calls_in_order()
    ensures { (plant : PlantData) (h : History) → AreInOrder h → tasks.AreInOrder (calls_of plant h) }
{}

/// The overruns of a task are the releases beyond the first of each stretch between two of its scans, due or forced, or before
/// its first, of all such stretches together; 2^64 - 1 where there are more. There is a stretch for each scan, and each release
/// counts once: as an overrun, as the first that a scan served, or as one that waits; no multiple comes twice (2.7.2; our
/// choice).
pub fn overruns()
    ensures counted { (plant : PlantData) (h : History) (task : TaskId) (since : List Call) (ended : List (List Call)) →
        AreStretches task.0 (calls_of plant h) since ended →
        overruns_of plant h task ≡ capped (beyond_firsts (interval_of plant.tasks task.0) task.0 ended) }
    ensures scans { (plant : PlantData) (h : History) (task : TaskId) (since : List Call) (ended : List (List Call)) →
        AreStretches task.0 (calls_of plant h) since ended → length ended ≡ count_by (λ timed_event. is_scan_of task.0 timed_event.0) h }
    ensures once { (plant : PlantData) (h : History) (task : TaskId) (since : List Call) (ended : List (List Call)) →
        AreStretches task.0 (calls_of plant h) since ended →
        length (releases_in (interval_of plant.tasks task.0) task.0 [] (calls_of plant h)) ≡
        beyond_firsts (interval_of plant.tasks task.0) task.0 ended + serving_scans (interval_of plant.tasks task.0) task.0 ended +
        length (waiting (interval_of plant.tasks task.0) task.0 (calls_of plant h)) }
    ensures multiples { (plant : PlantData) (h : History) (task : TaskId) → AreInOrder h →
        AllPairs (λ u v. u <ℤ v) (multiples_in (interval_of plant.tasks task.0) task.0 [] (calls_of plant h)) }
{}

/// What waits for a task are exactly the releases that no scan of it has served: after a history, and at an instant before an
/// event that may be refused, where the multiples until then wait too. A release is a multiple of the interval, after the event
/// before and not after the event, while SINGLE reads FALSE, or a rise of SINGLE by an event (2.7.2).
pub fn releases()
    ensures waiting { (plant : PlantData) (h : History) (task : TaskId) (u : ℤ) →
        Contains (waiting (interval_of plant.tasks task.0) task.0 (calls_of plant h)) u ↔ IsUnserved plant h task.0 u }
    ensures now { (plant : PlantData) (h : History) (task : TaskId) (t u : ℤ) →
        Contains (waiting (interval_of plant.tasks task.0) task.0 (calls_at plant h t)) u ↔
        (IsUnserved plant h task.0 u ⊎ IsMultipleUntil plant h task.0 t u) }
{}

/// A scan that is accepted where it has to be due is of the task that goes first, and that of the task that goes first is
/// accepted, at an instant that is in range and not before the latest event; it is refused with `NotDue` exactly where no
/// release of the task waits, which tells the next one by its interval, and with `Yield` exactly where one waits and the task
/// that is told goes first, which is another (2.7.2).
pub fn turns()
    ensures accepted { (plant : PlantData) (h : History) (task : TaskId) (t : ℤ) (outcome : Outcome) →
        verdict plant h (Scan task) t ≡ Ok outcome → IsPicked plant.tasks (calls_at plant h t) task.0 }
    ensures picked { (plant : PlantData) (h : History) (task : TaskId) (t : ℤ) → instant_refusal (last_instant h) t ≡ None →
        IsPicked plant.tasks (calls_at plant h t) task.0 →
        verdict plant h (Scan task) t ≡ Ok (answer plant h (Scan task) t) }
    ensures undue { (plant : PlantData) (h : History) (task : TaskId) (t : ℤ) (next : Option ℤ) →
        verdict plant h (Scan task) t ≡ Err (NotDue next) → waits_since plant.tasks (calls_at plant h t) task.0 ≡ None }
    ensures second { (plant : PlantData) (h : History) (task first : TaskId) (t : ℤ) →
        verdict plant h (Scan task) t ≡ Err (Yield first) → IsPicked plant.tasks (calls_at plant h t) first.0 }
    ensures other { (plant : PlantData) (h : History) (task first : TaskId) (t : ℤ) →
        verdict plant h (Scan task) t ≡ Err (Yield first) → first.0 ≢ task.0 }
    ensures idle { (plant : PlantData) (h : History) (task : TaskId) (t : ℤ) → instant_refusal (last_instant h) t ≡ None →
        task.0 < length plant.tasks → waits_since plant.tasks (calls_at plant h t) task.0 ≡ None →
        verdict plant h (Scan task) t ≡ Err (NotDue (next_release (interval_of plant.tasks task.0) (single_after plant h task.0) t)) }
    ensures behind { (plant : PlantData) (h : History) (task first : TaskId) (t since : ℤ) →
        instant_refusal (last_instant h) t ≡ None → task.0 < length plant.tasks →
        waits_since plant.tasks (calls_at plant h t) task.0 ≡ Some since → IsPicked plant.tasks (calls_at plant h t) first.0 →
        first.0 ≢ task.0 → verdict plant h (Scan task) t ≡ Err (Yield first) }
{}

/// An input is what the variable reads, where it is not forced; under a force it reads the forced value, until it is
/// released, and then the stored one. Another variable reads what it read (2.4).
pub fn values()
    ensures given { (plant : PlantData) (h : History) (id : VarId) (v : Value) (t : ℤ) → forced_of plant h id ≡ None →
        value_of plant ((Input id v, t) ∷ h) id ≡ v }
    ensures hidden { (plant : PlantData) (h : History) (id : VarId) (v forced : Value) (t : ℤ) →
        forced_of plant h id ≡ Some forced → value_of plant ((Input id v, t) ∷ h) id ≡ forced }
    ensures forced { (plant : PlantData) (h : History) (id : VarId) (v : Value) (t : ℤ) →
        value_of plant ((Force id v, t) ∷ h) id ≡ v }
    ensures released { (plant : PlantData) (h : History) (id : VarId) (t : ℤ) →
        value_of plant ((Release id, t) ∷ h) id ≡ stored_value plant (state_of plant h).changes id.0 }
    ensures others { (plant : PlantData) (h : History) (id other : VarId) (v : Value) (t : ℤ) → id.0 ≢ other.0 →
        value_of plant ((Input id v, t) ∷ h) other ≡ value_of plant h other }
    ensures force_others { (plant : PlantData) (h : History) (id other : VarId) (v : Value) (t : ℤ) → id.0 ≢ other.0 →
        value_of plant ((Force id v, t) ∷ h) other ≡ value_of plant h other }
    ensures release_others { (plant : PlantData) (h : History) (id other : VarId) (t : ℤ) → id.0 ≢ other.0 →
        value_of plant ((Release id, t) ∷ h) other ≡ value_of plant h other }
{}

/// Only a force and a release of a variable change whether and to what it is forced; a scan does not (2.4).
pub fn forces()
    ensures { (plant : PlantData) (h : History) (event : Event) (t : ℤ) (id : VarId) → turns id.0 event ≡ false →
        forced_of plant ((event, t) ∷ h) id ≡ forced_of plant h id }
{}

/// Nothing that was done with the variables is lost: what later events do comes on top of it. So what an input stored stays
/// stored until a later change writes the variable, under whatever force (2.4).
pub fn writes()
    ensures stays { (plant : PlantData) (later h : History) →
        (recent : List Change) × ((state_of plant (later ++ h)).changes ≡ recent ++ (state_of plant h).changes) }
    ensures latest { (plant : PlantData) (later h : History) (id : VarId) (v : Value) (t : ℤ) (recent : List Change) →
        (state_of plant (later ++ (Input id v, t) ∷ h)).changes ≡ recent ++ Stored id v ∷ (state_of plant h).changes →
        All (λ change. image.writes plant id.0 change ≡ false) recent →
        stored_value plant (state_of plant (later ++ (Input id v, t) ∷ h)).changes id.0 ≡ v }
{}

/// A scan of a task, due or forced, leaves how the instances of other tasks stand (2.7.2).
pub fn scans()
    ensures due { (plant : PlantData) (h : History) (task : TaskId) (t : ℤ) (p : ProgId) (instance : Instance) →
        slice_get plant.instances p.0 ≡ Some instance → instance.task.0 ≢ task.0 →
        instance_state_of plant ((Scan task, t) ∷ h) p ≡ instance_state_of plant h p }
    ensures forced { (plant : PlantData) (h : History) (task : TaskId) (t : ℤ) (p : ProgId) (instance : Instance) →
        slice_get plant.instances p.0 ≡ Some instance → instance.task.0 ≢ task.0 →
        instance_state_of plant ((ForcedScan task, t) ∷ h) p ≡ instance_state_of plant h p }
{}

/// An instance with a fault stands as it does until its reset, whatever comes (our choice).
pub fn faults()
    ensures { (plant : PlantData) (h : History) (event : Event) (t : ℤ) (p : ProgId) (fault : ScanFault) →
        (instance_state_of plant h p).fault ≡ Some fault → event ≢ Reset p →
        instance_state_of plant ((event, t) ∷ h) p ≡ instance_state_of plant h p }
{}

/// Of each instance it is known where its fault is exactly where a fault stands.
pub fn places()
    ensures { (plant : PlantData) (h : History) (p : ProgId) →
        is_some (instance_state_of plant h p).place ≡ is_some (instance_state_of plant h p).fault }
{}

/// After a reset the instance has no scan and no fault, so that its next scan is a first scan; its locals have their initial
/// values stored, and each other instance stands as it did (2.4.2, 2.6.2).
pub fn resets()
    ensures anew { (plant : PlantData) (h : History) (p : ProgId) (t : ℤ) → instance_state_of plant ((Reset p, t) ∷ h) p ≡ fresh }
    ensures locals { (plant : PlantData) (h : History) (p : ProgId) (t : ℤ) (id : VarId) → is_local_of plant p id.0 ≡ true →
        stored_value plant (state_of plant ((Reset p, t) ∷ h)).changes id.0 ≡ initial_of plant id.0 }
    ensures others { (plant : PlantData) (h : History) (p other : ProgId) (t : ℤ) → other.0 ≢ p.0 →
        instance_state_of plant ((Reset p, t) ∷ h) other ≡ instance_state_of plant h other }
{}

/// A scan of a task, due or forced, handles at most what its instances may handle together, and 128 more, however long the
/// history is.
pub fn bounded_scans()
    ensures due { (plant : PlantData) (task : TaskId) →
        event_work plant (Scan task) ≤ task_limit plant task 0 plant.instances + 128 }
    ensures forced { (plant : PlantData) (task : TaskId) →
        event_work plant (ForcedScan task) ≤ task_limit plant task 0 plant.instances + 128 }
{}

/// What a resource keeps is the past of its history: all that later answers need, so that it agrees with each history of this
/// past, and with no other.
pub fn kept_past()
    ensures { (resource : Resource) (h : History) →
        Agrees resource h ↔ (past_in resource ≡ history_past (plant_of resource) h) }
{}

/// A history may be cut at any place, and what came before replaced by its past: after another of the same past the same events
/// give the same past, each variable, instance and task answers the same, and each event gets the same verdict.
pub fn cut()
    ensures past { (plant : PlantData) (h other later : History) → IsPlant plant →
        history_past plant h ≡ history_past plant other →
        history_past plant (later ++ h) ≡ history_past plant (later ++ other) }
    ensures value { (plant : PlantData) (h other later : History) (id : VarId) → IsPlant plant →
        history_past plant h ≡ history_past plant other → id.0 < variable_count plant →
        value_of plant (later ++ h) id ≡ value_of plant (later ++ other) id }
    ensures force { (plant : PlantData) (h other later : History) (id : VarId) → IsPlant plant →
        history_past plant h ≡ history_past plant other → id.0 < variable_count plant →
        forced_of plant (later ++ h) id ≡ forced_of plant (later ++ other) id }
    ensures life { (plant : PlantData) (h other later : History) (p : ProgId) → IsPlant plant →
        history_past plant h ≡ history_past plant other → p.0 < length plant.instances →
        let tables = tables_of (chart_of plant p) in
        instance_past tables (instance_state_of plant (later ++ h) p) ≡ instance_past tables (instance_state_of plant (later ++ other) p) }
    ensures waits { (plant : PlantData) (h other later : History) (task : TaskId) (t : ℤ) → IsPlant plant →
        history_past plant h ≡ history_past plant other → task.0 < length plant.tasks →
        waits_since plant.tasks (calls_at plant (later ++ h) t) task.0
        ≡ waits_since plant.tasks (calls_at plant (later ++ other) t) task.0 }
    ensures picked { (plant : PlantData) (h other later : History) (t : ℤ) → IsPlant plant →
        history_past plant h ≡ history_past plant other →
        picked plant.tasks (calls_at plant (later ++ h) t) ≡ picked plant.tasks (calls_at plant (later ++ other) t) }
    ensures overruns { (plant : PlantData) (h other later : History) (task : TaskId) → IsPlant plant →
        history_past plant h ≡ history_past plant other → task.0 < length plant.tasks →
        overruns_of plant (later ++ h) task ≡ overruns_of plant (later ++ other) task }
    ensures verdict { (plant : PlantData) (h other later : History) (event : Event) (t : ℤ) → IsPlant plant →
        history_past plant h ≡ history_past plant other →
        verdict plant (later ++ h) event t ≡ verdict plant (later ++ other) event t }
{}
