//! What the definitions mean: each law is a function with an empty body, whose contract is the law.

ghost use Rattle.std.specs.Prelude.{◌≡◌, ◌<◌, ◌↔◌, ◌<ℤ◌, ◌≤ℤ◌, ◌+◌, ◌^◌, ℤ, ℕ, pos, List, [], ◌++◌, All, AllPairs, Contains, Some, None};
ghost use Rattle.std.specs.Prelude.{length, count_by};
ghost use Rattle.sfc_base.specs.declared.ids.TaskId.{TaskId};
ghost use Rattle.sfc_plant.specs.declared.task.Task.{Task};
ghost use Rattle.sfc_tasks.specs.declared.table.TaskTable.{TaskTable};
ghost use Rattle.sfc_tasks.specs.Agreement.{TasksAgree};
ghost use Rattle.sfc_tasks.specs.Releases.{interval_of, waits_since};
ghost use Rattle.sfc_tasks.specs.Past.{tasks_past, past_in};
ghost use Rattle.sfc_tasks.specs.Multiples.{multiple, multiples_between, next_multiple};
ghost use Rattle.sfc_tasks.specs.Calls.{Call, serves};
ghost use Rattle.sfc_tasks.specs.Releases.{waiting, first_of, capped, overruns};
ghost use Rattle.sfc_tasks.specs.Pick.{picked, IsPicked, NoneWaits};
ghost use Rattle.sfc_tasks.specs.Meaning.{IsMultipleBetween, IsNext, IsReleasedSince, AreInOrder};
ghost use Rattle.sfc_tasks.specs.Stretches.{AreStretches, with_scans, releases_in, beyond_firsts, serving_scans, is_rise_of};
ghost use Rattle.sfc_tasks.specs.Stretches.{multiples_in, IsReleasedIn, IsMultipleIn};

/// An instant is among the multiples between two instants exactly when it is a multiple of the interval, after the
/// one and not after the other; and they rise, so it stands there once (2.7.2).
pub fn multiples()
    ensures members { (interval last t u : ℤ) →
        Contains (multiples_between interval last t) u ↔ IsMultipleBetween interval last t u }
    ensures rise { (interval last t : ℤ) → AllPairs (λ u v. u <ℤ v) (multiples_between interval last t) }
{}

/// The next release by an interval is the least multiple above t, and there is none where that is past the last instant
/// (2.7.2).
pub fn next_releases()
    ensures found { (interval t u : ℤ) → next_multiple interval t ≡ Some u → IsNext interval t u }
    ensures none { (interval t : ℤ) (m : ℕ) → pos 0 <ℤ interval → next_multiple interval t ≡ None →
        t <ℤ multiple interval m → pos (2 ^ 62) <ℤ multiple interval m }
{}

/// The releases that wait for a task are those since its latest scan: some call released it, and no later one served it
/// (2.7.2).
pub fn waiting_releases()
    ensures { (interval : ℤ) (k : ℕ) (calls : List Call) (u : ℤ) →
        Contains (waiting interval k calls) u ↔ IsReleasedSince interval k calls u }
{}

/// Where time does not go back, the first release that waits is not after any other.
pub fn earliest()
    ensures { (interval : ℤ) (k : ℕ) (calls : List Call) (since : ℤ) → AreInOrder calls →
        first_of (waiting interval k calls) ≡ Some since → All (λ u. since ≤ℤ u) (waiting interval k calls) }
{}

/// Calls are cut at the scans of a task in one way: into those since its latest scan, and a stretch for each scan.
pub fn stretches()
    ensures some { (k : ℕ) (calls : List Call) → (since : List Call) × ((ended : List (List Call)) × AreStretches k calls since ended) }
    ensures one { (k : ℕ) (calls since other : List Call) (ended others : List (List Call)) → AreStretches k calls since ended →
        AreStretches k calls other others → (since ≡ other) × (ended ≡ others) }
    ensures scans { (k : ℕ) (calls since : List Call) (ended : List (List Call)) → AreStretches k calls since ended →
        length ended ≡ count_by (serves k) calls }
{}

/// The releases of a stretch are those that one of its calls gives, and what waits for a task are the releases of the stretch
/// since its latest scan (2.7.2).
pub fn stretch_releases()
    ensures members { (interval : ℤ) (k : ℕ) (before stretch : List Call) (u : ℤ) →
        Contains (releases_in interval k before stretch) u ↔ IsReleasedIn interval k before stretch u }
    ensures waiting { (interval : ℤ) (k : ℕ) (calls since : List Call) (ended : List (List Call)) →
        AreStretches k calls since ended → waiting interval k calls ≡ releases_in interval k (with_scans k ended) since }
{}

/// The overruns of a task are the releases beyond the first of each stretch between two of its scans, or before its first, of
/// all such stretches together; 2^64 - 1 where there are more (2.7.2; our choice).
pub fn stretch_overruns()
    ensures { (interval : ℤ) (k : ℕ) (calls since : List Call) (ended : List (List Call)) → AreStretches k calls since ended →
        overruns interval k calls ≡ capped (beyond_firsts interval k ended) }
{}

/// Each release of a task counts once: as an overrun, as the first that a scan served, or as one that waits (our choice).
pub fn each_release()
    ensures { (interval : ℤ) (k : ℕ) (calls since : List Call) (ended : List (List Call)) → AreStretches k calls since ended →
        length (releases_in interval k [] calls) ≡
        beyond_firsts interval k ended + serving_scans interval k ended + length (waiting interval k calls) }
{}

/// The releases of a stretch are its multiples and its rises. Its multiples are those of the interval that came while SINGLE
/// read FALSE; where time does not go back each comes later than those before it, so that none counts twice (2.7.2). A rise is
/// an event of its own, also at the instant of a multiple (our choice).
pub fn stretch_multiples()
    ensures kinds { (interval : ℤ) (k : ℕ) (before stretch : List Call) → length (releases_in interval k before stretch) ≡
        length (multiples_in interval k before stretch) + count_by (is_rise_of k) stretch }
    ensures members { (interval : ℤ) (k : ℕ) (before stretch : List Call) (u : ℤ) →
        Contains (multiples_in interval k before stretch) u ↔ IsMultipleIn interval k before stretch u }
    ensures rise { (interval : ℤ) (k : ℕ) (before stretch : List Call) → AreInOrder (stretch ++ before) →
        AllPairs (λ u v. u <ℤ v) (multiples_in interval k before stretch) }
{}

/// The task that goes first is the one that waits and ranks before each other task that waits, and there is none exactly
/// where no task waits (2.7.2).
#[tactic(auto, using(crate::proofs::Picking::picked_is, crate::proofs::Picking::is_picked))]
pub fn picked_task()
    ensures task { (tasks : List Task) (calls : List Call) (task : TaskId) →
        picked tasks calls ≡ Some task ↔ IsPicked tasks calls task.0 }
    ensures none { (tasks : List Task) (calls : List Call) → picked tasks calls ≡ None ↔ NoneWaits tasks calls }
{}

/// At most one task is picked.
pub fn one_picked()
    ensures { (tasks : List Task) (calls : List Call) (k j : ℕ) → IsPicked tasks calls k → IsPicked tasks calls j → k ≡ j }
{}

/// What is kept is the past of the calls: all that later answers need, and for all lists of calls of this past the same.
pub fn kept_past()
    ensures kept { (tasks : List Task) (table : TaskTable) (calls : List Call) → TasksAgree tasks table calls →
        past_in tasks table ≡ tasks_past tasks calls }
    ensures same { (tasks : List Task) (table : TaskTable) (calls other : List Call) → TasksAgree tasks table calls →
        tasks_past tasks calls ≡ tasks_past tasks other → TasksAgree tasks table other }
{}

/// The calls may be cut at any place: after others of the same past the same calls give the same past.
pub fn cut()
    ensures { (tasks : List Task) (calls other later : List Call) → tasks_past tasks calls ≡ tasks_past tasks other →
        tasks_past tasks (later ++ calls) ≡ tasks_past tasks (later ++ other) }
{}

/// The past gives all answers.
pub fn past_answers()
    ensures waits { (tasks : List Task) (calls other : List Call) (k : ℕ) → k < length tasks →
        tasks_past tasks calls ≡ tasks_past tasks other → waits_since tasks calls k ≡ waits_since tasks other k }
    ensures picked { (tasks : List Task) (calls other : List Call) → tasks_past tasks calls ≡ tasks_past tasks other →
        picked tasks calls ≡ picked tasks other }
    ensures overruns { (tasks : List Task) (calls other : List Call) (k : ℕ) → k < length tasks →
        tasks_past tasks calls ≡ tasks_past tasks other →
        overruns (interval_of tasks k) k calls ≡ overruns (interval_of tasks k) k other }
{}
