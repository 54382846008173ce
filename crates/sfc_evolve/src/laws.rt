//! What holds of the definitions themselves. Each law is a function with an empty body, whose contract is the law.

ghost use Rattle.std.specs.Prelude.{◌≡◌, ◌<◌, ◌≤◌, ◌↔◌, ◌∷◌, ◌++◌, ◌-ℤ◌, ◌&&◌};
ghost use Rattle.std.specs.Prelude.{[], ℕ, ℤ, Bool, List, length, pos, true, false, cond, slice_index_or};
ghost use Rattle.sfc_flags.specs.Flags.{flag};
ghost use Rattle.sfc_tables.specs.Tables.{Tabled, AreTables};
ghost use Rattle.sfc_evolve.specs.Clearing.{transition_count};
ghost use Rattle.sfc_evolve.specs.Evolution.{Scan, Row, is_activated, is_deactivated, is_active};
ghost use Rattle.sfc_evolve.specs.Evolution.{step_time, row_after, was_cleared, was_activated};
ghost use Rattle.sfc_evolve.specs.Clearing.{preceding_of, is_enabled, cleared_set};
ghost use Rattle.sfc_evolve.specs.Clearing.{of_rank, shares, IsClearedSet};
ghost use Rattle.sfc_evolve.specs.ScanNumbers.{IsActiveSince, IsLatest, NoneBetween, activated_at, deactivated_at};
ghost use Rattle.sfc_evolve.specs.ScanNumbers.{scan_instant_at};
ghost use Rattle.sfc_evolve.specs.Clearing.{step_count};
ghost use Rattle.sfc_evolve.specs.Evolution.{rows_of, active_steps, step_times};
ghost use Rattle.sfc_evolve.specs.declared.steps.Steps.{Steps};
ghost use Rattle.sfc_evolve.specs.Agreement.{StepsAgree, shown_time, since_of, held_times_of};
ghost use Rattle.sfc_evolve.specs.Past.{steps_past, past_in};

/// The pass over the transitions in rank order gives the one set in which a transition stands exactly when it may
/// clear (2.6.5).
pub fn one_cleared_set()
    ensures { (tables : Tabled) (active : ℕ → Bool) (conditions set : List Bool) → AreTables tables →
        (set ≡ cleared_set tables active conditions) ↔ IsClearedSet tables active conditions set }
{}

/// A transition that shares no preceding step with one that ranks before it is cleared as if it were alone: when it is
/// enabled and its condition is true (2.6.5).
pub fn without_rivals()
    ensures { (tables : Tabled) (active : ℕ → Bool) (conditions : List Bool) (j : ℕ) → AreTables tables →
        j < transition_count tables →
        ((i : ℕ) → i < j → shares (preceding_of tables.sides (of_rank tables i))
        (preceding_of tables.sides (of_rank tables j)) ≡ false) →
        flag (cleared_set tables active conditions) (of_rank tables j)
        ≡ (is_enabled active (preceding_of tables.sides (of_rank tables j)) && flag conditions (of_rank tables j)) }
{}

/// A step is active exactly when some scan activated it and no later scan deactivated it (2.6.2).
pub fn active_steps()
    ensures { (tables : Tabled) (rows : List Row) (s : ℕ) →
        (is_active tables rows s ≡ true) ↔ ((j : ℕ) × IsActiveSince tables s rows j) }
{}

/// A step's time is 0 before its first activation; while it is active, the time since the scan that activated it
/// last; and then what it was at the scan that deactivated it (2.6.2).
pub fn step_times()
    ensures never { (tables : Tabled) (rows : List Row) (s : ℕ) (now : ℤ) →
        ((j : ℕ) → j ≤ length rows → activated_at tables s rows j ≡ false) →
        step_time tables rows s now ≡ pos 0 }
    ensures active { (tables : Tabled) (rows : List Row) (s a : ℕ) (now : ℤ) →
        IsLatest (is_activated tables s) rows a →
        ((k : ℕ) → a < k → k ≤ length rows → deactivated_at tables s rows k ≡ false) →
        step_time tables rows s now ≡ (now -ℤ scan_instant_at rows a) }
    ensures left { (tables : Tabled) (rows : List Row) (s a k : ℕ) (now : ℤ) →
        IsLatest (is_activated tables s) rows a → a < k → k ≤ length rows →
        deactivated_at tables s rows k ≡ true → NoneBetween (is_deactivated tables s) rows a k →
        step_time tables rows s now ≡ (scan_instant_at rows k -ℤ scan_instant_at rows a) }
{}

/// The first scan of a life clears nothing, and activates exactly the initial steps (2.6.5).
pub fn first_scan()
    ensures clears { (tables : Tabled) (scan : Scan) → AreTables tables →
        (tr : ℕ) → was_cleared (row_after tables [] scan ∷ []) tr ≡ false }
    ensures starts { (tables : Tabled) (scan : Scan) → AreTables tables →
        (s : ℕ) → is_active tables (row_after tables [] scan ∷ []) s ≡ flag tables.initial s }
{}

/// The time of a step that is answered is the step's time after all scans that agree, and so is that worked out by its flag
/// among those of active steps, when it was last activated, and the time that it kept (2.6.2).
pub fn shown_times()
    ensures shown { (tables : Tabled) (steps : Steps) (scans : List Scan) (s : ℕ) (t : ℤ) → StepsAgree tables steps scans →
        s < step_count tables → shown_time steps t s ≡ step_time tables (rows_of tables scans) s t }
    ensures worked_out { (tables : Tabled) (steps : Steps) (scans : List Scan) (s : ℕ) (t : ℤ) → StepsAgree tables steps scans →
        s < step_count tables → cond (flag (active_steps tables (rows_of tables scans)) s)
        (t -ℤ slice_index_or (since_of steps) s (pos 0)) (slice_index_or (held_times_of steps) s (pos 0))
        ≡ step_time tables (rows_of tables scans) s t }
{}

/// What is kept is the past of the scans: all that later answers need, and for all lists of scans of this past the same.
pub fn kept_past()
    ensures kept { (tables : Tabled) (steps : Steps) (scans : List Scan) → StepsAgree tables steps scans →
        past_in tables steps ≡ steps_past tables scans }
    ensures same { (tables : Tabled) (steps : Steps) (scans other : List Scan) → StepsAgree tables steps scans →
        steps_past tables scans ≡ steps_past tables other → StepsAgree tables steps other }
{}

/// The scans of a life may be cut at any place: after others of the same past the same scans give the same past.
pub fn cut()
    ensures { (tables : Tabled) (scans other later : List Scan) → AreTables tables →
        steps_past tables scans ≡ steps_past tables other →
        steps_past tables (later ++ scans) ≡ steps_past tables (later ++ other) }
{}

/// The past gives all answers.
pub fn past_answers()
    ensures active { (tables : Tabled) (scans other : List Scan) (s : ℕ) → s < step_count tables →
        steps_past tables scans ≡ steps_past tables other →
        is_active tables (rows_of tables scans) s ≡ is_active tables (rows_of tables other) s }
    ensures time { (tables : Tabled) (scans other : List Scan) (s : ℕ) (now : ℤ) → s < step_count tables →
        steps_past tables scans ≡ steps_past tables other →
        step_time tables (rows_of tables scans) s now ≡ step_time tables (rows_of tables other) s now }
    ensures times { (tables : Tabled) (scans other : List Scan) (now : ℤ) →
        steps_past tables scans ≡ steps_past tables other →
        step_times tables (rows_of tables scans) now ≡ step_times tables (rows_of tables other) now }
    ensures activated { (tables : Tabled) (scans other : List Scan) (s : ℕ) → s < step_count tables →
        steps_past tables scans ≡ steps_past tables other →
        was_activated tables (rows_of tables scans) s ≡ was_activated tables (rows_of tables other) s }
    ensures cleared { (tables : Tabled) (scans other : List Scan) (tr : ℕ) →
        steps_past tables scans ≡ steps_past tables other →
        was_cleared (rows_of tables scans) tr ≡ was_cleared (rows_of tables other) tr }
{}
