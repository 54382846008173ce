//! What holds of the definitions themselves. Each law is a function whose contract is the law; a body, where there is
//! one, cites another law.

ghost use Rattle.std.specs.Prelude.{◌≡◌, ◌<◌, ◌↔◌, not, ◌&&◌, ◌||◌, ◌∷◌, ◌++◌, ℕ, Bool, List, length, true, false, Some};
ghost use Rattle.sfc_tables.specs.Tables.{Tabled, AreTables};
ghost use Rattle.sfc_action.specs.declared.control_state.ControlState.{ControlState};
ghost use Rattle.sfc_action.specs.Agreement.{ControlsAgree};
ghost use Rattle.sfc_action.specs.Past.{controls_past, past_in};
ghost use Rattle.sfc_action.specs.declared.fault.ActionFault.{ActionFault};
ghost use Rattle.sfc_action.specs.ActionControl.{fault_of, first_fault};
ghost use Rattle.sfc_action.specs.ActionControl.{Scan, Letter, R, P1, P0, SD, DS, SL, input, q, executed, rises, falls};
ghost use Rattle.sfc_action.specs.ActionControl.{stored, delayed, stored_then_delayed, delayed_then_stored};
ghost use Rattle.sfc_action.specs.ScanNumbers.{IsStoredSince, HasActedSince, HasBeenStoredSince, IsStoredOnceDelayed};

use sfc_timers::laws as timers;

/// An action is stored by a qualifier exactly when some scan had its input, and no scan from that one on had R
/// (2.6.4.5).
pub fn stored_until_reset()
    ensures { (tables : Tabled) (a : ℕ) (letter : Letter) (h : List Scan) →
        (stored tables a letter h ≡ true) ↔ ((j : ℕ) × IsStoredSince tables a letter h j) }
{
    timers::held();
}

/// The on-delay of an input has elapsed exactly when the input has been 1 from some scan m on, where it rose, and the
/// time since is at least T, as it was at scan m (2.6.4.5).
pub fn delayed_by_time()
    ensures { (tables : Tabled) (a : ℕ) (letter : Letter) (h : List Scan) →
        (delayed tables a letter h ≡ true) ↔ ((m : ℕ) × HasActedSince tables a letter h m) }
{
    timers::delayed();
}

/// SD, DS and SL by the numbers of scans (2.6.4.5). What SD gives Q is 1 exactly when the action has been stored by SD
/// since some scan m, and not at the one before, and the time since is at least T, as it was at scan m. What DS gives
/// is 1 exactly when at some scan the on-delay of the input DS had elapsed, and no scan from that one on had R. What SL
/// gives is 1 exactly when the action is stored by SL since some scan, and has not been for T.
pub fn stored_and_delayed()
    ensures stored_delayed { (tables : Tabled) (a : ℕ) (h : List Scan) →
        (stored_then_delayed tables a SD h ≡ true) ↔ ((m : ℕ) × HasBeenStoredSince tables a SD h m) }
    ensures delayed_stored { (tables : Tabled) (a : ℕ) (h : List Scan) →
        (delayed_then_stored tables a DS h ≡ true) ↔ ((j : ℕ) × IsStoredOnceDelayed tables a h j) }
    ensures stored_limited { (tables : Tabled) (a : ℕ) (h : List Scan) →
        ((stored tables a SL h && not (stored_then_delayed tables a SL h)) ≡ true) ↔
        (((j : ℕ) × IsStoredSince tables a SL h j) × ((m : ℕ) → HasBeenStoredSince tables a SL h m → ⊥)) }
{
    timers::held();
    timers::delayed();
}

/// Without an edge of P1 or P0, a scan executes an action exactly when it has Q or had it in the scan before: it is
/// executed once more after its Q has fallen, and then no more (2.6.4.5).
pub fn final_scan()
    ensures { (tables : Tabled) (a : ℕ) (scan : Scan) (h : List Scan) →
        rises (input tables a P1) (scan ∷ h) ≡ false → falls (input tables a P0) (scan ∷ h) ≡ false →
        executed tables a (scan ∷ h) ≡ (q tables a (scan ∷ h) || q tables a h) }
{}

/// With R an action has no Q, and nothing stays stored (2.6.4.5).
pub fn overriding_reset()
    ensures no_q { (tables : Tabled) (a : ℕ) (h : List Scan) → input tables a R h ≡ true → q tables a h ≡ false }
    ensures unstored { (tables : Tabled) (a : ℕ) (letter : Letter) (h : List Scan) →
        input tables a R h ≡ true → stored tables a letter h ≡ false }
{}

/// The first fault of a scan is that of the control block of its action.
pub fn first_fault_of_its_action()
    ensures { (tables : Tabled) (h : List Scan) (first : ActionFault) → first_fault tables h ≡ Some first →
        fault_of tables first.action.0 h ≡ Some first.fault }
{}

/// What is kept is the past of the scans: all that later answers need, and for all lists of scans of this past the same.
pub fn kept_past()
    ensures kept { (tables : Tabled) (state : ControlState) (h : List Scan) → ControlsAgree tables state h →
        past_in tables state ≡ controls_past tables h }
    ensures same { (tables : Tabled) (state : ControlState) (h other : List Scan) → ControlsAgree tables state h →
        controls_past tables h ≡ controls_past tables other → ControlsAgree tables state other }
{}

/// The scans of a life may be cut at any place: after others of the same past the same scans give the same past, and
/// the same fault.
pub fn cut()
    ensures past { (tables : Tabled) (h other later : List Scan) →
        controls_past tables h ≡ controls_past tables other →
        controls_past tables (later ++ h) ≡ controls_past tables (later ++ other) }
    ensures fault { (tables : Tabled) (scan : Scan) (h other : List Scan) → AreTables tables →
        controls_past tables h ≡ controls_past tables other →
        first_fault tables (scan ∷ h) ≡ first_fault tables (scan ∷ other) }
{}

/// The past gives all answers.
pub fn past_answers()
    ensures q { (tables : Tabled) (h other : List Scan) (a : ℕ) → a < length tables.actions →
        controls_past tables h ≡ controls_past tables other → q tables a h ≡ q tables a other }
    ensures executed { (tables : Tabled) (h other : List Scan) (a : ℕ) → a < length tables.actions →
        controls_past tables h ≡ controls_past tables other → executed tables a h ≡ executed tables a other }
{}
