//! What holds of a book and its tail in one hand, of what an epoch drops, and of how long a worker may wait.

ghost use Rattle.std.specs.Prelude.{◌≡◌, ◌++◌, ◌+ℤ◌, ◌<ℤ◌, ℤ, List, Some, None, Ok, Err};
ghost use mathlib.Core.List.{IsPrefix};
ghost use Rattle.sfc_base.specs.declared.ids.TaskId.{TaskId};
ghost use Rattle.sfc_plant.specs.Plants.{PlantData};
ghost use Rattle.sfc_plant.specs.Sound.{IsPlant};
ghost use Rattle.sfc_events.specs.declared.command.Answer.{Answer};
ghost use Rattle.sfc_events.specs.declared.command.Command.{Command};
ghost use Rattle.sfc_events.specs.declared.command.Command.TheVariants.{Scan};
ghost use Rattle.sfc_events.specs.declared.refusal.Refusal.TheVariants.{NotDue};
ghost use Rattle.sfc_debug.specs.declared.break_condition.BreakCondition.{BreakCondition};
ghost use Rattle.sfc_debug.specs.declared.mode.Mode.TheVariants.{Running};
ghost use Rattle.sfc_debug.specs.declared.run_clock.RunClock.{RunClock};
ghost use Rattle.sfc_debug.specs.Histories.{CommandHistory};
ghost use Rattle.sfc_debug.specs.Openings.{past_of};
ghost use Rattle.sfc_debug.specs.Past.{debug_past};
ghost use Rattle.sfc_debug.specs.RunClock.{run_instant};
ghost use Rattle.sfc_debug.specs.Verdict.{verdict};
ghost use Rattle.sfc_control.specs.declared.book.Book.{Book};
ghost use Rattle.sfc_control.specs.declared.entry.Entry.{Entry};
ghost use Rattle.sfc_control.specs.LegalHistory.{IsLegalAfter, commands_of, told};
ghost use Rattle.sfc_control.specs.Books.{SameBook, IsTailOf, accepted, entries, opening_of, plant, published, table};
ghost use Rattle.sfc_control.specs.Tails.{taken, coming};
ghost use Rattle.sfc_control.specs.Waiting.{lag, clock_of};

use crate::book::Book;
use crate::tail::Tail;
use sfc_debug::laws::{next_past, past_answers};

/// What was taken is a beginning of what was published, and what is to come is the rest. Nothing changes but what both ends know
/// of each other.
pub fn feed(book: &mut Book, tail: &mut Tail)
    requires { IsTailOf book.old tail.old }
    ensures prefix { IsPrefix (taken tail.new) (published book.new) }
    ensures coming { taken tail.new ++ coming tail.new ≡ published book.new }
    ensures book { SameBook book.old book.new }
    ensures published { published book.new ≡ published book.old }
    ensures taken { taken tail.new ≡ taken tail.old }
    ensures pair { IsTailOf book.new tail.new }
{
    tail.feed.slots_beside(&mut book.feed);
}

/// What an epoch drops changes no later answer. After each history that has the opening's past the entries that are held are
/// legal; and each command has after them, at each raw instant, the verdict that it has after all entries that were ever accepted.
pub fn epoch()
    ensures held { (book : Book) (h : CommandHistory) → IsPlant (plant book) →
        past_of (plant book) (opening_of book) ≡ debug_past (plant book) (table book) h →
        IsLegalAfter (plant book) (table book) h (entries book) }
    ensures verdict { (book : Book) (h : CommandHistory) (command : Command) (raw : ℤ) → IsPlant (plant book) →
        past_of (plant book) (opening_of book) ≡ debug_past (plant book) (table book) h →
        verdict (plant book) (table book) (told h (entries book)) command raw ≡
        verdict (plant book) (table book) (commands_of (accepted book)) command raw }
{
    past_answers();
    next_past();
}

/// A scan that is called later than a run instant by the lag happens at that run instant, as long as the resource runs. As long as no other
/// command is accepted, a refusal of a scan by NotDue holds until the release that it tells, and where it tells none, at all instants. So
/// long a worker may wait.
pub fn waiting()
    ensures instant { (clock : RunClock) (task : TaskId) (t : ℤ) → clock.mode ≡ Running →
        run_instant clock (Scan task) (t +ℤ lag clock) ≡ t }
    ensures until { (plant : PlantData) (table : List BreakCondition) (es : List Entry) (task : TaskId) (raw next later : ℤ)
        (answer : Answer) → verdict plant table (commands_of es) (Scan task) raw ≡ Err (NotDue (Some next)) →
        later <ℤ (next +ℤ lag (clock_of plant table es)) →
        verdict plant table (commands_of es) (Scan task) later ≡ Ok answer → ⊥ }
    ensures always { (plant : PlantData) (table : List BreakCondition) (es : List Entry) (task : TaskId) (raw later : ℤ)
        (answer : Answer) → verdict plant table (commands_of es) (Scan task) raw ≡ Err (NotDue None) →
        verdict plant table (commands_of es) (Scan task) later ≡ Ok answer → ⊥ }
{}
