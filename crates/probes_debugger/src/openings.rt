//! What a resource leaves to another that was told something else: the mixing station's events, cut at each place.

use crate::bench::Bench;
use crate::stations::{TimedEvent, mixing_events, mixing_station, other_events};
use sfc_events::event::Outcome;
use sfc_events::refusal::Refusal;
use std::alloc::Global;
use std::process::Abort;
use std::test::Fail;

/// What an event was answered, and all that was shown then.
#[derive(Drop)]
struct Seen {
    answer: Result<Outcome, Refusal>,
    shown: String,
}

// One event more on the bench.
fn see(alloc: Global, bench: &mut Bench, event: TimedEvent) -> Result<Seen, Fail> {
    let answer = bench.apply(event.0, event.1);
    let shown = bench.all_shown(alloc)?;
    Ok(Seen { answer, shown })
}

// What is seen of the events where nothing is cut.
fn undisturbed(alloc: Global, events: &[TimedEvent]) -> Result<Vec<Seen>, Fail> {
    let mut bench = Bench::open(alloc, mixing_station())?;
    let mut all = Vec::new(alloc);
    for event in events {
        all.push(see(alloc, &mut bench, *event)?)?;
    }
    Ok(all)
}

// Asks that the events on the bench are answered so, and that this is shown.
fn check_seen(
    rt: &impl Abort,
    alloc: Global,
    bench: &mut Bench,
    events: &[TimedEvent],
    wanted: &[Seen],
) -> Result<(), Fail> {
    for (event, wanted) in events.iter().zip(wanted) {
        let seen = see(alloc, bench, *event)?;
        assert_eq!(rt; seen.answer, wanted.answer, "of {event:?}");
        assert_eq!(rt;
            seen.shown.as_str(),
            wanted.shown.as_str(),
            "behind {event:?}"
        );
    }
    Ok(())
}

// Plays so many of the events, saves, plays others, restores, and asks that the rest is answered as if nothing had been.
fn check_cut(
    rt: &impl Abort,
    alloc: Global,
    events: &[TimedEvent],
    wanted: &[Seen],
    place: usize,
) -> Result<(), Fail> {
    let mut bench = Bench::open(alloc, mixing_station())?;
    bench.run(events.get(..place).ok_or("no such place")?);
    bench.interrupt(alloc, other_events())?;
    let rest = events.get(place..).ok_or("no such place")?;
    let wanted_rest = wanted.get(place..).ok_or("no such place")?;
    check_seen(rt, alloc, &mut bench, rest, wanted_rest)
}

#[test]
fn a_history_may_be_cut_at_each_place(rt: HostRuntime) -> Result<(), Fail> {
    let events = mixing_events();
    let wanted = undisturbed(rt.alloc(), events)?;
    for place in 0..=events.len() {
        check_cut(&rt, rt.alloc(), events, &wanted, place)?;
    }
    Ok(())
}

#[test]
fn the_opening_of_no_event_begins_anew(rt: HostRuntime) -> Result<(), Fail> {
    let events = mixing_events();
    let wanted = undisturbed(rt.alloc(), events)?;
    let mut bench = Bench::open(rt.alloc(), mixing_station())?;
    bench.run(other_events());
    bench.begin_anew(rt.alloc())?;
    check_seen(&rt, rt.alloc(), &mut bench, events, &wanted)
}
