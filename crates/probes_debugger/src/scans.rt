//! Few scans and many: tests/refused.sh asks that both take equally much memory, which is taken at the opening alone.

use crate::bench::Bench;
use crate::stations::mixing_station;
use sfc_base::ids::TaskId;
use sfc_events::event::Event;
use std::alloc::Global;
use std::test::Fail;

// Whether so many scans of the mixing station, one each millisecond, are accepted.
fn are_accepted(alloc: Global, scans: u32) -> Result<bool, Fail> {
    let mut bench = Bench::open(alloc, mixing_station())?;
    for k in 0..scans {
        let event = Event::ForcedScan(TaskId(0));
        if bench.apply(event, i64::from(k) * 1_000).is_err() {
            return Ok(false);
        }
    }
    Ok(true)
}

#[test]
fn ten_are_accepted(rt: HostRuntime) -> Result<(), Fail> {
    assert!(&rt; are_accepted(rt.alloc(), 10)?);
    Ok(())
}

#[test]
fn a_hundred_thousand_are_accepted(rt: HostRuntime) -> Result<(), Fail> {
    assert!(&rt; are_accepted(rt.alloc(), 100_000)?);
    Ok(())
}
