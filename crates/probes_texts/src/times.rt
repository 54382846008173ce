//! The text of TIME values, and durations that are read from it.

use sfc_page::time_text::put_time;
use sfc_tokens::duration::duration;
use std::alloc::Global;
use std::process::Abort;
use std::test::Fail;

// Asks for this text of a value, and for what duration the text is.
fn check(
    rt: &impl Abort,
    alloc: Global,
    micros: i64,
    text: &[u8],
    read: Option<i64>,
) -> Result<(), Fail> {
    let mut found = Vec::new(alloc);
    put_time(micros, &mut found)?;
    assert!(rt; found.as_slice() == text, "of {micros}");
    assert!(rt; duration(text) == read, "of {micros}");
    Ok(())
}

#[test]
fn a_value_has_one_text(rt: HostRuntime) -> Result<(), Fail> {
    let texts: [(i64, &[u8]); 12] = [
        (0, b"T#0s"),
        (1, b"T#0.001ms"),
        (1_000, b"T#1ms"),
        (10_000, b"T#10ms"),
        (1_000_000, b"T#1s"),
        (60_000_000, b"T#1m"),
        (3_600_000_000, b"T#1h"),
        (86_400_000_000, b"T#1d"),
        (90_061_001_500, b"T#1d_1h_1m_1s_1.5ms"),
        (4_611_686_018_427_387_904, b"T#53375995d_14h_27s_387.904ms"),
        (-1_500, b"T#-1.5ms"),
        (
            -4_611_686_018_427_387_904,
            b"T#-53375995d_14h_27s_387.904ms",
        ),
    ];
    for (micros, text) in texts {
        check(&rt, rt.alloc(), micros, text, Some(micros))?;
    }
    Ok(())
}

#[test]
fn a_value_that_no_duration_gives_has_a_text(rt: HostRuntime) -> Result<(), Fail> {
    let texts: [(i64, &[u8]); 4] = [
        (4_611_686_018_427_387_905, b"T#53375995d_14h_27s_387.905ms"),
        (
            -4_611_686_018_427_387_905,
            b"T#-53375995d_14h_27s_387.905ms",
        ),
        (i64::MAX, b"T#106751991d_4h_54s_775.807ms"),
        (i64::MIN, b"T#-106751991d_4h_54s_775.808ms"),
    ];
    for (micros, text) in texts {
        check(&rt, rt.alloc(), micros, text, None)?;
    }
    Ok(())
}

#[test]
fn a_duration_is_the_whole_of_a_word(rt: HostRuntime) {
    assert!(rt; duration(b"T#1s") == Some(1_000_000));
    assert!(rt; duration(b"") == None);
    assert!(rt; duration(b"T#1s ") == None);
    assert!(rt; duration(b" T#1s") == None);
}
