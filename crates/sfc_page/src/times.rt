//! Values of type TIME as text (IEC 61131-3:2003, B.1.2.3.1), put behind the first bytes of a slice in which they have room, as `pieces`
//! puts bytes.

ghost use Rattle.std.specs.Prelude.{◌≡◌, ◌+◌, ◌<◌, ◌≤◌, ◌^◌, ◌++◌, codes, length, take};
ghost use Rattle.sfc_base.specs.Durations.{spelling_of};
ghost use Rattle.sfc_base.specs.declared.unit.Unit.TheVariants.{Day};
ghost use Rattle.sfc_base.specs.TimeText as text;
ghost use Rattle.sfc_page.specs.Private.Seconds.{seconds_text};

use crate::digits::{put_long, put_short};
use crate::pieces::put_text;
use sfc_base::unit::Unit;

/// How many bytes the text of a time has at the most.
pub const TIME: usize = 40;

// The units of times, in microseconds.
const SECOND: u32 = 1_000_000;

const MINUTE: u64 = 60_000_000;

const HOUR: u64 = 3_600_000_000;

const DAY: u64 = 86_400_000_000;

// Puts the unit of the milliseconds, with thousandths before it.
#[inline(never)]
fn put_fraction(bytes: &mut [u8], count: usize, thousandths: u32) -> usize
    requires short { thousandths < 1000 }
    requires room { count + 6 ≤ length bytes.old }
    ensures count { result ≤ count + 6 }
    ensures text { take result bytes.new ≡ take count bytes.old ++ text.thousandths thousandths }
{
    let first = b'0' + (thousandths / 100) as u8;
    let second = b'0' + (thousandths / 10 % 10) as u8;
    let third = b'0' + (thousandths % 10) as u8;
    if thousandths == 0 {
        put_text(bytes, count, b"ms")
    } else if thousandths % 100 == 0 {
        put_text(bytes, count, &[b'.', first, b'm', b's'])
    } else if thousandths % 10 == 0 {
        put_text(bytes, count, &[b'.', first, second, b'm', b's'])
    } else {
        put_text(bytes, count, &[b'.', first, second, third, b'm', b's'])
    }
}

// Puts the milliseconds of less than a second.
#[inline(always)]
fn put_milliseconds(bytes: &mut [u8], count: usize, micros: u32) -> usize
    requires short { micros < 1000000 }
    requires room { count + 9 ≤ length bytes.old }
    ensures count { result ≤ count + 9 }
    ensures text { take result bytes.new ≡ take count bytes.old ++ text.milliseconds_text micros }
{
    if micros == 0 {
        return count;
    }
    let milliseconds = micros / 1000;
    let count = put_short(bytes, count, milliseconds);
    let thousandths = micros - milliseconds * 1000;
    if thousandths == 0 {
        return put_text(bytes, count, b"ms");
    }
    put_fraction(bytes, count, thousandths)
}

// Puts the seconds and the milliseconds of less than a minute.
#[tactic(auto, unfolding(crate::specs::Private::Seconds::seconds_text))]
#[inline(always)]
fn put_seconds(bytes: &mut [u8], count: usize, micros: u32) -> usize
    requires short { micros < 60000000 }
    requires room { count + 14 ≤ length bytes.old }
    ensures count { result ≤ count + 14 }
    ensures text { take result bytes.new ≡ take count bytes.old ++ seconds_text micros }
{
    let seconds = micros / SECOND;
    let left = micros % SECOND;
    if seconds == 0 {
        return put_milliseconds(bytes, count, left);
    }
    let count = put_short(bytes, count, seconds);
    if left == 0 {
        return put_text(bytes, count, b"s");
    }
    let count = put_text(bytes, count, b"s_");
    put_milliseconds(bytes, count, left)
}

// Puts a unit, and `_` where more follows.
#[inline(always)]
fn put_unit(bytes: &mut [u8], count: usize, unit: Unit, is_last: bool) -> usize
    requires letter { length (spelling_of unit) ≡ 1 }
    requires room { count + 2 ≤ length bytes.old }
    ensures count { result ≤ count + 2 }
    ensures text { take result bytes.new ≡ take count bytes.old ++ text.unit_text unit is_last }
{
    let count = put_text(bytes, count, unit.spelling());
    if is_last {
        return count;
    }
    put_text(bytes, count, b"_")
}

// Puts the days, and `_` where more follows; nothing of zero.
#[tactic(auto, using(crate::proofs::Decimals::nine_digits))]
fn put_days(bytes: &mut [u8], count: usize, days: u64, is_last: bool) -> usize
    requires few { days < 1000000000 }
    requires room { count + 11 ≤ length bytes.old }
    ensures count { result ≤ count + 11 }
    ensures text { take result bytes.new ≡ take count bytes.old ++ text.part_text days Day is_last }
{
    if days == 0 {
        return count;
    }
    let count = put_long(bytes, count, days);
    put_unit(bytes, count, Unit::Day, is_last)
}

// Puts one part, and `_` where more follows; nothing of zero.
fn put_part(bytes: &mut [u8], count: usize, number: u32, unit: Unit, is_last: bool) -> usize
    requires letter { length (spelling_of unit) ≡ 1 }
    requires short { number < 1000 }
    requires room { count + 5 ≤ length bytes.old }
    ensures count { result ≤ count + 5 }
    ensures text { take result bytes.new ≡ take count bytes.old ++ text.part_text number unit is_last }
{
    if number == 0 {
        return count;
    }
    let count = put_short(bytes, count, number);
    put_unit(bytes, count, unit, is_last)
}

// Puts the parts of a minute and more.
#[inline(never)]
#[tactic(auto, unfolding(sfc_base::specs::TimeText::parts_text, crate::specs::Private::Seconds::seconds_text))]
fn put_parts(bytes: &mut [u8], count: usize, micros: u64) -> usize
    requires limit { micros ≤ 2 ^ 63 }
    requires room { count + 35 ≤ length bytes.old }
    ensures count { result ≤ count + 35 }
    ensures text { take result bytes.new ≡ take count bytes.old ++ text.parts_text text.above_milliseconds micros }
{
    let of_day = micros % DAY;
    let count = put_days(bytes, count, micros / DAY, of_day == 0);
    let hours = (of_day / HOUR) as u32;
    let of_hour = of_day % HOUR;
    let count = put_part(bytes, count, hours, Unit::Hour, of_hour == 0);
    let minutes = (of_hour / MINUTE) as u32;
    let of_minute = of_hour % MINUTE;
    let count = put_part(bytes, count, minutes, Unit::Minute, of_minute == 0);
    put_seconds(bytes, count, of_minute as u32)
}

// Puts the parts without their sign.
#[tactic(auto, using(crate::proofs::TimeTexts::below_minute))]
#[inline(always)]
fn put_magnitude(bytes: &mut [u8], count: usize, micros: u64) -> usize
    requires limit { micros ≤ 2 ^ 63 }
    requires room { count + 35 ≤ length bytes.old }
    ensures count { result ≤ count + 35 }
    ensures text { take result bytes.new ≡ take count bytes.old ++ text.magnitude_text micros }
{
    if micros == 0 {
        return put_text(bytes, count, b"0s");
    }
    if micros < MINUTE {
        return put_seconds(bytes, count, micros as u32);
    }
    put_parts(bytes, count, micros)
}

// Puts the text of a negative time.
#[cold]
#[inline(never)]
fn put_negative(bytes: &mut [u8], count: usize, micros: u64) -> usize
    requires limit { micros ≤ 2 ^ 63 }
    requires room { count + 38 ≤ length bytes.old }
    ensures count { result ≤ count + 38 }
    ensures text { take result bytes.new ≡ take count bytes.old ++ (codes "T#-" ++ text.magnitude_text micros) }
{
    let count = put_text(bytes, count, b"T#-");
    put_magnitude(bytes, count, micros)
}

/// Puts the text of so many microseconds: `T#`, `-` where they are negative, and the nonzero parts of d, h (below 24), m (below 60),
/// s (below 60) and ms (below 1000) joined by `_`; microseconds are a fraction of the ms part without zeros at its end. Zero is `T#0s`.
/// It is fast where they are no negative time and less than a minute.
#[inline(always)]
pub fn put_time(bytes: &mut [u8], count: usize, micros: i64) -> usize
    requires { count + TIME ≤ length bytes.old }
    ensures count { result ≤ count + TIME }
    ensures text { take result bytes.new ≡ take count bytes.old ++ text.time_text micros }
{
    if micros < 0 {
        return put_negative(bytes, count, micros.unsigned_abs());
    }
    let count = put_text(bytes, count, b"T#");
    put_magnitude(bytes, count, micros.unsigned_abs())
}
