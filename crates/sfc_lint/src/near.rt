//! Names that differ in one letter (2.1.2).

use std::alloc::{AllocError, Global};

/// The shortest name that is held to others.
const SHORTEST: usize = 4;

/// The most names before one with a like rest that it is held to.
const MOST: usize = 256;

/// The base of the numbers that stand for texts.
const BASE: u64 = 0x0000_0100_0000_01b3;

// How many bytes two names have in common from the front, where case counts for nothing.
fn common_front(one: &[u8], other: &[u8]) -> usize {
    let mut count = 0usize;
    for (a, b) in one.iter().zip(other) {
        if !a.eq_ignore_ascii_case(b) {
            return count;
        }
        count = count.saturating_add(1);
    }
    count
}

// Whether the names are alike behind so many bytes of each.
fn is_same_behind(one: &[u8], other: &[u8], passed: usize, other_passed: usize) -> bool {
    let (Some(one), Some(other)) = (one.get(passed..), other.get(other_passed..)) else {
        return false;
    };
    one.eq_ignore_ascii_case(other)
}

// Whether the byte at the place is a letter, and not the last byte.
fn is_inner_letter(name: &[u8], place: usize) -> bool {
    place.saturating_add(1) < name.len() && name.get(place).is_some_and(u8::is_ascii_alphabetic)
}

// Whether two names differ in one letter alone, which isn't the last one: another letter in its place, or none.
fn are_near(one: &[u8], other: &[u8]) -> bool {
    if one.len() < SHORTEST || other.len() < SHORTEST {
        return false;
    }
    let place = common_front(one, other);
    let next = place.saturating_add(1);
    if one.len() == other.len() {
        return is_inner_letter(one, place)
            && is_inner_letter(other, place)
            && is_same_behind(one, other, next, next);
    }
    if one.len() == other.len().saturating_add(1) {
        return is_inner_letter(one, place) && is_same_behind(one, other, next, place);
    }
    other.len() == one.len().saturating_add(1)
        && is_inner_letter(other, place)
        && is_same_behind(one, other, place, next)
}

/// What is left of a name when a letter is left out, or all of it, as a number; and the place of the name. Names that are near have one
/// such number in common.
#[derive(Clone, Copy)]
struct Rest {
    sum: u64,
    name: usize,
}

// One byte more behind a number.
fn with(sum: u64, power: u64, byte: u8) -> u64 {
    sum.wrapping_add(power.wrapping_mul(u64::from(byte.to_ascii_uppercase())))
}

// The numbers of what stands behind each byte of a name, the last first.
fn sums_behind(alloc: Global, name: &[u8]) -> Result<Vec<u64>, AllocError> {
    let mut sums = Vec::new(alloc);
    let mut sum = 0u64;
    for byte in name.iter().rev() {
        sums.push(sum)?;
        sum = with(sum.wrapping_mul(BASE), 1, *byte);
    }
    Ok(sums)
}

// Puts the rests of the name at a place last.
fn put_rests(
    alloc: Global,
    name: &[u8],
    number: usize,
    rests: &mut Vec<Rest>,
) -> Result<(), AllocError> {
    let sums = sums_behind(alloc, name)?;
    let (mut front, mut power) = (0u64, 1u64);
    for ((place, byte), behind) in name.iter().enumerate().zip(sums.iter().rev()) {
        if is_inner_letter(name, place) {
            let sum = front.wrapping_add(power.wrapping_mul(*behind));
            rests.push(Rest { sum, name: number })?;
        }
        front = with(front, power, *byte);
        power = power.wrapping_mul(BASE);
    }
    rests.push(Rest {
        sum: front,
        name: number,
    })?;
    Ok(())
}

// The rests of names, those with the same number beside one another, and each time in the order of the names.
fn rests_of(alloc: Global, names: &[&[u8]]) -> Result<Vec<Rest>, AllocError> {
    let mut rests = Vec::new(alloc);
    for (number, name) in names.iter().enumerate() {
        if name.len() >= SHORTEST {
            put_rests(alloc, name, number, &mut rests)?;
        }
    }
    rests.sort_by_key(|rest| rest.sum)?;
    Ok(rests)
}

// The first name that is near to a name, by its rest at a place, among those before it with the same number.
fn first_near(names: &[&[u8]], rests: &[Rest], place: usize) -> Option<usize> {
    let rest = *rests.get(place)?;
    let name = *names.get(rest.name)?;
    let before = rests.get(..place)?;
    let mut first = None;
    for other in before.iter().rev().take(MOST) {
        if other.sum != rest.sum {
            return first;
        }
        let other_name = *names.get(other.name)?;
        if other.name < rest.name && are_near(other_name, name) {
            first = Some(other.name);
        }
    }
    first
}

/// Of each name the place of the first before it that differs from it in one letter, if there is one. The one error is that memory was
/// refused.
pub fn nearest(alloc: Global, names: &[&[u8]]) -> Result<Vec<Option<usize>>, AllocError> {
    let rests = rests_of(alloc, names)?;
    let mut firsts: Vec<Option<usize>> = vec![in alloc; None; names.len()]?;
    for (place, rest) in rests.iter().enumerate() {
        let Some(found) = first_near(names, &rests, place) else {
            continue;
        };
        if let Some(first) = firsts.get_mut(rest.name) {
            *first = Some(first.unwrap_or(found).min(found));
        }
    }
    Ok(firsts)
}
