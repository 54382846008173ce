//! Which signals are wanted.

use crate::named::append_whole_name;
use crate::sfc_core::resource::Resource;
use crate::signals::Signals;
use crate::wave_error::WaveError;
use std::alloc::{AllocError, Global};

/// Which signals are wanted, by their numbers.
#[derive(Drop)]
pub struct Picked {
    is_wanted: Vec<bool>,
}

// Whether a name is that of what another one belongs to, whatever the case of letters: `Pump1` of `Pump1.Idle.X`.
fn leads_to(name: &[u8], whole: &[u8]) -> bool {
    match whole.get(..name.len()) {
        Some(front) if front.eq_ignore_ascii_case(name) => whole.get(name.len()) == Some(&b'.'),
        _ => false,
    }
}

impl Picked {
    /// All of so many.
    pub fn all(alloc: Global, count: usize) -> Result<Picked, AllocError> {
        let mut is_wanted = Vec::new(alloc);
        is_wanted.resize(count, true)?;
        Ok(Picked { is_wanted })
    }

    /// Whether a signal is wanted.
    pub fn has(&self, number: usize) -> bool {
        self.is_wanted.get(number) == Some(&true)
    }

    // These are wanted too.
    fn add(&mut self, numbers: &[usize]) {
        for number in numbers {
            if let Some(is_wanted) = self.is_wanted.get_mut(*number) {
                *is_wanted = true;
            }
        }
    }
}

// The numbers of the signals of this name, or of those that belong to what has it.
fn numbers_where(
    alloc: Global,
    resource: &Resource,
    signals: &Signals,
    name: &[u8],
    is_whole: bool,
) -> Result<Vec<usize>, AllocError> {
    let mut whole = Vec::new(alloc);
    let mut numbers = Vec::new(alloc);
    for number in 0..signals.list.len() {
        whole.clear();
        append_whole_name(&mut whole, resource, signals, number)?;
        let is_named = if is_whole {
            whole.eq_ignore_ascii_case(name)
        } else {
            leads_to(name, &whole)
        };
        if is_named {
            numbers.push(number)?;
        }
    }
    Ok(numbers)
}

/// The numbers of the signals to which a name leads, whatever the case of its letters: the one of this name, or where there is none, those
/// that belong to what has the name: `Pump1.Idle` has `Pump1.Idle.X` and `Pump1.Idle.T`. The one error is that memory was refused.
pub fn numbers_of(
    alloc: Global,
    resource: &Resource,
    signals: &Signals,
    name: &[u8],
) -> Result<Vec<usize>, AllocError> {
    let numbers = numbers_where(alloc, resource, signals, name, true)?;
    if numbers.is_empty() {
        numbers_where(alloc, resource, signals, name, false)
    } else {
        Ok(numbers)
    }
}

// None of so many.
fn none(alloc: Global, count: usize) -> Result<Picked, AllocError> {
    let mut is_wanted = Vec::new(alloc);
    is_wanted.resize(count, false)?;
    Ok(Picked { is_wanted })
}

/// The signals to which one of these names leads; all, where no name is given. A name that leads to none is an error.
pub fn pick(
    alloc: Global,
    resource: &Resource,
    signals: &Signals,
    only: &[String],
) -> Result<Picked, WaveError> {
    if only.is_empty() {
        return Ok(Picked::all(alloc, signals.list.len())?);
    }
    let mut picked = none(alloc, signals.list.len())?;
    let mut place = 0usize;
    for name in only {
        let numbers = numbers_of(alloc, resource, signals, name.as_bytes())?;
        if numbers.is_empty() {
            return Err(WaveError::NoSuchSignal(place));
        }
        picked.add(&numbers);
        place = place.saturating_add(1);
    }
    Ok(picked)
}
