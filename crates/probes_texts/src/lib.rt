//! Tests of what is read and written: tokens, values, times and plants, devices that fail, memory that is refused and tried again.
//!
//! - `broken`: devices that fail.
//! - `devices`, `faults`, `plants`, `retries`, `times`, `tokens`, `values`: tests.
#![tactic(auto)]

#[cfg(test)]
mod broken;
#[cfg(test)]
mod devices;
#[cfg(test)]
mod faults;
#[cfg(test)]
mod plants;
#[cfg(test)]
mod retries;
#[cfg(test)]
mod times;
#[cfg(test)]
mod tokens;
#[cfg(test)]
mod values;

// What lies deeper, under a name of this crate.
use samples::sfc_load;
use sfc_replay::sfc_output::sfc_list;
