//! Tasks (2.7.2).

use sfc_base::name::Name;
use sfc_base::references::GlobalId;

/// A task. Each rise of the variable `single` is a release, as is each multiple of the interval, in microseconds from 0
/// to 2^62, 0 for none; a lower priority number goes first.
#[derive(Debug, Drop)]
pub struct Task {
    pub name: Name,
    pub single: Option<GlobalId>,
    pub interval: i64,
    pub priority: u32,
}
