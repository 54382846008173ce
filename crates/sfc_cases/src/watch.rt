//! What is watched while a case runs.

use crate::joined::Condition;

/// Up to where a condition is watched.
#[derive(Drop)]
pub enum End {
    /// Up to the end of the case.
    CaseEnds,
    /// Until this condition is TRUE.
    When(Condition),
    /// For so many microseconds of the test's clock.
    After(i64),
}

/// A condition that has to be TRUE, or FALSE, at each moment up to an end.
pub struct Steady {
    /// What it has to be.
    pub wanted: bool,
    pub condition: Condition,
    pub end: End,
}

// By hand, so that a caller that drops one proves one call.
impl Drop for Steady {
    fn drop(self) {
        let Steady {
            wanted: _,
            condition: _,
            end: _,
        } = self;
    }
}

/// A condition that has to be TRUE in time, each time that another becomes so.
pub struct Response {
    /// The one that becomes TRUE.
    pub cause: Condition,
    /// The one that has to be TRUE then.
    pub effect: Condition,
    /// Within so many microseconds of the test's clock.
    pub within: i64,
}

// By hand, so that a caller that drops one proves one call.
impl Drop for Response {
    fn drop(self) {
        let Response {
            cause: _,
            effect: _,
            within: _,
        } = self;
    }
}

/// What is watched.
#[derive(Drop)]
pub enum Watch {
    /// That a condition stays as it has to be.
    Stays(Steady),
    /// That one condition responds to another.
    Responds(Response),
}
