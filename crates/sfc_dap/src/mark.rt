//! Breakpoints as a client asks for them.

use crate::hit_condition::HitCondition;
use serde_json::Value;
use sfc_replay::sfc_script::point::Place;
use sfc_replies::arguments::text_member;
use std::alloc::{AllocError, Global};

/// A point of a mark.
#[derive(Clone, Copy, Debug, PartialEq, Eq)]
pub struct Spot {
    pub place: Place,
    /// How many commands were accepted with the one that set it; 0 where it isn't set.
    pub at: usize,
}

/// A breakpoint as a client asks for it.
#[derive(Drop)]
pub struct Mark {
    /// Its number for the client.
    pub id: u64,
    /// Its line in the chart, counted from 1, if it is one by line.
    pub line: Option<u32>,
    /// The points that it is.
    pub spots: Vec<Spot>,
    /// The text of its condition; nothing where it has none.
    pub condition: String,
    /// Which hits count.
    pub counting: HitCondition,
    /// What is told at a hit, in place of a stop.
    pub message: Option<String>,
    /// How many commands were accepted at each of its hits.
    pub hits: Vec<usize>,
    /// Why it isn't set; nothing where it is.
    pub reason: Vec<u8>,
}

// The text of a member as one of its own; nothing where there is none.
fn text_of(alloc: Global, asked: &Value, name: &str) -> Result<String, AllocError> {
    String::from_str(alloc, text_member(asked, name).unwrap_or(""))
}

// The message of a mark, if it has one.
fn message_of(alloc: Global, asked: &Value) -> Result<Option<String>, AllocError> {
    match text_member(asked, "logMessage") {
        Some("") | None => Ok(None),
        Some(text) => Ok(Some(String::from_str(alloc, text)?)),
    }
}

impl Mark {
    /// What a client asks for, at these points. The one error is that memory was refused; so it is of each call below.
    pub fn of(alloc: Global, id: u64, asked: &Value) -> Result<Mark, AllocError> {
        let mut reason = Vec::new(alloc);
        let counting = match HitCondition::of(text_member(asked, "hitCondition").unwrap_or("")) {
            Some(counting) => counting,
            None => {
                reason.extend_from_slice(b"a hit count is a number, or >=, = or % and a number")?;
                HitCondition::Each
            }
        };
        Ok(Mark {
            id,
            line: None,
            spots: Vec::new(alloc),
            condition: text_of(alloc, asked, "condition")?,
            counting,
            message: message_of(alloc, asked)?,
            hits: Vec::new(alloc),
            reason,
        })
    }

    /// Tells why it isn't set.
    pub fn refuse(&mut self, reason: &[u8]) -> Result<(), AllocError> {
        if self.reason.is_empty() {
            self.reason.extend_from_slice(reason)?;
        }
        Ok(())
    }

    /// It is at these points.
    pub fn put_at(&mut self, places: &[Place]) -> Result<(), AllocError> {
        for place in places {
            self.spots.push(Spot {
                place: *place,
                at: 0,
            })?;
        }
        Ok(())
    }

    /// Whether it is at a point.
    pub fn is_at(&self, place: Place) -> bool {
        self.spots.iter().any(|spot| spot.place == place)
    }

    /// What came behind so many accepted commands is gone.
    pub fn go_back(&mut self, accepted: usize) {
        for spot in self.spots.iter_mut() {
            if spot.at > accepted {
                spot.at = 0;
            }
        }
        self.hits.retain(|hit| *hit <= accepted);
    }
}
