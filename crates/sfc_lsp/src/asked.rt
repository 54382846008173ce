//! What is asked for of a document.

use crate::client::Client;
use crate::companion::Companion;
use crate::documents::Document;
use crate::language::Language;
use crate::params::place_of;
use crate::positions::byte_of;
use serde_json::Value;
use sfc_names::chart::Chart;
use std::alloc::Global;

/// What is asked for of a document that is open, and what its client can show.
#[derive(Clone, Copy)]
pub struct Asked<'a> {
    pub alloc: Global,
    pub client: Client,
    pub uri: &'a str,
    pub document: &'a Document,
    pub params: Option<&'a Value>,
    /// The chart of a script or of tests.
    pub companion: Option<&'a Companion<'a>>,
}

impl<'a> Asked<'a> {
    /// The byte at the place that is asked for.
    pub fn byte(&self) -> Option<usize> {
        let place = place_of(self.params)?;
        Some(byte_of(&self.document.text, &self.document.starts, place))
    }

    /// The chart that the document is; None where it is none, or can't be read.
    pub fn chart(&self) -> Option<&'a Chart> {
        self.document.current()
    }

    /// The chart that was read last: the document, or the one that it is for.
    pub fn last_chart(&self) -> Option<&'a Chart> {
        if self.document.language() == Language::Chart {
            return self.document.chart.as_ref();
        }
        self.companion?.document().chart.as_ref()
    }

    /// The chart that a script or tests are for, where it can be read.
    pub fn other_chart(&self) -> Option<&'a Chart> {
        self.companion?.document().current()
    }
}

/// A byte as charts count them.
pub fn place_in_chart(byte: usize) -> u32 {
    u32::try_from(byte).unwrap_or(u32::MAX)
}
