//! A text with its tokens and its tree.

use crate::chart_text::ChartText;
use sfc_text::tree::Source;

/// A text that was read as this tree.
#[derive(Clone, Copy)]
pub struct TreeText<'a> {
    pub chart: &'a ChartText<'a>,
    pub source: &'a Source,
}
