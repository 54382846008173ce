//! A script on a chart, and what came of it.

use crate::contents::Run;
use crate::escaped::{append_count, append_element, append_text};
use crate::part::append_picture;
use crate::tally::Tally;
use sfc_page::append::append;
use std::alloc::{AllocError, Global};

// Puts a text that the page reads.
fn append_data(
    out: &mut Vec<u8>,
    kind: &'static [u8],
    place: usize,
    text: &[u8],
) -> Result<(), AllocError> {
    append_element(out, b"<pre hidden id=\"", kind, b"-")?;
    append_count(out, b"", place as u64, b"\">\n")?;
    append_text(out, text)?;
    append(out, b"</pre>\n")
}

impl Run {
    /// Puts the row of the table of runs. The one error is that memory was refused; then a front of it may stand there.
    pub(crate) fn append_row(&self, out: &mut Vec<u8>, name: &[u8]) -> Result<(), AllocError> {
        let tally = Tally::of_replay(&self.replay);
        append_element(out, b"<tr><th scope=\"row\">", name, b"</th>")?;
        append_count(out, b"<td>", tally.commands, b"</td>")?;
        append_count(out, b"<td>", tally.refused, b"</td>")?;
        append_count(out, b"<td>", tally.scans, b"</td>")?;
        append_count(out, b"<td>", tally.hits, b"</td>")?;
        append_count(out, b"<td>", tally.faults, b"</td></tr>\n")
    }

    /// Puts what the page reads of the run at this place. The one error is that memory was refused; then a front of it may stand there.
    pub(crate) fn append_texts(&self, out: &mut Vec<u8>, place: usize) -> Result<(), AllocError> {
        append_data(out, b"replay", place, &self.replay)?;
        append_data(out, b"wave", place, &self.wave)?;
        append_data(out, b"view", place, &self.view)
    }

    /// Puts how the program instances stand behind the script. The one error is that memory was refused; then a front of it may stand there.
    pub(crate) fn append_after(
        &self,
        alloc: Global,
        out: &mut Vec<u8>,
        name: &[u8],
    ) -> Result<(), AllocError> {
        append_element(
            out,
            b"<section class=\"after\"><h3>Behind ",
            name,
            b"</h3>\n",
        )?;
        append_picture(alloc, out, &self.after)?;
        append(out, b"</section>\n")
    }
}
